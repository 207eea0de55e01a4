//! Sets of places, beside plain lists of them.

ghost use Rattle.std.specs.Prelude.{◌<◌};

use crate::expected::expect;
use place_set::{MAX_PLACES, PlaceSet};
use std::process::Abort;
use std::test::Fail;

/// Places in turn: each goes in where it is out, and out where it is in. They lie at the ends of the words of each level.
const TURNS: [u32; 36] = [
    262_143, 64, 63, 0, 64, 4_096, 4_095, 0, 63, 63, 4_095, 4_159, 4_160, 4_096, 4_159, 63, 4_160,
    262_143, 65_472, 65_471, 258_048, 258_047, 65_472, 258_047, 65_471, 258_048, 65_535, 65_536,
    128, 1, 65_535, 128, 65_536, 1, 2, 2,
];

fn expect_place(rt: &impl Abort, set: &PlaceSet, list: &[u32], place: u32) {
    assert!(rt; place < MAX_PLACES);
    expect(rt, set.contains(place), list.contains(&place));
}

fn expect_least(rt: &impl Abort, set: &PlaceSet, list: &[u32]) {
    expect(rt, set.is_empty(), list.is_empty());
    expect(rt, set.first(), list.iter().copied().min());
}

fn expect_next(rt: &impl Abort, set: &PlaceSet, list: &[u32], place: u32) {
    let next = list.iter().copied().filter(|p| *p >= place).min();
    expect(rt, set.first_from(place), next);
}

fn turn(set: &mut PlaceSet, list: &mut Vec<u32>, place: u32) -> Result<(), Fail>
    requires { place < MAX_PLACES }
{
    if set.contains(place) {
        set.remove(place);
        list.retain(|p| *p != place);
    } else {
        set.insert(place);
        list.push(place)?;
    }
    Ok(())
}

#[test]
fn sets_hold_what_lists_hold(rt: HostRuntime) -> Result<(), Fail> {
    let mut set = PlaceSet::new();
    let mut list = Vec::new(rt.alloc());
    for place in TURNS {
        assert!(&rt; place < MAX_PLACES);
        turn(&mut set, &mut list, place)?;
        for other in TURNS {
            expect_place(&rt, &set, &list, other);
            expect_next(&rt, &set, &list, other);
        }
        expect_least(&rt, &set, &list);
        expect_next(&rt, &set, &list, MAX_PLACES);
    }
    assert!(&rt; set.is_empty());
    Ok(())
}
