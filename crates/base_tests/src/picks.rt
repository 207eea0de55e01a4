//! The picks of nodes, beside plain lists of them.

ghost use Rattle.std.specs.Prelude.{◌≡◌, ◌<◌, ℕ, length, slice_index};

use crate::expected::expect;
use pick_set::PickSet;
use std::process::Abort;
use std::test::Fail;

/// How many elements the nodes at three places have.
const ROOMS: [u32; 3] = [3, 0, 5];

/// Picks in turn, by place and index: one that was made already begins a new turn of its node. The last node takes its elements from behind, in
/// order, and across, all of them and some; the first node picks among these.
const PICKS: [(u32, u32); 22] = [
    (2, 4),
    (2, 3),
    (0, 1),
    (2, 2),
    (2, 1),
    (2, 0),
    (0, 0),
    (2, 0),
    (2, 1),
    (2, 2),
    (2, 3),
    (2, 4),
    (0, 2),
    (2, 4),
    (2, 0),
    (2, 3),
    (2, 1),
    (0, 2),
    (2, 1),
    (2, 3),
    (0, 1),
    (0, 0),
];

fn expect_picks(rt: &impl Abort, set: &PickSet, place: u32, list: &[u32], room: u32)
    requires there { place < length set.now.made }
    requires few { room < 100 }
{
    expect(rt, set.count(place) as usize, list.len());
    let left = (0..room).find(|k| !list.contains(k));
    expect(rt, set.next(place), left.unwrap_or(room));
    for k in 0..room + 1 {
        expect(rt, set.has(place, k), list.contains(&k));
    }
}

fn pick(set: &mut PickSet, list: &mut Vec<u32>, place: u32, index: u32) -> Result<(), Fail>
    requires there { place < length set.old.made }
    requires within { index < slice_index set.old.rooms place }
    ensures rooms { set.new.rooms ≡ set.old.rooms }
    ensures long { length set.new.made ≡ length set.old.made }
{
    if set.has(place, index) {
        set.clear(place);
        list.clear();
    }
    set.add(place, index);
    list.push(index)?;
    Ok(())
}

#[test]
fn picks_are_those_of_lists(rt: HostRuntime) -> Result<(), Fail> {
    let mut set = PickSet::new(rt.alloc(), &ROOMS)?;
    let mut first = Vec::new(rt.alloc());
    let mut last = Vec::new(rt.alloc());
    for (place, index) in PICKS {
        assert!(&rt; place < 3);
        assert!(&rt; index < ROOMS[place as usize]);
        if place == 0 {
            pick(&mut set, &mut first, place, index)?;
        } else {
            pick(&mut set, &mut last, place, index)?;
        }
        expect_picks(&rt, &set, 0, first.as_slice(), 3);
        expect_picks(&rt, &set, 1, &[], 0);
        expect_picks(&rt, &set, 2, last.as_slice(), 5);
    }
    Ok(())
}
