ghost use Rattle.std.specs.Prelude.{◌≡◌};

use crate::expected::expect;
use nc_base::*;
use std::alloc::Global;
use std::marker::Brand;
use std::process::Abort;
use std::sync::ledger::{Blank, Ledger};
use std::test::Fail;

fn expect_items(rt: &impl Abort, list: &ItemList<u64>, want: &[u64]) {
    assert_eq!(rt; list.len() as usize, want.len());
    assert_eq!(rt; list.as_slice(), want);
}

fn items_grow_and_shrink(rt: &impl Abort, alloc: Global) -> Result<(), Fail> {
    let mut list: ItemList<u64> = ItemList::with_capacity(alloc, 1)?;
    assert!(rt; list.is_empty());
    list.push(7)?;
    list.push(9)?;
    expect(rt, *list.at(1), 9);
    expect_items(rt, &list, &[7, 9]);
    for want in [Some(9), Some(7), None] {
        expect(rt, list.pop(), want);
    }
    expect_items(rt, &ItemList::new(alloc), &[]);
    Ok(())
}

fn items_are_handed_on(rt: &impl Abort, alloc: Global) -> Result<(), Fail> {
    let mut list: ItemList<u64> = ItemList::new(alloc);
    list.push(7)?;
    list.push(9)?;
    let items = list.into_vec();
    expect(rt, items.len(), 2);
    expect_items(rt, &ItemList::of(items), &[7, 9]);
    Ok(())
}

fn numbers_grow_and_shrink(rt: &impl Abort, alloc: Global) -> Result<(), Fail> {
    let mut numbers = NumberList::new(alloc);
    numbers.push(MAX_NUMBER)?;
    expect(rt, numbers.as_slice(), [2_147_483_647].as_slice());
    expect(rt, numbers.at(0), 2_147_483_647);
    expect(rt, numbers.pop(), Some(2_147_483_647));
    assert!(rt; numbers.is_empty());
    Ok(())
}

#[test]
fn lists_grow_and_shrink(rt: HostRuntime) -> Result<(), Fail> {
    items_grow_and_shrink(&rt, rt.alloc())?;
    items_are_handed_on(&rt, rt.alloc())?;
    numbers_grow_and_shrink(&rt, rt.alloc())
}

#[test]
fn texts_hold_their_bytes(rt: HostRuntime) -> Result<(), Fail> {
    let mut text = NcText::of(rt.alloc(), b"a\xff")?;
    text.push(b'c')?;
    expect(&rt, text.bytes(), b"a\xffc".as_slice());
    expect(&rt, text.len(), 3);
    expect(&rt, text.pop(), Some(b'c'));
    assert!(rt; NcText::new(rt.alloc()).is_empty());
    Ok(())
}

// A text of these bytes grows by two bytes and gives them back.
fn expect_text(rt: &impl Abort, alloc: Global, bytes: &[u8]) -> Result<(), Fail> {
    let mut text = NcText::of(alloc, bytes)?;
    expect(rt, text.bytes(), bytes);
    text.push(b'A')?;
    text.push(b'B')?;
    expect(rt, text.pop(), Some(b'B'));
    expect(rt, text.len() as usize, bytes.len() + 1);
    expect(rt, text.pop(), Some(b'A'));
    expect(rt, text.bytes(), bytes);
    Ok(())
}

#[test]
fn texts_hold_few_bytes_and_many(rt: HostRuntime) -> Result<(), Fail> {
    let bytes = b"MACHINING_WORKINGSTEP".as_slice();
    for len in [0, 1, 15, 16, 17, 21] {
        expect_text(&rt, rt.alloc(), &bytes[..len])?;
    }
    Ok(())
}

fn count_two<L: Ledger>(blank: Blank)
    requires name { blank.name ≡ L.name }
    requires parts { blank.parts ≡ L.parts }
    requires one { blank.parts ≡ 1 }
{
    let (book, share) = blank.open::<L>();
    let mut steps = Steps::new(book, share);
    steps.tick();
    steps.tick();
}

#[test]
fn counters_take_no_bytes(rt: HostRuntime) {
    count_two::<Brand>(Blank::new(1));
    expect(&rt, std::mem::size_of::<Steps<Brand>>(), 0);
}

#[test]
fn numbers_are_told_apart(rt: HostRuntime) -> Result<(), Fail> {
    for (numbers, want) in [
        ([].as_slice(), true),
        (&[3, 1, 2_147_483_647, 2], true),
        (&[3, 1, 2, 3], false),
        (&[1, 2, 3], true),
        (&[1, 2, 2], false),
    ] {
        expect(&rt, are_distinct(rt.alloc(), numbers)?, want);
    }
    Ok(())
}

#[test]
fn lines_hold_words(rt: HostRuntime) {
    let mut line = Line::new();
    put(&mut line, b"D");
    put_number(&mut line, 10);
    put_number(&mut line, 0);
    put_number(&mut line, u32::MAX);
    expect(&rt, line.as_slice(), b"D 10 0 4294967295".as_slice());
}
