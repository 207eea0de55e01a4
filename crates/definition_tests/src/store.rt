//! Stores: what `Store::build` makes of a list, and what a store gives. Lists are written as instances of a file.

ghost use Rattle.std.specs.Prelude.{◌≡◌, IfOk};
ghost use Rattle.project_store.specs.Entities.{numbers_of};

use crate::entities::{entities, entity};
use entity_types::{Entity, EntityList};
use nc_base::{Number, are_distinct};
use project_store::{Entities, Overlay, Store, StoreErr, closure, least_faults};
use std::alloc::{AllocError, Global};
use std::process::Abort;
use std::test::Fail;

/// The numbers of entities, in their order.
fn numbers(alloc: Global, all: &[Entity]) -> Result<Vec<Number>, AllocError>
    ensures { IfOk result (λ numbers. numbers.items ≡ numbers_of all.now) }
{
    all.iter().map(|entity| entity.number).collect(alloc)
}

/// What the instances of a text are built to.
fn built(rt: &impl Abort, alloc: Global, text: &str) -> Result<Result<Store, StoreErr>, Fail> {
    let all = entities(rt, alloc, text)?;
    let numbers = numbers(alloc, all.as_slice())?;
    let distinct = are_distinct(alloc, numbers.as_slice())?;
    assert!(rt; distinct, "a number stands twice");
    Ok(Store::build(alloc, all))
}

/// The store of a text of instances.
pub fn store(rt: &impl Abort, alloc: Global, text: &str) -> Result<Store, Fail> {
    Ok(built(rt, alloc, text)??)
}

fn expect_fault(rt: &impl Abort, alloc: Global, text: &str, want: StoreErr) -> Result<(), Fail> {
    let fault = built(rt, alloc, text)?.err();
    assert_eq!(rt; fault, Some(want));
    Ok(())
}

/// The third stands first in the file. The least number counts, then the place in a list, and what is missing comes before what is of the
/// wrong kind.
const FAULTS: [(&str, StoreErr); 7] = [
    (
        "#9=RAPID_MOVEMENT('');#1=RAPID_MOVEMENT('');#2=RAPID_MOVEMENT('');",
        StoreErr::NoProject,
    ),
    (
        "#9=PROJECT('',#2);#1=PROJECT('',#2);#2=WORKPLAN('',(),$);",
        StoreErr::ManyProjects(1),
    ),
    (
        "#9=PLANE('',#77);#1=PROJECT('',#66);#2=WORKPLAN('',(),$);",
        StoreErr::Unresolved(1, 66),
    ),
    (
        "#9=RAPID_MOVEMENT('');#1=PROJECT('',#9);#2=WORKPLAN('',(),$);",
        StoreErr::WrongKind(1, 2),
    ),
    (
        "#9=PLANE('',#77);#1=PROJECT('',#2);#2=WORKPLAN('',(#2,#66,#55),$);",
        StoreErr::Unresolved(2, 66),
    ),
    (
        "#9=PLANE('',#77);#1=PROJECT('',#9);#2=WORKPLAN('',(#9),$);",
        StoreErr::Unresolved(9, 77),
    ),
    (
        "#9=PLANE('',#1);#1=WORKPLAN('',(#9),$);#2=PROJECT('',#1);",
        StoreErr::WrongKind(1, 2),
    ),
];

#[test]
fn first_faults_are_told(rt: HostRuntime) -> Result<(), Fail> {
    for (text, want) in &FAULTS {
        expect_fault(&rt, rt.alloc(), *text, *want)?;
    }
    Ok(())
}

#[test]
fn laws_of_stores_can_be_cited() {
    least_faults();
}

const THREE: &str = "#9=PLANE('',#9);#1=PROJECT('',#2);#2=WORKPLAN('',(),$);";

fn expect_closure(rt: &impl Abort, alloc: Global, n: Number, want: &[Number]) -> Result<(), Fail> {
    let store = store(rt, alloc, THREE)?;
    let reached = store.closure(alloc, n)?;
    assert_eq!(rt; reached.as_slice(), want);
    Ok(())
}

#[test]
fn what_is_used_is_reached(rt: HostRuntime) -> Result<(), Fail> {
    expect_closure(&rt, rt.alloc(), 9, &[9])?;
    expect_closure(&rt, rt.alloc(), 1, &[1, 2])
}

#[test]
fn a_copy_is_equal(rt: HostRuntime) -> Result<(), Fail> {
    let store = store(&rt, rt.alloc(), THREE)?.copy(rt.alloc())?;
    assert_eq!(&rt; store.len(), 3);
    assert_eq!(&rt; store.project().number, 1);
    Ok(())
}

fn expect_overlay(
    rt: &impl Abort,
    alloc: Global,
    store: &Store,
    items: &EntityList,
) -> Result<(), Fail> {
    let overlay = Overlay::new(alloc, store, items)?;
    let reached = closure(alloc, &overlay, 3)?;
    assert_eq!(rt; reached.as_slice(), [1, 2, 3, 9].as_slice());
    Ok(())
}

/// Planes 9 and 3, and 9 again.
const PUT: [&str; 3] = ["#9=PLANE('',#2);", "#3=PLANE('',#9);", "#9=PLANE('',#1);"];

#[test]
fn the_later_item_stands(rt: HostRuntime) -> Result<(), Fail> {
    let mut items = EntityList::new(rt.alloc());
    for text in PUT {
        items.push(entity(&rt, rt.alloc(), text)?)?;
    }
    let store = store(&rt, rt.alloc(), THREE)?;
    expect_overlay(&rt, rt.alloc(), &store, &items)
}

/// Numbers that rise without a gap, with gaps, and that don't rise; each with a number that isn't there.
const ORDERS: [(&str, [Number; 4], Number); 5] = [
    (
        "#1=PROJECT('',#2);#2=WORKPLAN('',(),$);#3=PLANE('',#2);#4=PLANE('',#3);",
        [1, 2, 3, 4],
        5,
    ),
    (
        "#5=PROJECT('',#6);#6=WORKPLAN('',(),$);#7=PLANE('',#6);#8=PLANE('',#7);",
        [5, 6, 7, 8],
        4,
    ),
    (
        "#10=PROJECT('',#20);#20=WORKPLAN('',(),$);#21=PLANE('',#20);#2147483647=PLANE('',#21);",
        [10, 20, 21, 2_147_483_647],
        22,
    ),
    (
        "#2147483647=PLANE('',#7);#7=PLANE('',#3);#3=PROJECT('',#2);#2=WORKPLAN('',(),$);",
        [2_147_483_647, 7, 3, 2],
        1,
    ),
    (
        "#9=WORKPLAN('',(),$);#1=PROJECT('',#9);#1000000=PLANE('',#1);#3=PLANE('',#1);",
        [9, 1, 1_000_000, 3],
        2,
    ),
];

fn found(store: &Store, number: Number) -> Option<Number> {
    match store.get(number) {
        Some(entity) => Some(entity.number),
        None => None,
    }
}

fn expect_found(
    rt: &impl Abort,
    alloc: Global,
    text: &str,
    numbers: &[Number],
    other: Number,
) -> Result<(), Fail> {
    let store = store(rt, alloc, text)?;
    for number in numbers {
        assert_eq!(rt; found(&store, *number), Some(*number));
    }
    assert_eq!(rt; found(&store, other), None);
    Ok(())
}

#[test]
fn each_number_is_found(rt: HostRuntime) -> Result<(), Fail> {
    for (text, numbers, other) in &ORDERS {
        expect_found(&rt, rt.alloc(), *text, numbers, *other)?;
    }
    Ok(())
}
