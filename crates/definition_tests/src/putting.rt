//! Items put into a store, and an overlay of many items. The items are constants: these refer to nothing, so that it is seen at a glance
//! that they may be put.

ghost use Rattle.std.specs.Prelude.{◌≡◌, [], IsTrue, IfOk};
ghost use Rattle.entity_types.specs.declared.entity.Entity.{Entity};
ghost use Rattle.entity_types.specs.Entity.{uses_of};
ghost use Rattle.project_store.specs.Entities.{entity_at};
ghost use Rattle.project_store.specs.Putting.{CanPut};

use crate::entities::entity;
use crate::store::store;
use entity_types::{Class, Entity, EntityList, Field, FieldList};
use nc_base::{NoMemory, Number};
use project_store::{Entities, Overlay, Store, put_keeps_a_store};
use std::alloc::Global;
use std::process::Abort;
use std::test::Fail;

fn is_constant(entity: &Entity) -> bool
    ensures { IsTrue result → entity.now.class ≡ Class.NcConstant }
{
    matches!(entity.class, Class::NcConstant)
}

/// Whether the item is a constant that refers to nothing, and is new or takes the place of a constant.
fn fits(alloc: Global, store: &Store, item: &Entity) -> Result<bool, NoMemory>
    ensures constant { IfOk result (λ fits. IsTrue fits → item.now.class ≡ Class.NcConstant) }
    ensures nothing { IfOk result (λ fits. IsTrue fits → uses_of item.now ≡ []) }
    ensures old { IfOk result (λ fits. IsTrue fits → (old : Entity) → entity_at store.now item.now.number ≡ Some old → old.class ≡ Class.NcConstant) }
{
    if !is_constant(item) || !item.uses(alloc)?.is_empty() {
        return Ok(false);
    }
    Ok(match store.get(item.number) {
        Some(old) => is_constant(old),
        None => true,
    })
}

/// Whether each of the items is such a one.
pub fn can_be_put(alloc: Global, store: &Store, items: &EntityList) -> Result<bool, NoMemory>
    ensures { IfOk result (λ can. IsTrue can → CanPut store.now items.now) }
{
    for i in 0..items.len() {
        if !fits(alloc, store, items.at(i))? {
            return Ok(false);
        }
    }
    Ok(true)
}

fn put(rt: &impl Abort, alloc: Global, store: &mut Store, texts: &[&str]) -> Result<(), Fail> {
    let mut items = EntityList::new(alloc);
    for text in texts {
        items.push(entity(rt, alloc, *text)?)?;
    }
    let can = can_be_put(alloc, store, &items)?;
    assert!(rt; can, "these items may not be put");
    let put = store.put(items).is_ok();
    assert!(rt; put, "memory ran out");
    Ok(())
}

/// The value of a constant, in thousandths.
fn value(entity: &Entity) -> Option<i64> {
    match entity.field(2) {
        Some(Field::Value(value)) => Some(*value),
        _ => None,
    }
}

/// The numbers in order, and the value of each that is a constant.
fn expect(rt: &impl Abort, store: &Store, want: &[(Number, Option<i64>)]) {
    assert_eq!(rt; store.len(), want.len());
    for i in 0..want.len() {
        let entity = store.at(i);
        assert_eq!(rt; (entity.number, value(entity)), want[i]);
        assert_eq!(rt; store.place_of(entity.number), Some(i));
    }
}

const OPENING: &str =
    "#9=NC_CONSTANT('a',1.);#1=PROJECT('',#2);#2=WORKPLAN('',(),$);#5=NC_CONSTANT('b',2.);";

/// One in place, two new ones, of which one comes twice, and one in place.
const FIRST: [&str; 5] = [
    "#5=NC_CONSTANT('b',3.);",
    "#7=NC_CONSTANT('c',4.);",
    "#3=NC_CONSTANT('d',5.);",
    "#7=NC_CONSTANT('c',6.);",
    "#9=NC_CONSTANT('a',7.);",
];

/// One that was there at first, one that was added, and two new ones about it.
const SECOND: [&str; 4] = [
    "#8=NC_CONSTANT('e',8.);",
    "#7=NC_CONSTANT('c',9.);",
    "#9=NC_CONSTANT('a',10.);",
    "#6=NC_CONSTANT('f',11.);",
];

#[test]
fn items_are_put_in_place_or_at_the_end(rt: HostRuntime) -> Result<(), Fail> {
    let mut store = store(&rt, rt.alloc(), OPENING)?;
    store.reserve(2)?;
    put(&rt, rt.alloc(), &mut store, &FIRST)?;
    expect(
        &rt,
        &store,
        &[
            (9, Some(7_000)),
            (1, None),
            (2, None),
            (5, Some(3_000)),
            (7, Some(6_000)),
            (3, Some(5_000)),
        ],
    );
    put(&rt, rt.alloc(), &mut store, &SECOND)?;
    expect(
        &rt,
        &store,
        &[
            (9, Some(10_000)),
            (1, None),
            (2, None),
            (5, Some(3_000)),
            (7, Some(9_000)),
            (3, Some(5_000)),
            (8, Some(8_000)),
            (6, Some(11_000)),
        ],
    );
    assert_eq!(&rt; store.place_of(4), None);
    put_keeps_a_store();
    Ok(())
}

/// Notes of the numbers 1,000 down to 501, and the same numbers again as marks.
fn thousand(alloc: Global) -> Result<EntityList, NoMemory> {
    let mut items = EntityList::new(alloc);
    for i in 0..500 {
        items.push(Entity {
            number: 1_000 - i,
            class: Class::Note,
            fields: FieldList::new(alloc),
        })?;
    }
    for i in 0..500 {
        items.push(Entity {
            number: 1_000 - i,
            class: Class::SetMark,
            fields: FieldList::new(alloc),
        })?;
    }
    Ok(items)
}

fn class_at(overlay: &Overlay, number: Number) -> Option<Class> {
    match overlay.get(number) {
        Some(entity) => Some(entity.class),
        None => None,
    }
}

/// Of each number the later item is found, and beside them what the store has.
#[test]
fn an_overlay_of_a_thousand_items_finds_each(rt: HostRuntime) -> Result<(), Fail> {
    let store = store(&rt, rt.alloc(), OPENING)?;
    let items = thousand(rt.alloc())?;
    let overlay = Overlay::new(rt.alloc(), &store, &items)?;
    for number in 501..=1_000 {
        assert_eq!(&rt; class_at(&overlay, number), Some(Class::SetMark));
    }
    assert_eq!(&rt; class_at(&overlay, 1), Some(Class::Project));
    assert_eq!(&rt; class_at(&overlay, 500), None);
    assert_eq!(&rt; class_at(&overlay, 1_001), None);
    Ok(())
}
