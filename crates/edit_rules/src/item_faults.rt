//! What keeps the items of an edit from being put: their classes and their references (this profile's rules J1, J2 and J3). Each rule looks
//! at the items alone, and at each reference of theirs once.

ghost use Rattle.std.specs.Prelude.{◌≡◌};
ghost use Rattle.std.specs.List.{list_all};
ghost use Rattle.project_store.specs.Entities.{entity_at};
ghost use Rattle.edit_rules.specs.Judge.{first_given, is_of_program, is_replaceable, class_fault_by, class_fault, missing_among, missing_reference, missing_fault, is_of_target, wrong_among, kind_fault};

use entity_types::{Class, Entity, Field, Target, UsedPosition, used};
use nc_base::{Number, Verdict};
use project_store::{Entities, Store};

/// Whether a run is made of entities of this class. No edit adds one.
fn is_of_program(class: Class) -> bool
    ensures { result ≡ is_of_program class }
{
    class.is_between(Class::Project, Class::NcProduct)
}

/// Whether an edit may put an entity of this class again.
fn is_replaceable(class: Class) -> bool
    ensures { result ≡ is_replaceable class }
{
    class.code() == Class::MachiningWorkingstep.code() || !is_of_program(class)
}

/// The code of the class that keeps the item from being put into the store, if one does.
fn faulty_class(store: &Store, item: &Entity) -> Option<u8>
    ensures { result ≡ class_fault_by (entity_at store.now item.now.number) item.now }
{
    match store.get(item.number) {
        None => {
            if is_of_program(item.class) {
                Some(item.class.code())
            } else {
                None
            }
        }
        Some(old) => {
            if is_replaceable(old.class) && old.class.code() == item.class.code() {
                None
            } else {
                Some(old.class.code())
            }
        }
    }
}

fn class_fault(store: &Store, item: &Entity) -> Option<Verdict>
    ensures { result ≡ class_fault (entity_at store.now) item.now }
{
    match faulty_class(store, item) {
        Some(class) => Some(Verdict::Refused {
            code: 1,
            a: item.number,
            b: u32::from(class),
        }),
        None => None,
    }
}

/// The first item whose class keeps it from being put into the store, by J1: its number, and the code of the class that stands there, or of
/// its own where none does.
pub fn first_class_fault(store: &Store, items: &[Entity]) -> Option<Verdict>
    ensures { result ≡ first_given (class_fault (entity_at store.now)) items.now }
{
    for item in items {
        if let Some(verdict) = class_fault(store, item) {
            return Some(verdict);
        }
    }
    None
}

fn missing_among<E: Entities>(entities: &E, references: &[Number]) -> Option<Number>
    ensures { result ≡ missing_among (E.entities entities.now) references.now }
{
    for reference in references {
        if entities.get(*reference).is_none() {
            return Some(*reference);
        }
    }
    None
}

fn missing_reference<E: Entities>(entities: &E, fields: &[Field]) -> Option<Number>
    ensures { result ≡ missing_reference (E.entities entities.now) fields.now }
{
    for field in fields {
        if let Some(reference) = missing_among(entities, field.references()) {
            return Some(reference);
        }
    }
    None
}

fn missing_fault<E: Entities>(entities: &E, item: &Entity) -> Option<Verdict>
    ensures { result ≡ missing_fault (E.entities entities.now) item.now }
{
    match missing_reference(entities, item.fields.as_slice()) {
        Some(reference) => Some(Verdict::Refused {
            code: 2,
            a: item.number,
            b: reference,
        }),
        None => None,
    }
}

/// The first item with a used reference that names none of these entities, by J2: its number, and its first such reference.
pub fn first_missing_fault<E: Entities>(entities: &E, items: &[Entity]) -> Option<Verdict>
    ensures { result ≡ first_given (missing_fault (E.entities entities.now)) items.now }
{
    for item in items {
        if let Some(verdict) = missing_fault(entities, item) {
            return Some(verdict);
        }
    }
    None
}

fn are_of_target<E: Entities>(entities: &E, target: Target, references: &[Number]) -> bool
    ensures { result ≡ list_all (is_of_target (E.entities entities.now) target) references.now }
{
    for reference in references {
        match entities.get(*reference) {
            Some(entity) if target.accepts(entity.class) => {}
            _ => return false,
        }
    }
    true
}

fn wrong_among<E: Entities>(entities: &E, used: &[UsedPosition], fields: &[Field]) -> Option<u32>
    ensures { result ≡ wrong_among (E.entities entities.now) used.now fields.now }
{
    let [used, others @ ..] = used else {
        return None;
    };
    let [field, fields @ ..] = fields else {
        return None;
    };
    if are_of_target(entities, used.target, field.references()) {
        wrong_among(entities, others, fields)
    } else {
        Some(u32::from(used.position))
    }
}

fn kind_fault<E: Entities>(entities: &E, item: &Entity) -> Option<Verdict>
    ensures { result ≡ kind_fault (E.entities entities.now) item.now }
{
    match wrong_among(entities, used(item.class), item.fields.as_slice()) {
        Some(position) => Some(Verdict::Refused {
            code: 3,
            a: item.number,
            b: position,
        }),
        None => None,
    }
}

/// The first item with a used reference that isn't of its position's target, by J3: its number, and its first such position.
pub fn first_kind_fault<E: Entities>(entities: &E, items: &[Entity]) -> Option<Verdict>
    ensures { result ≡ first_given (kind_fault (E.entities entities.now)) items.now }
{
    for item in items {
        if let Some(verdict) = kind_fault(entities, item) {
            return Some(verdict);
        }
    }
    None
}
