//! The faults of a list of entities.

ghost use Rattle.std.specs.Prelude.{◌≡◌, option_map};
ghost use Rattle.std.specs.List.{list_all};
ghost use Rattle.project_store.specs.Build.{projects_of, count_fault, missing_among, missing_reference, is_of_target, wrong_among, lesser, least_fault, wrong_position};

use crate::error::StoreErr;
use crate::index::Index;
use entity_types::{Entity, Field, Target, UsedPosition, used};
use nc_base::Number;

pub(crate) fn count_fault(entities: &[Entity]) -> Option<StoreErr>
    ensures { result ≡ count_fault (projects_of entities.now) }
{
    let mut seen = false;
    for entity in entities {
        if entity.class.code() == 1 {
            if seen {
                return Some(StoreErr::ManyProjects(entity.number));
            }
            seen = true;
        }
    }
    if seen {
        None
    } else {
        Some(StoreErr::NoProject)
    }
}

fn missing_among(index: &Index, references: &[Number]) -> Option<Number>
    ensures { result ≡ missing_among index.now references.now }
{
    for reference in references {
        if index.get(*reference).is_none() {
            return Some(*reference);
        }
    }
    None
}

fn missing_reference(index: &Index, entity: &Entity) -> Option<Number>
    ensures { result ≡ missing_reference index.now entity.now }
{
    for field in entity.fields.as_slice() {
        if let Some(reference) = missing_among(index, field.references()) {
            return Some(reference);
        }
    }
    None
}

fn are_of_target(index: &Index, target: Target, references: &[Number]) -> bool
    ensures { result ≡ list_all (is_of_target index.now target) references.now }
{
    for reference in references {
        match index.get(*reference) {
            Some(entity) if target.accepts(entity.class) => {}
            _ => return false,
        }
    }
    true
}

fn wrong_among(index: &Index, used: &[UsedPosition], fields: &[Field]) -> Option<u32>
    ensures { result ≡ wrong_among index.now used.now fields.now }
{
    let [used, others @ ..] = used else {
        return None;
    };
    let [field, fields @ ..] = fields else {
        return None;
    };
    if are_of_target(index, used.target, field.references()) {
        wrong_among(index, others, fields)
    } else {
        Some(u32::from(used.position))
    }
}

fn lesser(first: Option<(Number, u32)>, second: Option<(Number, u32)>) -> Option<(Number, u32)>
    ensures { result ≡ lesser first second }
{
    match (first, second) {
        (None, second) => second,
        (Some(first), None) => Some(first),
        (Some(first), Some(second)) => Some(if second.0 < first.0 { second } else { first }),
    }
}

fn numbered(entity: &Entity, fault: Option<u32>) -> Option<(Number, u32)>
    ensures { result ≡ option_map (λ x. (entity.now.number, x)) fault }
{
    fault.map(|x| (entity.number, x))
}

pub(crate) fn least_missing(index: &Index) -> Option<(Number, Number)>
    ensures { result ≡ least_fault (missing_reference index.now) index.now }
{
    let mut least = None;
    for i in 0..index.len() {
        let entity = index.at(i);
        least = lesser(least, numbered(entity, missing_reference(index, entity)));
    }
    least
}

pub(crate) fn least_wrong(index: &Index) -> Option<(Number, u32)>
    ensures { result ≡ least_fault (wrong_position index.now) index.now }
{
    let mut least = None;
    for i in 0..index.len() {
        let entity = index.at(i);
        let position = wrong_among(index, used(entity.class), entity.fields.as_slice());
        least = lesser(least, numbered(entity, position));
    }
    least
}
