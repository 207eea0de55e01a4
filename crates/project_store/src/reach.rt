//! What an entity uses, and what that uses in turn.

ghost use Rattle.std.specs.Prelude.{◌≡◌, ℕ, ◌↔◌, IfOk, OnOk, Contains};
ghost use Rattle.std.specs.List.Sorted.{IsStrictlyIncreasing};
ghost use Rattle.entity_types.specs.Entity.{uses_of};
ghost use Rattle.project_store.specs.Inserts.{insert_all, AreMembers, uses_at};
ghost use Rattle.project_store.specs.Reach.{Reaches, IsClosure};

use crate::entities::Entities;
use crate::gathered::Gathered;
use entity_types::Entity;
use nc_base::{NoMemory, Number, NumberList};
use std::alloc::Global;
use std::collections::BTreeSet;

fn insert_all(set: &mut Gathered, numbers: &[Number]) -> Result<(), NoMemory>
    requires { AreMembers set.old.order.items set.old.members }
    ensures order { OnOk result (set.new.order.items ≡ insert_all set.old.order.items numbers.now) }
    ensures members { OnOk result (AreMembers set.new.order.items set.new.members) }
{
    for number in numbers {
        set.insert(*number)?;
    }
    Ok(())
}

fn insert_uses(set: &mut Gathered, entity: &Entity) -> Result<(), NoMemory>
    requires { AreMembers set.old.order.items set.old.members }
    ensures order { OnOk result (set.new.order.items ≡ insert_all set.old.order.items (uses_of entity.now)) }
    ensures members { OnOk result (AreMembers set.new.order.items set.new.members) }
{
    for field in entity.fields.as_slice() {
        insert_all(set, field.references())?;
    }
    Ok(())
}

fn insert_used<E: Entities>(
    set: &mut Gathered,
    entities: &E,
    number: Number,
) -> Result<(), NoMemory>
    requires { AreMembers set.old.order.items set.old.members }
    ensures order { OnOk result (set.new.order.items ≡ insert_all set.old.order.items (uses_at (E.entities entities.now) number)) }
    ensures members { OnOk result (AreMembers set.new.order.items set.new.members) }
{
    match entities.get(number) {
        Some(entity) => insert_uses(set, entity),
        None => Ok(()),
    }
}

/// What is reached from `n`, each once.
fn reached<E: Entities>(
    alloc: Global,
    entities: &E,
    n: Number,
) -> Result<BTreeSet<Number>, NoMemory>
    ensures { IfOk result (λ set. (m : ℕ) → Contains set.keys m ↔ Reaches (E.entities entities.now) n m) }
{
    let mut set = Gathered::new(alloc);
    set.insert(n)?;
    let mut next = 0;
    while next < set.order.len() {
        let number = set.order[next];
        insert_used(&mut set, entities, number)?;
        next += 1;
    }
    Ok(set.members)
}

/// The members of a set in order.
fn listed(alloc: Global, numbers: &BTreeSet<Number>) -> Result<NumberList, NoMemory>
    ensures list { IfOk result (λ list. list ≡ numbers.now.keys) }
    ensures rising { IfOk result IsStrictlyIncreasing }
{
    let mut list = NumberList::new(alloc);
    for number in numbers {
        list.push(*number)?;
    }
    Ok(list)
}

/// The least set that holds `n` and what its members use, in order of number.
pub fn closure<E: Entities>(alloc: Global, entities: &E, n: Number) -> Result<NumberList, NoMemory>
    ensures { IfOk result (IsClosure (E.entities entities.now) n) }
{
    let set = reached(alloc, entities, n)?;
    listed(alloc, &set)
}
