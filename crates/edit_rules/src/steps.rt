//! The definitions of a tree's workingsteps.

ghost use Rattle.std.specs.Prelude.{◌≡◌, ◌≤◌, true, length, IsTrue};
ghost use Rattle.std.specs.List.{AllAdjacentBelow, list_all};
ghost use Rattle.project_store.specs.Entities.{entity_at};
ghost use Rattle.step_def.specs.Condition.{is_workingstep};
ghost use Rattle.edit_rules.specs.Steps.{AreSteps, IsLeastFirst};

use crate::error::ProjErr;
use nc_base::{Number, Steps};
use path_blocks::Step;
use project_store::Store;
use std::alloc::Global;
use std::marker::Brand;
use std::sync::ledger::{Blank, Ledger};
use step_def::resolve;

/// Whether no number is below the one before it.
fn are_ordered(numbers: &[Number]) -> bool
    ensures { IsTrue result → AllAdjacentBelow (λ x y. x ≤ y) numbers.now (length numbers.now) }
{
    numbers.windows(2).all(|pair| pair[0] <= pair[1])
}

/// The steps of these workingsteps, of which the first with a fault is the least. Behind it none is looked at.
fn steps_in_order<L: Ledger>(
    alloc: Global,
    store: &Store,
    numbers: &[Number],
    counter: &mut Steps<L>,
) -> Result<Vec<Step>, ProjErr>
    requires workingsteps { list_all (is_workingstep (entity_at store.now)) numbers.now ≡ true }
    requires least_first { IsLeastFirst store.now numbers.now }
    ensures { AreSteps store.now numbers.now result }
{
    let mut steps = Vec::with_capacity(alloc, numbers.len())?;
    for n in numbers {
        match resolve(store, *n, counter) {
            Ok(def) => steps.push(Step { number: *n, def })?,
            Err(fault) => {
                return Err(ProjErr::Definition(*n, fault));
            }
        }
    }
    Ok(steps)
}

/// The steps of these workingsteps. Where they don't stand in order of number, their definitions are first looked up in that order, so that
/// the least fault is found before anything behind it is looked at.
fn steps_counted<L: Ledger>(
    alloc: Global,
    store: &Store,
    numbers: &[Number],
    blank: Blank,
) -> Result<Vec<Step>, ProjErr>
    requires name { blank.name ≡ L.name }
    requires parts { blank.parts ≡ L.parts }
    requires one { blank.parts ≡ 1 }
    requires workingsteps { list_all (is_workingstep (entity_at store.now)) numbers.now ≡ true }
    ensures { AreSteps store.now numbers.now result }
{
    let (book, share) = blank.open::<L>();
    let mut counter = Steps::new(book, share);
    if are_ordered(numbers) {
        return steps_in_order(alloc, store, numbers, &mut counter);
    }
    let mut ordered = Vec::from_slice(alloc, numbers)?;
    ordered.sort()?;
    steps_in_order(alloc, store, ordered.as_slice(), &mut counter)?;
    steps_in_order(alloc, store, numbers, &mut counter)
}

/// The steps of these workingsteps with their definitions.
pub fn steps_of(alloc: Global, store: &Store, numbers: &[Number]) -> Result<Vec<Step>, ProjErr>
    requires { list_all (is_workingstep (entity_at store.now)) numbers.now ≡ true }
    ensures { AreSteps store.now numbers.now result }
{
    steps_counted::<Brand>(alloc, store, numbers, Blank::new(1))
}
