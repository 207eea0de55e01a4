//! A set of workingsteps.

ghost use Rattle.std.specs.Prelude.{◌≡◌, ◌↔◌, [], IsTrue, IfOk, Contains};

use crate::step_order::StepOrder;
use nc_base::{NoMemory, Number};
use std::alloc::Global;
use std::marker::Model;

/// A set of workingsteps of a tree. It keeps room for each of them, so that adding one takes no memory. Contracts see the steps that it
/// has room for, and its members.
#[derive(Drop)]
pub struct StepSet {
    order: StepOrder,
    marks: Vec<bool>,
}

impl Model for StepSet {
    ghost use Rattle.std.specs.Prelude.{◌≡◌, length};
    ghost use Rattle.project_versions.specs.StepSet.{SomeSteps, marked};

    ghost Value = { SomeSteps };

    ghost view = { λ a. record { steps = a.order.steps; members = marked a.order.order a.marks.items } };

    ghost invariant = { λ a. length a.marks.items ≡ length a.order.order };
}

impl StepSet {
    ghost use Rattle.project_versions.specs.StepSet.{Adds};

    /// The empty set, with room for these steps.
    pub fn new(alloc: Global, steps: &[Number]) -> Result<StepSet, NoMemory>
        ensures steps { IfOk result (λ set. set.steps ≡ steps.now) }
        ensures empty { IfOk result (λ set. set.members ≡ []) }
    {
        let order = StepOrder::new(alloc, steps)?;
        let mut marks = Vec::new(alloc);
        marks.resize(order.order().len(), false)?;
        Ok(StepSet { order, marks })
    }

    /// Puts in a step, one of those that the set has room for.
    pub fn add(&mut self, step: Number)
        requires { Contains self.old.steps step }
        ensures { Adds self.old self.new step }
    {
        if let Some(i) = self.order.place_of(step) {
            self.marks[i] = true;
        }
    }

    /// Whether the step is in the set: a search among the steps that it has room for.
    pub fn has(&self, step: Number) -> bool
        ensures { IsTrue result ↔ Contains self.now.members step }
    {
        match self.order.place_of(step) {
            Some(i) => self.marks[i],
            None => false,
        }
    }
}
