//! The workingsteps of a tree in order of number.

ghost use Rattle.std.specs.Prelude.{◌≡◌, IfOk, IfSome, IfNone, slice_get, Some, Contains};
ghost use Rattle.project_store.specs.Inserts.{is_among};

use nc_base::{NoMemory, Number};
use std::alloc::Global;
use std::marker::Model;

/// Workingsteps as they were given, and in order of number, each once. A step is found by a search, not by a hash of numbers, which a
/// file picks. Contracts see both lists.
#[derive(Drop)]
pub(crate) struct StepOrder {
    steps: Vec<Number>,
    order: Vec<Number>,
}

impl Model for StepOrder {
    ghost use Rattle.project_versions.specs.StepSet.{Ordered, IsOrderOf};

    ghost Value = { Ordered };

    ghost view = { λ a. record { steps = a.steps.items; order = a.order.items } };

    ghost invariant = { λ a. IsOrderOf a.steps.items a.order.items };
}

impl StepOrder {
    ghost use Rattle.project_versions.specs.StepSet.{IsOrderOf};

    /// These steps.
    pub(crate) fn new(alloc: Global, steps: &[Number]) -> Result<StepOrder, NoMemory>
        ensures { IfOk result (λ made. made.steps ≡ steps.now) }
    {
        let steps = Vec::from_slice(alloc, steps)?;
        let mut order = Vec::from_slice(alloc, steps.as_slice())?;
        order.sort()?;
        order.dedup();
        Ok(StepOrder { steps, order })
    }

    /// The steps in order of number.
    pub(crate) fn order(&self) -> &[Number]
        ensures order { result.now ≡ self.now.order }
        ensures is_order { IsOrderOf self.now.steps self.now.order }
    {
        self.order.as_slice()
    }

    /// Where a number stands among the steps in order, if it is one of them.
    pub(crate) fn place_of(&self, n: Number) -> Option<usize>
        ensures found { IfSome result (λ i. slice_get self.now.order i ≡ Some n) }
        ensures none { IfNone result (Contains self.now.steps n → ⊥) }
        ensures is_order { IsOrderOf self.now.steps self.now.order }
    {
        self.order.as_slice().binary_search(&n).ok()
    }

    /// Whether a number is one of the steps.
    pub(crate) fn has(&self, n: Number) -> bool
        ensures { result ≡ is_among self.now.steps n }
    {
        self.place_of(n).is_some()
    }
}
