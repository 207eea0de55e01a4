//! Versions raised.

ghost use Rattle.std.specs.Prelude.{◌≡◌, ◌+◌, ◌<◌, ◌^◌, ◌∷◌, [], ℕ, length, Contains};
ghost use Rattle.std.specs.List.Sorted.{IsStrictlyIncreasing};
ghost use Rattle.project_versions.specs.Versioned.{counted, version_of};
ghost use Rattle.project_versions.specs.Kept.{Raises};

use crate::step_order::StepOrder;
use nc_base::Number;

/// Raises the version of a step by one.
fn raise_one(order: &StepOrder, versions: &mut Vec<u32>, step: Number)
    requires len { length versions.old.items ≡ length order.now.order }
    requires fits { version_of (counted order.now.order versions.old.items) step + 1 < 2 ^ 32 }
    ensures { Raises order.now.order versions.old.items versions.new.items (step ∷ []) }
{
    if let Some(i) = order.place_of(step) {
        versions[i] += 1;
    }
}

/// Raises the versions of these steps by one each.
pub(crate) fn raise(order: &StepOrder, versions: &mut Vec<u32>, steps: &[Number])
    requires len { length versions.old.items ≡ length order.now.order }
    requires rising { IsStrictlyIncreasing steps.now }
    requires steps { (n : ℕ) → Contains steps.now n → Contains order.now.order n }
    requires fits { (n : ℕ) → Contains steps.now n → version_of (counted order.now.order versions.old.items) n + 1 < 2 ^ 32 }
    ensures { Raises order.now.order versions.old.items versions.new.items steps.now }
{
    for step in steps {
        raise_one(order, versions, *step);
    }
}
