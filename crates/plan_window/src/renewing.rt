//! The renewal of tickets.

ghost use Rattle.std.specs.Prelude.{◌≡◌, ℕ, slice_get, Some, Contains};
ghost use Rattle.plan_store.specs.StepAhead.{StepAhead};
ghost use Rattle.plan_law.specs.Tickets.{all_renewed};
ghost use Rattle.project_versions.specs.Versioned.{version_of};

use plan_store::PlanStore;
use project_versions::Versions;

/// Lets each ticket whose step has another version wait again at that version.
pub(crate) fn renew_all(store: &mut PlanStore, versions: &Versions)
    requires { (i : ℕ) (a : StepAhead) → slice_get store.old i ≡ Some a → Contains versions.now.steps a.step }
    ensures { store.new ≡ all_renewed (version_of versions.now.versions) store.old }
{
    let mut index = 0;
    while index < store.tickets().len() {
        let ticket = store.tickets()[index];
        let version = versions.version(ticket.step);
        if version != ticket.version {
            store.renew(ticket.step, version);
        }
        index += 1;
    }
}
