//! What keeps an edit from being accepted for the steps that it reaches (this profile's rules J4 and J5). The steps come in order of number,
//! so that the first that refuses it is the least, and none behind it is looked at.

ghost use Rattle.std.specs.Prelude.{◌≡◌, ◌≤◌, ◌+◌, true, length, option_map};
ghost use Rattle.std.specs.List.{list_all};
ghost use Rattle.step_def.specs.Condition.{is_workingstep};
ghost use Rattle.exec_tree.specs.Exec.{has};
ghost use Rattle.edit_rules.specs.Judge.{sent_fault, step_fault, refused_step};
ghost use Rattle.edit_rules.specs.Judging.{first_step};

use nc_base::{Number, Steps, Verdict};
use project_store::Entities;
use project_versions::StepSet;
use std::sync::ledger::Ledger;
use step_def::resolve;

/// Whether the step was dispatched.
fn is_sent(sent: &StepSet, step: Number) -> bool
    ensures { result ≡ has sent.now.members step }
{
    sent.has(step)
}

/// The first of these steps that was dispatched, by J4: its number, and 0.
pub fn first_sent(sent: &StepSet, numbers: &[Number]) -> Option<Verdict>
    ensures { result ≡ option_map (refused_step 4) (first_step (sent_fault sent.now.members) numbers.now) }
{
    for n in numbers {
        if is_sent(sent, *n) {
            return Some(Verdict::Refused {
                code: 4,
                a: *n,
                b: 0,
            });
        }
    }
    None
}

/// The first of these steps with a faulty definition among these entities, by J5: its number, and the code of its fault. Each step that is
/// looked at counts one.
pub fn first_faulty<E: Entities, L: Ledger>(
    entities: &E,
    numbers: &[Number],
    steps: &mut Steps<L>,
) -> Option<Verdict>
    requires workingsteps { list_all (is_workingstep (E.entities entities.now)) numbers.now ≡ true }
    ensures fault { result ≡ option_map (refused_step 5) (first_step (step_fault (E.entities entities.now)) numbers.now) }
    ensures ticks { steps.new ≤ steps.old + length numbers.now }
{
    for step in numbers {
        if let Err(fault) = resolve(entities, *step, steps) {
            return Some(Verdict::Refused {
                code: 5,
                a: *step,
                b: u32::from(fault.code()),
            });
        }
    }
    None
}
