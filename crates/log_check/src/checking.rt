//! The check of a log.

ghost use Rattle.std.specs.Prelude.{◌≡◌, ◌≤◌, ◌++◌, ◌↔◌, IsTrue, IfOk, length};
ghost use Rattle.run_law.specs.Legal.{Legal};
ghost use Rattle.project_law.specs.ProjectRules.{rules_of};
ghost use Rattle.log_check.specs.Ending.{EndsOwn, is_own};
ghost use Rattle.log_check.specs.Checked.{IsAnswer, StopsRight};
ghost use Rattle.log_check.specs.declared.answer.Answer.{Answer};

use crate::answer::Answer;
use crate::following::follow;
use crate::laws::a_log_has_one_answer;
use edit_rules::Project;
use entity_types::Script;
use nc_base::{NoMemory, Steps};
use run_law::laws::endings_by_next;
use run_log::{Ending, Log};
use run_state::RunState;
use std::alloc::Global;
use std::marker::Brand;
use std::sync::ledger::{Blank, Ledger};

/// Whether an ending is a log's own, by where its run stands.
fn is_own(judged: bool, over: bool, waiting: bool, some: bool, ending: Ending) -> bool
    ensures { result ≡ is_own judged over waiting some ending }
{
    match ending {
        Ending::Done => judged && over,
        Ending::Blocked => judged && !over && waiting,
        Ending::Limit => !(judged && over) && !(judged && !over && waiting) && some,
    }
}

/// Whether an ending is the own one of a log that is followed to its end.
fn ends_so(state: &RunState, ending: Ending) -> bool
    ensures { IsTrue result ↔ EndsOwn (rules_of state.now.project state.now.script) state.now.list ending }
{
    endings_by_next();
    state.legal();
    let judged = state.are_judged();
    let over = state.is_over();
    let waiting = state.all_wait();
    let some = state.len() > 0;
    is_own(judged, over, waiting, some, ending)
}

/// Goes on with the entries of a log up to the first that doesn't fit: whether there is none.
fn follow_all<L: Ledger>(
    alloc: Global,
    state: &mut RunState,
    steps: &mut Steps<L>,
) -> Result<bool, NoMemory>
    ensures project { IfOk result (λ all. state.new.project ≡ state.old.project) }
    ensures script { IfOk result (λ all. state.new.script ≡ state.old.script) }
    ensures parts { IfOk result (λ all. state.new.list ++ state.new.coming ≡ state.old.list ++ state.old.coming) }
    ensures stands { IfOk result (λ all. StopsRight (rules_of state.old.project state.old.script) state.new.list state.new.coming all) }
{
    while let Some(entry) = state.coming() {
        if !follow(alloc, state, entry, steps)? {
            return Ok(false);
        }
    }
    Ok(true)
}

/// How many entries there are so far, where there are no more than of a log.
fn count_of(state: &RunState, log: u32) -> u32
    requires { length state.now.list ≤ log }
    ensures { result ≡ length state.now.list }
{
    state.len() as u32
}

/// What is found of a log that was followed as far as it fits, to its end or not.
fn found(state: &RunState, all_fit: bool, log: u32, ending: Ending) -> Answer
    requires stops { StopsRight (rules_of state.now.project state.now.script) state.now.list state.now.coming all_fit }
    requires log { length state.now.list ≤ log }
    ensures { IsAnswer (rules_of state.now.project state.now.script) (state.now.list ++ state.now.coming) ending result }
{
    state.legal();
    if !all_fit {
        return Answer::Illegal(count_of(state, log));
    }
    if ends_so(state, ending) {
        return Answer::Legal(ending);
    }
    Answer::Illegal(count_of(state, log))
}

/// What is found of a log of so many entries by a state before its first entry.
fn judged<L: Ledger>(
    alloc: Global,
    state: &mut RunState,
    log: u32,
    ending: Ending,
    steps: &mut Steps<L>,
) -> Result<Answer, NoMemory>
    requires { length (state.old.list ++ state.old.coming) ≡ log }
    ensures { IfOk result (IsAnswer (rules_of state.old.project state.old.script) (state.old.list ++ state.old.coming) ending) }
{
    let all_fit = follow_all(alloc, state, steps)?;
    Ok(found(state, all_fit, log, ending))
}

/// What is found of a log that is followed from its first entry on, by a counter of looks.
fn followed<L: Ledger>(
    alloc: Global,
    project: Project,
    script: Script,
    log: Log,
    ending: Ending,
    blank: Blank,
) -> Result<Answer, NoMemory>
    requires name { blank.name ≡ L.name }
    requires parts { blank.parts ≡ L.parts }
    requires one { blank.parts ≡ 1 }
    ensures { IfOk result (IsAnswer (rules_of project script) log ending) }
{
    let (book, share) = blank.open::<L>();
    let mut steps = Steps::new(book, share);
    let count = log.len();
    let mut state = RunState::before(alloc, project, script, log)?;
    judged(alloc, &mut state, count, ending, &mut steps)
}

/// Judges a log by the project and the script that it is said to be of: legal exactly where each entry fits the entries before it and the
/// ending is the log's own, else the least place that is wrong. The log is followed entry by entry, in memory for the nodes of the tree alone
/// beside the log, which is taken over.
///
/// # Errors
/// `NoMemory` where there is none for what is kept of each node, or for an edit.
pub fn check(
    alloc: Global,
    project: Project,
    script: Script,
    log: Log,
    ending: Ending,
) -> Result<Answer, NoMemory>
    // What is found is so.
    ensures found { IfOk result (IsAnswer (rules_of project script) log ending) }
    // What is so of the log is found, unless memory runs out.
    ensures only { (answer : Answer) → IsAnswer (rules_of project script) log ending answer → IfOk result (λ a. a ≡ answer) }
{
    a_log_has_one_answer();
    followed::<Brand>(alloc, project, script, log, ending, Blank::new(1))
}
