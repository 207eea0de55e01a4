//! Whether the next entry of a log that is followed fits the entries before it.

ghost use Rattle.std.specs.Prelude.{◌≡◌, ◌↔◌, ◌++◌, ◌∷◌, [], Some, IsTrue, IfOk, false, drop, slice_get};
ghost use Rattle.run_log.specs.declared.entry.Entry.TheVariants.{Edit};
ghost use Rattle.run_law.specs.Fits.{Fits, FitsEdit, is_due};
ghost use Rattle.project_law.specs.ProjectRules.{rules_of};
ghost use Rattle.trace_law.specs.Of.{number_of};

use nc_base::{NoMemory, Number, Steps, Verdict};
use run_log::Entry;
use run_state::RunState;
use std::alloc::Global;
use std::sync::ledger::Ledger;

/// The number of the node that an entry is of; an edit is of none.
fn number_of(entry: &Entry) -> Option<Number>
    ensures { result ≡ number_of entry.now }
{
    match *entry {
        Entry::Dispatch { n, .. }
        | Entry::Block { n, .. }
        | Entry::End { n }
        | Entry::Pick { n, .. }
        | Entry::Test { n, .. }
        | Entry::Assign { n, .. }
        | Entry::Set { n }
        | Entry::Pass { n }
        | Entry::Note { n } => Some(n),
        Entry::Edit { .. } => None,
    }
}

/// Whether the next edit is due. Where each is judged, nobody is asked what waits.
fn is_due(state: &RunState) -> bool
    ensures { result ≡ is_due (rules_of state.now.project state.now.script) state.now.list }
{
    if state.are_judged() {
        return false;
    }
    state.is_due(state.all_wait())
}

/// Goes on with the verdict on an edit, where it comes next in a log and fits: whether it does.
fn follow_edit<L: Ledger>(
    alloc: Global,
    state: &mut RunState,
    i: u32,
    verdict: Verdict,
    steps: &mut Steps<L>,
) -> Result<bool, NoMemory>
    requires next { slice_get state.old.coming 0 ≡ Some (Edit i verdict) }
    ensures fits { IfOk result (λ yes. IsTrue yes ↔ FitsEdit (rules_of state.old.project state.old.script) state.old.list i verdict) }
    ensures on { IfOk result (λ yes. IsTrue yes → state.new ≡ record state.old { list = state.old.list ++ Edit i verdict ∷ []; coming = drop 1 state.old.coming }) }
    ensures kept { IfOk result (λ yes. yes ≡ false → state.new ≡ state.old) }
{
    if !is_due(state) || i != state.judged() {
        return Ok(false);
    }
    if state.judge(alloc, steps)? != verdict {
        return Ok(false);
    }
    state.settle(alloc, verdict)?;
    Ok(true)
}

/// Goes on with an entry of a node, where it comes next in a log and fits: whether it does.
fn follow_node<L: Ledger>(
    state: &mut RunState,
    n: Number,
    entry: Entry,
    steps: &mut Steps<L>,
) -> bool
    requires next { slice_get state.old.coming 0 ≡ Some entry }
    requires number { number_of entry ≡ Some n }
    ensures fits { IsTrue result ↔ Fits (rules_of state.old.project state.old.script) state.old.list entry }
    ensures on { IsTrue result → state.new ≡ record state.old { list = state.old.list ++ entry ∷ []; coming = drop 1 state.old.coming } }
    ensures kept { result ≡ false → state.new ≡ state.old }
{
    let due = is_due(state);
    match state.fitting(due, n, &entry, steps) {
        Some(it) => {
            state.follow(it.place, entry, it.def, steps);
            true
        }
        None => false,
    }
}

/// Goes on with the next entry of a log, where it fits: whether it does.
pub fn follow<L: Ledger>(
    alloc: Global,
    state: &mut RunState,
    entry: Entry,
    steps: &mut Steps<L>,
) -> Result<bool, NoMemory>
    requires next { slice_get state.old.coming 0 ≡ Some entry }
    ensures fits { IfOk result (λ yes. IsTrue yes ↔ Fits (rules_of state.old.project state.old.script) state.old.list entry) }
    ensures on { IfOk result (λ yes. IsTrue yes → state.new ≡ record state.old { list = state.old.list ++ entry ∷ []; coming = drop 1 state.old.coming }) }
    ensures kept { IfOk result (λ yes. yes ≡ false → state.new ≡ state.old) }
{
    if let Entry::Edit { i, verdict } = entry {
        return follow_edit(alloc, state, i, verdict, steps);
    }
    match number_of(&entry) {
        Some(n) => Ok(follow_node(state, n, entry, steps)),
        None => unreachable!(),
    }
}
