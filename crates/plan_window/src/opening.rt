//! The windows before the first entry.

ghost use Rattle.std.specs.Prelude.{◌≡◌, ◌<◌, ℕ, [], None, true, IfOk};
ghost use Rattle.exec_tree.specs.Exec.{has, AreDistinct};
ghost use Rattle.plan_store.specs.declared.limits.TheConstants.{WINDOW_CHANNELS, MAX_WINDOW};
ghost use Rattle.plan_store.specs.StepAhead.{step_in, window};
ghost use Rattle.plan_window.specs.Window.{line_in, lines_in, AreLines, AreOpening};
ghost use Rattle.plan_window.specs.Kept.{IsFilled, StayBut, IsKept};

use crate::coming::come_in;
use exec_tree::Tree;
use nc_base::{NoMemory, Number, NumberList};
use plan_store::{MAX_WINDOW, PlanStore, WINDOW_CHANNELS};
use project_versions::StepSet;
use std::alloc::Global;

/// The steps of a channel, in preorder.
fn line_of(alloc: Global, tree: &Tree, channel: u8) -> Result<NumberList, NoMemory>
    ensures { IfOk result (λ line. line ≡ line_in tree.now.nodes channel) }
{
    let mut line = NumberList::new(alloc);
    let steps = tree.steps();
    for step in steps {
        if tree.channel(*step) == channel {
            line.push(*step)?;
        }
    }
    Ok(line)
}

/// The steps of each channel.
pub(crate) fn lines_of(alloc: Global, tree: &Tree) -> Result<Vec<NumberList>, NoMemory>
    ensures { IfOk result (λ lines. lines.items ≡ lines_in tree.now.nodes) }
{
    let mut lines = Vec::new(alloc);
    for channel in 0..WINDOW_CHANNELS {
        let line = line_of(alloc, tree, channel)?;
        lines.push(line)?;
    }
    Ok(lines)
}

/// Places the tickets of the first steps of a channel that has none yet. Gives the index in its line from which on the others come.
fn fill(store: &mut PlanStore, channel: u8, line: &[Number], sent: &StepSet) -> usize
    requires within { channel < WINDOW_CHANNELS }
    requires empty { window store.old channel ≡ [] }
    requires distinct { AreDistinct line.now }
    requires new { (n : ℕ) → has line.now n ≡ true → step_in store.old n ≡ None }
    ensures filled { IsFilled store.new channel sent.now.members line.now result MAX_WINDOW }
    ensures others { StayBut channel store.old store.new }
    ensures opening { AreOpening store.old → AreOpening store.new }
{
    let mut next = 0;
    for _turn in 0..MAX_WINDOW {
        store.tickets();
        next = come_in(store, channel, line, next, sent, None);
    }
    next
}

/// Places the tickets of the first steps of each channel. Gives for each the index in its line from which on the others come.
pub(crate) fn fill_all(
    alloc: Global,
    store: &mut PlanStore,
    lines: &Vec<NumberList>,
    sent: &StepSet,
) -> Result<Vec<usize>, NoMemory>
    requires empty { store.old ≡ [] }
    requires lines { AreLines lines.now.items sent.now.steps }
    ensures kept { IfOk result (λ nexts. IsKept store.new lines.now.items sent.now.steps sent.now.members nexts.items) }
    ensures opening { IfOk result (λ _. AreOpening store.new) }
{
    let mut nexts = Vec::new(alloc);
    for channel in 0..WINDOW_CHANNELS {
        store.tickets();
        let next = fill(store, channel, lines[channel as usize].as_slice(), sent);
        nexts.push(next)?;
    }
    Ok(nexts)
}
