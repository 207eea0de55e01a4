//! The step that comes next in a channel.

ghost use Rattle.std.specs.Prelude.{◌≡◌, ◌<◌, ◌+◌, ◌∷◌, [], ℕ, Some, None, true, length, drop, slice_get, option_copied, IfSome, IfNone, Contains};
ghost use Rattle.exec_tree.specs.Exec.{has};
ghost use Rattle.plan_store.specs.declared.limits.TheConstants.{WINDOW_CHANNELS, MAX_WINDOW};
ghost use Rattle.plan_store.specs.StepAhead.{step_in, window};
ghost use Rattle.plan_law.specs.Tickets.{joined};
ghost use Rattle.plan_window.specs.Window.{version_by};
ghost use Rattle.plan_window.specs.Kept.{coming};

use nc_base::Number;
use plan_store::PlanStore;
use project_versions::{StepSet, Versions};

/// Whether a step is in the set.
fn is_sent(sent: &StepSet, step: Number) -> bool
    ensures { result ≡ has sent.now.members step }
{
    sent.has(step)
}

/// The index of the first of these steps, from an index on, that isn't in the set.
fn first_unsent(line: &[Number], sent: &StepSet, next: usize) -> Option<usize>
    ensures some { IfSome result (λ i. (n : ℕ) × (slice_get line.now i ≡ Some n) × (coming sent.now.members line.now next ≡ n ∷ coming sent.now.members line.now (i + 1))) }
    ensures none { IfNone result (coming sent.now.members line.now next ≡ []) }
{
    let mut index = next;
    while index < line.len() {
        if !is_sent(sent, line[index]) {
            return Some(index);
        }
        index += 1;
    }
    None
}

/// The version of a step, 0 where no versions are kept.
pub(crate) fn version_of(versions: Option<&Versions>, step: Number) -> u32
    requires { IfSome (option_copied versions) (λ v. Contains v.steps step) }
    ensures { result ≡ version_by (option_copied versions.entry) step }
{
    match versions {
        Some(versions) => versions.version(step),
        None => 0,
    }
}

/// Places the ticket of the step that comes next in a channel, from an index of its line on, where there is one. The channel has room for it,
/// and no step that comes has a ticket. Gives the index from which on the others come.
pub(crate) fn come_in(
    store: &mut PlanStore,
    channel: u8,
    line: &[Number],
    next: usize,
    sent: &StepSet,
    versions: Option<&Versions>,
) -> usize
    requires within { channel < WINDOW_CHANNELS }
    requires room { length (window store.old channel) < MAX_WINDOW }
    requires new { (n : ℕ) → has (coming sent.now.members line.now next) n ≡ true → step_in store.old n ≡ None }
    requires known { (n : ℕ) → has (coming sent.now.members line.now next) n ≡ true → IfSome (option_copied versions) (λ v. Contains v.steps n) }
    ensures joined { store.new ≡ joined (version_by (option_copied versions.entry)) store.old channel (slice_get (coming sent.now.members line.now next) 0) }
    ensures rest { coming sent.now.members line.now result ≡ drop 1 (coming sent.now.members line.now next) }
{
    let Some(index) = first_unsent(line, sent, next) else {
        return line.len();
    };
    let step = line[index];
    store.place(step, channel, version_of(versions, step));
    index + 1
}
