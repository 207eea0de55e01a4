//! Laws of the window of plans. Each function's contract is the law.

ghost use Rattle.std.specs.Prelude.{◌≡◌, ◌<◌, ℕ, List, map, Contains, ◌↔◌};
ghost use Rattle.exec_tree.specs.declared.node.BareNode.{BareNode};
ghost use Rattle.run_log.specs.declared.entry.Entry.{Entry};
ghost use Rattle.trace_law.specs.State.{sent};
ghost use Rattle.run_law.specs.Rules.{Rules};
ghost use Rattle.run_law.specs.Ahead.{ahead, steps_of};
ghost use Rattle.plan_store.specs.declared.limits.TheConstants.{WINDOW_CHANNELS};
ghost use Rattle.plan_store.specs.StepAhead.{window};
ghost use Rattle.plan_law.specs.Tickets.{next_in};
ghost use Rattle.plan_window.specs.Window.{Windowed, IsWindow, line, line_in, lines_in, fifth};

/// A tree's lines are those of its channels. Where the channels' steps are those that the rules tell, and the dispatched ones those of the log, the windows are the steps ahead of the run, and
/// the step that comes in next is the one that the rules tell.
pub fn window_tells_the_steps_ahead()
    ensures lines { (nodes : List BareNode) (c : ℕ) → c < WINDOW_CHANNELS → line (lines_in nodes) c ≡ line_in nodes c }
    ensures steps { (r : Rules) (t : List Entry) (w : Windowed) → IsWindow w → ((c : ℕ) → c < WINDOW_CHANNELS → line w.lines c ≡ steps_of r t c) → ((n : ℕ) → Contains w.sent n ↔ Contains (sent t) n)
        → (c : ℕ) → c < WINDOW_CHANNELS → map (λ a. a.step) (window w.ahead c) ≡ ahead r t c }
    ensures next { (r : Rules) (t : List Entry) (w : Windowed) → ((c : ℕ) → c < WINDOW_CHANNELS → line w.lines c ≡ steps_of r t c) → ((n : ℕ) → Contains w.sent n ↔ Contains (sent t) n)
        → (c : ℕ) → c < WINDOW_CHANNELS → fifth w c ≡ next_in r t c }
{}
