//! The window of plans of a run: which workingsteps are planned ahead, and which step is planned next where one of them is dispatched.
//!
//! | module | what is in it | calls |
//! |---|---|---|
//! | window | the tickets of the steps ahead, which follow the dispatches and the edits of a run | `PlanWindow` |
//! | coming | the step that comes next in a channel, and its ticket | |
//! | opening | the windows before the first entry | |
//! | renewing | the renewal of the tickets whose step has another version | |
//! | laws | that the windows tell the steps ahead of a run | `window_tells_the_steps_ahead` |
//!
//! All memory is taken by `PlanWindow::open`. A dispatch passes over the steps of its channel that were dispatched before they came into the
//! window; each step is passed over at most once in a run, so all dispatches together cost no more than the steps. Every other call costs no
//! more than the size of the windows, 32 tickets, and a search for each.
#![tactic(auto)]

mod coming;
pub mod laws;
mod opening;
mod renewing;
mod window;

pub use window::PlanWindow;
