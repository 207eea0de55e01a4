//! Tickets, and what planners get and give.

use nc_base::Number;
use path_blocks::{Def, Plan};

/// What became of a ticket.
#[derive(Clone, Copy, Debug, PartialEq, Eq, Default)]
pub enum TicketState {
    /// No planner was asked for the plan yet.
    #[default]
    Waiting,
    /// A planner was asked for it.
    Handed,
    /// The plan is kept.
    Kept,
}

/// The leave to plan a workingstep before it is dispatched.
#[derive(Clone, Copy, Debug, PartialEq, Eq, Default)]
pub struct Ticket {
    /// The workingstep.
    pub step: Number,
    /// Its channel.
    pub channel: u8,
    /// The version of the step that the plan is to be of.
    pub version: u32,
    pub state: TicketState,
}

/// What a planner is asked for: the plan of a workingstep.
#[derive(Clone, Copy, Debug, PartialEq, Eq)]
pub struct Job {
    /// The workingstep.
    pub step: Number,
    /// Its index in the list of places, by which its version is looked up.
    pub place: u32,
    /// The version that it has when the job is given.
    pub version: u32,
    /// The definition that it has then.
    pub def: Def,
}

/// What a planner made: a plan, and which workingstep at which version it is of.
#[derive(Drop)]
pub struct Made {
    pub step: Number,
    pub version: u32,
    pub plan: Plan,
}
