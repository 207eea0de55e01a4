//! Plans ahead: the tickets of the workingsteps that are planned before they are dispatched, and the plans that are kept for them.
//!
//! | module | what is in it | calls |
//! |---|---|---|
//! | limits | how many tickets there are at most | `MAX_WINDOW`, `WINDOW_CHANNELS`, `MAX_TICKETS` |
//! | ticket | tickets, what a planner is asked for, what it made | `Ticket`, `TicketState`, `Job`, `Made` |
//! | store | the tickets with their plans: placed, handed out, kept, renewed, taken | `PlanStore` |
//! | rows | looks at tickets in a row | |
//! | laws | what each call does to the window of one channel, and that the windows tell all | `windows_move` |
//!
//! No call here takes memory. A channel has at most four tickets, so each call looks at 32 at most. The tests stand in the crate
//! plan_tests.
#![tactic(auto)]

pub mod laws;
mod limits;
mod rows;
mod store;
mod ticket;

pub use limits::{MAX_TICKETS, MAX_WINDOW, WINDOW_CHANNELS};
pub use store::PlanStore;
pub use ticket::{Job, Made, Ticket, TicketState};
