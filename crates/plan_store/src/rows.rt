//! Looks at the tickets in a row.

ghost use Rattle.std.specs.Prelude.{◌≡◌, ◌==◌, count_by, position, nat_le};
ghost use Rattle.plan_store.specs.Stage.{is_waiting};

use crate::ticket::{Ticket, TicketState};
use nc_base::Number;

/// The index of a step's ticket.
pub(crate) fn index_of(tickets: &[Ticket], step: Number) -> Option<usize>
    ensures { result ≡ position (λ t. t.step == step) tickets.now }
{
    tickets.iter().position(|ticket| ticket.step == step)
}

/// The index of the first ticket that waits.
pub(crate) fn first_waiting(tickets: &[Ticket]) -> Option<usize>
    ensures { result ≡ position (λ t. is_waiting t.state) tickets.now }
{
    tickets
        .iter()
        .position(|ticket| matches!(ticket.state, TicketState::Waiting))
}

/// How many tickets a channel has.
pub(crate) fn count_of(tickets: &[Ticket], channel: u8) -> usize
    ensures { result ≡ count_by (λ t. t.channel == channel) tickets.now }
{
    tickets
        .iter()
        .filter(|ticket| ticket.channel == channel)
        .count()
}

/// How many the channels up to this one have.
pub(crate) fn count_up_to(tickets: &[Ticket], channel: u8) -> usize
    ensures { result ≡ count_by (λ t. nat_le t.channel channel) tickets.now }
{
    tickets
        .iter()
        .filter(|ticket| ticket.channel <= channel)
        .count()
}
