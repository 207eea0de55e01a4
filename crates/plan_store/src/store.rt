//! The store of tickets and plans.

ghost use Rattle.std.specs.Prelude.{◌≡◌, ◌<◌, ◌≤◌, [], length, map, false, IsNone, IsSome, IsSomeAnd, slice_get, slice_set};
ghost use Rattle.std.specs.List.{flat_map, range_with_len};
ghost use Rattle.std.specs.Option.{option_map, ForSome};
ghost use Rattle.plan_store.specs.declared.limits.TheConstants.{WINDOW_CHANNELS, MAX_WINDOW};

use crate::limits::{MAX_TICKETS, MAX_WINDOW, WINDOW_CHANNELS};
use crate::rows::{count_of, count_up_to, first_waiting, index_of};
use crate::ticket::{Made, Ticket, TicketState};
use arrayvec::ArrayVec;
use nc_base::Number;
use path_blocks::Plan;
use std::marker::Model;

/// The tickets of the workingsteps that are planned ahead, channel by channel, and the plans that are kept for them. It takes no
/// memory of its own. Contracts see the list of steps ahead, each with its ticket and its plan.
#[derive(Drop)]
pub struct PlanStore {
    tickets: ArrayVec<Ticket, MAX_TICKETS>,
    plans: ArrayVec<Option<Plan>, MAX_TICKETS>,
}

impl Model for PlanStore {
    ghost use Rattle.std.specs.Prelude.{List};
    ghost use Rattle.plan_store.specs.StepAhead.{StepAhead, ahead_all};
    ghost use Rattle.plan_store.specs.Holds.{Holds};

    ghost Value = { List StepAhead };

    ghost view = { λ s. ahead_all s.tickets.items s.plans.items };

    ghost invariant = { λ s. Holds s.tickets.items s.plans.items (ahead_all s.tickets.items s.plans.items) };
}

impl PlanStore {
    ghost use Rattle.plan_store.specs.StepAhead.{ticket_of, told, step_in, ticket_in, plan_in, first_waiting, window, placed, renewed, handed, kept, taken};
    ghost use Rattle.plan_store.specs.Stage.{state_of, stage_of, plan_at, is_kept};
    ghost use Rattle.plan_store.specs.Windows.{AreWindows};

    /// No tickets.
    pub fn new() -> PlanStore
        ensures { result ≡ [] }
    {
        PlanStore {
            tickets: ArrayVec::new(),
            plans: ArrayVec::new(),
        }
    }

    /// The tickets, by channel, and those of a channel in the order in which they were placed.
    pub fn tickets(&self) -> &[Ticket]
        ensures exact { result.now ≡ map ticket_of self.now }
        ensures windows { AreWindows self.now }
        ensures by_channel { flat_map (window self.now) (range_with_len 0 WINDOW_CHANNELS) ≡ self.now }
    {
        self.tickets.as_slice()
    }

    /// The step's ticket. None comes exactly where it has none.
    pub fn ticket_of(&self, step: Number) -> Option<Ticket>
        ensures { result ≡ ticket_in self.now step }
    {
        let index = index_of(&self.tickets, step)?;
        Some(self.ticket_at(index))
    }

    /// How many tickets the channel has, at most `MAX_WINDOW`.
    pub fn count(&self, channel: u8) -> u32
        ensures exact { result ≡ length (window self.now channel) }
        ensures few { result ≤ MAX_WINDOW }
    {
        count_of(&self.tickets, channel) as u32
    }

    /// Places a ticket that waits, after the others of its channel. The channel is below `WINDOW_CHANNELS` and has fewer tickets than
    /// `MAX_WINDOW`, and the step has none.
    pub fn place(&mut self, step: Number, channel: u8, version: u32)
        requires within { channel < WINDOW_CHANNELS }
        requires new { IsNone (ticket_in self.old step) }
        requires room { length (window self.old channel) < MAX_WINDOW }
        ensures { self.new ≡ placed self.old step channel version }
    {
        let end = count_up_to(&self.tickets, channel);
        let ticket = Ticket {
            step,
            channel,
            version,
            state: TicketState::Waiting,
        };
        self.tickets.insert(end, ticket);
        self.plans.insert(end, None);
    }

    /// The ticket at an index.
    fn ticket_at(&self, index: usize) -> Ticket
        requires { index < length self.now }
        ensures { ForSome (slice_get self.now index) (λ a. result ≡ ticket_of a) }
    {
        self.tickets[index]
    }

    /// Where the step's ticket is, which it has.
    fn seek(&self, step: Number) -> usize
        requires { IsSome (ticket_in self.now step) }
        ensures there { slice_get self.now result ≡ step_in self.now step }
        ensures windows { AreWindows self.now }
    {
        let Some(index) = index_of(&self.tickets, step) else {
            unreachable!();
        };
        index
    }

    /// Puts a version, a state and the plan that belongs to it in the place of a ticket's.
    fn put(&mut self, index: usize, version: u32, state: TicketState, plan: Option<Plan>)
        requires within { index < length self.old }
        requires told { state_of (stage_of state plan) ≡ state }
        requires planned { plan_at (stage_of state plan) ≡ plan }
        ensures { ForSome (slice_get self.old index) (λ a. self.new ≡ slice_set self.old index (told version (stage_of state plan) a)) }
    {
        let ticket = self.ticket_at(index);
        self.tickets.as_mut_slice()[index] = Ticket {
            step: ticket.step,
            channel: ticket.channel,
            version,
            state,
        };
        self.plans.as_mut_slice()[index] = plan;
    }

    /// Lets the step's ticket wait again, for a plan of this version, and drops its plan. The step has a ticket.
    pub fn renew(&mut self, step: Number, version: u32)
        requires { IsSome (ticket_in self.old step) }
        ensures { self.new ≡ renewed self.old step version }
    {
        let index = self.seek(step);
        self.put(index, version, TicketState::Waiting, None);
    }

    /// Hands out the first ticket that waits: its step, and the version that the plan is to be of. None comes exactly where none waits.
    pub fn hand(&mut self) -> Option<(Number, u32)>
        ensures first { result ≡ option_map (λ a. (a.step, a.version)) (first_waiting self.old) }
        ensures handed { self.new ≡ handed self.old }
    {
        let index = first_waiting(&self.tickets)?;
        let ticket = self.ticket_at(index);
        self.put(index, ticket.version, TicketState::Handed, None);
        Some((ticket.step, ticket.version))
    }

    /// Keeps a plan. The step has a ticket, which is at the plan's version and isn't `Kept`.
    pub fn keep(&mut self, made: Made)
        requires { IsSomeAnd (ticket_in self.old made.step) (λ t. (t.version ≡ made.version) × (is_kept t.state ≡ false)) }
        ensures { self.new ≡ kept self.old made.step made.plan }
    {
        let index = self.seek(made.step);
        self.put(index, made.version, TicketState::Kept, Some(made.plan));
    }

    /// Takes the step's ticket away, and gives the plan that was kept. None comes exactly where no plan was kept. The step has a ticket.
    pub fn take(&mut self, step: Number) -> Option<Plan>
        requires { IsSome (ticket_in self.old step) }
        ensures plan { result ≡ plan_in self.old step }
        ensures taken { self.new ≡ taken self.old step }
    {
        let index = self.seek(step);
        self.tickets.remove(index);
        self.plans.remove(index)
    }
}
