//! Calls of a store, each made where its condition holds, and what a store shows.

use nc_base::{NoMemory, Number};
use path_blocks::{Def, Plan, Shape};
use plan_store::{MAX_WINDOW, Made, PlanStore, Ticket, TicketState, WINDOW_CHANNELS};
use std::alloc::Global;
use std::test::Fail;

/// A hole.
pub(crate) const HOLE: Def = Def {
    tool: 7,
    spindle: 12_500,
    feed: 1,
    sec: 50_000,
    ret: 50_000,
    z0: 0,
    bottom: -1,
    axial: 1,
    shape: Shape::Drill {
        x: -4_000,
        y: 0,
        dwell: 0,
    },
};

/// Places a ticket, and says whether that may be.
pub(crate) fn place(store: &mut PlanStore, step: Number, channel: u8, version: u32) -> bool {
    if channel >= WINDOW_CHANNELS || store.count(channel) >= MAX_WINDOW {
        return false;
    }
    if store.ticket_of(step).is_some() {
        return false;
    }
    store.place(step, channel, version);
    true
}

/// Renews a ticket, and says whether there is one.
pub(crate) fn renew(store: &mut PlanStore, step: Number, version: u32) -> bool {
    if store.ticket_of(step).is_none() {
        return false;
    }
    store.renew(step, version);
    true
}

/// Keeps a plan, and says whether that may be.
pub(crate) fn keep(store: &mut PlanStore, made: Made) -> bool {
    let Some(ticket) = store.ticket_of(made.step) else {
        return false;
    };
    if ticket.version != made.version || matches!(ticket.state, TicketState::Kept) {
        return false;
    }
    store.keep(made);
    true
}

/// The plan of the hole, for a step at a version.
pub(crate) fn made(alloc: Global, step: Number, version: u32) -> Result<Made, NoMemory> {
    let plan = path_drill::path(alloc, &HOLE)?;
    Ok(Made {
        step,
        version,
        plan,
    })
}

/// Takes a ticket away, and says how many blocks the plan has that was kept; None where the step has no ticket.
pub(crate) fn take(store: &mut PlanStore, step: Number) -> Option<usize> {
    if store.ticket_of(step).is_none() {
        return None;
    }
    match store.take(step) {
        Some(plan) => Some(plan.blocks().len()),
        None => Some(0),
    }
}

/// A ticket as text: its step, channel and version, and a letter for its state.
fn shown(alloc: Global, ticket: &Ticket) -> Result<String, Fail> {
    let state = match ticket.state {
        TicketState::Waiting => "W",
        TicketState::Handed => "H",
        TicketState::Kept => "K",
    };
    let Ticket {
        step,
        channel,
        version,
        ..
    } = *ticket;
    Ok(format!(in alloc; "{step}.{channel}.{version}{state} ")?)
}

/// The tickets of a store as text, one behind the other.
pub(crate) fn listed(alloc: Global, store: &PlanStore) -> Result<String, Fail> {
    let mut text = String::new(alloc);
    for ticket in store.tickets() {
        text.push_str(shown(alloc, ticket)?.as_str())?;
    }
    Ok(text)
}
