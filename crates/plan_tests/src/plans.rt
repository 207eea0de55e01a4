//! Plans that are kept, dropped and taken.

use crate::calls::{HOLE, keep, listed, made, place, renew, take};
use crate::expected::expect;
use plan_store::{PlanStore, Ticket, TicketState};
use std::process::Abort;
use std::test::Fail;

// A store with a step of each of two channels, both handed out, and the plan of the second.
fn two_steps(rt: &impl Abort, store: &mut PlanStore) {
    expect(rt, place(store, 10, 0, 1), true);
    expect(rt, place(store, 20, 1, 0), true);
    expect(rt, store.hand(), Some((10, 1)));
    expect(rt, store.hand(), Some((20, 0)));
}

#[test]
fn a_plan_is_kept_and_taken(rt: HostRuntime) -> Result<(), Fail> {
    let mut store = PlanStore::new();
    two_steps(&rt, &mut store);
    expect(&rt, keep(&mut store, made(rt.alloc(), 20, 0)?), true);
    expect(
        &rt,
        listed(rt.alloc(), &store)?.as_str(),
        "10.0.1H 20.1.0K ",
    );
    expect(&rt, take(&mut store, 20), Some(HOLE.count() as usize));
    expect(&rt, listed(rt.alloc(), &store)?.as_str(), "10.0.1H ");
    expect(&rt, take(&mut store, 20), None);
    expect(&rt, take(&mut store, 10), Some(0));
    expect(&rt, listed(rt.alloc(), &store)?.as_str(), "");
    Ok(())
}

#[test]
fn a_plan_that_may_not_be_kept(rt: HostRuntime) -> Result<(), Fail> {
    let mut store = PlanStore::new();
    two_steps(&rt, &mut store);
    expect(&rt, keep(&mut store, made(rt.alloc(), 10, 0)?), false);
    expect(&rt, keep(&mut store, made(rt.alloc(), 30, 0)?), false);
    expect(&rt, keep(&mut store, made(rt.alloc(), 10, 1)?), true);
    expect(&rt, keep(&mut store, made(rt.alloc(), 10, 1)?), false);
    expect(
        &rt,
        listed(rt.alloc(), &store)?.as_str(),
        "10.0.1K 20.1.0H ",
    );
    Ok(())
}

#[test]
fn a_renewal_drops_the_plan_of_its_step_alone(rt: HostRuntime) -> Result<(), Fail> {
    let mut store = PlanStore::new();
    two_steps(&rt, &mut store);
    expect(&rt, keep(&mut store, made(rt.alloc(), 10, 1)?), true);
    expect(&rt, keep(&mut store, made(rt.alloc(), 20, 0)?), true);
    expect(&rt, renew(&mut store, 10, 2), true);
    expect(&rt, renew(&mut store, 30, 2), false);
    expect(
        &rt,
        listed(rt.alloc(), &store)?.as_str(),
        "10.0.2W 20.1.0K ",
    );
    expect(&rt, keep(&mut store, made(rt.alloc(), 10, 1)?), false);
    expect(&rt, take(&mut store, 10), Some(0));
    expect(&rt, take(&mut store, 20), Some(6));
    Ok(())
}

// A plan may come before a planner was asked for it.
#[test]
fn a_ticket_that_waits_takes_a_plan(rt: HostRuntime) -> Result<(), Fail> {
    let mut store = PlanStore::new();
    expect(&rt, place(&mut store, 10, 0, 0), true);
    expect(&rt, keep(&mut store, made(rt.alloc(), 10, 0)?), true);
    expect(&rt, store.hand(), None);
    expect(
        &rt,
        store.ticket_of(10),
        Some(Ticket {
            step: 10,
            channel: 0,
            version: 0,
            state: TicketState::Kept,
        }),
    );
    Ok(())
}
