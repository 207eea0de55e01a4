//! Tickets that are placed, handed out and renewed.

use crate::calls::{listed, place, renew};
use crate::expected::expect;
use plan_store::PlanStore;
use std::alloc::Global;
use std::process::Abort;
use std::test::Fail;

// Stops unless the store shows these tickets.
fn expect_listed(
    rt: &impl Abort,
    alloc: Global,
    store: &PlanStore,
    text: &str,
) -> Result<(), Fail> {
    let shown = listed(alloc, store)?;
    expect(rt, shown.as_str(), text);
    Ok(())
}

#[test]
fn by_channel_and_in_the_order_of_placing(rt: HostRuntime) -> Result<(), Fail> {
    let mut store = PlanStore::new();
    expect_listed(&rt, rt.alloc(), &store, "")?;
    expect(&rt, place(&mut store, 30, 3, 0), true);
    expect(&rt, place(&mut store, 9, 0, 2), true);
    expect(&rt, place(&mut store, 31, 7, 0), true);
    expect(&rt, place(&mut store, 8, 3, 0), true);
    expect(&rt, place(&mut store, 4, 0, 0), true);
    expect(&rt, place(&mut store, 50, 1, 1), true);
    expect_listed(
        &rt,
        rt.alloc(),
        &store,
        "9.0.2W 4.0.0W 50.1.1W 30.3.0W 8.3.0W 31.7.0W ",
    )
}

#[test]
fn a_place_that_may_not_be(rt: HostRuntime) -> Result<(), Fail> {
    let mut store = PlanStore::new();
    expect(&rt, place(&mut store, 1, 8, 0), false);
    expect(&rt, place(&mut store, 1, 2, 0), true);
    expect(&rt, place(&mut store, 1, 3, 0), false);
    expect(&rt, place(&mut store, 2, 2, 0), true);
    expect(&rt, place(&mut store, 3, 2, 0), true);
    expect(&rt, place(&mut store, 4, 2, 0), true);
    expect(&rt, place(&mut store, 5, 2, 0), false);
    expect(&rt, store.count(2), 4);
    expect(&rt, store.count(3), 0);
    expect(&rt, store.ticket_of(5), None);
    expect_listed(&rt, rt.alloc(), &store, "1.2.0W 2.2.0W 3.2.0W 4.2.0W ")
}

#[test]
fn the_first_that_waits_is_handed(rt: HostRuntime) -> Result<(), Fail> {
    let mut store = PlanStore::new();
    expect(&rt, store.hand(), None);
    expect(&rt, place(&mut store, 20, 1, 5), true);
    expect(&rt, place(&mut store, 10, 0, 3), true);
    expect(&rt, place(&mut store, 11, 0, 0), true);
    expect(&rt, store.hand(), Some((10, 3)));
    expect(&rt, store.hand(), Some((11, 0)));
    expect_listed(&rt, rt.alloc(), &store, "10.0.3H 11.0.0H 20.1.5W ")?;
    expect(&rt, renew(&mut store, 10, 4), true);
    expect(&rt, store.hand(), Some((10, 4)));
    expect(&rt, store.hand(), Some((20, 5)));
    expect(&rt, store.hand(), None);
    expect_listed(&rt, rt.alloc(), &store, "10.0.4H 11.0.0H 20.1.5H ")
}

// Fills the window of a channel.
fn fill(store: &mut PlanStore, channel: u8) -> bool {
    let first = u32::from(channel) * 10;
    place(store, first, channel, 0)
        && place(store, first + 1, channel, 0)
        && place(store, first + 2, channel, 0)
        && place(store, first + 3, channel, 0)
}

#[test]
fn a_full_store(rt: HostRuntime) -> Result<(), Fail> {
    let mut store = PlanStore::new();
    for channel in [7, 2, 0, 5, 1, 6, 3, 4] {
        expect(&rt, fill(&mut store, channel), true);
    }
    expect(&rt, store.tickets().len(), 32);
    expect(&rt, place(&mut store, 99, 7, 0), false);
    for _ in 0..32 {
        expect(&rt, store.hand().is_some(), true);
    }
    expect(&rt, store.hand(), None);
    expect_listed(
        &rt,
        rt.alloc(),
        &store,
        "0.0.0H 1.0.0H 2.0.0H 3.0.0H 10.1.0H 11.1.0H 12.1.0H 13.1.0H 20.2.0H 21.2.0H 22.2.0H 23.2.0H 30.3.0H 31.3.0H 32.3.0H 33.3.0H \
        40.4.0H 41.4.0H 42.4.0H 43.4.0H 50.5.0H 51.5.0H 52.5.0H 53.5.0H 60.6.0H 61.6.0H 62.6.0H 63.6.0H 70.7.0H 71.7.0H 72.7.0H 73.7.0H ",
    )
}
