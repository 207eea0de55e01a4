//! Tests of plan_store.
#![tactic(auto)]

#[cfg(test)]
mod calls;
#[cfg(test)]
mod expected;
#[cfg(test)]
mod plans;
#[cfg(test)]
mod tickets;
