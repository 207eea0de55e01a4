//! A gate at which a test can hold a worker.

/// Where a worker passes the gate.
#[derive(Clone, Copy, Debug, PartialEq, Eq)]
pub enum GatePoint {
    BeforeEntry,
    AfterEntry,
    BeforePlan,
    AfterKept,
}

/// Workers call it outside the lock. It changes nothing that a contract names.
pub trait Gate {
    /// `who` is the actor's number, and 16 + i for planner i.
    fn pass(&self, who: u8, point: GatePoint);
}

/// A gate that holds nobody.
#[derive(Clone, Copy, Debug, PartialEq, Eq)]
pub struct FreeGate;

impl Gate for FreeGate {
    fn pass(&self, _who: u8, _point: GatePoint) {}
}
