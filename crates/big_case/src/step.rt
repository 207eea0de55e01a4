//! What is drawn: workingsteps, and revisions of them.

/// What a workingstep machines.
#[derive(Clone, Copy, Debug, PartialEq, Eq)]
pub enum Kind {
    Hole,
    Pocket,
    Face,
}

/// A workingstep: what it machines, where its feature lies, and how deep it is. Lengths are in millimetres.
#[derive(Clone, Copy, Debug)]
pub struct Step {
    pub kind: Kind,
    pub x: u32,
    pub y: u32,
    pub depth: u32,
}

/// A new depth, in millimetres, for the workingstep at an index, counted from 0.
#[derive(Clone, Copy, Debug)]
pub struct Revision {
    pub step: u32,
    pub depth: u32,
}
