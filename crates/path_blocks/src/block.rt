//! One move of the machine.

/// A block. Lengths are in thousandths of a millimetre. The kinds are this profile's own.
#[derive(Clone, Copy, Debug, PartialEq, Eq)]
pub enum Block {
    /// The tool with this instance number, at this spindle speed (thousandths of a turn a second).
    Tool { tool: u32, spindle: i64 },
    /// A rapid move to a point, as fast as the machine goes.
    Rapid { x: i64, y: i64, z: i64 },
    /// A feed to a point, at `f` thousandths of the unit that the file has for feeds.
    Feed { x: i64, y: i64, z: i64, f: i64 },
    /// A wait, in milliseconds.
    Dwell { ms: i64 },
}
