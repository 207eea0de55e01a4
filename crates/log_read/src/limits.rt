//! The ranges of a log's numbers that no lower crate names, and the length of its text (this profile).

/// How many bytes the text of a log has at most where it is read from a file.
pub const MAX_LOG_BYTES: usize = 268_435_456;

/// The greatest version of a workingstep: a script has at most 1,000 edits, each of which raises it by one at most.
pub const MAX_VERSION: u32 = 1_000;

/// The greatest index of an edit in its script, counted from 0.
pub const MAX_EDIT: u32 = 999;

/// The greatest number of a rule that refuses an edit; the least is 1.
pub const MAX_RULE: u32 = 5;

/// The greatest index of an element that is chosen, counted from 0.
pub const MAX_PICK: u32 = 65_534;

/// The greatest size of a spindle speed, in thousandths of a turn a second, and the greatest feed, in thousandths of its unit, and dwell, in
/// milliseconds; the least feed and dwell are 1.
pub const MAX_RATE: u32 = 100_000_000;
