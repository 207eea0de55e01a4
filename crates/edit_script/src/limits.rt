//! The limits of a script.

/// How many edits a script has at most (this profile).
pub const MAX_EDITS: u32 = 1_000;

/// How many instances an edit has at most (this profile).
pub const MAX_ITEMS: u32 = 1_000;
