//! The limits of this profile.

/// How many parentheses may be open at once: in an instance all of its own, but for the outer ones of a complex instance, and in an entry of
/// the header (this profile).
pub const MAX_NESTING: u32 = 32;

/// How many instances a file has at most (this profile).
pub const MAX_INSTANCES: usize = 200_000;
