//! The limits of a definition, which are this profile's own.

/// The most blocks that one path has.
pub const MAX_BLOCKS: u64 = 20_000;

/// The greatest size of a length, height, feed, speed or time of a definition, in thousandths of its unit.
pub const MAX_SIZE: u64 = 200_000_000;
