//! How large a tree may be (this profile).

/// How many executables may lie in each other, the main workplan counted as the first.
pub const MAX_TREE_NESTING: u32 = 64;

/// The most executables, together with the nodes of their expressions.
pub const MAX_TREE_NODES: u32 = 65_535;

/// The most nodes of one executable's expression.
pub const MAX_EXPRESSION_NODES: u32 = 1_000;

/// The most channels that a tree may name.
pub const MAX_CHANNELS: u8 = 8;
