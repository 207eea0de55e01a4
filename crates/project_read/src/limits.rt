//! How large a project file may be.

/// How many bytes a project file has at most (this profile).
pub const MAX_PROJECT_BYTES: usize = 16_777_216;
