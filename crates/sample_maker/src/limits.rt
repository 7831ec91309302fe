//! How large a sample may be.

/// The least size of a sample.
pub const LEAST_SIZE: u32 = 1;

/// The greatest size of a sample.
pub const MOST_SIZE: u32 = 20;
