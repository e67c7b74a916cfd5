//! The limit that proof texts alone have.

/// The greatest number of rule applications that a gap may allow for.
pub const MOST_WITHIN: u32 = 200;
