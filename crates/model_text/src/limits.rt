//! The limit of finite structures.

/// The greatest number of elements of a structure that a text may give.
pub const MOST_ELEMENTS: u32 = 64;
