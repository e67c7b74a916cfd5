//! The limits of a context that is lent.

/// The greatest number of elements of a context that is lent.
pub const MOST_ELEMENTS: u32 = 4_000_000_000;

/// The greatest number of lines of a context that is lent.
pub const MOST_LINES: u32 = 65_737;
