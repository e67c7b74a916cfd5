//! The limits of a task, which no problem within the limits of `text_core` passes.

/// The greatest number of symbols of a task, equality counted.
pub const MOST_SYMBOLS: u32 = 67_108_865;

/// The greatest number of constants of a task.
pub const MOST_CONSTANTS: u32 = 2_147_483_648;

/// The greatest number of start elements of a task: constants and parameters.
pub const MOST_START_ELEMENTS: u32 = 2_147_483_712;

/// The number that the forms of a task are below, built-in axioms counted.
pub const TASK_FORMS_BELOW: u32 = 200_000_000;
