//! The limits of what is read. Each is told once, here, and clauses cite it.

/// The greatest number of bytes of one file.
pub const MOST_FILE_BYTES: u32 = 4_194_304;

/// The greatest number of bytes of all files of a problem, each fetch counted.
pub const MOST_PROBLEM_BYTES: u32 = 8_388_608;

/// The greatest number of files that are included one in another, the first file counted.
pub const MOST_FILES: u32 = 17;

/// The greatest number of formulas of a problem.
pub const MOST_FORMULAS: u32 = 65_536;

/// The greatest number of levels that are open at a token of a formula or an annotation: brackets,
/// negations and quantifiers open levels.
pub const MOST_LEVELS: u32 = 200;

/// The greatest number of rule applications of a proof.
pub const MOST_APPLICATIONS: u32 = 65_536;

/// The greatest number of case splits around a step of a proof.
pub const MOST_SPLITS: u32 = 200;

/// The greatest number of coherent forms that one formula gives.
pub const MOST_FORMULA_FORMS: u32 = 1_024;

/// The greatest number of variables of a coherent form, universal and existential ones together.
pub const MOST_FORM_VARIABLES: u32 = 64;

/// The greatest number of atoms of a coherent form, premises and disjuncts together.
pub const MOST_FORM_ATOMS: u32 = 1_024;

/// The greatest number of arguments of an atom of a coherent form.
pub const MOST_ARGUMENTS: u32 = 32;

/// The greatest number of coherent forms of a problem's premises.
pub const MOST_FORMS: u32 = 65_536;

/// The greatest number of atoms of all coherent forms of a problem's premises.
pub const MOST_ATOMS: u32 = 4_194_304;

/// The greatest number of argument places of all named symbols of a problem, each symbol counted
/// once.
pub const MOST_PLACES: u32 = 262_144;
