ghost use Rattle.std.specs.Prelude.{◌≡◌, max, true, false};
ghost use Rattle.coherent_form.specs.Counts.{product as product_counts, sum as sum_counts, bound as bound_counts, saturated, one_atom, no_atom, no_form, AreSmall};

use text_core::{MOST_ARGUMENTS, MOST_FORM_ATOMS, MOST_FORM_VARIABLES, MOST_FORMULA_FORMS};

/// How many alternatives or forms a reading has, and the greatest numbers of variables and atoms of
/// one of them and of arguments of an atom. A number above 4,294,967,295 is told as 4,294,967,295.
#[derive(Clone, Copy, Debug)]
pub(crate) struct Counts {
    pub(crate) forms: u32,
    pub(crate) variables: u32,
    pub(crate) atoms: u32,
    pub(crate) arguments: u32,
}

fn greater(first: u32, second: u32) -> u32
    ensures { result ≡ max first second }
{
    if first < second { second } else { first }
}

impl Counts {
    /// A conjunction of one atom.
    pub(crate) fn atom(arguments: usize) -> Counts
        ensures { result ≡ saturated (one_atom arguments) }
    {
        let arguments = if arguments < u32::MAX as usize {
            arguments as u32
        } else {
            u32::MAX
        };
        Counts {
            forms: 1,
            variables: 0,
            atoms: 1,
            arguments,
        }
    }

    /// The empty conjunction.
    pub(crate) fn nothing() -> Counts
        ensures { result ≡ saturated no_atom }
    {
        Counts {
            forms: 1,
            variables: 0,
            atoms: 0,
            arguments: 0,
        }
    }

    /// Nothing at all.
    pub(crate) fn none() -> Counts
        ensures { result ≡ saturated no_form }
    {
        Counts {
            forms: 0,
            variables: 0,
            atoms: 0,
            arguments: 0,
        }
    }

    /// Each of one reading with each of another.
    pub(crate) fn product(self, other: Counts) -> Counts
        ensures { result ≡ saturated (product_counts self other) }
    {
        Counts {
            forms: self.forms.saturating_mul(other.forms),
            variables: self.variables.saturating_add(other.variables),
            atoms: self.atoms.saturating_add(other.atoms),
            arguments: greater(self.arguments, other.arguments),
        }
    }

    /// All of one reading and all of another.
    pub(crate) fn sum(self, other: Counts) -> Counts
        ensures { result ≡ saturated (sum_counts self other) }
    {
        Counts {
            forms: self.forms.saturating_add(other.forms),
            variables: greater(self.variables, other.variables),
            atoms: greater(self.atoms, other.atoms),
            arguments: greater(self.arguments, other.arguments),
        }
    }

    /// With so many variables in front.
    pub(crate) fn bound(self, count: usize) -> Counts
        ensures { result ≡ saturated (bound_counts count self) }
    {
        let count = if count < u32::MAX as usize {
            count as u32
        } else {
            u32::MAX
        };
        Counts {
            variables: count.saturating_add(self.variables),
            ..self
        }
    }

    /// Whether all are within the limits of the forms of a formula.
    pub(crate) fn are_small(self) -> bool
        ensures small { result ≡ true → AreSmall self }
        ensures large { result ≡ false → AreSmall self → ⊥ }
    {
        self.forms <= MOST_FORMULA_FORMS
            && self.variables <= MOST_FORM_VARIABLES
            && self.atoms <= MOST_FORM_ATOMS
            && self.arguments <= MOST_ARGUMENTS
    }
}
