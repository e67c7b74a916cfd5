ghost use Rattle.std.specs.Prelude.{◌≡◌};
ghost use Rattle.proof_text.specs.Lines as lines;

/// How lines are written.
#[derive(Clone, Copy, Debug)]
pub enum Wording {
    /// With the signs of a proof text.
    Signs,
    /// With English words.
    English,
}

impl Wording {
    // What stands before the predicate of a complement.
    pub(crate) fn negation(self) -> &'static [u8]
        ensures { result.now ≡ lines.negation self }
    {
        match self {
            Wording::Signs => b"~",
            Wording::English => b"not ",
        }
    }

    // What stands between facts.
    pub(crate) fn conjunction(self) -> &'static [u8]
        ensures { result.now ≡ lines.conjunction self }
    {
        match self {
            Wording::Signs => b" & ",
            Wording::English => b" and ",
        }
    }

    // What stands between cases.
    pub(crate) fn disjunction(self) -> &'static [u8]
        ensures { result.now ≡ lines.disjunction self }
    {
        match self {
            Wording::Signs => b" | ",
            Wording::English => b" or ",
        }
    }

    // What stands for no facts.
    pub(crate) fn truth(self) -> &'static [u8]
        ensures { result.now ≡ lines.truth self }
    {
        match self {
            Wording::Signs => b"$true",
            Wording::English => b"true",
        }
    }

    // What stands for falsehood.
    pub(crate) fn falsehood(self) -> &'static [u8]
        ensures { result.now ≡ lines.falsehood self }
    {
        match self {
            Wording::Signs => b"$false",
            Wording::English => b"a contradiction",
        }
    }
}
