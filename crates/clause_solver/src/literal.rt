ghost use Rattle.std.specs.Prelude.{◌≡◌, not};

/// A variable, told by its number, or its opposite.
#[derive(Clone, Copy, PartialEq, Eq, Debug)]
pub struct Literal {
    pub variable: u32,
    pub positive: bool,
}

impl Literal {
    /// The literal that is true exactly where this one is not.
    pub(crate) fn opposite(self) -> Literal
        ensures { result ≡ record { variable = self.variable; positive = not self.positive } }
    {
        Literal {
            variable: self.variable,
            positive: !self.positive,
        }
    }

    /// The place of the variable in a table of variables.
    pub(crate) fn place(self) -> usize
        ensures { result ≡ self.variable }
    {
        self.variable as usize
    }
}
