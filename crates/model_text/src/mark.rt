ghost use Rattle.std.specs.Prelude.{◌≡◌};
ghost use Rattle.model_text.specs.Grammar as grammar;
ghost use Rattle.model_text.specs.Values as values;

/// What the grammar looks at in a token. A word has the number of its name among the names of the
/// text's words.
#[derive(Clone, Copy, Debug)]
pub enum Mark {
    /// `model`
    Model(u32),
    /// `size`
    Size(u32),
    /// `place`
    Place(u32),
    /// `is`
    Is(u32),
    /// `fact`
    Fact(u32),
    /// Another word.
    Word(u32),
    /// `1`
    One,
    /// Another number, up to 2 ^ 32 - 1.
    Number(u32),
    /// `(`
    Open,
    /// `)`
    Close,
    /// `,`
    Comma,
    /// `.`
    Dot,
    /// A token that stands nowhere in the text of a model.
    Other,
}

impl Mark {
    /// A word, which may be a keyword.
    pub(crate) fn is_word(self) -> bool
        ensures { result ≡ grammar.is_word self }
    {
        matches!(
            self,
            Mark::Model(_)
                | Mark::Size(_)
                | Mark::Place(_)
                | Mark::Is(_)
                | Mark::Fact(_)
                | Mark::Word(_)
        )
    }

    /// A number.
    pub(crate) fn is_number(self) -> bool
        ensures { result ≡ grammar.is_number self }
    {
        matches!(self, Mark::One | Mark::Number(_))
    }

    /// The number of a word's name, or 0.
    pub(crate) fn word(self) -> u32
        ensures { result ≡ values.word_in self }
    {
        match self {
            Mark::Model(word)
            | Mark::Size(word)
            | Mark::Place(word)
            | Mark::Is(word)
            | Mark::Fact(word)
            | Mark::Word(word) => word,
            _ => 0,
        }
    }

    /// The number that the token tells, or 0.
    pub(crate) fn number(self) -> u32
        ensures { result ≡ values.number_of self }
    {
        match self {
            Mark::One => 1,
            Mark::Number(number) => number,
            _ => 0,
        }
    }
}
