ghost use Rattle.std.specs.Prelude.{◌≡◌, ◌||◌};
ghost use Rattle.proof_text.specs.Grammar as grammar;
ghost use Rattle.proof_text.specs.Grammar.{is_fixed};
ghost use Rattle.proof_text.specs.Values.{marked_number};
ghost use Rattle.proof_text.specs.declared.fixed.Fixed.TheVariants.{True, Tilde, Equal};

use crate::fixed::Fixed;

/// What the grammar looks at in an integer.
#[derive(Clone, Copy, Debug)]
pub enum Integer {
    /// `1`
    One,
    /// `2`
    Two,
    /// A number from 3 to `MOST_WITHIN`.
    Few(u32),
    /// 0, or a greater number, up to 2 ^ 32 - 1.
    Number(u32),
    /// An integer with a sign, or a greater one.
    NoNumber,
}

/// What the grammar looks at in a token.
#[derive(Clone, Copy, Debug)]
pub enum Mark {
    /// A token with one text.
    Fixed(Fixed),
    /// A lower word that is no keyword, or a quoted word.
    Word,
    /// An upper word.
    Upper,
    /// An integer.
    Integer(Integer),
    /// A token that stands nowhere in a proof text.
    Other,
}

/// A token as the grammar sees it: its mark, and its number among the tokens, from 0, by which its
/// name is found.
#[derive(Clone, Copy, Debug)]
pub struct Token {
    pub mark: Mark,
    pub number: usize,
}

impl Mark {
    /// A word, which may be a keyword.
    pub(crate) fn is_word(self) -> bool
        ensures { result ≡ grammar.is_word self }
    {
        match self {
            Mark::Fixed(fixed) => fixed.is_keyword(),
            Mark::Word => true,
            _ => false,
        }
    }

    /// A word or an integer.
    pub(crate) fn is_name(self) -> bool
        ensures { result ≡ grammar.is_name self }
    {
        matches!(self, Mark::Integer(_)) || self.is_word()
    }

    /// A number from 1 to `MOST_WITHIN`.
    pub(crate) fn is_few(self) -> bool
        ensures { result ≡ grammar.is_few self }
    {
        matches!(
            self,
            Mark::Integer(Integer::One | Integer::Two | Integer::Few(_))
        )
    }

    /// A number.
    pub(crate) fn is_number(self) -> bool
        ensures { result ≡ grammar.is_number self }
    {
        matches!(self, Mark::Integer(Integer::Number(_))) || self.is_few()
    }

    /// An integer other than 1 and 2.
    pub(crate) fn is_wrong_version(self) -> bool
        ensures { result ≡ grammar.is_wrong_version self }
    {
        matches!(
            self,
            Mark::Integer(Integer::Few(_) | Integer::Number(_) | Integer::NoNumber)
        )
    }

    /// The token with this text.
    pub(crate) fn is_fixed(self, fixed: Fixed) -> bool
        ensures { result ≡ grammar.is_fixed fixed self }
    {
        match self {
            Mark::Fixed(other) => fixed.is(other),
            _ => false,
        }
    }

    /// What begins an atom: a word or `~`.
    pub(crate) fn begins_atom(self) -> bool
        ensures { result ≡ (is_fixed Tilde self || grammar.is_word self) }
    {
        self.is_fixed(Fixed::Tilde) || self.is_word()
    }

    /// What begins facts: `$true`, or an atom.
    pub(crate) fn begins_facts(self) -> bool
        ensures { result ≡ (is_fixed True self || is_fixed Tilde self || grammar.is_word self) }
    {
        self.is_fixed(Fixed::True) || self.begins_atom()
    }

    /// What begins a symbol: a word or `=`.
    pub(crate) fn begins_symbol(self) -> bool
        ensures { result ≡ (is_fixed Equal self || grammar.is_word self) }
    {
        self.is_fixed(Fixed::Equal) || self.is_word()
    }

    /// The number that the token tells, or 0.
    pub(crate) fn number(self) -> u32
        ensures { result ≡ marked_number self }
    {
        match self {
            Mark::Integer(Integer::One) => 1,
            Mark::Integer(Integer::Two) => 2,
            Mark::Integer(Integer::Few(number) | Integer::Number(number)) => number,
            _ => 0,
        }
    }
}
