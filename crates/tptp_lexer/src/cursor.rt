ghost use Rattle.std.specs.Prelude.{◌≡◌, length};
ghost use Rattle.tptp_lexer.specs.First.{first_of};

use crate::token::Token;
use crate::token_list::Tokens;
use std::marker::Model;

/// The tokens of a source from a number on. Contracts see the list of these.
#[derive(Debug, Drop)]
pub struct Cursor<'t, 'a> {
    tokens: &'t Tokens<'a>,
    number: usize,
}

impl<'t, 'a> Model for Cursor<'t, 'a> {
    ghost use Rattle.std.specs.Prelude.{◌≤◌, List, drop, length};
    ghost use Rattle.tptp_lexer.specs.Tokens.{Token};

    ghost Value = { List Token };

    ghost view = { λ it. drop it.number it.tokens.now.tokens };

    ghost invariant = { λ it. it.number ≤ length it.tokens.now.tokens };
}

impl<'a> Tokens<'a> {
    /// All tokens, from the first on.
    pub fn cursor(&self) -> Cursor<'_, 'a>
        ensures { result ≡ self.now.tokens }
    {
        Cursor {
            tokens: self,
            number: 0,
        }
    }
}

impl<'t, 'a> Cursor<'t, 'a> {
    /// The number of tokens from here on.
    pub fn len(&self) -> usize
        ensures { result ≡ length self.now }
    {
        self.tokens.len() - self.number
    }

    /// The first of the tokens and a cursor to those behind it; `None` behind the last.
    pub fn next(&self) -> Option<(Token<'a>, Cursor<'t, 'a>)>
        ensures { result ≡ first_of self.now }
    {
        if self.number < self.tokens.len() {
            let token = self.tokens.token(self.number);
            let behind = Cursor {
                tokens: self.tokens,
                number: self.number + 1,
            };
            Some((token, behind))
        } else {
            None
        }
    }
}
