ghost use Rattle.std.specs.Prelude.{◌≡◌};
ghost use Rattle.tptp_grammar.specs.Marks.{marks_of};

use crate::mark::{Mark, mark_of};
use token_grammar::Source;
use tptp_lexer::{Kind, NumberedTokens};

impl<'t, 'a> Source<Mark> for NumberedTokens<'t, 'a> {
    ghost marks = { λ tokens. marks_of tokens };

    fn count(&self) -> usize {
        self.len()
    }

    fn mark(&self, number: usize) -> Mark {
        let token = self.token(number);
        match token.kind() {
            Kind::Upper => Mark::Upper(self.word_number(number)),
            kind => mark_of(kind, token.text()),
        }
    }
}
