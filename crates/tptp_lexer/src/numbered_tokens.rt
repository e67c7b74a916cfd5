ghost use Rattle.std.specs.Prelude.{◌≡◌, ◌+◌, ◌<◌, length, slice_get, take, unwrap_or, Some, IfOk, IsSomeAnd, OnOk, if◌then◌else◌};
ghost use Rattle.std.specs.Str.{bytes_eq};
ghost use Rattle.text_core.specs.Names.{Text};
ghost use Rattle.tptp_lexer.specs.declared.kind.Kind.TheVariants.{Upper};
ghost use Rattle.tptp_lexer.specs.Numbering.{number_of, number_in, AreNumbers};

use crate::kind::Kind;
use crate::token::Token;
use crate::token_list::Tokens;
use std::alloc::Global;
use std::collections::HashMap;
use std::marker::Model;
use text_core::Memory;

/// The tokens of a source with a number for each upper word: that of the first token that is this
/// word. Contracts see the list of tokens.
#[derive(Debug, Drop)]
pub struct NumberedTokens<'t, 'a> {
    tokens: &'t Tokens<'a>,
    numbers: HashMap<&'a [u8], u32>,
}

impl<'t, 'a> Model for NumberedTokens<'t, 'a> {
    ghost use Rattle.std.specs.Prelude.{List};
    ghost use Rattle.tptp_lexer.specs.Tokens.{Token as Seen};
    ghost use Rattle.tptp_lexer.specs.Numbering.{number_in, AreNumbers};

    ghost Value = { List Seen };

    ghost view = { λ it. it.tokens.now.tokens };

    ghost invariant = { λ it. AreNumbers it.tokens.now.tokens (number_in it.numbers) };
}

impl<'t, 'a> NumberedTokens<'t, 'a> {
    /// All tokens of the source. `Memory` is want of memory.
    pub fn new(alloc: Global, tokens: &'t Tokens<'a>) -> Result<NumberedTokens<'t, 'a>, Memory>
        ensures { IfOk result (λ numbered. numbered ≡ tokens.now.tokens) }
    {
        // A source has no more tokens than bytes, so a token's number fits.
        tokens.source_len();
        let mut numbers = HashMap::new(alloc);
        for number in 0..tokens.len() as u32 {
            number_token(tokens, number, &mut numbers)?;
        }
        Ok(NumberedTokens { tokens, numbers })
    }

    /// The number of tokens.
    pub fn len(&self) -> usize
        ensures { result ≡ length self.now }
    {
        self.tokens.len()
    }

    /// The token with this number, which is below `len`.
    pub fn token(&self, number: usize) -> Token<'a>
        requires { number < length self.now }
        ensures { slice_get self.now number ≡ Some result }
    {
        self.tokens.token(number)
    }

    /// The number of the upper word that the token with this number is: that of the first token
    /// that is this word.
    pub fn word_number(&self, number: usize) -> u32
        requires { IsSomeAnd (slice_get self.now number) (λ t. t.kind ≡ Upper) }
        ensures { IsSomeAnd (slice_get self.now number)
            (λ t. result ≡ number_of self.now t.text) }
    {
        let token = self.tokens.token(number);
        let text = token.text();
        number_of(&self.numbers, text)
    }
}

// The number of the word, or 0 where it has none.
fn number_of<'a>(numbers: &HashMap<&'a [u8], u32>, word: &'a [u8]) -> u32
    ensures { result ≡ unwrap_or (number_in numbers.now word.now) 0 }
{
    match numbers.get(word) {
        Some(number) => *number,
        None => 0,
    }
}

// Numbers the word of the token of this number, where it is an upper word.
fn number_token<'a>(
    tokens: &Tokens<'a>,
    number: u32,
    numbers: &mut HashMap<&'a [u8], u32>,
) -> Result<(), Memory>
    requires within { number < length tokens.now.tokens }
    requires before { AreNumbers (take number tokens.now.tokens) (number_in numbers.old) }
    ensures { OnOk result (AreNumbers (take (number + 1) tokens.now.tokens)
        (number_in numbers.new)) }
{
    let token = tokens.token(number as usize);
    let text = token.text();
    match token.kind() {
        Kind::Upper => {
            numbered(numbers, text, number)?;
            Ok(())
        }
        _ => Ok(()),
    }
}

// The number of the word, which is this one where it has none.
fn numbered<'a>(
    numbers: &mut HashMap<&'a [u8], u32>,
    word: &'a [u8],
    number: u32,
) -> Result<u32, Memory>
    ensures given { IfOk result (λ given. given ≡ unwrap_or
        (number_in numbers.old word.now) number) }
    ensures noted { IfOk result (λ given. (text : Text) → number_in numbers.new text
        ≡ (if bytes_eq word.now text then Some given else number_in numbers.old text)) }
{
    match numbers.get(word) {
        Some(given) => Ok(*given),
        None => {
            numbers.insert(word, number)?;
            Ok(number)
        }
    }
}
