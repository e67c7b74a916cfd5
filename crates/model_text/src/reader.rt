ghost use Rattle.std.specs.Prelude.{◌≡◌, ◌<◌, ◌^◌, length};
ghost use Rattle.text_core.specs.Exact.{Exact};
ghost use Rattle.model_text.specs.Texts.{IsModelOf, AreModelOf, ModelFault, TokensFault};
ghost use Rattle.model_text.specs.Told.{Tells, IsMachineRefusal, lexical, faulty};
ghost use Rattle.model_text.specs.declared.refusal.ModelRefusal.TheVariants as refusals;

use crate::builder::ModelBuilder;
use crate::part::ModelPart::{self, Row};
use crate::part::Rule;
use crate::refusal::ModelRefusal;
use crate::structure::Model;
use crate::watch::{Fault, Watch};
use crate::word_tokens::WordTokens;
use std::alloc::Global;
use token_grammar::{Refusal, build};
use tptp_lexer::{LexRefusal, Tokens, tokens};

/// The refusal by the watcher of the token at this offset.
fn faulty(fault: Fault, offset: u32) -> ModelRefusal
    ensures { result ≡ faulty fault offset }
{
    match fault {
        Fault::Range => ModelRefusal::ModelRange(offset),
        Fault::Twice => ModelRefusal::ModelTwice(offset),
    }
}

/// How the lexer's refusal is told.
fn lexical(refusal: LexRefusal) -> ModelRefusal
    ensures { result ≡ lexical refusal }
{
    match refusal {
        LexRefusal::Memory => ModelRefusal::Memory,
        _ => ModelRefusal::Lex(refusal),
    }
}

/// How the machine's refusal of the tokens is told.
fn told(tokens: &Tokens<'_>, refusal: Refusal<ModelPart, Fault>) -> ModelRefusal
    requires { IsMachineRefusal tokens.now.tokens refusal }
    ensures { Tells tokens.now refusal result }
{
    match refusal {
        Refusal::Memory => ModelRefusal::Memory,
        Refusal::Unexpected { number, .. } => ModelRefusal::ModelSyntax(tokens.start(number)),
        Refusal::Stopped { number, fault } => faulty(fault, tokens.start(number)),
        Refusal::EndsEarly => ModelRefusal::ModelSyntax(tokens.source_len()),
    }
}

/// The structure that the tokens spell, or the refusal of the first that is refused, or of the end.
fn read_tokens(alloc: Global, tokens: &Tokens<'_>) -> Result<Model, ModelRefusal>
    ensures { Exact (AreModelOf tokens.now.tokens) (TokensFault tokens.now.tokens
        (length tokens.now.source)) refusals.Memory result }
{
    let words = WordTokens::new(alloc, tokens)?;
    let mut watch = Watch::new(alloc);
    let mut builder = ModelBuilder::new(alloc);
    match build(alloc, Row(Rule::Text), &words, &mut watch, &mut builder) {
        Ok(()) => Ok(builder.into_model()),
        Err(refusal) => Err(told(tokens, refusal)),
    }
}

/// The structure that fewer than 2 ^ 32 bytes spell, or their refusal: that of the lexer where they
/// have no tokens, else that of the first token that is refused, or of the end. `Memory` is want of
/// memory.
pub fn read_model(alloc: Global, bytes: &[u8]) -> Result<Model, ModelRefusal>
    requires { length bytes.now < 2 ^ 32 }
    // The structure that there is, or the refusal that there is; want of memory may come in place
    // of either.
    ensures { Exact (IsModelOf bytes.now) (ModelFault bytes.now) refusals.Memory result }
{
    match tokens(alloc, bytes) {
        Ok(tokens) => read_tokens(alloc, &tokens),
        Err(refusal) => Err(lexical(refusal)),
    }
}
