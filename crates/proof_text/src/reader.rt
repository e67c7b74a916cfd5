ghost use Rattle.std.specs.Prelude.{◌≡◌, ◌⊎◌, ◌<◌, ◌^◌, length, IfOk, IfErr};
ghost use Rattle.text_core.specs.Exact.{Exact};
ghost use Rattle.proof_text.specs.Scripts.{IsScriptOf, AreScriptOf, ProofFault, TokensFault};
ghost use Rattle.proof_text.specs.Told.{Tells, IsMachineRefusal, lexical, limited};
ghost use Rattle.proof_text.specs.declared.refusal.ScriptRefusal.TheVariants as refusals;

use crate::builder::ScriptBuilder;
use crate::part::Rule;
use crate::part::TextPart::{self, Row};
use crate::refusal::ScriptRefusal;
use crate::script::Script;
use crate::watch::{Limit, Tally};
use std::alloc::Global;
use token_grammar::{Refusal, build};
use tptp_lexer::{LexRefusal, Tokens, tokens};

/// The refusal by the watcher of the token at this offset.
fn limited(limit: Limit, offset: u32) -> ScriptRefusal
    ensures { result ≡ limited limit offset }
{
    match limit {
        Limit::Version => ScriptRefusal::ProofVersion(offset),
        Limit::TooLarge => ScriptRefusal::ProofTooLarge(offset),
        Limit::TooDeep => ScriptRefusal::CasesTooDeep(offset),
    }
}

/// How the lexer's refusal is told.
fn lexical(refusal: LexRefusal) -> ScriptRefusal
    ensures { result ≡ lexical refusal }
{
    match refusal {
        LexRefusal::Memory => ScriptRefusal::Memory,
        _ => ScriptRefusal::Lex(refusal),
    }
}

/// How the machine's refusal of the tokens is told.
fn told(tokens: &Tokens<'_>, refusal: Refusal<TextPart, Limit>) -> ScriptRefusal
    requires { IsMachineRefusal tokens.now.tokens refusal }
    ensures { Tells tokens.now refusal result }
{
    match refusal {
        Refusal::Memory => ScriptRefusal::Memory,
        Refusal::Unexpected { number, .. } => ScriptRefusal::ProofSyntax(tokens.start(number)),
        Refusal::Stopped { number, fault } => limited(fault, tokens.start(number)),
        Refusal::EndsEarly => ScriptRefusal::ProofSyntax(tokens.source_len()),
    }
}

/// The script that the tokens spell, or the refusal of the first that is refused, or of the end.
fn read_tokens(alloc: Global, tokens: &Tokens<'_>) -> Result<Script, ScriptRefusal>
    ensures { Exact (AreScriptOf tokens.now.tokens) (TokensFault tokens.now.tokens
        (length tokens.now.source)) refusals.Memory result }
{
    // The tokens are those of their source.
    tokens.source_len();
    let mut tally = Tally {
        applications: 0,
        splits: 0,
    };
    let mut builder = ScriptBuilder::new(alloc);
    match build(alloc, Row(Rule::Text), tokens, &mut tally, &mut builder) {
        Ok(()) => Ok(builder.into_script()),
        Err(refusal) => Err(told(tokens, refusal)),
    }
}

/// The script that fewer than 2 ^ 32 bytes spell, or their refusal: that of the lexer where they
/// have no tokens, else that of the first token that is refused, or of the end. `Memory` is want of
/// memory. Source: the vernacular for coherent logic, with named instances and gaps in version 2.
pub fn read_script(alloc: Global, bytes: &[u8]) -> Result<Script, ScriptRefusal>
    requires { length bytes.now < 2 ^ 32 }
    // The script that there is, or the refusal that there is; want of memory may come in place of
    // either.
    ensures { Exact (IsScriptOf bytes.now) (ProofFault bytes.now) refusals.Memory result }
{
    match tokens(alloc, bytes) {
        Ok(tokens) => read_tokens(alloc, &tokens),
        Err(refusal) => Err(lexical(refusal)),
    }
}
