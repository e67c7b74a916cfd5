ghost use Rattle.std.specs.Prelude.{◌≡◌, ◌<◌, ◌^◌, length, List, map, All, IfOk, IfErr, MatchResult};
ghost use Rattle.tptp_lexer.specs.declared.refusal.LexRefusal.{LexRefusal as Refusal};
ghost use Rattle.tptp_lexer.specs.declared.refusal.LexRefusal.TheVariants as refusals;
ghost use Rattle.tptp_lexer.specs.Spans.{token_of, IsWithin};
ghost use Rattle.tptp_lexer.specs.Tokens.{AreTokens, Token};
ghost use Rattle.tptp_lexer.specs.Refused.{LexFault, IsExplained, IsOrMemory};

use crate::piece::{Piece, piece_at};
use crate::refusal::LexRefusal;
use crate::token_list::{Span, Tokens};
use std::alloc::Global;
use text_core::List;

/// The tokens of a source of fewer than 2 ^ 32 bytes, after the TPTP syntax: the longest token at
/// each offset, with only blanks and comments between them. Where the source has none, the refusal
/// tells the first refused offset, and `Memory` is want of memory.
pub fn tokens<'a>(alloc: Global, source: &'a [u8]) -> Result<Tokens<'a>, LexRefusal>
    requires { length source.now < 2 ^ 32 }
    ensures source { IfOk result (λ lexed. lexed.source ≡ source.now) }
    ensures tokens { IfOk result (λ lexed. AreTokens source.now lexed.tokens) }
    ensures refused { IfErr result (λ refusal. IsExplained refusal source.now) }
    // Where the source has tokens, the answer is those, unless memory runs out.
    ensures found { (ts : List Token) → AreTokens source.now ts
        → MatchResult result (λ lexed. lexed.tokens ≡ ts) (λ refusal. refusal ≡ refusals.Memory) }
    // Where the source has a first refused offset, the answer is that one, unless memory runs out.
    ensures told { (fault : Refusal) → LexFault source.now fault
        → MatchResult result (λ lexed. ⊥) (λ refusal. IsOrMemory fault refusal) }
{
    let spans = spans(alloc, source)?;
    Ok(Tokens::new(source, spans))
}

/// The spans of the tokens of a source, or its refusal.
fn spans(alloc: Global, source: &[u8]) -> Result<List<Span>, LexRefusal>
    requires { length source.now < 2 ^ 32 }
    ensures within { IfOk result (λ spans. All (IsWithin source.now) spans) }
    ensures tokens { IfOk result (λ spans. AreTokens source.now (map (token_of source.now) spans)) }
    ensures refused { IfErr result (λ refusal. IsExplained refusal source.now) }
{
    let mut spans = List::new(alloc);
    let mut at = 0;
    loop {
        match piece_at(&source[at..]) {
            Piece::End => return Ok(spans),
            Piece::Gap(len) => at += len,
            Piece::Found(kind, len) => {
                let end = at + len;
                spans.push(Span {
                    kind,
                    start: at as u32,
                    end: end as u32,
                })?;
                at = end;
            }
            Piece::BadByte(offset) => return Err(LexRefusal::BadByte((at + offset) as u32)),
            Piece::OpenQuote => return Err(LexRefusal::OpenQuote(at as u32)),
            Piece::OpenComment => return Err(LexRefusal::OpenComment(at as u32)),
            Piece::EmptyQuote => return Err(LexRefusal::EmptyQuote(at as u32)),
        }
    }
}
