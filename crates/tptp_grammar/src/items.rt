ghost use Rattle.std.specs.Prelude.{◌≡◌, ◌⊎◌, IfOk, IfErr, OnOk};
ghost use Rattle.text_core.specs.Exact.{Exact};
ghost use Rattle.tptp_grammar.specs.declared.refusal.SyntaxRefusal.TheVariants as refusals;
ghost use Rattle.tptp_grammar.specs.Marks.{marks_of};
ghost use Rattle.tptp_grammar.specs.Told.{Tells, IsAcceptedText, IsMachineRefusal, limited};
ghost use Rattle.tptp_grammar.specs.Spells.{AreItemsOf};
ghost use Rattle.tptp_grammar.specs.Texts as texts;
ghost use Rattle.tptp_grammar.specs.Texts.{SyntaxFault};

use crate::item_part::ItemPart;
use crate::item_reader::read_text;
use crate::limit::Limit;
use crate::mark::Mark;
use crate::refusal::SyntaxRefusal;
use crate::scopes::Scopes;
use logic_core::{Items, Memory};
use std::alloc::Global;
use token_grammar::{Refusal, Source, recognize};
use tptp_lexer::{Kind, NotRead, NumberedTokens, Tokens};

/// Whether a token that is refused behind this part's token would make a term with arguments.
fn makes_function(last: Option<ItemPart>, mark: Mark) -> bool
    ensures { result ≡ texts.makes_function last mark }
{
    match (last, mark) {
        (Some(ItemPart::Word), Mark::Other(Kind::OpenParenthesis)) => true,
        (Some(ItemPart::ClosesArguments), Mark::Other(Kind::Equal | Kind::NotEqual)) => true,
        _ => false,
    }
}

/// The refusal by the watcher of the token at this offset of the source.
fn limited(limit: Limit, offset: u32) -> SyntaxRefusal
    ensures { result ≡ limited limit offset }
{
    match limit {
        Limit::TooDeep => SyntaxRefusal::TooDeep(offset),
        Limit::UnknownRole => SyntaxRefusal::Role(offset),
        Limit::FreeVariable => SyntaxRefusal::FreeVariable(offset),
    }
}

/// How the machine's refusal of the tokens is told.
fn told(
    tokens: &Tokens<'_>,
    numbered: &NumberedTokens<'_, '_>,
    refusal: Refusal<ItemPart, Limit>,
) -> SyntaxRefusal
    requires numbered { numbered.now ≡ tokens.now.tokens }
    requires refused { IsMachineRefusal tokens.now refusal }
    ensures { Tells tokens.now refusal result }
{
    match refusal {
        Refusal::Memory => SyntaxRefusal::Memory,
        Refusal::Unexpected { number, last } => {
            let offset = tokens.start(number);
            if makes_function(last, numbered.mark(number)) {
                SyntaxRefusal::FunctionTerm(offset)
            } else {
                SyntaxRefusal::Unexpected(offset)
            }
        }
        Refusal::Stopped { number, fault } => limited(fault, tokens.start(number)),
        Refusal::EndsEarly => SyntaxRefusal::EndOfText(tokens.source_len()),
    }
}

/// Whether the tokens are a text, by the machine that reads any grammar.
fn check_text(alloc: Global, tokens: &Tokens<'_>) -> Result<(), SyntaxRefusal>
    ensures accepted { OnOk result (IsAcceptedText (marks_of tokens.now.tokens)) }
    ensures refused { IfErr result (λ refusal. (refusal ≡ refusals.Memory) ⊎
        SyntaxFault tokens.now refusal) }
{
    let numbered = NumberedTokens::new(alloc, tokens)?;
    let mut scopes = Scopes::new(alloc);
    match recognize(alloc, ItemPart::Items, &numbered, &mut scopes) {
        Ok(()) => Ok(()),
        Err(refusal) => Err(told(tokens, &numbered, refusal)),
    }
}

/// The items that tokens are a text of, where the machine accepts them. `Memory` is want of memory.
fn read_accepted(alloc: Global, tokens: &Tokens<'_>) -> Result<Items, Memory>
    requires { IsAcceptedText (marks_of tokens.now.tokens) }
    ensures { IfOk result (λ items. AreItemsOf tokens.now.tokens items) }
{
    // The tokens are those of their source.
    tokens.source_len();
    match read_text(alloc, tokens) {
        Ok(items) => Ok(items),
        Err(NotRead::Memory) => Err(Memory),
        Err(NotRead::NoText) => unreachable!(),
    }
}

/// The items that the tokens of a source are a text of. Otherwise the refusal of the first token
/// that is refused, or of the end of the text; `Memory` is want of memory. Source: the TPTP syntax,
/// FOF.
pub fn read_items(alloc: Global, tokens: &Tokens<'_>) -> Result<Items, SyntaxRefusal>
    // The items that there are, or the refusal that there is; want of memory may come in place of
    // either.
    ensures { Exact (AreItemsOf tokens.now.tokens) (SyntaxFault tokens.now) refusals.Memory result }
{
    match check_text(alloc, tokens) {
        Ok(()) => Ok(read_accepted(alloc, tokens)?),
        Err(refusal) => Err(refusal),
    }
}
