ghost use Rattle.std.specs.Prelude.{◌≡◌, ◌≢◌, ◌⊎◌, ◌<◌, ◌≤◌, ◌^◌, ◌++◌, length, drop, None, IfOk, IfErr};
ghost use Rattle.text_core.specs.Exact.{Exact};
ghost use Rattle.isar_text.specs.Heads.{isar_head};
ghost use Rattle.isar_text.specs.Scripts as scripts;
ghost use Rattle.isar_text.specs.Scripts.{IsIsarOf, IsarFault, AreBodyOf, RestFault, seen_in};
ghost use Rattle.isar_text.specs.Told.{Tells, LimitTold, IsMachineRefusal};
ghost use Rattle.isar_text.specs.declared.refusal.IsarRefusal.TheVariants as refusals;
ghost use Rattle.proof_text.specs.Proper.{IsProper};
ghost use Rattle.proof_text.specs.declared.watch.Limit.TheVariants as limits;

use crate::builder::IsarBuilder;
use crate::head_text::put_head;
use crate::lexer::read_tokens;
use crate::part::IsarPart::{self, Row};
use crate::part::Rule;
use crate::refusal::IsarRefusal;
use crate::token_list::IsarTokens;
use crate::watch::{Excess, RuleWords};
use coherent_form::Task;
use proof_text::{BodyText, Limit, Script, Tally, element_names, parameters_of};
use std::alloc::Global;
use text_core::{Bytes, Memory};
use token_grammar::{Refusal, build};

/// How many bytes the two have in common at their fronts.
fn common(first: &[u8], second: &[u8]) -> usize
    ensures { result ≡ scripts.common first.now second.now }
{
    let mut count = 0;
    while count < first.len() && count < second.len() && first[count] == second[count] {
        count += 1;
    }
    count
}

/// The head of a text of the task. `Memory` is want of memory.
fn head_of(alloc: Global, task: &Task) -> Result<Bytes, Memory>
    ensures { IfOk result (λ head. head ≡ isar_head task.now) }
{
    let mut head = Bytes::new(alloc);
    put_head(alloc, task, &mut head)?;
    Ok(head)
}

/// The length of the task's head, where the bytes begin with it. `Head` where they do not, and
/// `Memory` for want of memory.
fn skip_head(alloc: Global, task: &Task, bytes: &[u8]) -> Result<usize, IsarRefusal>
    requires { length bytes.now < 2 ^ 32 }
    ensures head { IfOk result (λ at. at ≡ length (isar_head task.now)) }
    ensures within { IfOk result (λ at. at ≤ length bytes.now) }
    ensures front { IfOk result (λ at. bytes.now ≡ isar_head task.now ++ drop at bytes.now) }
    ensures refused { IfErr result (λ refusal. (refusal ≡ refusals.Memory) ⊎
        IsarFault task.now bytes.now refusal) }
{
    let head = head_of(alloc, task)?;
    let shared = common(head.as_slice(), bytes);
    if shared < head.len() {
        return Err(IsarRefusal::Head(shared as u32));
    }
    Ok(shared)
}

/// How a limit is told of the rule word at this offset.
fn limited(limit: Limit, offset: u32) -> IsarRefusal
    requires { limit ≢ limits.Version }
    ensures { LimitTold limit offset result }
{
    match limit {
        Limit::TooLarge => IsarRefusal::TooLarge(offset),
        Limit::TooDeep => IsarRefusal::TooDeep(offset),
        // A text has no version.
        Limit::Version => unreachable!(),
    }
}

/// How the machine's refusal of the tokens is told, where they end at this byte of the text because
/// no token begins there, or with the bytes.
fn told(
    tokens: &IsarTokens<'_>,
    end: u32,
    bad: Option<u32>,
    refusal: Refusal<IsarPart, Excess>,
) -> IsarRefusal
    requires { IsMachineRefusal (seen_in tokens.now) refusal }
    ensures { Tells tokens.now end bad refusal result }
{
    match refusal {
        Refusal::Memory => IsarRefusal::Memory,
        Refusal::Unexpected { number, .. } => {
            let start = tokens.start(number);
            IsarRefusal::Syntax(bad.unwrap_or(start))
        }
        Refusal::Stopped { fault, .. } => limited(fault.limit, tokens.start(fault.word)),
        Refusal::EndsEarly => IsarRefusal::Syntax(bad.unwrap_or(end)),
    }
}

/// The body that the tokens behind the head spell, or the refusal of the first that is refused, of
/// the byte at which they end because none begins there, or of the end of the bytes.
fn read_rest(
    alloc: Global,
    tokens: &IsarTokens<'_>,
    end: u32,
    bad: Option<u32>,
) -> Result<BodyText, IsarRefusal>
    ensures { Exact (λ body. (bad ≡ None) × AreBodyOf tokens.now body)
        (RestFault tokens.now end bad) refusals.Memory result }
{
    let mut words = RuleWords {
        tally: Tally {
            applications: 0,
            splits: 0,
        },
        last: 0,
    };
    let mut builder = IsarBuilder::new(alloc);
    let outcome = build(alloc, Row(Rule::Rest), tokens, &mut words, &mut builder);
    let body = builder.into_body();
    match outcome {
        Ok(()) => match bad {
            None => Ok(body),
            Some(bad) => Err(IsarRefusal::Syntax(bad)),
        },
        Err(refusal) => Err(told(tokens, end, bad, refusal)),
    }
}

/// The script with this body, which takes the printed names of the task's parameters.
fn script_with(alloc: Global, task: &Task, body: BodyText) -> Result<Script, Memory>
    requires { IsProper (scripts.script_with task.now body) }
    ensures { IfOk result (λ script. script ≡ scripts.script_with task.now body) }
{
    let parameters = parameters_of(alloc, task)?;
    let names = element_names(alloc, task, parameters.as_slice())?;
    Ok(Script::new(1, names, body))
}

/// The script that fewer than 2 ^ 32 bytes spell as an Isar text of the task, or their refusal.
/// `Memory` is want of memory.
pub fn read_isar(alloc: Global, task: &Task, bytes: &[u8]) -> Result<Script, IsarRefusal>
    requires { length bytes.now < 2 ^ 32 }
    // The script that there is, or the refusal that there is; want of memory may come in place of
    // either.
    ensures { Exact (IsIsarOf task.now bytes.now) (IsarFault task.now bytes.now) refusals.Memory
        result }
{
    let at = skip_head(alloc, task, bytes)?;
    let (tokens, bad) = read_tokens(alloc, task, bytes, at)?;
    let body = read_rest(alloc, &tokens, bytes.len() as u32, bad)?;
    Ok(script_with(alloc, task, body)?)
}
