ghost use Rattle.std.specs.Prelude.{◌≡◌, ◌++◌, true, false, IfOk};
ghost use Rattle.std.specs.Fmt.{decimal};
ghost use Rattle.larus_cli.specs.Texts as texts;
ghost use Rattle.larus_cli.specs.Reports.{reply_of};

use crate::report::{ProofRefusal, ProofWhy, Report};
use coherent_form::{TaskRefusal, TaskWhy};
use finite_model::{ConfirmRefusal, ModelRefusal};
use include_flat::{FlatRefusal, FlatWhy};
use isar_text::IsarRefusal;
use logic_core::{Bytes, Memory};
use proof_checker::{Rule, StepRefusal, Why};
use proof_text::ScriptRefusal;
use std::alloc::Global;
use tptp_grammar::SyntaxRefusal;
use tptp_lexer::LexRefusal;

/// What is to be printed, whether to the output (and not to the errors), and the status.
#[derive(Debug, Drop)]
pub(crate) struct Reply {
    pub(crate) text: Bytes,
    pub(crate) is_output: bool,
    pub(crate) status: u8,
}

/// A text with a line feed behind a file's name.
fn named(alloc: Global, file: &[u8], text: &[u8]) -> Result<Bytes, Memory>
    ensures { IfOk result (λ all. all ≡ file.now ++ texts.ended text.now) }
{
    let mut all = Bytes::from_slice(alloc, file)?;
    all.extend_from_slice(text)?;
    all.push(b'\n')?;
    Ok(all)
}

/// The offset of a byte, and a text with a line feed, behind a file's name.
fn at_offset(alloc: Global, file: &[u8], offset: u32, text: &[u8]) -> Result<Bytes, Memory>
    ensures { IfOk result (λ all. all ≡ file.now ++ texts.at_offset offset text.now) }
{
    let digits = offset.to_string(alloc)?;
    let mut all = Bytes::from_slice(alloc, file)?;
    all.push(b':')?;
    all.extend_from_slice(digits.as_bytes())?;
    all.extend_from_slice(text)?;
    all.push(b'\n')?;
    Ok(all)
}

fn lexical(alloc: Global, file: &[u8], refusal: &LexRefusal) -> Result<Bytes, Memory>
    ensures { IfOk result (λ all. all ≡ file.now ++ texts.lexical_text refusal.now) }
{
    match refusal {
        LexRefusal::BadByte(offset) => at_offset(alloc, file, *offset, b": 1 BadByte"),
        LexRefusal::OpenQuote(offset) => at_offset(alloc, file, *offset, b": 2 OpenQuote"),
        LexRefusal::OpenComment(offset) => at_offset(alloc, file, *offset, b": 3 OpenComment"),
        LexRefusal::EmptyQuote(offset) => at_offset(alloc, file, *offset, b": 4 EmptyQuote"),
        LexRefusal::Memory => Err(Memory),
    }
}

fn syntax(alloc: Global, file: &[u8], refusal: &SyntaxRefusal) -> Result<Bytes, Memory>
    ensures { IfOk result (λ all. all ≡ file.now ++ texts.syntax_text refusal.now) }
{
    match refusal {
        SyntaxRefusal::Unexpected(offset) => at_offset(alloc, file, *offset, b": 5 Unexpected"),
        SyntaxRefusal::FunctionTerm(offset) => at_offset(alloc, file, *offset, b": 6 FunctionTerm"),
        SyntaxRefusal::EndOfText(offset) => at_offset(alloc, file, *offset, b": 7 EndOfText"),
        SyntaxRefusal::TooDeep(offset) => at_offset(alloc, file, *offset, b": 8 TooDeep"),
        SyntaxRefusal::Role(offset) => at_offset(alloc, file, *offset, b": 9 Role"),
        SyntaxRefusal::FreeVariable(offset) => at_offset(
            alloc,
            file,
            *offset,
            b": 10 FreeVariable",
        ),
        SyntaxRefusal::Memory => Err(Memory),
    }
}

fn flat(alloc: Global, refusal: &FlatRefusal) -> Result<Bytes, Memory>
    ensures { IfOk result (λ all. all ≡ refusal.now.file ++ texts.flat_text refusal.now.why) }
{
    let file = refusal.file.as_slice();
    match &refusal.why {
        FlatWhy::Lex(refusal) => lexical(alloc, file, refusal),
        FlatWhy::Syntax(refusal) => syntax(alloc, file, refusal),
        FlatWhy::FileFault => named(alloc, file, b": 11 FileFault"),
        FlatWhy::FileTooLong => named(alloc, file, b": 12 FileTooLong"),
        FlatWhy::AllTooLong => named(alloc, file, b": 13 AllTooLong"),
        FlatWhy::IncludeDepth => named(alloc, file, b": 14 IncludeDepth"),
        FlatWhy::TooManyFormulas => named(alloc, file, b": 15 TooManyFormulas"),
        FlatWhy::Memory => Err(Memory),
    }
}

fn script(alloc: Global, file: &[u8], refusal: &ScriptRefusal) -> Result<Bytes, Memory>
    ensures { IfOk result (λ all. all ≡ file.now ++ texts.script_text refusal.now) }
{
    match refusal {
        ScriptRefusal::Lex(refusal) => lexical(alloc, file, refusal),
        ScriptRefusal::ProofSyntax(offset) => at_offset(alloc, file, *offset, b": 20 ProofSyntax"),
        ScriptRefusal::ProofVersion(offset) => at_offset(
            alloc,
            file,
            *offset,
            b": 21 ProofVersion",
        ),
        ScriptRefusal::ProofTooLarge(offset) => at_offset(
            alloc,
            file,
            *offset,
            b": 22 ProofTooLarge",
        ),
        ScriptRefusal::CasesTooDeep(offset) => at_offset(
            alloc,
            file,
            *offset,
            b": 23 CasesTooDeep",
        ),
        ScriptRefusal::Memory => Err(Memory),
    }
}

fn isar(alloc: Global, file: &[u8], refusal: &IsarRefusal) -> Result<Bytes, Memory>
    ensures { IfOk result (λ all. all ≡ file.now ++ texts.isar_text refusal.now) }
{
    match refusal {
        IsarRefusal::Head(offset) => at_offset(alloc, file, *offset, b": 43 IsarHead"),
        IsarRefusal::Syntax(offset) => at_offset(alloc, file, *offset, b": 42 IsarSyntax"),
        IsarRefusal::TooLarge(offset) => at_offset(alloc, file, *offset, b": 22 ProofTooLarge"),
        IsarRefusal::TooDeep(offset) => at_offset(alloc, file, *offset, b": 23 CasesTooDeep"),
        IsarRefusal::Memory => Err(Memory),
    }
}

fn proof(alloc: Global, refusal: &ProofRefusal) -> Result<Bytes, Memory>
    ensures { IfOk result (λ all. all ≡ refusal.now.file ++ texts.proof_text refusal.now.why) }
{
    let file = refusal.file.as_slice();
    match &refusal.why {
        ProofWhy::FileTooLong => named(alloc, file, b": 12 FileTooLong"),
        ProofWhy::Script(refusal) => script(alloc, file, refusal),
        ProofWhy::Isar(refusal) => isar(alloc, file, refusal),
    }
}

fn model(alloc: Global, file: &[u8], refusal: &ModelRefusal) -> Result<Bytes, Memory>
    ensures { IfOk result (λ all. all ≡ file.now ++ texts.model_text refusal.now) }
{
    match refusal {
        ModelRefusal::Lex(refusal) => lexical(alloc, file, refusal),
        ModelRefusal::ModelSyntax(offset) => at_offset(alloc, file, *offset, b": 51 ModelSyntax"),
        ModelRefusal::ModelRange(offset) => at_offset(alloc, file, *offset, b": 52 ModelRange"),
        ModelRefusal::ModelTwice(offset) => at_offset(alloc, file, *offset, b": 53 ModelTwice"),
        ModelRefusal::Memory => Err(Memory),
    }
}

/// A number behind a text.
fn numbered(alloc: Global, text: &[u8], number: u32) -> Result<Bytes, Memory>
    ensures { IfOk result (λ all. all ≡ text.now ++ decimal number) }
{
    let digits = number.to_string(alloc)?;
    let mut all = Bytes::from_slice(alloc, text)?;
    all.extend_from_slice(digits.as_bytes())?;
    Ok(all)
}

/// A number with a line feed behind a text.
fn line(alloc: Global, text: &[u8], number: u32) -> Result<Bytes, Memory>
    ensures { IfOk result (λ all. all ≡ text.now ++ texts.ended (decimal number)) }
{
    let mut all = numbered(alloc, text, number)?;
    all.push(b'\n')?;
    Ok(all)
}

fn formula(alloc: Global, refusal: &TaskRefusal) -> Result<Bytes, Memory>
    ensures { IfOk result (λ all. all ≡ texts.formula_text refusal.now) }
{
    let front = numbered(alloc, b"formula ", refusal.formula)?;
    let front = front.as_slice();
    match &refusal.why {
        TaskWhy::NotCoherent { node } => {
            let text = numbered(alloc, b": 16 NotCoherent ", *node)?;
            named(alloc, front, text.as_slice())
        }
        TaskWhy::TooWide => named(alloc, front, b": 17 TooWide"),
        TaskWhy::TooManyConjectures => named(alloc, front, b": 18 TooManyConjectures"),
        TaskWhy::TooManyForms => named(alloc, front, b": 46 TooManyForms"),
        TaskWhy::ManyGoals => named(alloc, front, b": 47 ManyGoals"),
        TaskWhy::Memory => Err(Memory),
    }
}

/// The word of a rule.
fn rule_word(rule: Rule) -> &'static [u8]
    ensures { result.now ≡ texts.rule_text rule }
{
    match rule {
        Rule::Take => b"take",
        Rule::Mp => b"mp",
        Rule::Cs => b"cs",
        Rule::As => b"as",
        Rule::Efq => b"efq",
        Rule::Gap => b"gap",
    }
}

/// The number and the name of a check that fails, and for some which premise, case, atom or binding
/// it is.
fn reason(alloc: Global, why: Why) -> Result<Bytes, Memory>
    ensures { IfOk result (λ all. all ≡ texts.why_text why) }
{
    match why {
        Why::ParameterCount => Bytes::from_slice(alloc, b"24 ParameterCount"),
        Why::NameTaken => Bytes::from_slice(alloc, b"25 NameTaken"),
        Why::UnknownAxiom => Bytes::from_slice(alloc, b"26 UnknownAxiom"),
        Why::InstanceCount => Bytes::from_slice(alloc, b"27 InstanceCount"),
        Why::InstanceUnknown => Bytes::from_slice(alloc, b"28 InstanceUnknown"),
        Why::PremiseMissing(number) => numbered(alloc, b"29 PremiseMissing ", number),
        Why::WitnessCount => Bytes::from_slice(alloc, b"30 WitnessCount"),
        Why::WitnessTaken => Bytes::from_slice(alloc, b"31 WitnessTaken"),
        Why::ShownDiffers => Bytes::from_slice(alloc, b"32 ShownDiffers"),
        Why::NoSuchLine => Bytes::from_slice(alloc, b"33 NoSuchLine"),
        Why::NotCases => Bytes::from_slice(alloc, b"34 NotCases"),
        Why::BranchCount => Bytes::from_slice(alloc, b"35 BranchCount"),
        Why::CaseDiffers(number) => numbered(alloc, b"36 CaseDiffers ", number),
        Why::NoSuchDisjunct => Bytes::from_slice(alloc, b"37 NoSuchDisjunct"),
        Why::AnswerCount => Bytes::from_slice(alloc, b"38 AnswerCount"),
        Why::AnswerUnknown => Bytes::from_slice(alloc, b"39 AnswerUnknown"),
        Why::AtomMissing(number) => numbered(alloc, b"40 AtomMissing ", number),
        Why::NoFalsum => Bytes::from_slice(alloc, b"41 NoFalsum"),
        Why::VariableUnknown(number) => numbered(alloc, b"48 VariableUnknown ", number),
        Why::VariableTwice(number) => numbered(alloc, b"49 VariableTwice ", number),
        Why::GapOpen => Bytes::from_slice(alloc, b"50 GapOpen"),
    }
}

fn step(alloc: Global, refusal: &StepRefusal) -> Result<Bytes, Memory>
    ensures { IfOk result (λ all. all ≡ texts.step_text refusal.now) }
{
    let mut all = numbered(alloc, b"refused ", refusal.step)?;
    all.push(b' ')?;
    all.extend_from_slice(rule_word(refusal.rule))?;
    all.push(b' ')?;
    let why = reason(alloc, refusal.why)?;
    all.extend_from_slice(why.as_slice())?;
    all.push(b'\n')?;
    Ok(all)
}

fn accepted(alloc: Global, size: u32) -> Result<Bytes, Memory>
    ensures { IfOk result (λ all. all ≡ texts.accepted_text size) }
{
    line(alloc, b"accepted ", size)
}

fn none_up_to(alloc: Global, most: u32) -> Result<Bytes, Memory>
    ensures { IfOk result (λ all. all ≡ texts.none_text most) }
{
    line(alloc, b"none up to ", most)
}

fn countermodel(alloc: Global, size: u32) -> Result<Bytes, Memory>
    ensures { IfOk result (λ all. all ≡ texts.countermodel_text size) }
{
    line(alloc, b"countermodel ", size)
}

fn confirm(alloc: Global, refusal: &ConfirmRefusal) -> Result<Bytes, Memory>
    ensures { IfOk result (λ all. all ≡ texts.confirm_text refusal.now) }
{
    match refusal {
        ConfirmRefusal::ModelPlace(number) => line(alloc, b"refused model 54 ModelPlace ", *number),
        ConfirmRefusal::ModelFails(number) => line(alloc, b"refused model 55 ModelFails ", *number),
        ConfirmRefusal::Memory => Err(Memory),
    }
}

/// The line of a demonstration.
fn demonstrated(alloc: Global, k: u32, problem: u32, proof: u32, size: u32) -> Result<Bytes, Memory>
    ensures { IfOk result (λ all. all ≡ texts.demo_text k problem proof size) }
{
    let mut all = numbered(alloc, b"demo ", k)?;
    all.extend_from_slice(numbered(alloc, b": problem ", problem)?.as_slice())?;
    all.extend_from_slice(numbered(alloc, b" bytes, proof ", proof)?.as_slice())?;
    all.extend_from_slice(numbered(alloc, b" bytes, accepted ", size)?.as_slice())?;
    all.push(b'\n')?;
    Ok(all)
}

/// An answer for the output.
fn answered(text: Bytes, status: u8) -> Reply
    ensures { result ≡ record { text = text; is_output = true; status = status } }
{
    Reply {
        text,
        is_output: true,
        status,
    }
}

/// An answer for the errors.
fn complained(text: Bytes, status: u8) -> Reply
    ensures { result ≡ record { text = text; is_output = false; status = status } }
{
    Reply {
        text,
        is_output: false,
        status,
    }
}

/// The reply of a report. `Memory` is want of memory, also where the report tells it.
pub(crate) fn reply_of(alloc: Global, report: Report) -> Result<Reply, Memory>
    ensures { IfOk result (λ reply. reply ≡ reply_of report) }
{
    Ok(match report {
        Report::Accepted(size) => answered(accepted(alloc, size)?, 0),
        Report::Refused(refusal) => answered(step(alloc, &refusal)?, 1),
        Report::Converted(text) => answered(text, 0),
        Report::NoneUpTo(most) => answered(none_up_to(alloc, most)?, 1),
        Report::Demo {
            k,
            problem,
            proof,
            size,
        } => answered(demonstrated(alloc, k, problem, proof, size)?, 0),
        Report::FileFault(file) => complained(
            named(alloc, file.as_slice(), b": 11 FileFault")?,
            66,
        ),
        Report::ProblemFile(refusal) => complained(flat(alloc, &refusal)?, 2),
        Report::ProblemFormula(refusal) => complained(formula(alloc, &refusal)?, 2),
        Report::ProofFile(refusal) => complained(proof(alloc, &refusal)?, 3),
        Report::ModelFile(file, refusal) => complained(model(alloc, file.as_slice(), &refusal)?, 3),
        Report::Countermodel(size) => answered(countermodel(alloc, size)?, 0),
        Report::Confirm(refusal) => answered(confirm(alloc, &refusal)?, 1),
    })
}

/// What is printed for a report. `Memory` is want of memory, also where the report tells it.
pub fn message(alloc: Global, report: Report) -> Result<Bytes, Memory>
    ensures { IfOk result (λ text. text ≡ (reply_of report).text) }
{
    Ok(reply_of(alloc, report)?.text)
}
