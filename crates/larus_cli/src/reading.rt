ghost use Rattle.std.specs.Prelude.{◌≡◌, ◌≤◌, length, IfOk, IfErr, List as Lst};
ghost use Rattle.text_core.specs.Names.{Text};
ghost use Rattle.text_core.specs.declared.limits.TheConstants.{MOST_FILE_BYTES};
ghost use Rattle.io_core.specs.Known.{Known};
ghost use Rattle.io_core.specs.Fetched.{Grows, Holds};
ghost use Rattle.coherent_form.specs.Tasks.{CitedTask, IsTaskOf};
ghost use Rattle.proof_text.specs.Scripts.{IsScriptOf};
ghost use Rattle.isar_text.specs.Scripts.{IsIsarOf};
ghost use Rattle.larus_cli.specs.declared.report.Report.TheVariants.{ProofFile};
ghost use Rattle.larus_cli.specs.declared.command.Format.TheVariants as reads;
ghost use Rattle.larus_cli.specs.Words.{NamesProblem, NamesTask, NamesSecond, NamesBoth};
ghost use Rattle.larus_cli.specs.Read.{ReadsProblem, ReadsTask, ReadsBytes, Spells};
ghost use Rattle.larus_cli.specs.Reports.{Halts};

use crate::command::Format;
use crate::report::{ProofRefusal, ProofWhy, Report};
use coherent_form::{Task, TaskWhy};
use include_flat::{FlatWhy, flatten};
use io_core::{FetchFault, Files, fetch_whole};
use isar_text::{IsarRefusal, read_isar};
use logic_core::{Bytes, Memory, Problem};
use proof_text::{Script, ScriptRefusal, read_script};
use std::alloc::Global;

/// What ends a command early.
#[derive(Debug, Drop)]
pub(crate) enum Halt {
    /// This is to be said.
    Said(Report),
    /// Want of memory.
    Memory,
}

impl From<Memory> for Halt {
    ghost use Rattle.larus_cli.specs.declared.reading.Halt.{Halt as Ending};

    ghost from_gives = { λ _ halt. halt ≡ Ending.Memory };

    fn from(_want: Memory) -> Halt {
        Halt::Memory
    }
}

/// The formulas of the problem in a file, with those of the files that it includes.
pub(crate) fn read_problem<F: Files>(
    alloc: Global,
    files: &mut F,
    name: &[u8],
) -> Result<Problem, Halt>
    ensures reads { IfOk result (ReadsProblem (F.known files.old) name.now) }
    ensures halts { (words : Lst Text) → NamesProblem words name.now
        → IfErr result (Halts words (F.known files.old) (F.known files.new)) }
    ensures grows { Grows (F.known files.old) (F.known files.new) }
{
    match flatten(alloc, files, name) {
        Ok(problem) => Ok(problem),
        Err(refusal) => match refusal.why {
            FlatWhy::Memory => Err(Halt::Memory),
            FlatWhy::FileFault => Err(Halt::Said(Report::FileFault(refusal.file))),
            _ => Err(Halt::Said(Report::ProblemFile(refusal))),
        },
    }
}

/// The task of a problem, which is in the file that the words name.
pub(crate) fn build_task(alloc: Global, problem: &Problem) -> Result<Task, Halt>
    ensures has { IfOk result (IsTaskOf problem.now) }
    ensures halts { (words : Lst Text) (files later : Known) (name : Text) → NamesTask words name
        → ReadsProblem files name problem.now → IfErr result (Halts words files later) }
{
    match Task::build(alloc, problem) {
        Ok(task) => Ok(task),
        Err(refusal) => match refusal.why {
            TaskWhy::Memory => Err(Halt::Memory),
            _ => Err(Halt::Said(Report::ProblemFormula(refusal))),
        },
    }
}

/// The task of the problem in a file.
pub(crate) fn read_task<F: Files>(alloc: Global, files: &mut F, name: &[u8]) -> Result<Task, Halt>
    ensures reads { IfOk result (ReadsTask (F.known files.old) name.now) }
    ensures halts { (words : Lst Text) → NamesTask words name.now
        → IfErr result (Halts words (F.known files.old) (F.known files.new)) }
    ensures grows { Grows (F.known files.old) (F.known files.new) }
{
    let problem = read_problem(alloc, files, name)?;
    build_task(alloc, &problem)
}

/// What is said of a second file that is refused.
fn refused(alloc: Global, name: &[u8], why: ProofWhy) -> Result<Report, Memory>
    ensures { IfOk result (λ report. report ≡ ProofFile (record { file = name.now; why = why })) }
{
    let file = Bytes::from_slice(alloc, name)?;
    Ok(Report::ProofFile(ProofRefusal { file, why }))
}

/// The bytes of the second file. Before it the problem was read.
pub(crate) fn read_second<F: Files>(
    alloc: Global,
    files: &mut F,
    name: &[u8],
) -> Result<Bytes, Halt>
    ensures holds { IfOk result (λ bytes. Holds
        (F.known files.old) name.now bytes MOST_FILE_BYTES) }
    ensures halts { (words : Lst Text) (before : Known) (problem : Text) (task : CitedTask)
        → Grows before (F.known files.old)
        → NamesSecond words problem name.now → ReadsTask before problem task
        → IfErr result (Halts words before (F.known files.new)) }
    ensures grows { Grows (F.known files.old) (F.known files.new) }
{
    match fetch_whole(alloc, files, name) {
        Ok(bytes) => Ok(bytes),
        Err(FetchFault::Failed) => {
            let file = Bytes::from_slice(alloc, name)?;
            Err(Halt::Said(Report::FileFault(file)))
        }
        Err(FetchFault::TooLong) => {
            let report = refused(alloc, name, ProofWhy::FileTooLong)?;
            Err(Halt::Said(report))
        }
        Err(FetchFault::Memory) => Err(Halt::Memory),
    }
}

/// The script that the bytes of the second file spell as a proof text.
fn read_vernacular(alloc: Global, name: &[u8], bytes: &[u8]) -> Result<Script, Halt>
    requires short { length bytes.now ≤ MOST_FILE_BYTES }
    ensures spells { IfOk result (IsScriptOf bytes.now) }
    ensures halts { (words : Lst Text) (files later : Known) (problem : Text) (task : CitedTask)
        → NamesBoth words problem reads.Vernacular name.now
        → ReadsBytes files problem name.now task bytes.now
        → IfErr result (Halts words files later) }
{
    match read_script(alloc, bytes) {
        Ok(script) => Ok(script),
        Err(refusal) => match refusal {
            ScriptRefusal::Memory => Err(Halt::Memory),
            _ => {
                let report = refused(alloc, name, ProofWhy::Script(refusal))?;
                Err(Halt::Said(report))
            }
        },
    }
}

/// The script that the bytes of the second file spell as an Isar text of the task.
fn read_isar_text(alloc: Global, task: &Task, name: &[u8], bytes: &[u8]) -> Result<Script, Halt>
    requires short { length bytes.now ≤ MOST_FILE_BYTES }
    ensures spells { IfOk result (IsIsarOf task.now bytes.now) }
    ensures halts { (words : Lst Text) (files later : Known) (problem : Text)
        → NamesBoth words problem reads.Isar name.now
        → ReadsBytes files problem name.now task.now bytes.now
        → IfErr result (Halts words files later) }
{
    match read_isar(alloc, task, bytes) {
        Ok(script) => Ok(script),
        Err(refusal) => match refusal {
            IsarRefusal::Memory => Err(Halt::Memory),
            _ => {
                let report = refused(alloc, name, ProofWhy::Isar(refusal))?;
                Err(Halt::Said(report))
            }
        },
    }
}

/// The script that the bytes of the second file spell, read in this format.
pub(crate) fn read_proof(
    alloc: Global,
    format: Format,
    task: &Task,
    name: &[u8],
    bytes: &[u8],
) -> Result<Script, Halt>
    requires short { length bytes.now ≤ MOST_FILE_BYTES }
    ensures spells { IfOk result (Spells format task.now bytes.now) }
    ensures halts { (words : Lst Text) (files later : Known) (problem : Text)
        → NamesBoth words problem format name.now
        → ReadsBytes files problem name.now task.now bytes.now
        → IfErr result (Halts words files later) }
{
    match format {
        Format::Vernacular => read_vernacular(alloc, name, bytes),
        Format::Isar => read_isar_text(alloc, task, name, bytes),
    }
}
