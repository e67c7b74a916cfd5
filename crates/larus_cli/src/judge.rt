ghost use Rattle.std.specs.Prelude.{◌≡◌, IfOk, List as Lst};
ghost use Rattle.text_core.specs.Names.{Text};
ghost use Rattle.vernacular_tree.specs.Rules.{Proves};
ghost use Rattle.io_core.specs.Known.{Known};
ghost use Rattle.io_core.specs.Fetched.{Grows};
ghost use Rattle.coherent_form.specs.Tasks.{proof_task};
ghost use Rattle.proof_text.specs.Canonical.{script_text};
ghost use Rattle.proof_text.specs.ScriptOf.{script_of as standing};
ghost use Rattle.proof_text.specs.Values.{Written};
ghost use Rattle.isar_text.specs.Bodies.{isar_proof};
ghost use Rattle.larus_cli.specs.Read.{ReadsTask, ReadsScript, ReadsProof};
ghost use Rattle.larus_cli.specs.Printed.{ReadsBackAs, ReadsBackInIsar};
ghost use Rattle.larus_cli.specs.declared.command.Format.{Format as Reading};
ghost use Rattle.larus_cli.specs.Words.{to_judge, Asks};
ghost use Rattle.larus_cli.specs.Reports.{Decides};

use crate::command::{Format, Wanted};
use crate::reading::{Halt, read_proof, read_second, read_task};
use crate::report::Report;
use coherent_form::Task;
use english_text::write_english;
use io_core::Files;
use isar_text::write_isar;
use logic_core::{Bytes, Memory};
use proof_checker::{CheckRefusal, check_script};
use proof_text::{Edition, Script, proof_scripts_stand, script_of, second_of, write_script};
use std::alloc::Global;
use vernacular_tree::Proof;

/// The script of this version that stands for a proof of a task, with printed names.
fn script_for(alloc: Global, edition: Edition, task: &Task, proof: &Proof) -> Result<Script, Memory>
    requires { Proves (proof_task task.now) proof.now }
    ensures { IfOk result (λ script. script ≡ standing edition task.now proof.now) }
{
    match edition {
        Edition::First => script_of(alloc, task, proof),
        Edition::Second => second_of(alloc, task, proof),
    }
}

/// The canonical text of the script of this version that stands for a proof of a task.
pub(crate) fn text_for(
    alloc: Global,
    edition: Edition,
    task: &Task,
    proof: &Proof,
) -> Result<Bytes, Memory>
    requires { Proves (proof_task task.now) proof.now }
    ensures text { IfOk result (λ text. text ≡ script_text (standing edition task.now proof.now)) }
    ensures back { IfOk result (λ text. ReadsBackAs edition text task.now proof.now) }
{
    // No constant is there twice, forms fit, and the proof is bounded: so the script stands for it.
    let _counts = (
        task.tables().constants(),
        task.goal().universals,
        proof.body().steps.len(),
    );
    proof_scripts_stand();
    let script = script_for(alloc, edition, task, proof)?;
    write_script(alloc, &script)
}

/// The text of a proof of a task in Isar.
fn isar_for(alloc: Global, task: &Task, proof: &Proof) -> Result<Bytes, Memory>
    requires { Proves (proof_task task.now) proof.now }
    ensures text { IfOk result (λ text. text ≡ isar_proof task.now proof.now) }
    ensures back { IfOk result (λ text. ReadsBackInIsar text task.now proof.now) }
{
    // No constant is there twice, forms fit, and the proof is bounded: so the script stands for it.
    let _counts = (
        task.tables().constants(),
        task.goal().universals,
        proof.body().steps.len(),
    );
    proof_scripts_stand();
    write_isar(alloc, task, proof)
}

/// What there is to say of a proof that is accepted.
fn tell_proof(alloc: Global, wanted: Wanted, task: &Task, proof: &Proof) -> Result<Report, Halt>
    requires { Proves (proof_task task.now) proof.now }
    ensures { (words : Lst Text) (files later : Known) (problem second : Text) (format : Reading)
        (script : Written) → Asks words problem (to_judge wanted format second)
        → ReadsProof format files problem second task.now script proof.now
        → Decides words files later result }
{
    match wanted {
        Wanted::Size => Ok(Report::Accepted(proof.size())),
        Wanted::Demo {
            k,
            problem,
            proof: length,
        } => Ok(Report::Demo {
            k,
            problem,
            proof: length,
            size: proof.size(),
        }),
        Wanted::Isar => Ok(Report::Converted(isar_for(alloc, task, proof)?)),
        Wanted::English => Ok(Report::Converted(write_english(alloc, task, proof)?)),
        Wanted::Script(edition) => Ok(Report::Converted(text_for(alloc, edition, task, proof)?)),
    }
}

/// What there is to say of a script, as a proof of a task.
fn judge_script(alloc: Global, wanted: Wanted, task: &Task, script: &Script) -> Result<Report, Halt>
    ensures { (words : Lst Text) (files later : Known) (problem second : Text) (format : Reading)
        → Asks words problem (to_judge wanted format second)
        → ReadsScript format files problem second task.now script.now
        → Decides words files later result }
{
    match check_script(alloc, task, script) {
        Ok(proof) => tell_proof(alloc, wanted, task, &proof),
        Err(CheckRefusal::Step(refusal)) => Ok(Report::Refused(refusal)),
        Err(CheckRefusal::Memory) => Err(Halt::Memory),
    }
}

/// What there is to say of the second file, read in this format, as a proof of a task. Before it the
/// problem was read.
fn judge_second<F: Files>(
    alloc: Global,
    wanted: Wanted,
    format: Format,
    task: &Task,
    files: &mut F,
    name: &[u8],
) -> Result<Report, Halt>
    ensures decides { (words : Lst Text) (before : Known) (problem : Text)
        → Grows before (F.known files.old) → Asks words problem (to_judge wanted format name.now)
        → ReadsTask before problem task.now → Decides words before (F.known files.new) result }
    ensures grows { Grows (F.known files.old) (F.known files.new) }
{
    let bytes = read_second(alloc, files, name)?;
    let script = read_proof(alloc, format, task, name, bytes.as_slice())?;
    judge_script(alloc, wanted, task, &script)
}

/// What there is to say of a proof of a problem, read in this format. The problem is read and its
/// task built first.
pub(crate) fn judge<F: Files>(
    alloc: Global,
    wanted: Wanted,
    format: Format,
    files: &mut F,
    problem: &[u8],
    name: &[u8],
) -> Result<Report, Halt>
    ensures decides { (words : Lst Text) → Asks words problem.now (to_judge wanted format name.now)
        → Decides words (F.known files.old) (F.known files.new) result }
    ensures grows { Grows (F.known files.old) (F.known files.new) }
{
    let task = read_task(alloc, files, problem)?;
    judge_second(alloc, wanted, format, &task, files, name)
}
