ghost use Rattle.std.specs.Prelude.{◌≤◌, length, IfOk, IfErr, List as Lst};
ghost use Rattle.text_core.specs.Names.{Text};
ghost use Rattle.text_core.specs.declared.limits.TheConstants.{MOST_FILE_BYTES};
ghost use Rattle.io_core.specs.Known.{Known};
ghost use Rattle.io_core.specs.Fetched.{Grows};
ghost use Rattle.coherent_form.specs.Tasks.{CitedTask, IsTaskOf};
ghost use Rattle.model_text.specs.Texts.{IsModelOf};
ghost use Rattle.larus_cli.specs.Words.{to_confirm, Asks};
ghost use Rattle.larus_cli.specs.Read.{ReadsBytes, ReadsModel};
ghost use Rattle.larus_cli.specs.Reports.{Halts, Decides};

use crate::reading::{Halt, build_task, read_problem, read_second};
use crate::report::Report;
use coherent_form::Task;
use finite_model::{ConfirmRefusal, Model, ModelRefusal, confirm_model, read_model};
use io_core::Files;
use logic_core::{Bytes, Problem};
use std::alloc::Global;

/// The structure that the bytes of the model's file spell.
fn read_structure(alloc: Global, name: &[u8], bytes: &[u8]) -> Result<Model, Halt>
    requires short { length bytes.now ≤ MOST_FILE_BYTES }
    ensures spells { IfOk result (IsModelOf bytes.now) }
    ensures halts { (words : Lst Text) (files later : Known) (problem : Text) (task : CitedTask)
        → Asks words problem (to_confirm name.now)
        → ReadsBytes files problem name.now task bytes.now
        → IfErr result (Halts words files later) }
{
    match read_model(alloc, bytes) {
        Ok(model) => Ok(model),
        Err(refusal) => match refusal {
            ModelRefusal::Memory => Err(Halt::Memory),
            _ => {
                let file = Bytes::from_slice(alloc, name)?;
                Err(Halt::Said(Report::ModelFile(file, refusal)))
            }
        },
    }
}

/// What there is to say of a structure, against a problem with this task.
fn judge_structure(
    alloc: Global,
    problem: &Problem,
    task: &Task,
    model: &Model,
) -> Result<Report, Halt>
    requires { IsTaskOf problem.now task.now }
    ensures { (words : Lst Text) (files later : Known) (name second : Text)
        → Asks words name (to_confirm second)
        → ReadsModel files name second problem.now task.now model.now
        → Decides words files later result }
{
    match confirm_model(alloc, problem, task, model) {
        Ok(()) => Ok(Report::Countermodel(model.size())),
        Err(refusal) => match refusal {
            ConfirmRefusal::Memory => Err(Halt::Memory),
            _ => Ok(Report::Confirm(refusal)),
        },
    }
}

/// What there is to say of the structure in the second file, against the problem in the first.
pub(crate) fn confirm<F: Files>(
    alloc: Global,
    files: &mut F,
    problem: &[u8],
    name: &[u8],
) -> Result<Report, Halt>
    ensures decides { (words : Lst Text) → Asks words problem.now (to_confirm name.now)
        → Decides words (F.known files.old) (F.known files.new) result }
    ensures grows { Grows (F.known files.old) (F.known files.new) }
{
    let formulas = read_problem(alloc, files, problem)?;
    let task = build_task(alloc, &formulas)?;
    let bytes = read_second(alloc, files, name)?;
    let model = read_structure(alloc, name, bytes.as_slice())?;
    judge_structure(alloc, &formulas, &task, &model)
}
