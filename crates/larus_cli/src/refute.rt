ghost use Rattle.std.specs.Prelude.{◌≤◌, List as Lst};
ghost use Rattle.text_core.specs.Names.{Text};
ghost use Rattle.io_core.specs.Known.{Known};
ghost use Rattle.io_core.specs.Fetched.{Grows};
ghost use Rattle.coherent_form.specs.Tasks.{IsTaskOf};
ghost use Rattle.larus_cli.specs.Words.{to_refute, Asks};
ghost use Rattle.larus_cli.specs.Read.{ReadsProblem};
ghost use Rattle.larus_cli.specs.Reports.{Decides};

use crate::reading::{Halt, build_task, read_problem};
use crate::report::Report;
use coherent_form::Task;
use finite_model::write_model;
use io_core::Files;
use logic_core::Problem;
use model_search::{MOST_SOUGHT, find_model};
use std::alloc::Global;

/// What there is to say of a problem with this task, where a countermodel with at most so many
/// elements is wanted.
fn refute_task(alloc: Global, problem: &Problem, task: &Task, size: u32) -> Result<Report, Halt>
    requires has { IsTaskOf problem.now task.now }
    requires some { 1 ≤ size }
    requires few { size ≤ MOST_SOUGHT }
    ensures { (words : Lst Text) (files later : Known) (name : Text)
        → Asks words name (to_refute size) → ReadsProblem files name problem.now
        → Decides words files later result }
{
    match find_model(alloc, problem, task, size)? {
        Some(model) => Ok(Report::Converted(write_model(alloc, &model)?)),
        None => Ok(Report::NoneUpTo(size)),
    }
}

/// What there is to say of the problem in a file, where a countermodel with at most so many elements
/// is wanted.
pub(crate) fn refute<F: Files>(
    alloc: Global,
    files: &mut F,
    name: &[u8],
    size: u32,
) -> Result<Report, Halt>
    requires some { 1 ≤ size }
    requires few { size ≤ MOST_SOUGHT }
    ensures decides { (words : Lst Text) → Asks words name.now (to_refute size)
        → Decides words (F.known files.old) (F.known files.new) result }
    ensures grows { Grows (F.known files.old) (F.known files.new) }
{
    let formulas = read_problem(alloc, files, name)?;
    let task = build_task(alloc, &formulas)?;
    refute_task(alloc, &formulas, &task, size)
}
