ghost use Rattle.std.specs.Prelude.{◌≡◌, ◌≤◌, IfOk};
ghost use Rattle.vernacular_tree.specs.Contexts as contexts;
ghost use Rattle.coherent_form.specs.Tasks.{proof_task};
ghost use Rattle.kept_context.specs.Lent.{IsContextOf, fact_count, arg_count};

use crate::answers::{atoms_with, parameters};
use coherent_form::Task;
use std::alloc::Global;
use text_core::{List, Memory};
use vernacular_tree::{Context, Line};

/// The context with which every proof of a task begins. Its facts are at most 1,024, with at most
/// 32,768 arguments. `Memory` is want of memory.
pub fn start_context(alloc: Global, task: &Task) -> Result<Context, Memory>
    ensures value { IfOk result (λ context. context ≡ contexts.start_context (proof_task task.now)) }
    ensures lent { IfOk result (IsContextOf task.now) }
    ensures few_facts { IfOk result (λ context. fact_count context ≤ 1024) }
    ensures few_args { IfOk result (λ context. arg_count context ≤ 32768) }
{
    let parameters = parameters(alloc, task)?;
    let premises = task.goal().premises.as_slice();
    let facts = atoms_with(alloc, parameters.as_slice(), premises)?;
    let mut lines = List::new(alloc);
    lines.push(Line::Facts(facts))?;
    Ok(Context {
        elements: task.start_elements(),
        lines,
    })
}
