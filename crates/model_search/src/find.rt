ghost use Rattle.std.specs.Prelude.{◌≡◌, ◌≤◌, slice_get, Some, IfOk, OnOk};
ghost use Rattle.std.specs.List.{AllByRecursion};
ghost use Rattle.logic_core.specs.Forms.{FormTrue};
ghost use Rattle.coherent_form.specs.Tasks.{IsTaskOf};
ghost use Rattle.model_search.specs.Candidates.{Candidate, GivenFormsTrue, world};
ghost use Rattle.model_search.specs.LeastModels.{IsLeastCountermodel};
ghost use Rattle.model_search.specs.Rules.{AreTrueRules};

use crate::goal::forms_of_goal;
use crate::one_size::find_of_size;
use crate::rule::Rule;
use coherent_form::{Citation, Task};
use finite_model::{Model, confirm_model};
use logic_core::{Form, Problem};
use std::alloc::Global;
use text_core::Memory;

/// The greatest number of elements of a countermodel that is sought.
pub const MOST_SOUGHT: u32 = 8;

/// The rules of the goal's forms.
fn rules_of_goal<'f>(alloc: Global, goal: &'f [Form]) -> Result<Vec<Rule<'f>>, Memory>
    ensures { IfOk result (λ rules. (c : Candidate)
        → AllByRecursion (FormTrue (world c)) goal.now → AreTrueRules c rules.items) }
{
    let mut rules = Vec::new(alloc);
    for form in goal {
        rules.push(Rule::new(alloc, form)?)?;
    }
    Ok(rules)
}

/// Adds the rule of a form, unless it is a built-in axiom.
fn add_given<'f>(
    alloc: Global,
    task: &'f Task,
    number: u32,
    form: &'f Form,
    rules: &mut Vec<Rule<'f>>,
) -> Result<(), Memory>
    requires { slice_get task.now.forms number ≡ Some form.now }
    ensures { OnOk result ((c : Candidate) → GivenFormsTrue task.now c
        → AreTrueRules c rules.old.items → AreTrueRules c rules.new.items) }
{
    if let Citation::Axiom(_, _) = task.citation(alloc, number)? {
        rules.push(Rule::new(alloc, form)?)?;
    }
    Ok(())
}

/// The rules: the forms of the problem's premises, and that the goal is not true. The built-in
/// axioms are true in every structure, and give none.
fn rules_of<'f>(alloc: Global, task: &'f Task, goal: &'f [Form]) -> Result<Vec<Rule<'f>>, Memory>
    ensures { IfOk result (λ rules. (c : Candidate) → GivenFormsTrue task.now c
        → AllByRecursion (FormTrue (world c)) goal.now → AreTrueRules c rules.items) }
{
    let mut rules = rules_of_goal(alloc, goal)?;
    for (number, form) in task.forms().as_slice().iter().enumerate() {
        add_given(alloc, task, number as u32, form, &mut rules)?;
    }
    Ok(rules)
}

/// A countermodel with the fewest elements, where there is one with at most `size`, from 1 to
/// `MOST_SOUGHT`; `None` where there is none. `Memory` is want of memory, or where the search takes
/// too many steps or a form has more than 4,096 choices of elements for its existential variables.
pub fn find_model(
    alloc: Global,
    problem: &Problem,
    task: &Task,
    size: u32,
) -> Result<Option<Model>, Memory>
    requires task { IsTaskOf problem.now task.now }
    requires some { 1 ≤ size }
    requires few { size ≤ MOST_SOUGHT }
    ensures { IfOk result
        (IsLeastCountermodel task.now.tables.constants problem.now size) }
{
    // The formulas are such as problems have, and the forms are well-formed.
    let _known = (problem.as_slice().len(), task.forms().len());
    let goal = forms_of_goal(alloc, task)?;
    let rules = rules_of(alloc, task, goal.as_slice())?;
    for before in 0..size {
        let Some(model) = find_of_size(alloc, task, rules.as_slice(), before + 1)? else {
            continue;
        };
        let Ok(()) = confirm_model(alloc, problem, task, &model) else {
            return Err(Memory);
        };
        return Ok(Some(model));
    }
    Ok(None)
}
