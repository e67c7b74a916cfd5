//! The head of a text.

ghost use Rattle.std.specs.Prelude.{◌≡◌, ◌+◌, ◌<◌, ◌^◌, ◌++◌, map, length, IfOk, OnOk};
ghost use Rattle.std.specs.List.{AllByRecursion};
ghost use Rattle.vernacular_tree.specs.Contexts as contexts;
ghost use Rattle.coherent_form.specs.Fitting.{FormFits};
ghost use Rattle.coherent_form.specs.Tasks as tasks;
ghost use Rattle.isar_text.specs.Formulas.{facts_text, form_text, goal_text};
ghost use Rattle.isar_text.specs.Heads as heads;

use crate::form_text::{put_conclusion, put_form};
use crate::formula_text::{atom_texts, name_texts, put_facts};
use crate::name::put_name;
use coherent_form::Task;
use logic_core::Form;
use proof_text::{element_names, facts_at, named_facts, parameters_of, put_number};
use std::alloc::Global;
use text_core::{Bytes, List, Memory};

/// Appends the label of a line.
pub(crate) fn put_line_label(alloc: Global, line: u32, out: &mut Bytes) -> Result<(), Memory>
    ensures { OnOk result (out.new ≡ out.old ++ heads.line_label line) }
{
    out.push(b'L')?;
    put_number(alloc, line, out)
}

/// Appends the label of a form, which is told by its number from 0.
pub(crate) fn put_form_label(alloc: Global, form: u32, out: &mut Bytes) -> Result<(), Memory>
    ensures { OnOk result (out.new ≡ out.old ++ heads.form_label form) }
{
    let number = form.checked_add(1).ok_or(Memory)?;
    out.push(b'A')?;
    put_number(alloc, number, out)
}

// Appends the names of as many elements, a blank before each.
fn put_elements(alloc: Global, task: &Task, count: u32, out: &mut Bytes) -> Result<(), Memory>
    ensures { OnOk result (out.new ≡ out.old ++
        heads.spaced (map (heads.element_text task.now) (contexts.counted 0 count))) }
{
    for element in 0..count {
        let name = task.element_name(alloc, element)?;
        out.push(b' ')?;
        put_name(&name, out)?;
    }
    Ok(())
}

// Appends the line of a form.
fn put_form_line(
    alloc: Global,
    task: &Task,
    number: u32,
    form: &Form,
    out: &mut Bytes,
) -> Result<(), Memory>
    requires { FormFits task.now.tables form.now }
    ensures { OnOk result (out.new ≡ out.old ++
        heads.assumption_line (heads.form_label number) (form_text task.now.tables form.now)) }
{
    out.extend_from_slice(b"  assumes ")?;
    put_form_label(alloc, number, out)?;
    out.extend_from_slice(b": \"")?;
    put_form(alloc, task, form, out)?;
    out.extend_from_slice(b"\"\n")
}

// Appends the lines of forms, which are numbered from 0.
fn put_forms(alloc: Global, task: &Task, forms: &[Form], out: &mut Bytes) -> Result<(), Memory>
    requires fit { AllByRecursion (FormFits task.now.tables) forms.now }
    requires few { length forms.now < 2 ^ 32 }
    ensures { OnOk result (out.new ≡ out.old ++
        heads.forms_text task.now.tables 0 forms.now) }
{
    for (number, form) in forms.iter().enumerate() {
        put_form_line(alloc, task, number as u32, form, out)?;
    }
    Ok(())
}

// The texts of the facts of line 0.
fn start_texts(alloc: Global, task: &Task, parameters: &[u32]) -> Result<List<Bytes>, Memory>
    requires { parameters.now ≡ contexts.parameters (tasks.proof_task task.now) }
    ensures { IfOk result (λ texts. texts ≡ heads.start_facts task.now) }
{
    let premises = task.goal().premises.as_slice();
    let facts = facts_at(alloc, parameters, premises)?;
    let named = named_facts(alloc, task, facts.as_slice())?;
    atom_texts(alloc, named.as_slice())
}

// Appends line 0.
fn put_start(alloc: Global, task: &Task, parameters: &[u32], out: &mut Bytes) -> Result<(), Memory>
    requires { parameters.now ≡ contexts.parameters (tasks.proof_task task.now) }
    ensures { OnOk result (out.new ≡ out.old ++ heads.assumption_line (heads.line_label 0)
        (facts_text (heads.start_facts task.now))) }
{
    let texts = start_texts(alloc, task, parameters)?;
    out.extend_from_slice(b"  assumes ")?;
    put_line_label(alloc, 0, out)?;
    out.extend_from_slice(b": \"")?;
    put_facts(texts.as_slice(), out)?;
    out.extend_from_slice(b"\"\n")
}

// Appends the goal's conclusion.
fn put_goal(alloc: Global, task: &Task, parameters: &[u32], out: &mut Bytes) -> Result<(), Memory>
    ensures { OnOk result (out.new ≡ out.old ++ goal_text task.now.tables
        (map (heads.element_text task.now) parameters.now) task.now.goal) }
{
    let names = element_names(alloc, task, parameters)?;
    let texts = name_texts(alloc, names.as_slice())?;
    put_conclusion(alloc, task, texts.as_slice(), task.goal(), out)
}

/// Appends the head of a task's texts.
pub(crate) fn put_head(alloc: Global, task: &Task, out: &mut Bytes) -> Result<(), Memory>
    ensures { OnOk result (out.new ≡ out.old ++ heads.isar_head task.now) }
{
    let parameters = parameters_of(alloc, task)?;
    out.extend_from_slice(b"lemma larus:\n  fixes")?;
    put_elements(alloc, task, task.start_elements(), out)?;
    out.push(b'\n')?;
    put_forms(alloc, task, task.forms().as_slice(), out)?;
    put_start(alloc, task, parameters.as_slice(), out)?;
    out.extend_from_slice(b"  shows \"")?;
    put_goal(alloc, task, parameters.as_slice(), out)?;
    out.extend_from_slice(b"\"\nproof -\n")
}
