ghost use Rattle.std.specs.Prelude.{ℕ, ◌≡◌, ◌≤◌, ◌<◌, List as Lst, length, IfOk, IfSome, IfNone, slice_get, Some};
ghost use Rattle.text_core.specs.Exact.{Exact};
ghost use Rattle.text_core.specs.Lists.{IsAmong};
ghost use Rattle.text_core.specs.Names.{Text};
ghost use Rattle.logic_core.specs.declared.form.Form.{Form};
ghost use Rattle.coherent_form.specs.ElementNames as element_names;
ghost use Rattle.coherent_form.specs.Gathered.{IsReading, IsReadFrom, progress_of};
ghost use Rattle.coherent_form.specs.Labels.{label_of};
ghost use Rattle.coherent_form.specs.Tasks.{IsTaskOf, IsTaskFault, start_elements, task_of};
ghost use Rattle.coherent_form.specs.Kept.{IsRight};
ghost use Rattle.coherent_form.specs.declared.limits.TheConstants.{MOST_START_ELEMENTS};
ghost use Rattle.coherent_form.specs.declared.citation.Citation.{Citation as Cite};
ghost use Rattle.coherent_form.specs.declared.task_refusal.TaskWhy.TheVariants as why;

use crate::built_ins::append_built_ins;
use crate::citation::Citation;
use crate::label::Label;
use crate::limits::{MOST_CONSTANTS, MOST_SYMBOLS};
use crate::printed_element::{numbered_element, prefix_letters};
use crate::problem_reading::{Reading, no_goal};
use crate::source::Source;
use crate::source_citation::source_citation;
use crate::source_cited::source_cited;
use crate::task_refusal::TaskRefusal;
use crate::variable_label::{built_in_label, label_among};
use indexmap::IndexSet;
use logic_core::{Form, Problem};
use signature::Tables;
use std::alloc::Global;
use std::marker::Model;
use text_core::{List, Memory, Name};

/// What is to be proved: the coherent forms of a problem's premises, the built-in axioms behind
/// them, and the goal. Contracts see the forms with how each is cited and the names of its
/// universal variables.
#[derive(Drop)]
pub struct Task {
    tables: Tables,
    names: IndexSet<Name>,
    forms: List<Form>,
    sources: IndexSet<Source>,
    variables: List<List<u32>>,
    goal: Form,
    letters: usize,
}

impl Model for Task {
    ghost use Rattle.std.specs.Prelude.{◌≡◌, ◌+◌};
    ghost use Rattle.coherent_form.specs.Tasks.{CitedTask};
    ghost use Rattle.coherent_form.specs.Kept.{kept_task, IsKept};
    ghost use Rattle.coherent_form.specs.ElementNames.{most_leading};

    ghost Value = { CitedTask };

    ghost view = { λ t. kept_task
        t.tables t.names.keys t.forms t.sources.keys t.variables t.goal };

    ghost invariant = { λ t. IsKept t.names.keys t.sources.keys
        (kept_task t.tables t.names.keys t.forms t.sources.keys t.variables t.goal)
        × (t.letters ≡ most_leading t.tables.constants + 1) };
}

/// The task of what was read. `Memory` is want of memory, or of numbers of 32 bits.
fn finish(alloc: Global, reading: Reading) -> Result<Task, Memory>
    requires reading { IsReading reading }
    requires from { IsReadFrom (progress_of reading) }
    ensures { IfOk result (λ task. task ≡ task_of (progress_of reading)) }
{
    let tables = reading.tables;
    if tables.symbols() > MOST_SYMBOLS
        || tables.constants() > MOST_CONSTANTS
        || reading.names.len() > u32::MAX as usize
    {
        return Err(Memory);
    }
    let goal = reading.goal.unwrap_or(no_goal(alloc));
    let mut forms = reading.forms;
    let mut sources = reading.sources;
    append_built_ins(alloc, &tables, &goal, &mut forms, &mut sources)?;
    let letters = prefix_letters(&tables);
    Ok(Task {
        tables,
        names: reading.names,
        forms,
        sources,
        variables: reading.variables,
        goal,
        letters,
    })
}

impl Task {
    /// The task of a problem. Its formulas are read in order; for each one it answers, in this
    /// order, `TooManyConjectures`, `NotCoherent`, `TooWide`, `ManyGoals` and `TooManyForms`, with
    /// the formula's number from 1. `Memory` is want of memory, or of numbers of 32 bits, and has
    /// the number 0. Source: the 2014 paper "A Vernacular for Coherent Logic".
    pub fn build(alloc: Global, problem: &Problem) -> Result<Task, TaskRefusal>
        ensures { Exact (IsTaskOf problem.now) (IsTaskFault problem.now)
            (record { formula = 0; why = why.Memory }) result }
    {
        let mut reading = Reading::new(alloc)?;
        let mut formula = 0;
        for fof in problem.as_slice() {
            formula += 1;
            if let Err(why) = reading.take(alloc, fof) {
                return Err(TaskRefusal::at(formula, why));
            }
        }
        Ok(finish(alloc, reading)?)
    }

    /// The symbols and constants by number.
    pub fn tables(&self) -> &Tables
        ensures { result.now ≡ self.now.tables }
    {
        &self.tables
    }

    /// The forms by number: those of the premises in order, and the built-in axioms behind them.
    pub fn forms(&self) -> &List<Form>
        ensures value { result.now ≡ self.now.forms }
        ensures right { IsRight self.now }
    {
        &self.forms
    }

    /// The form of the conjecture; without one, the form that nothing makes true.
    pub fn goal(&self) -> &Form
        ensures value { result.now ≡ self.now.goal }
        ensures right { IsRight self.now }
    {
        &self.goal
    }

    /// The number of start elements: the constants and the parameters, or 1 where there is neither.
    pub fn start_elements(&self) -> u32
        ensures value { result ≡ start_elements self.now }
        ensures few { result ≤ MOST_START_ELEMENTS }
    {
        let count = self.tables.constants() + self.goal.universals;
        if count == 0 { 1 } else { count }
    }

    /// The number of the form that is cited so; `None` exactly where no form is. It is one look-up
    /// by hash and takes no memory.
    pub fn find(&self, cite: &Citation) -> Option<u32>
        ensures found { IfSome result (λ form. slice_get self.now.citations form ≡ Some cite.now) }
        ensures one { IfSome result (λ form. (other : ℕ)
            → slice_get self.now.citations other ≡ Some cite.now → other ≡ form) }
        ensures none { IfNone result (IsAmong cite.now self.now.citations → ⊥) }
    {
        // No symbol and no source is there twice.
        let _counts = (self.tables.symbols(), self.sources.len());
        let source = source_cited(&self.names, &self.tables, cite)?;
        let form = self.sources.get_index_of(&source)?;
        Some(form as u32)
    }

    /// No two forms are cited in the same way.
    pub fn citations_differ(&self)
        ensures { (cite : Cite) (a b : ℕ) → slice_get self.now.citations a ≡ Some cite
            → slice_get self.now.citations b ≡ Some cite → a ≡ b }
    {
        // No symbol and no source is there twice.
        let _counts = (self.tables.symbols(), self.sources.len());
    }

    /// How a form is cited. `Memory` is want of memory.
    pub fn citation(&self, alloc: Global, form: u32) -> Result<Citation, Memory>
        requires { form < length self.now.forms }
        ensures { IfOk result (λ cite. slice_get self.now.citations form ≡ Some cite) }
    {
        let source = self.sources.as_slice()[form as usize];
        source_citation(alloc, &self.names, &self.tables, source)
    }

    /// The label of a universal variable of a form: its name, and its rank under that name.
    /// `Memory` is want of memory.
    pub fn label(&self, alloc: Global, form: u32, variable: u32) -> Result<Label, Memory>
        requires { (f : Form) × (slice_get self.now.forms form ≡ Some f)
            × (variable < f.universals) }
        ensures { IfOk result (λ label. (names : Lst Text)
            × (slice_get self.now.variables form ≡ Some names)
            × (label ≡ label_of names variable)) }
    {
        match self.variables.get(form as usize) {
            Some(numbers) => label_among(alloc, &self.names, numbers.as_slice(), variable),
            None => built_in_label(alloc, variable),
        }
    }

    /// The name with which an element is printed: a constant's own, or letters w, one more than any
    /// constant begins with, and the element's number. `Memory` is want of memory.
    pub fn element_name(&self, alloc: Global, element: u32) -> Result<Name, Memory>
        ensures { IfOk result (λ name.
            name ≡ element_names.element_name self.now.tables.constants element) }
    {
        if element < self.tables.constants() {
            return self.tables.constant_name(element).try_copy(alloc);
        }
        numbered_element(alloc, self.letters, element)
    }
}
