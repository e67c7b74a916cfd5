//! A branch of a proof while it is written.

ghost use Rattle.std.specs.Prelude.{ℕ, ◌≡◌, ◌<◌, ◌≤◌, ◌^◌, length, map, slice_get, Some, IfOk, OnOk};
ghost use Rattle.std.specs.List.{AllByRecursion};
ghost use Rattle.vernacular_tree.specs.Contexts as contexts;
ghost use Rattle.coherent_form.specs.Kept.{IsRight};
ghost use Rattle.coherent_form.specs.Tasks.{proof_task};
ghost use Rattle.instance_cursor.specs.Facts.{signed_number};
ghost use Rattle.proof_text.specs.Printing.{printed, printed_line};
ghost use Rattle.proof_text.specs.ScriptOf as script;
ghost use Rattle.proof_text.specs.Showing.{IsInside, MayStep};
ghost use Rattle.isar_text.specs.Bodies.{lines_with};
ghost use Rattle.isar_text.specs.Firsts.{AreFirst, Grows};
ghost use Rattle.isar_text.specs.KeptBranch as kept;

use crate::first_lines::{FirstLines, Point};
use coherent_form::Task;
use logic_core::Atom;
use proof_text::{Addition, start_context, take_step};
use std::alloc::Global;
use text_core::{List, Memory};
use vernacular_tree::{Context, Line, Mp};

/// A branch of a proof, with the first line of each fact.
#[derive(Drop)]
pub struct Branch {
    pub context: Context,
    pub firsts: FirstLines,
}

/// A place to which a branch can go back.
#[derive(Clone, Copy, Debug)]
pub struct Place {
    pub elements: u32,
    pub lines: usize,
    pub firsts: Point,
}

// The line with a number.
fn line_at(lines: &[Line], number: u32) -> &Line
    requires { number < length lines.now }
    ensures { slice_get lines.now number ≡ Some result.now }
{
    &lines[number as usize]
}

impl Branch {
    /// The branch with which each proof of a task begins.
    pub(crate) fn new(alloc: Global, task: &Task, parameters: &[u32]) -> Result<Branch, Memory>
        requires { parameters.now ≡ contexts.parameters (proof_task task.now) }
        ensures context { IfOk result (λ branch.
            branch.context ≡ contexts.start_context (proof_task task.now)) }
        ensures kept { IfOk result (λ branch. kept.IsKept task.now branch) }
        ensures right { IsRight task.now }
    {
        // The task has few symbols.
        let _forms = task.forms();
        let context = start_context(alloc, task, parameters)?;
        let mut firsts = FirstLines::new(alloc, 2 * task.tables().symbols())?;
        firsts.push_line(0, line_at(context.lines.as_slice(), 0))?;
        Ok(Branch { context, firsts })
    }

    /// The number of the next line. `Memory` where it has more than 32 bits.
    pub(crate) fn next_line(&self) -> Result<u32, Memory>
        ensures { IfOk result (λ number. number ≡ length self.now.context.lines) }
    {
        let lines = self.context.lines.len();
        if lines > u32::MAX as usize {
            return Err(Memory);
        }
        Ok(lines as u32)
    }

    /// Takes a step, and tells what it adds.
    pub(crate) fn take(&mut self, alloc: Global, task: &Task, step: &Mp) -> Result<Addition, Memory>
        requires kept { kept.IsKept task.now self.old }
        requires may { MayStep task.now self.old.context step.now }
        ensures fresh { IfOk result (λ added. added.fresh
            ≡ map (printed task.now) (script.fresh_of task.now self.old.context step.now)) }
        ensures line { IfOk result (λ added. added.line
            ≡ printed_line task.now (script.line_by task.now self.old.context step.now)) }
        ensures after { OnOk result (self.new.context
            ≡ script.after_step_of task.now self.old.context step.now) }
        ensures kept { OnOk result (kept.IsKept task.now self.new) }
        ensures grows { OnOk result (Grows self.old.firsts self.new.firsts) }
    {
        let number = self.next_line()?;
        let added = take_step(alloc, task, &mut self.context, step)?;
        let line = line_at(self.context.lines.as_slice(), number);
        self.firsts.push_line(number, line)?;
        Ok(added)
    }

    /// Goes on with the facts of a case.
    pub(crate) fn add_case(&mut self, task: &Task, facts: List<Atom>) -> Result<(), Memory>
        requires kept { kept.IsKept task.now self.old }
        requires inside { IsInside task.now (contexts.with_facts self.old.context facts) }
        ensures after { OnOk result (self.new.context
            ≡ contexts.with_facts self.old.context facts) }
        ensures kept { OnOk result (kept.IsKept task.now self.new) }
        ensures grows { OnOk result (Grows self.old.firsts self.new.firsts) }
    {
        let number = self.next_line()?;
        self.context.lines.push(Line::Facts(facts))?;
        let line = line_at(self.context.lines.as_slice(), number);
        self.firsts.push_line(number, line)
    }

    /// The first line with each of the atoms at elements.
    pub(crate) fn lines_with(
        &self,
        alloc: Global,
        elements: &[u32],
        atoms: &[Atom],
    ) -> Result<List<u32>, Memory>
        requires first { AreFirst self.now.context.lines self.now.firsts }
        requires low { AllByRecursion (λ atom. signed_number atom < 2 ^ 32) atoms.now }
        ensures { IfOk result (λ lines.
            lines ≡ lines_with self.now.context elements.now atoms.now) }
    {
        let mut lines = List::new(alloc);
        for atom in atoms {
            lines.push(self.firsts.first(elements, atom)?)?;
        }
        Ok(lines)
    }

    /// The place at which it is.
    pub(crate) fn place(&self) -> Place
        ensures { result ≡ kept.place_of self.now }
    {
        Place {
            elements: self.context.elements,
            lines: self.context.lines.len(),
            firsts: self.firsts.point(),
        }
    }

    /// Goes back to a place.
    pub(crate) fn back(&mut self, place: Place)
        requires { place.firsts.facts ≤ length self.old.firsts.facts }
        ensures { self.new ≡ kept.taken_back place self.old }
    {
        self.context.elements = place.elements;
        self.context.lines.truncate(place.lines);
        self.firsts.back(place.firsts);
    }
}
