ghost use Rattle.std.specs.Prelude.{◌≡◌, ◌+◌, ◌++◌, List as Lst, slice_get, Some, IfOk, OnOk};
ghost use Rattle.std.specs.List.{AllByRecursion};
ghost use Rattle.text_core.specs.NameTexts.{IsNameText};
ghost use Rattle.tptp_lexer.specs.Written.{joined_texts};
ghost use Rattle.logic_core.specs.declared.form.Atom.{Atom as Fact};
ghost use Rattle.vernacular_tree.specs.Contexts as contexts;
ghost use Rattle.vernacular_tree.specs.Preorders.{IsBounded};
ghost use Rattle.vernacular_tree.specs.Rules.{IsProof, Closes, Proves};
ghost use Rattle.vernacular_tree.specs.declared.context.Line.TheVariants.{Cases};
ghost use Rattle.coherent_form.specs.Kept.{IsRight};
ghost use Rattle.coherent_form.specs.Tasks.{proof_task};
ghost use Rattle.proof_text.specs.ScriptOf.{lists_in, script_of};
ghost use Rattle.proof_text.specs.declared.part.Edition.TheVariants.{First};
ghost use Rattle.proof_text.specs.Showing.{IsInside, ListProves};
ghost use Rattle.isar_text.specs.Bodies as texts;
ghost use Rattle.isar_text.specs.KeptBranch.{IsKept};
ghost use Rattle.isar_text.specs.Named.{BodyFits, EndFits, SymbolIsNamed, TablesAreNamed};
ghost use Rattle.isar_text.specs.Scripts.{IsIsarOf};
ghost use Rattle.isar_text.specs.Telling as telling;

use crate::branch::Branch;
use crate::head_text::put_head;
use crate::proof_lines::{put_between, put_case_line, put_close, put_qed, put_split};
use crate::steps::{put_answer, put_falsum, put_steps};
use coherent_form::Task;
use logic_core::Atom;
use proof_text::{case_facts, named_facts, parameters_of};
use signature::Tables;
use std::alloc::Global;
use text_core::{Bytes, List, Memory};
use vernacular_tree::{Body, End, Proof};

// Appends a body, so many cases deep. The branch is as before.
#[cycle(body)]
fn put_body(
    alloc: Global,
    task: &Task,
    level: u32,
    branch: &mut Branch,
    body: &Body,
    out: &mut Bytes,
) -> Result<(), Memory>
    requires kept { IsKept task.now branch.old }
    requires proves { IsProof (proof_task task.now) branch.old.context body.now }
    ensures text { OnOk result (out.new ≡ out.old ++
        texts.body_text level task.now body.now branch.old.context) }
    ensures fits { OnOk result (BodyFits body.now) }
    ensures same { OnOk result (branch.new ≡ branch.old) }
{
    let place = branch.place();
    put_steps(alloc, task, level, branch, body.steps.as_slice(), out)?;
    put_end(alloc, task, level, branch, &body.end, out)?;
    branch.back(place);
    Ok(())
}

// Appends an end, so many cases deep. The branch is as before.
#[cycle(body)]
fn put_end(
    alloc: Global,
    task: &Task,
    level: u32,
    branch: &mut Branch,
    end: &End,
    out: &mut Bytes,
) -> Result<(), Memory>
    requires kept { IsKept task.now branch.old }
    requires closes { Closes (proof_task task.now) end.now branch.old.context }
    ensures text { OnOk result (out.new ≡ out.old ++
        texts.end_text level task.now end.now branch.old.context) }
    ensures fits { OnOk result (EndFits end.now) }
    ensures same { OnOk result (branch.new ≡ branch.old) }
{
    match end {
        End::As { disjunct, args } => {
            put_answer(alloc, task, level, branch, *disjunct, args.as_slice(), out)
        }
        End::Efq => put_falsum(alloc, level, branch, out),
        End::Cs { line, branches } => {
            put_split(alloc, level, *line, out)?;
            put_cases(alloc, task, level, branch, *line, branches.as_slice(), out)?;
            put_close(level, out)
        }
    }
}

// The next level.
fn deeper(level: u32) -> Result<u32, Memory>
    ensures { IfOk result (λ inner. inner ≡ level + 1) }
{
    level.checked_add(1).ok_or(Memory)
}

// Appends the cases of a split line, so many cases deep. The branch is as before.
#[cycle(body)]
fn put_cases(
    alloc: Global,
    task: &Task,
    level: u32,
    branch: &mut Branch,
    line: u32,
    bodies: &[Body],
    out: &mut Bytes,
) -> Result<(), Memory>
    requires kept { IsKept task.now branch.old }
    requires prove { (lists : Lst (Lst Fact))
        × (slice_get branch.old.context.lines line ≡ Some (Cases lists))
        × ListProves task.now bodies.now lists branch.old.context }
    ensures text { OnOk result (out.new ≡ out.old ++ joined_texts (texts.next_text level)
        (telling.branch_texts (level + 1) task.now branch.old.context bodies.now
        (lists_in (slice_get branch.old.context.lines line)))) }
    ensures fits { OnOk result (AllByRecursion BodyFits bodies.now) }
    ensures same { OnOk result (branch.new ≡ branch.old) }
{
    let inner = deeper(level)?;
    for (case, body) in bodies.iter().enumerate() {
        let facts = case_facts(alloc, &branch.context, line, case)?;
        put_between(level, case, out)?;
        put_branch(alloc, task, inner, branch, facts, body, out)?;
    }
    Ok(())
}

// Appends a case with these facts, and its body, so many cases deep. The branch is as before.
#[cycle(body)]
fn put_branch(
    alloc: Global,
    task: &Task,
    level: u32,
    branch: &mut Branch,
    facts: List<Atom>,
    body: &Body,
    out: &mut Bytes,
) -> Result<(), Memory>
    requires kept { IsKept task.now branch.old }
    requires inside { IsInside task.now (contexts.with_facts branch.old.context facts) }
    requires proves { IsProof (proof_task task.now)
        (contexts.with_facts branch.old.context facts) body.now }
    ensures text { OnOk result (out.new ≡ out.old ++
        telling.branch_text level task.now branch.old.context body.now facts) }
    ensures fits { OnOk result (BodyFits body.now) }
    ensures same { OnOk result (branch.new ≡ branch.old) }
{
    let place = branch.place();
    let number = branch.next_line()?;
    let named = named_facts(alloc, task, facts.as_slice())?;
    put_case_line(alloc, level, number, named.as_slice(), out)?;
    branch.add_case(task, facts)?;
    put_body(alloc, task, level, branch, body, out)?;
    branch.back(place);
    Ok(())
}

// The constants of tables have texts of names.
fn constants_are_named(tables: &Tables)
    ensures { AllByRecursion IsNameText tables.now.constants }
{
    for number in 0..tables.constants() {
        let _bytes = tables.constant_name(number).bytes();
    }
}

// The symbols of tables have texts of names.
fn symbols_are_named(tables: &Tables)
    ensures { AllByRecursion SymbolIsNamed tables.now.symbols }
{
    for number in 1..tables.symbols() {
        let _bytes = tables.symbol_name(number).bytes();
    }
}

// Appends the text of a proof, whose names and numbers are those of values in code.
fn put_proof(alloc: Global, task: &Task, proof: &Proof, out: &mut Bytes) -> Result<(), Memory>
    requires { Proves (proof_task task.now) proof.now }
    ensures text { OnOk result (out.new ≡ out.old ++ texts.isar_proof task.now proof.now) }
    ensures named { TablesAreNamed task.now.tables }
    ensures fits { OnOk result (BodyFits proof.now) }
    ensures bounded { IsBounded proof.now }
    ensures right { IsRight task.now }
{
    // The task is right, and the proof is bounded.
    let _goal = task.goal();
    let body = proof.body();
    constants_are_named(task.tables());
    symbols_are_named(task.tables());
    let parameters = parameters_of(alloc, task)?;
    let mut branch = Branch::new(alloc, task, parameters.as_slice())?;
    put_head(alloc, task, out)?;
    put_body(alloc, task, 0, &mut branch, body, out)?;
    put_qed(0, out)
}

/// The text of a proof of a task in Isar. `Memory` is want of memory, or of numbers of 32 bits. Its
/// time is linear in what is written, and in the goal's variables for each end.
pub fn write_isar(alloc: Global, task: &Task, proof: &Proof) -> Result<Bytes, Memory>
    requires { Proves (proof_task task.now) proof.now }
    ensures text { IfOk result (λ bytes. bytes ≡ texts.isar_proof task.now proof.now) }
    // The text spells the script of the same proof.
    ensures reads_back { IfOk result (λ bytes.
        IsIsarOf task.now bytes (script_of First task.now proof.now)) }
{
    let mut out = Bytes::new(alloc);
    put_proof(alloc, task, proof, &mut out)?;
    Ok(out)
}
