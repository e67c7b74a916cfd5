ghost use Rattle.std.specs.Prelude.{◌≡◌, ◌<◌, ◌≤◌, ◌^◌, ◌++◌, List as Lst, [], map, zip, length, IfOk, IfErr, OnOk, MatchOption};
ghost use Rattle.std.specs.Bool.{Decides};
ghost use Rattle.logic_core.specs.declared.form.Atom.{Atom as AtomValue};
ghost use Rattle.vernacular_tree.specs.Contexts.{parameters as all_parameters};
ghost use Rattle.vernacular_tree.specs.Rules.{IsAnswer};
ghost use Rattle.coherent_form.specs.Tasks.{proof_task};
ghost use Rattle.proof_text.specs.declared.body.CaseText.{CaseText as Case};
ghost use Rattle.proof_text.specs.StandsFor.{NamesStand, Shows};
ghost use Rattle.proof_text.specs.Branches.{named_facts};
ghost use Rattle.proof_checker.specs.Checks.{EachBehind, FailsAt};
ghost use Rattle.proof_checker.specs.Faults.{AnswerFault, CaseShows, SplitFault, IsSplit};
ghost use Rattle.proof_checker.specs.Kept as kept;
ghost use Rattle.proof_checker.specs.Running.{HaltsBy};

use crate::args::elements_of;
use crate::compare::shows_facts;
use crate::fact::{Fact, HeldLine};
use crate::halt::Halt;
use crate::refusal::Why;
use crate::step::{missing_atom, with_counted};
use crate::trail::Trail;
use coherent_form::Task;
use logic_core::Form;
use proof_text::{CaseText, NamedAtom};
use signature::Tables;
use std::alloc::Global;
use text_core::{List, Memory, Name};

fn has_disjunct(form: &Form, disjunct: u32) -> bool
    ensures { Decides result ((0 < disjunct) × (disjunct ≤ length form.now.disjuncts)) }
{
    disjunct > 0 && disjunct as usize <= form.disjuncts.len()
}

/// The parameters, and elements behind them. `Memory` is want of memory.
pub(crate) fn behind_parameters(
    alloc: Global,
    task: &Task,
    elements: &[u32],
) -> Result<List<u32>, Memory>
    ensures { IfOk result (λ all.
        all ≡ all_parameters (proof_task task.now) ++ elements.now) }
{
    let count = task.goal().universals;
    let first = task.start_elements() - count;
    let none = List::new(alloc);
    let mut all = with_counted(alloc, none.as_slice(), first, count)?;
    all.extend_from_slice(elements)?;
    Ok(all)
}

/// The elements with which an end by a disjunct of the goal stands.
pub(crate) fn check_answer(
    alloc: Global,
    task: &Task,
    trail: &Trail,
    disjunct: u32,
    texts: &[Name],
) -> Result<List<u32>, Halt>
    requires kept { kept.IsKept task.now trail.now }
    ensures stand { IfOk result (NamesStand trail.now.names texts.now) }
    ensures answer { IfOk result (IsAnswer (proof_task task.now)
        (kept.branch_of trail.now).context disjunct) }
    ensures err { IfErr result (HaltsBy
        (AnswerFault task.now (kept.branch_of trail.now) disjunct texts.now)) }
{
    let goal = task.goal();
    if !has_disjunct(goal, disjunct) {
        return Err(Halt::Fault(Why::NoSuchDisjunct));
    }
    if texts.len() != goal.existentials as usize {
        return Err(Halt::Fault(Why::AnswerCount));
    }
    let Some(args) = elements_of(alloc, trail, texts)? else {
        return Err(Halt::Fault(Why::AnswerUnknown));
    };
    let elements = behind_parameters(alloc, task, args.as_slice())?;
    let atoms = &goal.disjuncts.as_slice()[disjunct as usize - 1];
    match missing_atom(alloc, trail, elements.as_slice(), atoms.as_slice())? {
        Some(atom) => Err(Halt::Fault(Why::AtomMissing(atom))),
        None => Ok(args),
    }
}

fn shows_case(
    tables: &Tables,
    names: &[Name],
    shown: &Option<List<NamedAtom>>,
    facts: &[Fact],
) -> bool
    ensures { Decides result (Shows shown.now
        (named_facts tables.now names.now (map kept.atom_seen facts.now))) }
{
    match shown {
        Some(atoms) => shows_facts(tables, names, atoms.as_slice(), facts),
        None => true,
    }
}

// The number of the first case, from 1, that shows other facts.
fn differing_case(
    task: &Task,
    trail: &Trail,
    cases: &[CaseText],
    lists: &[List<Fact>],
) -> Option<u32>
    requires as_many { length cases.now ≡ length lists.now }
    requires few { length cases.now < 2 ^ 32 }
    ensures { MatchOption result
        (EachBehind (λ front case. CaseShows task.now (kept.branch_of trail.now) case) []
        (zip (map (λ (case : Case). case.shown) cases.now)
        (map (map kept.atom_seen) lists.now)))
        (FailsAt (λ front case. CaseShows task.now (kept.branch_of trail.now) case) []
        (zip (map (λ (case : Case). case.shown) cases.now)
        (map (map kept.atom_seen) lists.now))) }
{
    for at in 0..cases.len() {
        let case = &cases[at];
        let list = &lists[at];
        if !shows_case(task.tables(), trail.names(), &case.shown, list.as_slice()) {
            return Some(at as u32 + 1);
        }
    }
    None
}

/// Whether a line is split into cases.
pub(crate) fn check_split(
    task: &Task,
    trail: &Trail,
    line: u32,
    cases: &[CaseText],
) -> Result<(), Halt>
    requires { length cases.now < 2 ^ 32 }
    ensures ok { OnOk result ((lists : Lst (Lst AtomValue)) × IsSplit task.now
        (kept.branch_of trail.now) line (map (λ (case : Case). case.shown) cases.now) lists) }
    ensures err { IfErr result (HaltsBy (SplitFault task.now (kept.branch_of trail.now) line
        (map (λ (case : Case). case.shown) cases.now))) }
{
    let lists = match trail.line(line) {
        None => return Err(Halt::Fault(Why::NoSuchLine)),
        Some(HeldLine::Cases(lists)) => lists,
        Some(_) => return Err(Halt::Fault(Why::NotCases)),
    };
    if cases.len() != lists.len() {
        return Err(Halt::Fault(Why::BranchCount));
    }
    match differing_case(task, trail, cases, lists.as_slice()) {
        Some(case) => Err(Halt::Fault(Why::CaseDiffers(case))),
        None => Ok(()),
    }
}
