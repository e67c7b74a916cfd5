ghost use Rattle.std.specs.Prelude.{◌≡◌, ◌+◌, ◌<◌, ◌≤◌, ◌^◌, ◌++◌, [], length, IfOk, IfErr, OnOk, MatchOption};
ghost use Rattle.std.specs.Bool.{Decides};
ghost use Rattle.std.specs.List.{AllByRecursion};
ghost use Rattle.logic_core.specs.declared.form.Atom.{Atom as AtomValue};
ghost use Rattle.vernacular_tree.specs.Contexts.{counted, atom_at, Stands};
ghost use Rattle.coherent_form.specs.Fitting.{FormFits};
ghost use Rattle.coherent_form.specs.Tasks.{CitedTask};
ghost use Rattle.proof_text.specs.StandsFor.{Shows};
ghost use Rattle.proof_text.specs.Branches.{shown_line};
ghost use Rattle.proof_checker.specs.Checks.{EachBehind, FailsAt};
ghost use Rattle.proof_checker.specs.Faults.{StepFault, InstanceFault, WitnessFault};
ghost use Rattle.proof_checker.specs.Kept as kept;
ghost use Rattle.proof_checker.specs.Running.{HaltsBy, IsTaken, IsStep};

use crate::args::check_args;
use crate::compare::shows_line;
use crate::fact::{HeldLine, fact_at, line_at};
use crate::halt::Halt;
use crate::refusal::Why;
use crate::trail::Trail;
use coherent_form::Task;
use logic_core::{Atom, Form};
use proof_text::{MpText, Shown};
use signature::Tables;
use std::alloc::Global;
use text_core::{List, Memory, Name};
use vernacular_tree::Mp;

/// The number of the first atom, from 1, that does not stand at elements. `Memory` is want of
/// memory.
pub(crate) fn missing_atom(
    alloc: Global,
    trail: &Trail,
    elements: &[u32],
    atoms: &[Atom],
) -> Result<Option<u32>, Memory>
    requires kept { (task : CitedTask) × kept.IsKept task trail.now }
    requires few { length atoms.now < 2 ^ 32 }
    requires small { AllByRecursion (λ (atom : AtomValue). atom.symbol < 2 ^ 31) atoms.now }
    ensures { IfOk result (λ missing. MatchOption missing
        (EachBehind (λ front (atom : AtomValue). Stands (kept.branch_of trail.now).context
        (atom_at elements.now atom)) [] atoms.now)
        (FailsAt (λ front (atom : AtomValue). Stands (kept.branch_of trail.now).context
        (atom_at elements.now atom)) [] atoms.now)) }
{
    for at in 0..atoms.len() {
        let atom = &atoms[at];
        let fact = fact_at(alloc, elements, atom)?;
        if !trail.holds(&fact) {
            return Ok(Some(at as u32 + 1));
        }
    }
    Ok(None)
}

/// Elements, and behind them as many in a row. `Memory` is want of memory.
pub(crate) fn with_counted(
    alloc: Global,
    elements: &[u32],
    first: u32,
    count: u32,
) -> Result<List<u32>, Memory>
    requires { first + count ≤ 2 ^ 32 }
    ensures { IfOk result (λ all. all ≡ elements.now ++ counted first count) }
{
    let mut all = List::from_slice(alloc, elements)?;
    for at in 0..count {
        all.push(first + at)?;
    }
    Ok(all)
}

/// Whether a line is shown so, where one is shown.
fn shows(tables: &Tables, names: &[Name], shown: &Option<Shown>, line: &HeldLine) -> bool
    ensures { Decides result (Shows shown.now
        (shown_line tables.now names.now (kept.line_seen line.now))) }
{
    match shown {
        Some(shown) => shows_line(tables, names, shown, line),
        None => true,
    }
}

// Names the new elements of a step, and gives its line.
fn take_step(
    alloc: Global,
    task: &Task,
    trail: &mut Trail,
    form: &Form,
    args: &[u32],
    text: &MpText,
) -> Result<(), Halt>
    requires kept { kept.IsKept task.now trail.old }
    requires fits { FormFits task.now.tables form.now }
    ensures ok { OnOk result (IsTaken task.now text.now form.now args.now trail.old trail.new) }
    ensures err { IfErr result (HaltsBy
        (WitnessFault task.now (kept.branch_of trail.old) text.now form.now args.now)) }
{
    if text.fresh.len() != form.existentials as usize {
        return Err(Halt::Fault(Why::WitnessCount));
    }
    let first = trail.names().len() as u32;
    if !trail.add_names(text.fresh.as_slice())? {
        return Err(Halt::Fault(Why::WitnessTaken));
    }
    let elements = with_counted(alloc, args, first, form.existentials)?;
    let line = line_at(alloc, elements.as_slice(), form.disjuncts.as_slice())?;
    if !shows(task.tables(), trail.names(), &text.shown, &line) {
        return Err(Halt::Fault(Why::ShownDiffers));
    }
    trail.push_line(line)?;
    Ok(())
}

// Applies a form to elements.
fn apply(
    alloc: Global,
    task: &Task,
    trail: &mut Trail,
    form: &Form,
    args: &[u32],
    text: &MpText,
) -> Result<(), Halt>
    requires kept { kept.IsKept task.now trail.old }
    requires fits { FormFits task.now.tables form.now }
    requires few { length task.now.tables.symbols + 1 ≤ 67108865 }
    ensures ok { OnOk result (IsTaken task.now text.now form.now args.now trail.old trail.new) }
    ensures premises { OnOk result (AllByRecursion (λ (atom : AtomValue).
        Stands (kept.branch_of trail.old).context (atom_at args.now atom)) form.now.premises) }
    ensures err { IfErr result (HaltsBy
        (InstanceFault task.now (kept.branch_of trail.old) text.now form.now args.now)) }
{
    if let Some(premise) = missing_atom(alloc, trail, args, form.premises.as_slice())? {
        return Err(Halt::Fault(Why::PremiseMissing(premise)));
    }
    take_step(alloc, task, trail, form, args, text)
}

/// Takes a step of a script, and tells the application for which it stands.
pub(crate) fn check_step(
    alloc: Global,
    task: &Task,
    trail: &mut Trail,
    text: &MpText,
) -> Result<Mp, Halt>
    requires kept { kept.IsKept task.now trail.old }
    ensures ok { IfOk result (λ step. IsStep task.now text.now step trail.old trail.new) }
    ensures err { IfErr result (HaltsBy
        (StepFault task.now (kept.branch_of trail.old) text.now)) }
{
    let Some(number) = task.find(&text.cite) else {
        return Err(Halt::Fault(Why::UnknownAxiom));
    };
    let form = &task.forms().as_slice()[number as usize];
    let args = check_args(alloc, task, trail, number, form, &text.args)?;
    apply(alloc, task, trail, form, args.as_slice(), text)?;
    Ok(Mp { form: number, args })
}
