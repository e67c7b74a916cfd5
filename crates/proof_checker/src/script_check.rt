ghost use Rattle.std.specs.Prelude.{◌≡◌, ◌<◌, ◌^◌, length, IfOk, IfErr, OnOk};
ghost use Rattle.text_core.specs.Exact.{Exact};
ghost use Rattle.proof_checker.specs.declared.refusal.CheckRefusal.TheVariants as refusals;
ghost use Rattle.proof_checker.specs.Accepted.{IsAcceptedAs};
ghost use Rattle.proof_text.specs.Proper.{IsProper};
ghost use Rattle.proof_text.specs.StandsFor.{TakesStand};
ghost use Rattle.proof_text.specs.Branches.{start_names, start_branch};
ghost use Rattle.proof_checker.specs.Faults.{TakesFault, FirstFault, IsFault, IsRefusalOf, IsOpenRefusalOf};
ghost use Rattle.proof_checker.specs.Kept as kept;
ghost use Rattle.proof_checker.specs.Opened.{Opens, IsOpenAs};
ghost use Rattle.proof_checker.specs.Running.{HaltsBy, RefusesBy, rules_in};

use crate::checker::check_body;
use crate::fact::{HeldLine, facts_at};
use crate::finish::behind_parameters;
use crate::halt::Halt;
use crate::open_node::OpenNode;
use crate::refusal::{CheckRefusal, Rule, Why, refused};
use crate::trail::Trail;
use coherent_form::Task;
use proof_text::Script;
use std::alloc::Global;
use text_core::{List, Memory, Name};
use vernacular_tree::{Node, Proof, TreeRefusal};

// The names of the elements with which a script begins, and no lines.
fn name_elements(alloc: Global, task: &Task, take: &[Name]) -> Result<Trail, Halt>
    ensures takes { IfOk result (λ trail. TakesStand task.now take.now) }
    ensures named { IfOk result (λ trail. trail ≡ record (kept.kept_constants task.now.tables) {
      names = start_names task.now take.now;
    }) }
    ensures few { IfOk result (λ trail. length trail.names < 2 ^ 32) }
    ensures err { IfErr result (HaltsBy (TakesFault task.now take.now)) }
{
    let goal = task.goal();
    if take.len() != goal.universals as usize {
        return Err(Halt::Fault(Why::ParameterCount));
    }
    let mut trail = Trail::new(alloc, task.tables())?;
    if !trail.add_names(take)? {
        return Err(Halt::Fault(Why::NameTaken));
    }
    trail.name_single()?;
    Ok(trail)
}

// The branch with which a script begins.
fn start(alloc: Global, task: &Task, take: &[Name]) -> Result<Trail, Halt>
    ensures takes { IfOk result (λ trail. TakesStand task.now take.now) }
    ensures branch { IfOk result (λ trail.
        kept.branch_of trail ≡ start_branch task.now take.now) }
    ensures kept { IfOk result (kept.IsKept task.now) }
    ensures err { IfErr result (HaltsBy (TakesFault task.now take.now)) }
{
    let mut trail = name_elements(alloc, task, take)?;
    let none = List::new(alloc);
    let parameters = behind_parameters(alloc, task, none.as_slice())?;
    let premises = task.goal().premises.as_slice();
    let facts = facts_at(alloc, parameters.as_slice(), premises)?;
    trail.push_line(HeldLine::Facts(facts))?;
    Ok(trail)
}

// The nodes of a script, in which a gap may stand if `gaps` is true.
fn check_nodes(
    alloc: Global,
    task: &Task,
    gaps: bool,
    script: &Script,
) -> Result<List<OpenNode>, CheckRefusal>
    ensures ok { IfOk result (Opens task.now gaps script.now) }
    ensures proper { OnOk result (IsProper script.now) }
    ensures err { IfErr result (RefusesBy (FirstFault task.now gaps script.now)) }
{
    let mut trail = match start(alloc, task, script.take().as_slice()) {
        Ok(trail) => trail,
        Err(halt) => return Err(refused(0, Rule::Take, halt)),
    };
    let mut nodes = List::new(alloc);
    check_body(alloc, task, gaps, &mut trail, &mut nodes, script.body())?;
    Ok(nodes)
}

// The rule applications among nodes.
fn rules_of(alloc: Global, nodes: List<OpenNode>) -> Result<List<Node>, Memory>
    ensures { IfOk result (λ rules. rules ≡ rules_in nodes) }
{
    let mut rules = List::new(alloc);
    for node in nodes.into_vec() {
        match node {
            OpenNode::Gap { .. } => {}
            OpenNode::Rule(rule) => rules.push(rule)?,
        }
    }
    Ok(rules)
}

// The proof of the nodes of a script in which no gap may stand.
fn check_closed(alloc: Global, task: &Task, script: &Script) -> Result<Proof, CheckRefusal>
    ensures ok { IfOk result (IsAcceptedAs task.now script.now) }
    ensures err { IfErr result (RefusesBy (IsFault task.now script.now)) }
{
    let nodes = check_nodes(alloc, task, false, script)?;
    let rules = rules_of(alloc, nodes)?;
    match Proof::from_nodes(alloc, &rules) {
        Ok(proof) => Ok(proof),
        Err(TreeRefusal::NotATree) => unreachable!(),
        Err(TreeRefusal::Memory) => Err(CheckRefusal::Memory),
    }
}

/// Checks a script against a task. `Ok` is the proof as which it is accepted, by the rules of the
/// 2014 paper "A Vernacular for Coherent Logic"; `Step` tells the first fault of one that is
/// accepted as none; `Memory` is want of memory, or of numbers of 32 bits.
pub fn check_script(alloc: Global, task: &Task, script: &Script) -> Result<Proof, CheckRefusal>
    ensures { Exact (IsAcceptedAs task.now script.now) (IsRefusalOf task.now script.now)
        refusals.Memory result }
{
    // No two forms are cited in the same way.
    task.citations_differ();
    check_closed(alloc, task, script)
}

/// Checks a script against a task, where a gap closes its branch, whatever is known there. `Ok` has
/// the nodes of the script in preorder, one for each gap and each rule application; `Step` tells
/// the first fault of a script that has one; `Memory` is want of memory, or of numbers of 32 bits.
pub fn check_open(
    alloc: Global,
    task: &Task,
    script: &Script,
) -> Result<List<OpenNode>, CheckRefusal>
    ensures { Exact (IsOpenAs task.now script.now) (IsOpenRefusalOf task.now script.now)
        refusals.Memory result }
{
    // No two forms are cited in the same way.
    task.citations_differ();
    check_nodes(alloc, task, true, script)
}
