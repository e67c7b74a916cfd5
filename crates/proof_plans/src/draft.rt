ghost use Rattle.std.specs.Prelude.{◌≡◌, ◌+◌, ◌++◌, ◌<◌, ◌≤◌, [], ◌∷◌, length, replicate, set, IfSome};
ghost use Rattle.std.specs.Bool.{OnTrue};
ghost use Rattle.vernacular_tree.specs.Contexts.{counted};
ghost use Rattle.proof_plans.specs.Drafts as drafts;
ghost use Rattle.proof_plans.specs.Popped.{IsPopped};

use crate::item::item_at;
use std::alloc::Global;
use std::marker::Model;
use text_core::Memory;

/// A step of a plan: its form, and its first variable.
#[derive(Clone, Copy, Debug)]
pub struct PlanStep {
    pub form: u32,
    pub base: u32,
}

/// A list of facts: those of a line of the context that was lent, those of a case of such a line,
/// or the atoms of a disjunct of a form at variables in a row.
#[derive(Clone, Copy, Debug)]
pub enum ListOf {
    Line { line: u32 },
    Case { line: u32, number: u32 },
    Disjunct { form: u32, base: u32, number: u32 },
}

/// A branch: the one that was split, and the facts of its case.
#[derive(Clone, Copy, Debug)]
pub struct Node {
    pub parent: u32,
    pub of: ListOf,
}

/// Of what atoms a goal is one: the premises of a step, or a disjunct of the goal of the task.
#[derive(Clone, Copy, Debug)]
pub enum GoalOf {
    Premises { form: u32, base: u32 },
    Disjunct { number: u32, base: u32 },
}

/// A goal: which atom it is, the step that has it, and the branch from which it is seen.
#[derive(Clone, Copy, Debug)]
pub struct PlanGoal {
    pub of: GoalOf,
    pub number: u32,
    pub user: Option<u32>,
    pub node: u32,
}

/// What is known of where a step stands: before another one, which sees it; in a branch or in one to
/// which that leads; or where a branch sees it.
#[derive(Clone, Copy, Debug)]
pub enum PlanTie {
    Before { lower: u32, upper: u32 },
    Under { step: u32, node: u32 },
    Over { step: u32, node: u32 },
}

/// Two variables that stand for one element.
#[derive(Clone, Copy, Debug)]
pub struct Pair {
    pub left: u32,
    pub right: u32,
}

/// A point to which a plan goes back.
#[derive(Clone, Copy, Debug)]
pub struct Mark {
    pub bound: usize,
    pub fixed: usize,
    pub steps: usize,
    pub nodes: usize,
    pub ties: usize,
    pub branches: usize,
    pub goals: usize,
    pub pairs: usize,
    pub closed: u32,
}

/// For how many parts a plan has room.
#[derive(Clone, Copy, Debug)]
pub(crate) struct Room {
    pub(crate) variables: usize,
    pub(crate) steps: usize,
    pub(crate) goals: usize,
    pub(crate) pairs: usize,
}

/// A plan in place.
#[derive(Drop)]
pub struct Draft {
    start: u32,
    bound: Vec<u32>,
    fixed: Vec<bool>,
    steps: Vec<PlanStep>,
    nodes: Vec<Node>,
    ties: Vec<PlanTie>,
    branches: Vec<u32>,
    closed: u32,
    goals: Vec<PlanGoal>,
    pairs: Vec<Pair>,
}

impl Model for Draft {
    ghost use Rattle.proof_plans.specs.Drafts.{Drafted};

    ghost Value = { Drafted };

    ghost view = { λ d. record {
      start = d.start;
      bound = d.bound.items;
      fixed = d.fixed.items;
      steps = d.steps.items;
      nodes = d.nodes.items;
      ties = d.ties.items;
      branches = d.branches.items;
      closed = d.closed;
      goals = d.goals.items;
      pairs = d.pairs.items;
    } };
}

/// Appends an item, where there is room for it.
pub(crate) fn push_if_room<T: Drop>(items: &mut Vec<T>, item: T) -> bool
    ensures { OnTrue result (items.new.items ≡ items.old.items ++ item ∷ []) }
{
    if items.len() < items.capacity() {
        items.push(item).is_ok()
    } else {
        false
    }
}

/// Appends as many numbers in a row, where there is room for them.
pub(crate) fn count_if_room(items: &mut Vec<u32>, first: usize, count: u32) -> bool
    ensures { OnTrue result (items.new.items ≡ items.old.items ++ counted first count) }
{
    for at in 0..count {
        let Some(next) = first.checked_add(at as usize) else {
            return false;
        };
        if next > u32::MAX as usize || !push_if_room(items, next as u32) {
            return false;
        }
    }
    true
}

/// Appends an item as many times, where there is room for that.
fn repeat_if_room(items: &mut Vec<bool>, item: bool, count: u32) -> bool
    ensures { OnTrue result (items.new.items ≡ items.old.items ++ replicate count item) }
{
    for done in 0..count {
        if !push_if_room(items, item) {
            return false;
        }
    }
    true
}

impl Draft {
    /// A plan with room for as many parts. `Memory` is want of memory.
    pub(crate) fn new(alloc: Global, room: &Room) -> Result<Draft, Memory> {
        Ok(Draft {
            start: 0,
            bound: Vec::with_capacity(alloc, room.variables)?,
            fixed: Vec::with_capacity(alloc, room.variables)?,
            steps: Vec::with_capacity(alloc, room.steps)?,
            nodes: Vec::with_capacity(alloc, room.steps)?,
            ties: Vec::with_capacity(alloc, room.goals)?,
            branches: Vec::with_capacity(alloc, room.steps)?,
            closed: 0,
            goals: Vec::with_capacity(alloc, room.goals)?,
            pairs: Vec::with_capacity(alloc, room.pairs)?,
        })
    }

    /// The plan with which a search begins.
    pub(crate) fn begin(&mut self, start: u32) -> bool
        ensures { OnTrue result (self.new ≡ drafts.first_draft start) }
    {
        self.start = start;
        self.bound.truncate(0);
        self.fixed.truncate(0);
        self.steps.truncate(0);
        self.nodes.truncate(0);
        self.ties.truncate(0);
        self.branches.truncate(0);
        self.closed = 0;
        self.goals.truncate(0);
        self.pairs.truncate(0);
        let root = Node {
            parent: 0,
            of: ListOf::Line { line: 0 },
        };
        push_if_room(&mut self.nodes, root) && push_if_room(&mut self.branches, 0)
    }

    /// The number of elements of the context from which the plan begins.
    pub(crate) fn start(&self) -> u32
        ensures { result ≡ self.now.start }
    {
        self.start
    }

    pub(crate) fn bound(&self) -> &[u32]
        ensures { result.now ≡ self.now.bound }
    {
        self.bound.as_slice()
    }

    pub(crate) fn fixed(&self) -> &[bool]
        ensures { result.now ≡ self.now.fixed }
    {
        self.fixed.as_slice()
    }

    pub(crate) fn steps(&self) -> &[PlanStep]
        ensures { result.now ≡ self.now.steps }
    {
        self.steps.as_slice()
    }

    pub(crate) fn nodes(&self) -> &[Node]
        ensures { result.now ≡ self.now.nodes }
    {
        self.nodes.as_slice()
    }

    pub(crate) fn goals(&self) -> &[PlanGoal]
        ensures { result.now ≡ self.now.goals }
    {
        self.goals.as_slice()
    }

    pub(crate) fn ties(&self) -> &[PlanTie]
        ensures { result.now ≡ self.now.ties }
    {
        self.ties.as_slice()
    }

    pub(crate) fn branches(&self) -> &[u32]
        ensures { result.now ≡ self.now.branches }
    {
        self.branches.as_slice()
    }

    /// As many applications as the plan has at least; `None` where there are too many to tell.
    pub(crate) fn cost(&self) -> Option<usize>
        ensures { IfSome result (λ cost. cost
            ≡ length self.now.steps + self.now.closed + length self.now.branches) }
    {
        self.steps
            .len()
            .checked_add(self.closed as usize)?
            .checked_add(self.branches.len())
    }

    /// Whether no pair waits to be joined.
    pub(crate) fn is_joined(&self) -> bool
        ensures { OnTrue result (self.now.pairs ≡ []) }
    {
        self.pairs.is_empty()
    }

    pub(crate) fn push_goal(&mut self, goal: PlanGoal) -> bool
        ensures { OnTrue result (self.new ≡ drafts.with_goal goal self.old) }
    {
        push_if_room(&mut self.goals, goal)
    }

    pub(crate) fn push_pair(&mut self, pair: Pair) -> bool
        ensures { OnTrue result (self.new ≡ drafts.with_pair pair self.old) }
    {
        push_if_room(&mut self.pairs, pair)
    }

    pub(crate) fn push_tie(&mut self, tie: PlanTie) -> bool
        ensures { OnTrue result (self.new ≡ drafts.with_tie tie self.old) }
    {
        push_if_room(&mut self.ties, tie)
    }

    pub(crate) fn push_branch(&mut self, node: u32) -> bool
        ensures { OnTrue result (self.new ≡ drafts.with_branch node self.old) }
    {
        push_if_room(&mut self.branches, node)
    }

    pub(crate) fn push_node(&mut self, node: Node) -> bool
        ensures { OnTrue result (self.new ≡ record self.old { nodes = self.old.nodes ++ node ∷ [] }) }
    {
        push_if_room(&mut self.nodes, node)
    }

    pub(crate) fn push_step(&mut self, step: PlanStep) -> bool
        ensures { OnTrue result (self.new ≡ record self.old { steps = self.old.steps ++ step ∷ [] }) }
    {
        push_if_room(&mut self.steps, step)
    }

    /// One more branch is closed.
    pub(crate) fn close_one(&mut self) -> bool
        ensures { OnTrue result (self.new ≡ record self.old { closed = self.old.closed + 1 }) }
    {
        match self.closed.checked_add(1) {
            Some(closed) => {
                self.closed = closed;
                true
            }
            None => false,
        }
    }

    /// The goal at this place is taken away, and the newest one put in its place; where there is none
    /// at it, the newest one.
    pub(crate) fn take_goal(&mut self, at: usize) -> Option<PlanGoal>
        ensures { IsPopped (drafts.with_goal_at at) self.old self.new result }
    {
        let newest = self.goals.pop()?;
        match item_at(self.goals.as_slice(), at) {
            Some(taken) => {
                self.goals[at] = newest;
                Some(taken)
            }
            None => Some(newest),
        }
    }

    /// A goal that was taken away stands again.
    pub(crate) fn put_goal(&mut self, at: usize, goal: PlanGoal) -> bool
        ensures { OnTrue result (self.new ≡ drafts.with_goal_at at goal self.old) }
    {
        match item_at(self.goals.as_slice(), at) {
            Some(newest) => {
                self.goals[at] = goal;
                push_if_room(&mut self.goals, newest)
            }
            None => push_if_room(&mut self.goals, goal),
        }
    }

    /// The newest branch is taken away.
    pub(crate) fn pop_branch(&mut self) -> Option<u32>
        ensures { IsPopped drafts.with_branch self.old self.new result }
    {
        self.branches.pop()
    }

    /// The newest pair is taken away.
    pub(crate) fn pop_pair(&mut self) -> Option<Pair>
        ensures { IsPopped drafts.with_pair self.old self.new result }
    {
        self.pairs.pop()
    }

    /// Further variables that are bound to themselves.
    pub(crate) fn widen(&mut self, count: u32, fixed: bool) -> bool
        ensures { OnTrue result (self.new ≡ record self.old {
          bound = self.old.bound ++ counted (self.old.start + length self.old.bound) count;
          fixed = self.old.fixed ++ replicate count fixed;
        }) }
    {
        match (self.start as usize).checked_add(self.bound.len()) {
            Some(first) => {
                count_if_room(&mut self.bound, first, count)
                    && repeat_if_room(&mut self.fixed, fixed, count)
            }
            None => false,
        }
    }

    /// Binds a variable, told by its number behind the elements of the context.
    pub(crate) fn bind(&mut self, at: usize, to: u32)
        requires { at < length self.old.bound }
        ensures { self.new ≡ record self.old { bound = set self.old.bound at to } }
    {
        self.bound[at] = to;
    }

    /// The point at which the plan is.
    pub(crate) fn mark(&self) -> Mark
        ensures { result ≡ drafts.mark_of self.now }
    {
        Mark {
            bound: self.bound.len(),
            fixed: self.fixed.len(),
            steps: self.steps.len(),
            nodes: self.nodes.len(),
            ties: self.ties.len(),
            branches: self.branches.len(),
            goals: self.goals.len(),
            pairs: self.pairs.len(),
            closed: self.closed,
        }
    }

    /// Goes back to a point.
    pub(crate) fn back(&mut self, mark: Mark)
        ensures { self.new ≡ drafts.cut mark self.old }
    {
        self.bound.truncate(mark.bound);
        self.fixed.truncate(mark.fixed);
        self.steps.truncate(mark.steps);
        self.nodes.truncate(mark.nodes);
        self.ties.truncate(mark.ties);
        self.branches.truncate(mark.branches);
        self.goals.truncate(mark.goals);
        self.pairs.truncate(mark.pairs);
        self.closed = mark.closed;
    }
}
