//! What a search looks at.

ghost use Rattle.std.specs.Prelude.{ℕ, List, ◌≡◌, ◌++◌, Some, slice_get, IfSome};
ghost use Rattle.std.specs.Bool.{OnTrue, OnFalse};
ghost use Rattle.std.specs.Option.{option_copied};
ghost use Rattle.logic_core.specs.declared.form.Atom.{Atom as AtomValue};
ghost use Rattle.vernacular_tree.specs.Contexts.{Task, atom_at};
ghost use Rattle.vernacular_tree.specs.Tasks.{IsTask};
ghost use Rattle.vernacular_tree.specs.Witnessed.{IsContext};
ghost use Rattle.vernacular_tree.specs.declared.context.Context.{Context};
ghost use Rattle.vernacular_tree.specs.declared.context.Line.TheVariants as line_value;
ghost use Rattle.proof_plans.specs.declared.draft.Node.{Node as NodeValue};
ghost use Rattle.proof_plans.specs.Plans.{Goal};
ghost use Rattle.proof_plans.specs.Drafts.{AreListed, IsGoal};
ghost use Rattle.proof_plans.specs.Scenes.{IsScene, ReadsAs, IsGoalList, goal_base, list_base, slot_variable, pairs_of};

use crate::draft::{Draft, GoalOf, ListOf, Pair, PlanGoal};
use crate::item::{item_at, place_at};
use logic_core::{Atom, Form, List, Slot};
use vernacular_tree::Line;

/// The forms of a task, a form for each disjunct of its goal, and the lines of the context that was
/// lent.
#[derive(Clone, Copy)]
pub struct Scene<'b> {
    pub forms: &'b [Form],
    pub answers: &'b [Form],
    pub lines: &'b [Line],
}

/// An atom of a form, and the variable that stands for the form's variable 0.
#[derive(Clone, Copy)]
pub struct Read<'b> {
    pub atom: &'b Atom,
    pub base: u32,
}

/// The list with this number, where a line has lists.
fn case_at(line: &Line, number: usize) -> Option<&List<Atom>>
    ensures { (lists : List (List AtomValue)) (atoms : List AtomValue) → line.now ≡ line_value.Cases lists
        → slice_get lists number ≡ Some atoms → IfSome result (λ read. read.now ≡ atoms) }
{
    match line {
        Line::Cases(lists) => place_at(lists.as_slice(), number),
        _ => None,
    }
}

/// The atoms of a list.
pub(crate) fn list_at<'b>(scene: &Scene<'b>, of: ListOf) -> Option<&'b List<Atom>>
    ensures { (task : Task) (lent : Context) (atoms : List AtomValue) (variables : List ℕ)
        → IsScene task lent scene.now → AreListed task lent of atoms variables
        → IfSome result (λ read. read.now ≡ atoms) }
{
    match of {
        ListOf::Line { line } => match place_at(scene.lines, line as usize)? {
            Line::Facts(atoms) => Some(atoms),
            _ => None,
        },
        ListOf::Case { line, number } => {
            case_at(place_at(scene.lines, line as usize)?, number as usize)
        }
        ListOf::Disjunct { form, number, .. } => {
            let form = place_at(scene.forms, form as usize)?;
            place_at(form.disjuncts.as_slice(), number as usize)
        }
    }
}

/// The variable for variable 0 of the form of a list.
pub(crate) fn base_of(of: ListOf) -> u32
    ensures { result ≡ list_base of }
{
    match of {
        ListOf::Line { .. } | ListOf::Case { .. } => 0,
        ListOf::Disjunct { base, .. } => base,
    }
}

/// A fact of a list.
pub(crate) fn fact_at<'b>(scene: &Scene<'b>, of: ListOf, number: usize) -> Option<Read<'b>>
    ensures { (constants : ℕ) (task : Task) (lent : Context) (atoms : List AtomValue)
        (variables : List ℕ) (atom : AtomValue) → IsTask constants task → IsContext task lent
        → IsScene task lent scene.now → AreListed task lent of atoms variables
        → slice_get atoms number ≡ Some atom → ReadsAs result (atom_at variables atom) }
{
    Some(Read {
        atom: place_at(list_at(scene, of)?.as_slice(), number)?,
        base: base_of(of),
    })
}

/// The atoms of which a goal is one.
fn goal_list<'b>(scene: &Scene<'b>, of: GoalOf) -> Option<&'b List<Atom>>
    ensures { (task : Task) (lent : Context) → IsScene task lent scene.now
        → IsGoalList task of result }
{
    match of {
        GoalOf::Premises { form, .. } => Some(&place_at(scene.forms, form as usize)?.premises),
        GoalOf::Disjunct { number, .. } => Some(
            &place_at(scene.answers, number as usize)?.premises,
        ),
    }
}

/// The variable for variable 0 of the form of a goal.
fn goal_base(of: GoalOf) -> u32
    ensures { result ≡ goal_base of }
{
    match of {
        GoalOf::Premises { base, .. } | GoalOf::Disjunct { base, .. } => base,
    }
}

/// The atom of a goal.
pub(crate) fn goal_at<'b>(scene: &Scene<'b>, goal: PlanGoal) -> Option<Read<'b>>
    ensures { (constants : ℕ) (task : Task) (lent : Context) (nodes : List NodeValue) (is : Goal)
        → IsTask constants task → IsScene task lent scene.now → IsGoal task lent nodes goal is
        → ReadsAs result is.atom }
{
    let atoms = goal_list(scene, goal.of)?;
    Some(Read {
        atom: place_at(atoms.as_slice(), goal.number as usize)?,
        base: goal_base(goal.of),
    })
}

/// The variable of a slot.
pub(crate) fn variable_of(base: u32, slot: Slot) -> Option<u32>
    ensures { IfSome result (λ variable. variable ≡ slot_variable base slot) }
{
    match slot {
        Slot::Variable(variable) => base.checked_add(variable),
        Slot::Constant(constant) => Some(constant),
    }
}

/// The pairs of the slots of two atoms are to stand for one element each; `false` where there is
/// no room.
pub(crate) fn push_pairs(
    draft: &mut Draft,
    base: u32,
    slots: &[Slot],
    other_base: u32,
    others: &[Slot],
) -> bool
    ensures { OnTrue result (draft.new ≡ record draft.old {
      pairs = draft.old.pairs
          ++ pairs_of base other_base slots.now others.now;
    }) }
{
    let count = slots.len().min(others.len());
    for at in 0..count {
        let (Some(slot), Some(other)) = (item_at(slots, at), item_at(others, at)) else {
            return false;
        };
        let (Some(left), Some(right)) = (variable_of(base, slot), variable_of(other_base, other))
        else {
            return false;
        };
        if !draft.push_pair(Pair { left, right }) {
            return false;
        }
    }
    true
}
