//! Which goal is taken next. Whatever is answered here, a search stays right: it only takes longer.

use crate::draft::{Draft, PlanGoal, PlanStep, PlanTie};
use crate::item::{item_at, place_at};
use crate::joining::{Joined, join, root};
use crate::reach::is_unmet;
use crate::scene::{Read, Scene, base_of, goal_at, list_at, variable_of};
use crate::sign_table::SignTable;
use crate::word::leads_to;
use logic_core::{Atom, Form, Slot};
use vernacular_tree::Line;

/// How an atom of a goal goes together with a fact.
#[derive(Clone, Copy, Debug, PartialEq, Eq)]
enum Match {
    /// They are the same.
    Same,
    /// They may be the same.
    Open,
    /// They are two.
    Apart,
}

/// What there is for a goal: how many facts may be it, and whether one of them is known to stand
/// for it.
#[derive(Clone, Copy, Debug)]
struct Tally {
    ways: usize,
    is_standing: bool,
}

/// How many ways count as much as one variable that may stand for any element.
const WAY_WEIGHT: usize = 4;

/// How two slots go together.
fn match_slots(draft: &Draft, base: u32, slot: Slot, other_base: u32, other: Slot) -> Match {
    let (Some(left), Some(right)) = (variable_of(base, slot), variable_of(other_base, other)) else {
        return Match::Open;
    };
    match join(draft.start(), draft.bound(), draft.fixed(), left, right) {
        Joined::Same => Match::Same,
        Joined::Clash => Match::Apart,
        Joined::Bind { .. } | Joined::Unknown => Match::Open,
    }
}

/// Whether two atoms have one sign and one symbol.
fn are_alike(one: &Atom, other: &Atom) -> bool {
    one.symbol == other.symbol && one.positive == other.positive
}

/// How a goal goes together with a fact of a list.
fn match_atoms(draft: &Draft, goal: Read<'_>, fact: &Atom, base: u32) -> Match {
    if !are_alike(goal.atom, fact) {
        return Match::Apart;
    }
    let slots = goal.atom.args.as_slice();
    let others = fact.args.as_slice();
    let mut all = Match::Same;
    for at in 0..slots.len().min(others.len()) {
        match match_slots(draft, goal.base, slots[at], base, others[at]) {
            Match::Same => {}
            Match::Open => all = Match::Open,
            Match::Apart => return Match::Apart,
        }
    }
    all
}

/// Counts the facts of the context.
fn see_given(scene: &Scene<'_>, draft: &Draft, goal: Read<'_>, tally: &mut Tally) {
    for line in scene.lines {
        if let Line::Facts(facts) = line {
            for fact in facts.as_slice() {
                match match_atoms(draft, goal, fact, 0) {
                    Match::Same => tally.is_standing = true,
                    Match::Open => tally.ways = tally.ways.saturating_add(1),
                    Match::Apart => {}
                }
            }
        }
    }
}

/// Whether a step is known to stand in a branch or below it.
fn is_under(draft: &Draft, user: Option<u32>, node: u32) -> bool {
    let Some(user) = user else {
        return true;
    };
    for tie in draft.ties() {
        if let PlanTie::Under { step, node: level } = *tie
            && step == user
            && leads_to(draft.nodes(), node, level) == Some(true)
        {
            return true;
        }
    }
    false
}

/// Counts the facts of the case with which a branch begins; one that is the goal is known to stand
/// for it where the goal's user stands in that branch or below it.
fn see_case(
    scene: &Scene<'_>,
    draft: &Draft,
    user: Option<u32>,
    read: Read<'_>,
    node: u32,
    tally: &mut Tally,
) {
    let Some(kept) = item_at(draft.nodes(), node as usize) else {
        return;
    };
    let Some(facts) = list_at(scene, kept.of) else {
        return;
    };
    for fact in facts.as_slice() {
        let found = match_atoms(draft, read, fact, base_of(kept.of));
        if found == Match::Same && is_under(draft, user, node) {
            tally.is_standing = true;
        }
        if found != Match::Apart {
            tally.ways = tally.ways.saturating_add(1);
        }
    }
}

/// Counts the facts of the cases above a goal.
fn see_cases(scene: &Scene<'_>, draft: &Draft, goal: PlanGoal, read: Read<'_>, tally: &mut Tally) {
    let mut at = goal.node;
    for _round in 0..draft.nodes().len() {
        if at == 0 {
            return;
        }
        see_case(scene, draft, goal.user, read, at, tally);
        let Some(node) = item_at(draft.nodes(), at as usize) else {
            return;
        };
        at = node.parent;
    }
}

/// Whether a step is known to be seen from the branch of a goal, before its user.
fn is_before(draft: &Draft, goal: PlanGoal, number: usize) -> bool {
    let mut is_seen = false;
    let mut is_earlier = goal.user.is_none();
    for tie in draft.ties() {
        match *tie {
            PlanTie::Over { step, node } => {
                if step as usize == number
                    && leads_to(draft.nodes(), node, goal.node) == Some(true)
                {
                    is_seen = true;
                }
            }
            PlanTie::Before { lower, upper } => {
                if lower as usize == number && goal.user == Some(upper) {
                    is_earlier = true;
                }
            }
            PlanTie::Under { .. } => {}
        }
    }
    is_seen && is_earlier
}

/// The facts of a form that gives one list.
fn facts_of(form: &Form) -> &[Atom] {
    match form.disjuncts.as_slice() {
        [facts] => facts.as_slice(),
        _ => &[],
    }
}

/// Counts the facts of steps; one that is the goal is known to stand for it where its step is known
/// to stand before it.
fn see_steps(scene: &Scene<'_>, draft: &Draft, goal: PlanGoal, read: Read<'_>, tally: &mut Tally) {
    for number in 0..draft.steps().len() {
        let PlanStep { form, base } = draft.steps()[number];
        let Some(form) = place_at(scene.forms, form as usize) else {
            return;
        };
        for fact in facts_of(form) {
            let found = match_atoms(draft, read, fact, base);
            if found == Match::Same && is_before(draft, goal, number) {
                tally.is_standing = true;
            }
            if found != Match::Apart {
                tally.ways = tally.ways.saturating_add(1);
            }
        }
    }
}

/// Counts the facts of forms that have the symbol of a goal.
fn see_forms(scene: &Scene<'_>, read: Read<'_>, tally: &mut Tally) {
    for form in scene.forms {
        for fact in facts_of(form) {
            if are_alike(fact, read.atom) {
                tally.ways = tally.ways.saturating_add(1);
            }
        }
    }
}

/// What there is for a goal without new steps.
fn tally_of(scene: &Scene<'_>, draft: &Draft, goal: PlanGoal, read: Read<'_>) -> Tally {
    let mut tally = Tally {
        ways: 0,
        is_standing: false,
    };
    see_given(scene, draft, read, &mut tally);
    if !tally.is_standing {
        see_cases(scene, draft, goal, read, &mut tally);
    }
    if !tally.is_standing {
        see_steps(scene, draft, goal, read, &mut tally);
    }
    tally
}

/// Whether a goal is known to stand.
pub(crate) fn is_standing(scene: &Scene<'_>, draft: &Draft, goal: PlanGoal) -> bool {
    match goal_at(scene, goal) {
        Some(read) => tally_of(scene, draft, goal, read).is_standing,
        None => false,
    }
}

/// How many slots of an atom may stand for any element.
fn count_free(draft: &Draft, read: Read<'_>) -> usize {
    let mut count = 0usize;
    for slot in read.atom.args.as_slice() {
        if let Some(variable) = variable_of(read.base, *slot)
            && let Some(found) = root(draft.start(), draft.bound(), variable)
            && found >= draft.start()
            && item_at(draft.fixed(), (found - draft.start()) as usize) == Some(false)
        {
            count = count.saturating_add(1);
        }
    }
    count
}

/// How much a goal leaves open: 0 for one that is known to stand, or has no way; ways count more
/// than variables.
fn weight_of(
    scene: &Scene<'_>,
    draft: &Draft,
    signs: &SignTable,
    goal: PlanGoal,
    is_full: bool,
) -> usize {
    let Some(read) = goal_at(scene, goal) else {
        return 0;
    };
    if is_unmet(scene, draft, signs.row(goal.node), goal) {
        return 0;
    }
    let mut tally = tally_of(scene, draft, goal, read);
    if tally.is_standing {
        return 0;
    }
    if !is_full {
        see_forms(scene, read, &mut tally);
    }
    if tally.ways == 0 {
        return 0;
    }
    let weight = tally.ways.saturating_mul(WAY_WEIGHT);
    weight.saturating_add(count_free(draft, read))
}

/// The place of the goal that leaves least open, the newest one of several.
pub(crate) fn next_goal(
    scene: &Scene<'_>,
    draft: &Draft,
    signs: &SignTable,
    is_full: bool,
) -> usize {
    let mut best = 0usize;
    let mut least = usize::MAX;
    for at in (0..draft.goals().len()).rev() {
        let weight = weight_of(scene, draft, signs, draft.goals()[at], is_full);
        if weight == 0 {
            return at;
        }
        if weight < least {
            least = weight;
            best = at;
        }
    }
    best
}
