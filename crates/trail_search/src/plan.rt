use crate::outline::{Outline, OutlineArg, OutlineLine, OutlineSplit, OutlineStep};
use proof_plans::{Element, ListOf, Node, Place, PlanStep, Planner, Scene};

/// Before how many steps of a plan others come: the place of each in the order in which they may be
/// done.
fn position(places: &[Place], step: usize) -> Option<u32> {
    let own = places.get(step)?.rank;
    let mut earlier = 0u32;
    for other in 0..places.len() {
        let rank = places[other].rank;
        if rank < own || (rank == own && other < step) {
            earlier = earlier.checked_add(1)?;
        }
    }
    Some(earlier)
}

/// What a variable of a plan is in an outline; one that stands for any element is the first one.
fn arg_of(planner: &Planner, scene: &Scene<'_>, variable: u32) -> Option<OutlineArg> {
    Some(match planner.element(scene, variable) {
        Element::Known(element) => OutlineArg::Element(element),
        Element::New { step, number } => OutlineArg::New {
            step: position(planner.places(), step)?,
            number,
        },
        Element::Free => OutlineArg::Element(0),
    })
}

/// Adds a step of a plan to an outline; whether there was room for it.
fn push_step(
    outline: &mut Outline,
    planner: &Planner,
    scene: &Scene<'_>,
    number: usize,
) -> Option<()> {
    let step: PlanStep = planner.steps().get(number).copied()?;
    let place: Place = planner.places().get(number).copied()?;
    let universals = scene.forms.get(step.form as usize)?.universals;
    let first = outline.arg_count();
    for at in 0..universals {
        let arg = arg_of(planner, scene, step.base.checked_add(at)?)?;
        if !outline.push_arg(arg) {
            return None;
        }
    }
    let added = outline.push_step(OutlineStep {
        form: step.form,
        branch: place.level,
        first,
        count: universals as usize,
    });
    if added { Some(()) } else { None }
}

/// Whether the one branch of a plan leads to the other one.
fn leads_to(planner: &Planner, upper: u32, lower: u32) -> bool {
    let mut at = lower;
    for _round in 0..planner.nodes().len() {
        if at == upper {
            return true;
        }
        let Some(node) = planner.nodes().get(at as usize) else {
            return false;
        };
        at = node.parent;
    }
    false
}

/// The step of a form whose first variable this is, as seen from a branch. Steps without variables
/// may have one first variable.
fn step_from(planner: &Planner, form: u32, base: u32, branch: u32) -> Option<usize> {
    let count = planner.steps().len();
    for number in 0..count {
        let step: PlanStep = planner.steps().get(number).copied()?;
        let place: Place = planner.places().get(number).copied()?;
        if step.form == form && step.base == base && leads_to(planner, place.level, branch) {
            return Some(number);
        }
    }
    None
}

/// The line that a branch was split by, and which of its cases begins it.
fn split_of(planner: &Planner, node: Node) -> Option<(OutlineLine, u32)> {
    match node.of {
        ListOf::Line { .. } => None,
        ListOf::Case { line, number } => Some((OutlineLine::Given(line), number)),
        ListOf::Disjunct { form, base, number } => {
            let step = step_from(planner, form, base, node.parent)?;
            Some((OutlineLine::Step(position(planner.places(), step)?), number))
        }
    }
}

/// Adds the branches of a plan, without the first one, to an outline.
fn push_splits(outline: &mut Outline, planner: &Planner) -> Option<()> {
    for child in 1..planner.nodes().len() {
        let node = planner.nodes().get(child).copied()?;
        let (line, number) = split_of(planner, node)?;
        let split = OutlineSplit {
            branch: node.parent,
            line,
            number,
            child: u32::try_from(child).ok()?,
        };
        if !outline.push_split(split) {
            return None;
        }
    }
    Some(())
}

/// Writes the plan with which a planner's last look ended into an outline, as far as there is room.
pub(crate) fn outline_plan(
    outline: &mut Outline,
    planner: &Planner,
    scene: &Scene<'_>,
) -> Option<()> {
    outline.clear();
    let count = planner.places().len();
    for at in 0..count {
        for number in 0..count {
            if position(planner.places(), number)? as usize == at {
                push_step(outline, planner, scene, number)?;
            }
        }
    }
    push_splits(outline, planner)
}
