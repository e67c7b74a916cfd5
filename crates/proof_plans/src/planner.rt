//! Looks for a plan that no proof within a bound rules out.

ghost use Rattle.std.specs.Prelude.{ℕ, ◌≡◌, ◌≤◌};
ghost use Rattle.vernacular_tree.specs.Contexts.{Task};
ghost use Rattle.vernacular_tree.specs.Rules.{IsProof};
ghost use Rattle.vernacular_tree.specs.Sizes.{size};
ghost use Rattle.vernacular_tree.specs.Tasks.{IsTask};
ghost use Rattle.vernacular_tree.specs.Witnessed.{IsContext};
ghost use Rattle.vernacular_tree.specs.declared.context.Context.{Context};
ghost use Rattle.vernacular_tree.specs.declared.tree.Body.{Body};
ghost use Rattle.proof_plans.specs.Scenes.{IsScene};
ghost use Rattle.proof_plans.specs.Verdicts.{IsVerdict};

use crate::draft::{Draft, Node, PlanStep, Room};
use crate::item::place_at;
use crate::joining::root;
use crate::label_table::LabelTable;
use crate::landmarks::find_landmarks;
use crate::place::Place;
use crate::scene::Scene;
use crate::search::{Work, run};
use crate::sign_table::SignTable;
use std::alloc::Global;
use text_core::{MOST_FORM_VARIABLES, Memory};

/// The greatest number of moves that a search follows at once.
const MOST_DEPTH: u32 = 1_500;

/// The greatest number of plans that a search looks at.
const MOST_PLANS: u64 = 1 << 60;

/// The greatest number of goals of a plan, and of facts that are known of where its steps stand.
const MOST_GOALS: usize = 65_536;

/// The greatest number of ways that wait to be tried.
const MOST_CHOICES: usize = 1_048_576;

/// The greatest number of forms that every proof is known to need.
const MOST_LANDMARKS: usize = 64;

/// What a planner says.
#[derive(Clone, Copy, PartialEq, Eq, Debug)]
pub enum Verdict {
    /// There is no proof.
    Never,
    /// There is no proof within the bound.
    NotWithin,
    /// There may be one.
    Perhaps,
}

/// What a variable of a plan stands for.
#[derive(Clone, Copy, Debug)]
pub enum Element {
    /// An element of the context.
    Known(u32),
    /// A new element of a step, told by its number from 0.
    New { step: usize, number: u32 },
    /// Any element.
    Free,
}

/// A search for plans: it takes all its memory when it is made.
#[derive(Drop)]
pub struct Planner {
    draft: Draft,
    work: Work,
    labels: LabelTable,
    landmarks: Vec<u32>,
}

impl Planner {
    /// A planner for proofs with at most so many rule applications, at most 200. `Memory` is want of
    /// memory.
    pub fn new(alloc: Global, most: u32) -> Result<Planner, Memory>
        requires { most ≤ 200 }
    {
        let steps = most as usize + 1;
        let room = Room {
            variables: steps * MOST_FORM_VARIABLES as usize,
            steps,
            goals: MOST_GOALS,
            pairs: MOST_GOALS,
        };
        Ok(Planner {
            draft: Draft::new(alloc, &room)?,
            work: Work {
                choices: Vec::with_capacity(alloc, MOST_CHOICES)?,
                places: Vec::with_capacity(alloc, steps)?,
                signs: SignTable::new(alloc, steps)?,
                cut: false,
                fuel: 0,
            },
            labels: LabelTable::new(alloc)?,
            landmarks: Vec::with_capacity(alloc, MOST_LANDMARKS)?,
        })
    }

    /// Whether there may be a proof with at most so many rule applications from a context with this
    /// number of elements.
    pub fn look(&mut self, scene: &Scene<'_>, elements: u32, within: u32) -> Verdict
        ensures { (constants : ℕ) (task : Task) (lent : Context) → IsTask constants task
            → IsContext task lent → IsScene task lent scene.now → lent.elements ≡ elements
            → IsVerdict task lent within result }
    {
        self.work.choices.truncate(0);
        self.work.cut = false;
        self.work.fuel = MOST_PLANS;
        self.work.signs.begin(scene);
        if !find_landmarks(scene, elements, &mut self.labels, &mut self.landmarks) {
            return Verdict::Perhaps;
        }
        if !self.draft.begin(elements) {
            return Verdict::Perhaps;
        }
        if run(
            scene,
            self.landmarks.as_slice(),
            &mut self.draft,
            &mut self.work,
            within as usize,
            MOST_DEPTH,
        ) {
            Verdict::Perhaps
        } else if self.work.cut {
            Verdict::NotWithin
        } else {
            Verdict::Never
        }
    }

    /// The steps of the plan with which the last look ended.
    pub fn steps(&self) -> &[PlanStep] {
        self.draft.steps()
    }

    /// Where those steps stand, as far as it was worked out.
    pub fn places(&self) -> &[Place] {
        self.work.places.as_slice()
    }

    /// The branches of that plan.
    pub fn nodes(&self) -> &[Node] {
        self.draft.nodes()
    }

    /// What a variable of that plan stands for.
    pub fn element(&self, scene: &Scene<'_>, variable: u32) -> Element {
        let draft = &self.draft;
        let Some(found) = root(draft.start(), draft.bound(), variable) else {
            return Element::Free;
        };
        if found < draft.start() {
            return Element::Known(found);
        }
        for step in 0..draft.steps().len() {
            if let Some(number) = new_number(scene, draft.steps()[step], found) {
                return Element::New { step, number };
            }
        }
        Element::Free
    }
}

/// Which new element of a step a variable is, from 0.
fn new_number(scene: &Scene<'_>, step: PlanStep, variable: u32) -> Option<u32> {
    let form = place_at(scene.forms, step.form as usize)?;
    let number = variable
        .checked_sub(step.base)?
        .checked_sub(form.universals)?;
    if number < form.existentials {
        Some(number)
    } else {
        None
    }
}
