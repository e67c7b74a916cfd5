//! What variables stand for.

ghost use Rattle.std.specs.Prelude.{ℕ, List, IfSome};
ghost use Rattle.std.specs.Bool.{OnTrue};
ghost use Rattle.proof_plans.specs.Joining.{IsRoot, IsFixed, IsJoined};

use crate::item::item_at;

/// What two variables are to each other that are to stand for one element.
#[derive(Clone, Copy, Debug)]
pub enum Joined {
    /// They do already.
    Same,
    /// They stand for two elements.
    Clash,
    /// The variable with this number behind the elements of the context is to be bound.
    Bind { at: usize, to: u32 },
    /// They were followed too far, or lead out of the plan.
    Unknown,
}

/// The variable to which a variable is bound in the end.
pub(crate) fn root(start: u32, bound: &[u32], variable: u32) -> Option<u32>
    ensures { IfSome result (IsRoot start bound.now variable) }
{
    let mut at = variable;
    for round in 0..bound.len() {
        if at < start {
            return Some(at);
        }
        let next = item_at(bound, (at - start) as usize)?;
        if next == at {
            return Some(at);
        }
        at = next;
    }
    if at < start { Some(at) } else { None }
}

/// Whether a root is an element of the context or a new one.
fn is_fixed(start: u32, fixed: &[bool], root: u32) -> bool
    ensures { OnTrue result (IsFixed start fixed.now root) }
{
    if root < start {
        return true;
    }
    item_at(fixed, (root - start) as usize) == Some(true)
}

/// What two roots are to each other.
fn join_roots(start: u32, fixed: &[bool], left: u32, right: u32) -> Joined
    ensures { (bound : List ℕ) (one other : ℕ) → IsRoot start bound one left
        → IsRoot start bound other right → IsJoined start bound fixed.now one other result }
{
    if left == right {
        return Joined::Same;
    }
    let is_left_fixed = is_fixed(start, fixed, left);
    if !is_left_fixed && left >= start && (left > right || is_fixed(start, fixed, right)) {
        return Joined::Bind {
            at: (left - start) as usize,
            to: right,
        };
    }
    if !is_fixed(start, fixed, right) && right >= start {
        return Joined::Bind {
            at: (right - start) as usize,
            to: left,
        };
    }
    if is_left_fixed {
        Joined::Clash
    } else {
        Joined::Unknown
    }
}

/// What two variables are to each other.
pub(crate) fn join(start: u32, bound: &[u32], fixed: &[bool], left: u32, right: u32) -> Joined
    ensures { IsJoined start bound.now fixed.now left right result }
{
    match (root(start, bound, left), root(start, bound, right)) {
        (Some(left), Some(right)) => join_roots(start, fixed, left, right),
        _ => Joined::Unknown,
    }
}
