//! Where branches stand to one another, by the numbers of their cases.

ghost use Rattle.std.specs.Prelude.{◌≡◌, ◌≢◌, List, length, drop, IfSome, Some, false};
ghost use Rattle.vernacular_tree.specs.Contexts.{Task};
ghost use Rattle.vernacular_tree.specs.declared.context.Context.{Context};
ghost use Rattle.proof_plans.specs.Drafts.{case_number, IsBranch};
ghost use Rattle.proof_plans.specs.Moves.{word_of};
ghost use Rattle.proof_plans.specs.Runs.{Case};
ghost use Rattle.proof_plans.specs.Words.{IsEndOf};

use crate::draft::{ListOf, Node};
use crate::item::item_at;

/// The number of a case in its split.
fn case_of(of: ListOf) -> u32
    ensures { result ≡ case_number of }
{
    match of {
        ListOf::Line { .. } => 0,
        ListOf::Case { number, .. } => number,
        ListOf::Disjunct { number, .. } => number,
    }
}

/// How many cases a branch has; `None` where it was followed too far.
fn depth(nodes: &[Node], node: u32) -> Option<usize>
    ensures { IfSome result (λ depth. (task : Task) (lent : Context) (branch : List Case)
        → IsBranch task lent nodes.now node branch → length branch ≡ depth) }
{
    let mut at = node;
    for done in 0..nodes.len() {
        if at == 0 {
            return Some(done + 1);
        }
        at = item_at(nodes, at as usize)?.parent;
    }
    None
}

/// The branch that is so many splits above; `None` where it was followed too far.
pub(crate) fn lifted(nodes: &[Node], node: u32, count: usize) -> Option<u32>
    ensures { IfSome result (λ upper. (task : Task) (lent : Context) (branch : List Case)
        → IsBranch task lent nodes.now node branch
        → IsBranch task lent nodes.now upper (drop count branch)) }
{
    let mut at = node;
    for done in 0..count {
        if at == 0 {
            return None;
        }
        at = item_at(nodes, at as usize)?.parent;
    }
    Some(at)
}

/// Whether two branches of one depth have the same numbers of cases; `None` where they were followed
/// too far.
fn have_one_word(nodes: &[Node], left: u32, right: u32) -> Option<bool>
    ensures { result ≡ Some false → (task : Task) (lent : Context) (one other : List Case)
        → IsBranch task lent nodes.now left one → IsBranch task lent nodes.now right other
        → word_of one ≢ word_of other }
{
    let mut a = left;
    let mut b = right;
    for round in 0..nodes.len() {
        if a == b {
            return Some(true);
        }
        if a == 0 || b == 0 {
            return None;
        }
        let one = item_at(nodes, a as usize)?;
        let other = item_at(nodes, b as usize)?;
        if case_of(one.of) != case_of(other.of) {
            return Some(false);
        }
        a = one.parent;
        b = other.parent;
    }
    None
}

/// Whether the one branch leads to the other one, by the numbers of their cases; `None` where they
/// were followed too far.
pub(crate) fn leads_to(nodes: &[Node], upper: u32, lower: u32) -> Option<bool>
    ensures { result ≡ Some false → (task : Task) (lent : Context) (one other : List Case)
        → IsBranch task lent nodes.now upper one → IsBranch task lent nodes.now lower other
        → IsEndOf (word_of one) (word_of other) → ⊥ }
{
    if upper == 0 || upper == lower {
        return Some(true);
    }
    let above = depth(nodes, upper)?;
    let below = depth(nodes, lower)?;
    if above > below {
        return Some(false);
    }
    have_one_word(nodes, upper, lifted(nodes, lower, below - above)?)
}
