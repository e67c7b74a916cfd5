ghost use Rattle.std.specs.Prelude.{◌+◌, ◌<◌, ◌≤◌, [], length, take, drop, slice_set, IfSome};
ghost use Rattle.instance_cursor.specs.Fitting.{behind, AreFitting, IsCandidate};
ghost use Rattle.instance_cursor.specs.Picking.{left_from, left_at, left_below, left_after, HasPicked};
ghost use Rattle.instance_cursor.specs.Cursors.{picks_left, IsStanding};

use crate::space::Space;
use crate::stage::Stage;

/// Picks the next candidates that fit at all depths; `false` exactly where no others are left.
pub(crate) fn pick_next(space: &Space, stage: Stage, picks: &mut [u32]) -> bool
    requires { IsStanding space.now stage picks.old }
    ensures { HasPicked space.now 0 (picks_left space.now stage picks.old)
        picks.old picks.new result }
{
    match stage {
        Stage::Before => pick_from(space, picks, 0),
        Stage::Given => pick_after(space, picks),
        Stage::Over => false,
    }
}

/// The next picks behind these.
fn pick_after(space: &Space, picks: &mut [u32]) -> bool
    requires { AreFitting space.now [] picks.old }
    ensures { HasPicked space.now 0 (left_after space.now 0 picks.old)
        picks.old picks.new result }
{
    for depth in (0..picks.len()).rev() {
        let next = space.older(depth, picks[depth]);
        if pick_below(space, picks, depth, next) {
            return true;
        }
    }
    false
}

/// The first picks with the same ones below a depth.
#[cycle(picking)]
fn pick_from(space: &Space, picks: &mut [u32], depth: usize) -> bool
    requires within { depth ≤ length picks.old }
    requires front { AreFitting space.now [] (take depth picks.old) }
    ensures { HasPicked space.now depth (left_from space.now depth picks.old)
        picks.old picks.new result }
{
    if depth == picks.len() {
        return true;
    }
    let next = space.newest(depth);
    pick_below(space, picks, depth, next)
}

/// The first picks with the same ones below a depth, and there this candidate or an older one.
#[cycle(picking)]
fn pick_below(space: &Space, picks: &mut [u32], depth: usize, from: Option<u32>) -> bool
    requires within { depth < length picks.old }
    requires front { AreFitting space.now [] (take depth picks.old) }
    requires candidate { IfSome from (λ pick. IsCandidate space.now depth pick) }
    ensures { HasPicked space.now depth (left_below space.now depth picks.old (behind from))
        picks.old picks.new result }
{
    let mut next = from;
    while let Some(pick) = next {
        if pick_at(space, picks, depth, pick) {
            return true;
        }
        next = space.older(depth, pick);
    }
    false
}

/// The first picks with the same ones below a depth, and there this candidate.
#[cycle(picking)]
fn pick_at(space: &Space, picks: &mut [u32], depth: usize, pick: u32) -> bool
    requires within { depth < length picks.old }
    requires front { AreFitting space.now [] (take depth picks.old) }
    requires candidate { IsCandidate space.now depth pick }
    ensures { HasPicked space.now (depth + 1) (left_at space.now depth picks.old pick)
        (slice_set picks.old depth pick) picks.new result }
{
    picks[depth] = pick;
    space.fits(depth, &picks[..depth + 1], pick) && pick_from(space, picks, depth + 1)
}
