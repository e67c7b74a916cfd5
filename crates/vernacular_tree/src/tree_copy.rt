ghost use Rattle.std.specs.Prelude.{◌≡◌, IfOk};

use crate::tree::{Body, End, Mp};
use logic_core::{List, Memory};
use std::alloc::Global;

fn copy_steps(alloc: Global, steps: &[Mp]) -> Result<List<Mp>, Memory>
    ensures { IfOk result (λ copies. copies ≡ steps.now) }
{
    let mut copies = List::new(alloc);
    for step in steps {
        copies.push(Mp {
            form: step.form,
            args: List::from_slice(alloc, step.args.as_slice())?,
        })?;
    }
    Ok(copies)
}

#[cycle(copy)]
fn copy_branches(alloc: Global, branches: &[Body]) -> Result<List<Body>, Memory>
    ensures { IfOk result (λ copies. copies ≡ branches.now) }
{
    let mut copies = List::new(alloc);
    for branch in branches {
        copies.push(copy_body(alloc, branch)?)?;
    }
    Ok(copies)
}

#[cycle(copy)]
fn copy_end(alloc: Global, end: &End) -> Result<End, Memory>
    ensures { IfOk result (λ copy. copy ≡ end.now) }
{
    match end {
        End::As { disjunct, args } => Ok(End::As {
            disjunct: *disjunct,
            args: List::from_slice(alloc, args.as_slice())?,
        }),
        End::Efq => Ok(End::Efq),
        End::Cs { line, branches } => Ok(End::Cs {
            line: *line,
            branches: copy_branches(alloc, branches.as_slice())?,
        }),
    }
}

/// A copy, which equals the body. `Memory` is want of memory.
#[cycle(copy)]
pub(crate) fn copy_body(alloc: Global, body: &Body) -> Result<Body, Memory>
    ensures { IfOk result (λ copy. copy ≡ body.now) }
{
    Ok(Body {
        steps: copy_steps(alloc, body.steps.as_slice())?,
        end: copy_end(alloc, &body.end)?,
    })
}
