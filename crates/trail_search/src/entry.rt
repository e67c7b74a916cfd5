ghost use Rattle.std.specs.Prelude.{◌≡◌, ◌+◌, ◌≤◌, length, IfOk};
ghost use Rattle.trail_search.specs.Entries.{node_in};

use std::alloc::Global;
use text_core::{List, Memory};
use vernacular_tree::Node;

/// A rule without its arguments.
#[derive(Clone, Copy, Debug)]
pub enum Rule {
    Mp(u32),
    Cs(u32, u32),
    As(u32),
    Efq,
}

/// A rule application: its rule, and which of all arguments are its own.
#[derive(Clone, Copy, Debug)]
pub struct Entry {
    pub rule: Rule,
    pub start: usize,
    pub count: usize,
}

/// The rule application of an entry. `Memory` is want of memory.
pub(crate) fn node_in(alloc: Global, args: &[u32], entry: Entry) -> Result<Node, Memory>
    requires { entry.start + entry.count ≤ length args.now }
    ensures { IfOk result (λ node. node ≡ node_in args.now entry) }
{
    let own = &args[entry.start..entry.start + entry.count];
    Ok(match entry.rule {
        Rule::Mp(form) => Node::Mp {
            form,
            args: List::from_slice(alloc, own)?,
        },
        Rule::Cs(line, branches) => Node::Cs { line, branches },
        Rule::As(disjunct) => Node::As {
            disjunct,
            args: List::from_slice(alloc, own)?,
        },
        Rule::Efq => Node::Efq,
    })
}
