//! For each branch of a plan, the signs that may stand there. Whatever is written here, a search
//! stays right: what it takes from here it tests.

use crate::barren::only_list;
use crate::draft::{Draft, ListOf, Node, push_if_room};
use crate::item::item_at;
use crate::reach::{Reached, Told, has_two, lacks_premise};
use crate::scene::{Scene, list_at};
use logic_core::{Atom, Form};
use std::alloc::Global;
use text_core::Memory;
use vernacular_tree::Line;

/// The greatest number of signs of symbols that are told, of all branches together.
const MOST_TOLD: usize = 262_144;

/// No sign may stand.
const NOTHING: Reached = Reached {
    positive: NEVER,
    negative: NEVER,
};

/// No atom may stand.
const NEVER: Told = Told {
    any: false,
    differing: false,
};

/// The nodes of a plan, as far as they are known, and what is told of each symbol in the branch of
/// each, one branch behind the other.
#[derive(Drop)]
pub(crate) struct SignTable {
    symbols: usize,
    nodes: Vec<Node>,
    told: Vec<Reached>,
}

impl SignTable {
    /// A table for plans with at most so many nodes. `Memory` is want of memory.
    pub(crate) fn new(alloc: Global, nodes: usize) -> Result<SignTable, Memory> {
        Ok(SignTable {
            symbols: 0,
            nodes: Vec::with_capacity(alloc, nodes)?,
            told: Vec::with_capacity(alloc, MOST_TOLD)?,
        })
    }

    /// Nothing is told yet.
    pub(crate) fn begin(&mut self, scene: &Scene<'_>) {
        self.nodes.truncate(0);
        self.told.truncate(0);
        self.symbols = count_symbols(scene.forms).max(count_symbols(scene.answers));
    }

    /// What is told of each symbol in a branch; nothing where the branch is not known.
    pub(crate) fn row(&self, node: u32) -> &[Reached] {
        match (node as usize).checked_mul(self.symbols) {
            Some(start) => row_at(self.told.as_slice(), start, self.symbols),
            None => &[],
        }
    }

    /// Tells the signs of all branches of a plan, as far as there is room.
    pub(crate) fn update(&mut self, scene: &Scene<'_>, draft: &Draft) {
        let same = count_same(self.nodes.as_slice(), draft.nodes());
        self.nodes.truncate(same);
        self.told.truncate(same.saturating_mul(self.symbols));
        for number in same..draft.nodes().len() {
            if let Some(node) = item_at(draft.nodes(), number)
                && !self.push(scene, node)
            {
                return;
            }
        }
    }

    /// Tells the signs of one more branch; `false` where there is no room.
    fn push(&mut self, scene: &Scene<'_>, node: Node) -> bool {
        let start = self.told.as_slice().len();
        let is_root = self.nodes.as_slice().len() == 0;
        for symbol in 0..self.symbols {
            let told = if is_root {
                None
            } else {
                item_at(self.row(node.parent), symbol)
            };
            if !push_if_room(&mut self.told, told.unwrap_or(NOTHING)) {
                return false;
            }
        }
        if is_root {
            mark_lines(&mut self.told, start, self.symbols, scene.lines);
        } else if let Some(facts) = list_at(scene, node.of) {
            mark_all(&mut self.told, start, self.symbols, facts.as_slice());
        }
        close(scene, &mut self.told, start, self.symbols);
        push_if_room(&mut self.nodes, node)
    }
}

/// How many symbols there are up to the greatest one of the premises of forms.
fn count_symbols(forms: &[Form]) -> usize {
    let mut most = 0usize;
    for form in forms {
        for atom in form.premises.as_slice() {
            most = most.max((atom.symbol as usize).saturating_add(1));
        }
    }
    most
}

/// Whether two nodes are the same.
fn are_same(one: Node, other: Node) -> bool {
    if one.parent != other.parent {
        return false;
    }
    match (one.of, other.of) {
        (ListOf::Line { line }, ListOf::Line { line: also }) => line == also,
        (
            ListOf::Case { line, number },
            ListOf::Case {
                line: also,
                number: second,
            },
        ) => line == also && number == second,
        (
            ListOf::Disjunct { form, number, .. },
            ListOf::Disjunct {
                form: also,
                number: second,
                ..
            },
        ) => form == also && number == second,
        _ => false,
    }
}

/// How many nodes at the front are the same.
fn count_same(known: &[Node], nodes: &[Node]) -> usize {
    let least = known.len().min(nodes.len());
    for number in 0..least {
        if !are_same(known[number], nodes[number]) {
            return number;
        }
    }
    least
}

/// What is told of as many symbols from a place on; nothing where there are fewer.
fn row_at(told: &[Reached], start: usize, symbols: usize) -> &[Reached] {
    match start.checked_add(symbols) {
        Some(end) if end <= told.len() => &told[start..end],
        _ => &[],
    }
}

/// The sign of an atom may stand; whether that is new.
fn mark(told: &mut Vec<Reached>, start: usize, symbols: usize, atom: &Atom) -> bool {
    let symbol = atom.symbol as usize;
    let Some(at) = start.checked_add(symbol) else {
        return false;
    };
    if symbol >= symbols || at >= told.as_slice().len() {
        return false;
    }
    let old = told[at];
    let sign = if atom.positive {
        old.positive
    } else {
        old.negative
    };
    let new = Told {
        any: true,
        differing: sign.differing || has_two(atom),
    };
    told[at] = if atom.positive {
        Reached {
            positive: new,
            ..old
        }
    } else {
        Reached {
            negative: new,
            ..old
        }
    };
    !sign.any || new.differing != sign.differing
}

/// The signs of atoms may stand; whether one of these is new.
fn mark_all(told: &mut Vec<Reached>, start: usize, symbols: usize, atoms: &[Atom]) -> bool {
    let mut is_new = false;
    for atom in atoms {
        if mark(told, start, symbols, atom) {
            is_new = true;
        }
    }
    is_new
}

/// The signs of the facts of the context may stand.
fn mark_lines(told: &mut Vec<Reached>, start: usize, symbols: usize, lines: &[Line]) {
    for line in lines {
        if let Line::Facts(facts) = line {
            mark_all(told, start, symbols, facts.as_slice());
        }
    }
}

/// The signs to which a form leads may stand; whether one of these is new.
fn mark_form(told: &mut Vec<Reached>, start: usize, symbols: usize, form: &Form) -> bool {
    let Some(facts) = only_list(form) else {
        return false;
    };
    let row = row_at(told.as_slice(), start, symbols);
    if lacks_premise(row, form, facts.as_slice()) {
        return false;
    }
    mark_all(told, start, symbols, facts.as_slice())
}

/// Follows the forms until they lead to no further sign.
fn close(scene: &Scene<'_>, told: &mut Vec<Reached>, start: usize, symbols: usize) {
    for _round in 0..scene.forms.len() {
        let mut is_new = false;
        for form in scene.forms {
            if mark_form(told, start, symbols, form) {
                is_new = true;
            }
        }
        if !is_new {
            return;
        }
    }
}
