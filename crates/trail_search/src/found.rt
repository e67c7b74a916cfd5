ghost use Rattle.std.specs.Prelude.{ℕ, ◌≡◌, ◌+◌, ◌^◌, ◌<◌, ◌≤◌, [], ◌∷◌, ◌++◌, length, take, reverse, vec_len, vec_capacity, IfOk};
ghost use Rattle.text_core.specs.declared.limits.TheConstants.{MOST_FORM_VARIABLES};
ghost use Rattle.vernacular_tree.specs.declared.tree.Node.TheVariants as node;
ghost use Rattle.trail_search.specs.Entries.{node_of, AreLaid};

use crate::entry::{Entry, Rule, node_in};
use std::alloc::Global;
use std::marker::Model;
use text_core::{List, MOST_FORM_VARIABLES, Memory};
use vernacular_tree::Node;

/// The rule applications of a proof that is found, noted from the innermost on. Contracts see them
/// in the order in which they were noted, and for how many there is room in all.
#[derive(Drop)]
pub(crate) struct Found {
    entries: Vec<Entry>,
    args: Vec<u32>,
    room: usize,
}

impl Model for Found {
    ghost use Rattle.std.specs.Prelude.{map, vec_capacity};
    ghost use Rattle.trail_search.specs.Recorded.{Recorded};
    ghost use Rattle.trail_search.specs.Entries.{node_in, AreEntries};

    ghost Value = { Recorded };

    ghost view = { λ f. record {
      nodes = map (node_in f.args.items) f.entries.items;
      room = f.room;
    } };

    ghost invariant = { λ f. AreEntries f.entries.items f.args.items f.room
        (vec_capacity f.entries) (vec_capacity f.args) };
}

// Appends an item where there is room for it.
fn push_within(items: &mut Vec<Entry>, item: Entry)
    requires { vec_len items.old < vec_capacity items.old }
    ensures items { items.new.items ≡ items.old.items ++ item ∷ [] }
    ensures capacity { vec_capacity items.old ≤ vec_capacity items.new }
{
    items.push(item).unwrap();
}

// Appends items where there is room for them.
fn extend_within(items: &mut Vec<u32>, more: &[u32])
    requires { vec_len items.old + length more.now ≤ vec_capacity items.old }
    ensures items { items.new.items ≡ items.old.items ++ more.now }
    ensures capacity { vec_capacity items.old ≤ vec_capacity items.new }
{
    items.extend_from_slice(more).unwrap();
}

// Where the arguments of all entries end.
fn end_of(entries: &[Entry]) -> usize
    requires { (end : ℕ) × AreLaid 0 entries.now end × (end < 2 ^ 63) }
    ensures { AreLaid 0 entries.now result }
{
    match entries.last() {
        Some(entry) => entry.start + entry.count,
        None => 0,
    }
}

impl Found {
    /// Nothing is noted, and there is room for so many rule applications, each with at most
    /// `MOST_FORM_VARIABLES` arguments. `Memory` is want of memory.
    pub(crate) fn new(alloc: Global, room: u32) -> Result<Found, Memory>
        ensures { IfOk result (λ found. found ≡ record { nodes = []; room = room }) }
    {
        Ok(Found {
            entries: Vec::with_capacity(alloc, room as usize)?,
            args: Vec::with_capacity(alloc, room as usize * MOST_FORM_VARIABLES as usize)?,
            room: room as usize,
        })
    }

    // Notes a rule application.
    fn push(&mut self, rule: Rule, args: &[u32])
        requires room { length self.old.nodes < self.old.room }
        requires narrow { length args.now ≤ MOST_FORM_VARIABLES }
        ensures nodes { self.new.nodes ≡ self.old.nodes ++ node_of rule args.now ∷ [] }
        ensures room { self.new.room ≡ self.old.room }
    {
        let entry = Entry {
            rule,
            start: self.args.len(),
            count: args.len(),
        };
        push_within(&mut self.entries, entry);
        extend_within(&mut self.args, args);
    }

    /// Notes an application of a form.
    pub(crate) fn push_mp(&mut self, form: u32, args: &[u32])
        requires room { length self.old.nodes < self.old.room }
        requires narrow { length args.now ≤ MOST_FORM_VARIABLES }
        ensures nodes { self.new.nodes ≡ self.old.nodes ++ node.Mp form args.now ∷ [] }
        ensures room { self.new.room ≡ self.old.room }
    {
        self.push(Rule::Mp(form), args);
    }

    /// Notes a split.
    pub(crate) fn push_split(&mut self, line: u32, branches: u32)
        requires { length self.old.nodes < self.old.room }
        ensures nodes { self.new.nodes ≡ self.old.nodes ++ node.Cs line branches ∷ [] }
        ensures room { self.new.room ≡ self.old.room }
    {
        self.push(Rule::Cs(line, branches), &[]);
    }

    /// Notes an end by a disjunct of the goal.
    pub(crate) fn push_answer(&mut self, disjunct: u32, args: &[u32])
        requires room { length self.old.nodes < self.old.room }
        requires narrow { length args.now ≤ MOST_FORM_VARIABLES }
        ensures nodes { self.new.nodes ≡ self.old.nodes ++ node.As disjunct args.now ∷ [] }
        ensures room { self.new.room ≡ self.old.room }
    {
        self.push(Rule::As(disjunct), args);
    }

    /// Notes an end by falsehood.
    pub(crate) fn push_falsum(&mut self)
        requires { length self.old.nodes < self.old.room }
        ensures nodes { self.new.nodes ≡ self.old.nodes ++ node.Efq ∷ [] }
        ensures room { self.new.room ≡ self.old.room }
    {
        self.push(Rule::Efq, &[]);
    }

    /// How many are noted.
    pub(crate) fn point(&self) -> usize
        ensures { result ≡ length self.now.nodes }
    {
        self.entries.len()
    }

    /// Goes back to as many.
    pub(crate) fn back(&mut self, point: usize)
        requires { point ≤ length self.old.nodes }
        ensures nodes { self.new.nodes ≡ take point self.old.nodes }
        ensures room { self.new.room ≡ self.old.room }
    {
        self.entries.truncate(point);
        let end = end_of(self.entries.as_slice());
        self.args.truncate(end);
    }

    /// The rule applications, the outermost first. `Memory` is want of memory.
    pub(crate) fn nodes(&self, alloc: Global) -> Result<List<Node>, Memory>
        ensures { IfOk result (λ nodes. nodes ≡ reverse self.now.nodes) }
    {
        let mut nodes = List::new(alloc);
        for at in (0..self.entries.len()).rev() {
            nodes.push(node_in(alloc, self.args.as_slice(), self.entries[at])?)?;
        }
        Ok(nodes)
    }
}
