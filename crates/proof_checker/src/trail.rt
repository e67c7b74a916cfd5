ghost use Rattle.std.specs.Prelude.{◌≡◌, ◌+◌, ◌<◌, ◌≤◌, ◌^◌, [], ◌∷◌, ◌++◌, ◌||◌, length, take, slice_get, IfOk, OnOk};
ghost use Rattle.std.specs.Bool.{Decides, MatchBool};
ghost use Rattle.std.specs.Option.{option_copied};
ghost use Rattle.vernacular_tree.specs.Contexts.{Stands};
ghost use Rattle.coherent_form.specs.Tasks.{CitedTask};
ghost use Rattle.proof_text.specs.Branches.{AreNew, element_of, or_single};
ghost use Rattle.proof_checker.specs.Kept as kept;

use crate::fact::{Fact, HeldLine, signed_number};
use fact_store::Store;
use indexmap::IndexSet;
use signature::Tables;
use std::alloc::Global;
use std::marker::Model;
use text_core::{List, Memory, Name};

/// A branch of a script that is being checked. It can go back to a point at which it was before.
#[derive(Drop)]
pub(crate) struct Trail {
    alloc: Global,
    names: IndexSet<Name>,
    lines: List<HeldLine>,
    facts: Store,
    falsum: bool,
}

/// A point to which a branch can go back: how many names, lines and facts it has, and whether some
/// line is falsehood.
#[derive(Clone, Copy, Debug)]
pub struct Point {
    pub names: usize,
    pub lines: usize,
    pub facts: u32,
    pub falsum: bool,
}

impl Model for Trail {
    ghost use Rattle.proof_checker.specs.Kept.{Kept};

    ghost Value = { Kept };

    ghost view = { λ t. record {
      names = t.names.keys;
      lines = t.lines;
      facts = t.facts.facts;
      falsum = t.falsum;
      signed = t.facts.signed;
    } };
}

// Appends names: `true`, where they are new.
fn add_new(alloc: Global, names: &mut IndexSet<Name>, fresh: &[Name]) -> Result<bool, Memory>
    requires { length names.old.keys < 2 ^ 32 }
    ensures new { IfOk result (λ new. Decides new (AreNew names.old.keys fresh.now)) }
    ensures added { IfOk result (λ new. MatchBool new
        (names.new.keys ≡ names.old.keys ++ fresh.now) (Unit {0})) }
    ensures few { OnOk result (length names.new.keys < 2 ^ 32) }
{
    for name in fresh {
        if names.contains(name) {
            return Ok(false);
        }
        if names.len() >= u32::MAX as usize {
            return Err(Memory);
        }
        let copy = name.try_copy(alloc)?;
        names.insert_full(copy)?;
    }
    Ok(true)
}

fn constant_names(alloc: Global, tables: &Tables) -> Result<IndexSet<Name>, Memory>
    ensures { IfOk result (λ names. names.keys ≡ tables.now.constants) }
{
    let mut names = IndexSet::new(alloc);
    for constant in 0..tables.constants() {
        let name = tables.constant_name(constant).try_copy(alloc)?;
        names.insert_full(name)?;
    }
    Ok(names)
}

fn name_single(alloc: Global, names: &mut IndexSet<Name>) -> Result<(), Memory>
    ensures { OnOk result (names.new.keys ≡ or_single names.old.keys) }
{
    if !names.is_empty() {
        return Ok(());
    }
    let name = Name::from_bytes(alloc, b"w0")?;
    names.insert_full(name)?;
    Ok(())
}

fn add_fact(store: &mut Store, fact: &Fact) -> Result<(), Memory>
    requires fits { kept.signed_number fact.now < store.old.signed }
    requires small { store.old.signed < 2 ^ 32 }
    ensures { OnOk result (kept.HasAlso (fact.now ∷ []) store.old store.new) }
{
    let count = fact.args.len();
    if store.len() == u32::MAX || count > u32::MAX as usize {
        return Err(Memory);
    }
    store.reserve(1, count as u32)?;
    store.add(signed_number(fact), fact.args.as_slice());
    Ok(())
}

fn add_facts(store: &mut Store, facts: &[Fact]) -> Result<(), Memory>
    requires fits { kept.FactsFit store.old.signed facts.now }
    requires small { store.old.signed < 2 ^ 32 }
    ensures { OnOk result (kept.HasAlso facts.now store.old store.new) }
{
    for fact in facts {
        add_fact(store, fact)?;
    }
    Ok(())
}

// Notes the facts of a line, and whether it is falsehood.
fn note_line(store: &mut Store, falsum: &mut bool, line: &HeldLine) -> Result<(), Memory>
    requires fits { kept.LineFits store.old.signed line.now }
    requires small { store.old.signed < 2 ^ 32 }
    ensures facts { OnOk result (kept.HasAlso (kept.facts_of line.now) store.old store.new) }
    ensures falsum { OnOk result (falsum.new ≡ (falsum.old || kept.is_falsum line.now)) }
{
    match line {
        HeldLine::Facts(facts) => add_facts(store, facts.as_slice()),
        HeldLine::Cases(_) => Ok(()),
        HeldLine::Falsum => {
            *falsum = true;
            Ok(())
        }
    }
}

impl Trail {
    /// The constants are the elements, and there are no lines yet. `Memory` is want of memory.
    pub(crate) fn new(alloc: Global, tables: &Tables) -> Result<Trail, Memory>
        requires { length tables.now.symbols + 1 ≤ 67108865 }
        ensures { IfOk result (λ trail. trail ≡ kept.kept_constants tables.now) }
    {
        Ok(Trail {
            alloc,
            names: constant_names(alloc, tables)?,
            lines: List::new(alloc),
            facts: Store::new(alloc, 2 * tables.symbols())?,
            falsum: false,
        })
    }

    /// Where there are no elements, there is a single one. `Memory` is want of memory.
    pub(crate) fn name_single(&mut self) -> Result<(), Memory>
        ensures { OnOk result (self.new
            ≡ record self.old { names = or_single self.old.names }) }
    {
        name_single(self.alloc, &mut self.names)
    }

    /// The element with a name.
    pub(crate) fn element(&self, name: &Name) -> Option<u32>
        requires { length self.now.names < 2 ^ 32 }
        ensures { result ≡ element_of self.now.names name.now }
    {
        match self.names.get_index_of(name) {
            Some(element) => Some(element as u32),
            None => None,
        }
    }

    /// The names of the elements in order.
    pub(crate) fn names(&self) -> &[Name]
        ensures { result.now ≡ self.now.names }
    {
        self.names.as_slice()
    }

    /// Further names, each with a new element: `true`, where they are new. `Memory` is want of
    /// memory, or of numbers of 32 bits.
    pub(crate) fn add_names(&mut self, fresh: &[Name]) -> Result<bool, Memory>
        requires { length self.old.names < 2 ^ 32 }
        ensures new { IfOk result (λ new. Decides new (AreNew self.old.names fresh.now)) }
        ensures added { IfOk result (λ new. MatchBool new
            (self.new ≡ record self.old { names = self.old.names ++ fresh.now }) (Unit {0})) }
        ensures few { OnOk result (length self.new.names < 2 ^ 32) }
    {
        add_new(self.alloc, &mut self.names, fresh)
    }

    /// Whether a fact stands.
    pub(crate) fn holds(&self, fact: &Fact) -> bool
        requires { kept.signed_number fact.now < 2 ^ 32 }
        ensures { (task : CitedTask) → kept.IsKept task self.now
            → Decides result (Stands (kept.branch_of self.now).context (kept.atom_seen fact.now)) }
    {
        self.facts.holds(signed_number(fact), fact.args.as_slice())
    }

    /// One more line. `Memory` is want of memory, or of numbers of 32 bits.
    pub(crate) fn push_line(&mut self, line: HeldLine) -> Result<(), Memory>
        requires fits { kept.LineFits self.old.signed line }
        requires small { self.old.signed < 2 ^ 32 }
        ensures { OnOk result (kept.HasLine line self.old self.new) }
    {
        note_line(&mut self.facts, &mut self.falsum, &line)?;
        self.lines.push(line)
    }

    /// The line with a number.
    pub(crate) fn line(&self, number: u32) -> Option<&HeldLine>
        ensures { option_copied result ≡ slice_get self.now.lines number }
    {
        self.lines.get(number as usize)
    }

    /// Whether some line is falsehood.
    pub(crate) fn has_falsum(&self) -> bool
        ensures { result ≡ self.now.falsum }
    {
        self.falsum
    }

    /// The point at which the branch is.
    pub(crate) fn point(&self) -> Point
        ensures { result ≡ kept.point_of self.now }
    {
        Point {
            names: self.names.len(),
            lines: self.lines.len(),
            facts: self.facts.undo_point(),
            falsum: self.falsum,
        }
    }

    /// Goes back to a point.
    pub(crate) fn back(&mut self, point: Point)
        requires { point.facts ≤ length self.old.facts }
        ensures { self.new ≡ kept.cut point self.old }
    {
        self.names.truncate(point.names);
        self.lines.truncate(point.lines);
        self.facts.undo(point.facts);
        self.falsum = point.falsum;
    }
}
