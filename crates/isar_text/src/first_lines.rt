//! The first line of each fact of a branch.

ghost use Rattle.std.specs.Prelude.{◌≡◌, ℕ, ◌<◌, ◌≤◌, ◌^◌, ◌∷◌, [], ◌++◌, List as Lst, length, slice_get, unwrap_or, Option, IfOk, OnOk};
ghost use Rattle.std.specs.Option.{option_and_then};
ghost use Rattle.fact_store.specs.Facts.{IsNumberOf};
ghost use Rattle.vernacular_tree.specs.declared.context.Line.{Line as LineValue};
ghost use Rattle.vernacular_tree.specs.Contexts.{atom_at};
ghost use Rattle.instance_cursor.specs.Facts.{signed_number as number_of, elements_at};
ghost use Rattle.isar_text.specs.FirstLines.{first_with, first_falsum};
ghost use Rattle.isar_text.specs.Firsts as kept;

use fact_store::Store;
use instance_cursor::{element_at, signed_number};
use logic_core::Atom;
use std::alloc::Global;
use std::marker::Model;
use text_core::{List, Memory};
use vernacular_tree::Line;

/// The facts of the lines of a branch, each with its first line, and the first line that is
/// falsehood. It can go back to a point at which it was before.
#[derive(Drop)]
pub struct FirstLines {
    alloc: Global,
    facts: Store,
    lines: List<u32>,
    falsum: Option<u32>,
}

/// A point to which it can go back: how many facts there are, how many first lines, and the first
/// line that is falsehood.
#[derive(Clone, Copy, Debug)]
pub struct Point {
    pub facts: u32,
    pub lines: usize,
    pub falsum: Option<u32>,
}

impl Model for FirstLines {
    ghost use Rattle.isar_text.specs.Firsts.{Firsts};

    ghost Value = { Firsts };

    ghost view = { λ f. record {
      facts = f.facts.facts;
      lines = f.lines;
      falsum = f.falsum;
      signed = f.facts.signed;
    } };
}

// The elements of an atom, at elements for its variables.
fn elements_of(alloc: Global, elements: &[u32], atom: &Atom) -> Result<List<u32>, Memory>
    ensures { IfOk result (λ args. args ≡ elements_at elements.now atom.now) }
{
    let mut args = List::new(alloc);
    for slot in atom.args.as_slice() {
        args.push(element_at(elements, *slot))?;
    }
    Ok(args)
}

impl FirstLines {
    /// Before the first line, for facts whose signed symbols are below `signed`.
    pub(crate) fn new(alloc: Global, signed: u32) -> Result<FirstLines, Memory>
        ensures { IfOk result (λ it. it ≡ kept.no_firsts signed) }
    {
        Ok(FirstLines {
            alloc,
            facts: Store::new(alloc, signed)?,
            lines: List::new(alloc),
            falsum: None,
        })
    }

    // Adds a fact of the line with this number, where it does not stand yet.
    fn add_fact(&mut self, number: u32, fact: &Atom) -> Result<(), Memory>
        requires low { number_of fact.now < self.old.signed }
        requires small { self.old.signed < 2 ^ 32 }
        ensures { OnOk result (self.new ≡ kept.with_fact number fact.now self.old) }
    {
        let args = elements_of(self.alloc, &[], fact)?;
        let count = args.len();
        if self.facts.len() == u32::MAX || count > u32::MAX as usize {
            return Err(Memory);
        }
        self.facts.reserve(1, count as u32)?;
        if !self.facts.add(signed_number(fact), args.as_slice()) {
            return Ok(());
        }
        self.lines.push(number)
    }

    // Adds the facts of the line with this number.
    fn add_facts(&mut self, number: u32, facts: &[Atom]) -> Result<(), Memory>
        requires low { kept.FactsAreBelow self.old.signed facts.now }
        requires small { self.old.signed < 2 ^ 32 }
        ensures { OnOk result (self.new ≡ kept.with_facts number facts.now self.old) }
    {
        for fact in facts {
            self.add_fact(number, fact)?;
        }
        Ok(())
    }

    /// Goes on behind a line with this number.
    pub(crate) fn push_line(&mut self, number: u32, line: &Line) -> Result<(), Memory>
        requires low { kept.LineIsLow self.old.signed line.now }
        requires small { self.old.signed < 2 ^ 32 }
        ensures { OnOk result (self.new ≡ kept.with_line number line.now self.old) }
    {
        match line {
            Line::Facts(facts) => self.add_facts(number, facts.as_slice()),
            Line::Cases(_) => Ok(()),
            Line::Falsum => {
                self.falsum = Some(self.falsum.unwrap_or(number));
                Ok(())
            }
        }
    }

    // The first line of the fact with a number; 0 where there is none.
    fn line_of(&self, number: Option<u32>) -> u32
        ensures { result ≡ unwrap_or (option_and_then (slice_get self.now.lines) number) 0 }
    {
        match number {
            Some(number) => self.lines.get(number as usize).copied().unwrap_or(0),
            None => 0,
        }
    }

    /// The first line that has an atom at elements; 0 where none has it.
    pub(crate) fn first(&self, elements: &[u32], atom: &Atom) -> Result<u32, Memory>
        requires { number_of atom.now < 2 ^ 32 }
        ensures { IfOk result (λ line. (lines : Lst LineValue) → kept.AreFirst lines self.now
            → line ≡ first_with lines (atom_at elements.now atom.now)) }
    {
        let args = elements_of(self.alloc, elements, atom)?;
        let number = self.facts.number(signed_number(atom), args.as_slice());
        Ok(self.line_of(number))
    }

    /// The first line that is falsehood; 0 where none is.
    pub(crate) fn first_falsum(&self) -> u32
        ensures { (lines : Lst LineValue) → kept.AreFirst lines self.now
            → result ≡ first_falsum lines }
    {
        self.falsum.unwrap_or(0)
    }

    /// The point at which it is.
    pub(crate) fn point(&self) -> Point
        ensures { result ≡ kept.point_of self.now }
    {
        Point {
            facts: self.facts.undo_point(),
            lines: self.lines.len(),
            falsum: self.falsum,
        }
    }

    /// Goes back to a point.
    pub(crate) fn back(&mut self, point: Point)
        requires { point.facts ≤ length self.old.facts }
        ensures { self.new ≡ kept.cut point self.old }
    {
        self.facts.undo(point.facts);
        self.lines.truncate(point.lines);
        self.falsum = point.falsum;
    }
}
