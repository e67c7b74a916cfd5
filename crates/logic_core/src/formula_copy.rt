ghost use Rattle.std.specs.Prelude.{◌≡◌, ◌≤◌, IfOk};
ghost use Rattle.logic_core.specs.Allowed.{nesting};

use crate::formula::{Formula, Term};
use std::alloc::Global;
use text_core::{Boxed, List, MOST_LEVELS, Memory, Name};

impl Formula {
    /// A copy of a formula whose nesting is at most `MOST_LEVELS`; the copy equals the formula.
    /// `Memory` is want of memory.
    pub fn try_copy(&self, alloc: Global) -> Result<Formula, Memory>
        requires { nesting self.now ≤ MOST_LEVELS }
        ensures { IfOk result (λ copy. copy ≡ self.now) }
    {
        copy_formula(alloc, self)
    }
}

impl Term {
    /// A copy, which equals the term. `Memory` is want of memory.
    pub fn try_copy(&self, alloc: Global) -> Result<Term, Memory>
        ensures { IfOk result (λ copy. copy ≡ self.now) }
    {
        match self {
            Term::Variable(name) => Ok(Term::Variable(name.try_copy(alloc)?)),
            Term::Constant(name) => Ok(Term::Constant(name.try_copy(alloc)?)),
        }
    }
}

fn copy_names(alloc: Global, names: &[Name]) -> Result<List<Name>, Memory>
    ensures { IfOk result (λ copies. copies ≡ names.now) }
{
    let mut copies = List::new(alloc);
    for name in names {
        copies.push(name.try_copy(alloc)?)?;
    }
    Ok(copies)
}

fn copy_terms(alloc: Global, terms: &[Term]) -> Result<List<Term>, Memory>
    ensures { IfOk result (λ copies. copies ≡ terms.now) }
{
    let mut copies = List::new(alloc);
    for term in terms {
        copies.push(term.try_copy(alloc)?)?;
    }
    Ok(copies)
}

#[cycle(copy)]
fn copy_formulas(alloc: Global, formulas: &[Formula]) -> Result<List<Formula>, Memory>
    ensures { IfOk result (λ copies. copies ≡ formulas.now) }
{
    let mut copies = List::new(alloc);
    for formula in formulas {
        copies.push(copy_formula(alloc, formula)?)?;
    }
    Ok(copies)
}

#[cycle(copy)]
fn copy_boxed(alloc: Global, formula: &Boxed<Formula>) -> Result<Boxed<Formula>, Memory>
    ensures { IfOk result (λ copy. copy ≡ formula.now) }
{
    let copy = copy_formula(alloc, formula.get())?;
    Ok(Boxed::new(alloc, copy)?)
}

#[cycle(copy)]
fn copy_formula(alloc: Global, formula: &Formula) -> Result<Formula, Memory>
    ensures { IfOk result (λ copy. copy ≡ formula.now) }
{
    match formula {
        Formula::True => Ok(Formula::True),
        Formula::False => Ok(Formula::False),
        Formula::Pred(name, terms) => Ok(Formula::Pred(
            name.try_copy(alloc)?,
            copy_terms(alloc, terms.as_slice())?,
        )),
        Formula::Equal(left, right) => Ok(Formula::Equal(
            left.try_copy(alloc)?,
            right.try_copy(alloc)?,
        )),
        Formula::Not(body) => Ok(Formula::Not(copy_boxed(alloc, body)?)),
        Formula::And(members) => Ok(Formula::And(copy_formulas(alloc, members.as_slice())?)),
        Formula::Or(members) => Ok(Formula::Or(copy_formulas(alloc, members.as_slice())?)),
        Formula::Binary(op, left, right) => Ok(Formula::Binary(
            *op,
            copy_boxed(alloc, left)?,
            copy_boxed(alloc, right)?,
        )),
        Formula::ForAll(names, body) => Ok(Formula::ForAll(
            copy_names(alloc, names.as_slice())?,
            copy_boxed(alloc, body)?,
        )),
        Formula::Exists(names, body) => Ok(Formula::Exists(
            copy_names(alloc, names.as_slice())?,
            copy_boxed(alloc, body)?,
        )),
    }
}
