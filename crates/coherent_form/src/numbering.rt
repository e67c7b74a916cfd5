ghost use Rattle.std.specs.Prelude.{◌≡◌, IfOk, OnOk};
ghost use Rattle.coherent_form.specs.Each.{with_names_of_each};
ghost use Rattle.coherent_form.specs.Reading.{Extends, with_term, with_terms, with_predicate, with_names, with_names};

use logic_core::{Formula, Term};
use signature::Tables;
use text_core::{Memory, Name};

/// The greatest number of symbols, and of constants, that are numbered.
const MOST_NUMBERED: u32 = u32::MAX - 1;

/// A count as a number of 32 bits. `Memory` where it does not fit.
pub(crate) fn number_of(count: usize) -> Result<u32, Memory>
    ensures { IfOk result (λ number. number ≡ count) }
{
    if count > u32::MAX as usize {
        return Err(Memory);
    }
    Ok(count as u32)
}

fn enter_predicate(tables: &mut Tables, name: &Name, arity: u32) -> Result<(), Memory>
    ensures ok { OnOk result (tables.new ≡ with_predicate tables.old name.now arity) }
    ensures extends { Extends tables.old tables.new }
{
    if tables.symbols() >= MOST_NUMBERED {
        return Err(Memory);
    }
    tables.symbol(name, arity)?;
    Ok(())
}

fn enter_term(tables: &mut Tables, term: &Term) -> Result<(), Memory>
    ensures ok { OnOk result (tables.new ≡ with_term tables.old term.now) }
    ensures extends { Extends tables.old tables.new }
{
    match term {
        Term::Variable(_) => Ok(()),
        Term::Constant(name) => {
            if tables.constants() >= MOST_NUMBERED {
                return Err(Memory);
            }
            tables.constant(name)?;
            Ok(())
        }
    }
}

#[tactic(auto, using(crate::proofs::Opened::names))]
fn enter_terms(tables: &mut Tables, terms: &[Term]) -> Result<(), Memory>
    ensures ok { OnOk result (tables.new ≡ with_terms tables.old terms.now) }
    ensures extends { Extends tables.old tables.new }
{
    for term in terms {
        enter_term(tables, term)?;
    }
    Ok(())
}

#[cycle(names)]
#[tactic(auto, using(crate::proofs::Opened::names))]
fn enter_each(tables: &mut Tables, members: &[Formula]) -> Result<(), Memory>
    ensures ok { OnOk result (tables.new ≡ with_names_of_each members.now tables.old) }
    ensures extends { Extends tables.old tables.new }
{
    for member in members {
        enter(tables, member)?;
    }
    Ok(())
}

/// Numbers the symbols and constants of a formula, in preorder, behind those that are there.
/// `Memory` is want of memory, or of numbers of 32 bits; then some of them may be there.
#[cycle(names)]
#[tactic(auto, using(crate::proofs::Opened::names))]
pub(crate) fn enter(tables: &mut Tables, formula: &Formula) -> Result<(), Memory>
    ensures ok { OnOk result (tables.new ≡ with_names formula.now tables.old) }
    ensures extends { Extends tables.old tables.new }
{
    match formula {
        Formula::True | Formula::False => Ok(()),
        Formula::Pred(name, terms) => {
            let arity = number_of(terms.len())?;
            enter_predicate(tables, name, arity)?;
            enter_terms(tables, terms.as_slice())
        }
        Formula::Equal(left, right) => {
            enter_term(tables, left)?;
            enter_term(tables, right)
        }
        Formula::Not(body) => enter(tables, body.get()),
        Formula::And(members) => enter_each(tables, members.as_slice()),
        Formula::Or(members) => enter_each(tables, members.as_slice()),
        Formula::Binary(_, left, right) => {
            enter(tables, left.get())?;
            enter(tables, right.get())
        }
        Formula::ForAll(_, body) => enter(tables, body.get()),
        Formula::Exists(_, body) => enter(tables, body.get()),
    }
}
