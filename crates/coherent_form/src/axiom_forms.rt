ghost use Rattle.std.specs.Prelude.{◌≡◌, ◌+◌, ◌≤◌, ◌<◌, ◌==◌, if◌then◌else◌, [], ◌∷◌, map, length, IfOk};
ghost use Rattle.std.specs.List.{AllByRecursion};
ghost use Rattle.text_core.specs.declared.limits.TheConstants.{MOST_ARGUMENTS};
ghost use Rattle.logic_core.specs.declared.form.Slot.TheVariants.{Variable};
ghost use Rattle.vernacular_tree.specs.Contexts.{counted};
ghost use Rattle.coherent_form.specs.BuiltIns.{arity_in, atom_of as atom_with, equation as equation_of, with_place, rule as rule_of, built_in_form};
ghost use Rattle.coherent_form.specs.Kept.{BuiltInIsThere};
ghost use Rattle.coherent_form.specs.declared.source.BuiltIn.TheVariants.{Sub, No, Or};

use crate::source::BuiltIn;
use logic_core::{Atom, Form, Slot};
use signature::Tables;
use std::alloc::Global;
use text_core::{List, Memory};

/// The arity of a symbol; that of equality is 2.
pub(crate) fn arity_of(tables: &Tables, symbol: u32) -> u32
    requires { symbol < length tables.now.symbols + 1 }
    ensures { result ≡ arity_in tables.now symbol }
{
    tables.arity(symbol)
}

fn one<T: Drop>(alloc: Global, item: T) -> Result<List<T>, Memory>
    ensures { IfOk result (λ items. items ≡ item ∷ []) }
{
    let mut items = List::new(alloc);
    items.push(item)?;
    Ok(items)
}

fn two<T: Drop>(alloc: Global, first: T, second: T) -> Result<List<T>, Memory>
    ensures { IfOk result (λ items. items ≡ first ∷ second ∷ []) }
{
    let mut items = List::new(alloc);
    items.push(first)?;
    items.push(second)?;
    Ok(items)
}

/// Variables in a row.
fn row(alloc: Global, count: u32) -> Result<List<Slot>, Memory>
    ensures { IfOk result (λ slots. slots ≡ map Variable (counted 0 count)) }
{
    let mut slots = List::new(alloc);
    for variable in 0..count {
        slots.push(Slot::Variable(variable))?;
    }
    Ok(slots)
}

fn placed(variable: u32, place: u32, other: u32) -> Slot
    ensures { result ≡ Variable (if variable == place then other else variable) }
{
    Slot::Variable(if variable == place { other } else { variable })
}

/// Variables in a row, with another one in a place.
fn row_with(alloc: Global, count: u32, place: u32, other: u32) -> Result<List<Slot>, Memory>
    ensures { IfOk result (λ slots.
        slots ≡ map Variable (with_place place other (counted 0 count))) }
{
    let mut slots = List::new(alloc);
    for variable in 0..count {
        slots.push(placed(variable, place, other))?;
    }
    Ok(slots)
}

/// A symbol, or its complement, of variables in a row.
fn atom(alloc: Global, positive: bool, symbol: u32, arity: u32) -> Result<Atom, Memory>
    ensures { IfOk result (λ atom. atom ≡ atom_with positive symbol (counted 0 arity)) }
{
    let args = row(alloc, arity)?;
    Ok(Atom {
        positive,
        symbol,
        args,
    })
}

fn equation(alloc: Global, left: u32, right: u32) -> Result<Atom, Memory>
    ensures { IfOk result (λ atom. atom ≡ equation_of left right) }
{
    let args = two(alloc, Slot::Variable(left), Slot::Variable(right))?;
    Ok(Atom {
        positive: true,
        symbol: 0,
        args,
    })
}

/// Premises lead to one atom, for all values of so many variables.
fn rule(alloc: Global, universals: u32, premises: List<Atom>, atom: Atom) -> Result<Form, Memory>
    ensures { IfOk result (λ form. form ≡ rule_of universals premises ((atom ∷ []) ∷ [])) }
{
    let disjuncts = one(alloc, one(alloc, atom)?)?;
    Ok(Form {
        universals,
        premises,
        existentials: 0,
        disjuncts,
    })
}

fn reflexive_form(alloc: Global) -> Result<Form, Memory>
    ensures { IfOk result (λ form. form ≡ rule_of 1 [] ((equation_of 0 0 ∷ []) ∷ [])) }
{
    rule(alloc, 1, List::new(alloc), equation(alloc, 0, 0)?)
}

fn symmetric_form(alloc: Global) -> Result<Form, Memory>
    ensures { IfOk result (λ form.
        form ≡ rule_of 2 (equation_of 0 1 ∷ []) ((equation_of 1 0 ∷ []) ∷ [])) }
{
    let premises = one(alloc, equation(alloc, 0, 1)?)?;
    rule(alloc, 2, premises, equation(alloc, 1, 0)?)
}

fn transitive_form(alloc: Global) -> Result<Form, Memory>
    ensures { IfOk result (λ form. form
        ≡ rule_of 3 (equation_of 0 1 ∷ equation_of 1 2 ∷ []) ((equation_of 0 2 ∷ []) ∷ [])) }
{
    let premises = two(alloc, equation(alloc, 0, 1)?, equation(alloc, 1, 2)?)?;
    rule(alloc, 3, premises, equation(alloc, 0, 2)?)
}

fn kept_form(
    alloc: Global,
    tables: &Tables,
    positive: bool,
    symbol: u32,
    place: u32,
) -> Result<Form, Memory>
    requires there { symbol < length tables.now.symbols + 1 }
    requires arities { AllByRecursion (λ s. s.arity ≤ MOST_ARGUMENTS) tables.now.symbols }
    ensures { IfOk result (λ form.
        form ≡ built_in_form tables.now (Sub positive symbol place)) }
{
    let arity = arity_of(tables, symbol);
    let at = place.saturating_sub(1);
    let same = equation(alloc, at, arity)?;
    let premises = two(alloc, atom(alloc, positive, symbol, arity)?, same)?;
    let args = row_with(alloc, arity, at, arity)?;
    let conclusion = Atom {
        positive,
        symbol,
        args,
    };
    rule(alloc, arity + 1, premises, conclusion)
}

fn excluding_form(alloc: Global, tables: &Tables, symbol: u32) -> Result<Form, Memory>
    requires { symbol < length tables.now.symbols + 1 }
    ensures { IfOk result (λ form. form ≡ built_in_form tables.now (No symbol)) }
{
    let arity = arity_of(tables, symbol);
    let positive = atom(alloc, true, symbol, arity)?;
    let negative = atom(alloc, false, symbol, arity)?;
    Ok(Form {
        universals: arity,
        premises: two(alloc, positive, negative)?,
        existentials: 0,
        disjuncts: List::new(alloc),
    })
}

fn deciding_form(alloc: Global, tables: &Tables, symbol: u32) -> Result<Form, Memory>
    requires { symbol < length tables.now.symbols + 1 }
    ensures { IfOk result (λ form. form ≡ built_in_form tables.now (Or symbol)) }
{
    let arity = arity_of(tables, symbol);
    let positive = one(alloc, atom(alloc, true, symbol, arity)?)?;
    let negative = one(alloc, atom(alloc, false, symbol, arity)?)?;
    Ok(Form {
        universals: arity,
        premises: List::new(alloc),
        existentials: 0,
        disjuncts: two(alloc, positive, negative)?,
    })
}

/// The form of a built-in axiom.
pub(crate) fn axiom_form(alloc: Global, tables: &Tables, built: BuiltIn) -> Result<Form, Memory>
    requires there { BuiltInIsThere (length tables.now.symbols + 1) built }
    requires arities { AllByRecursion (λ s. s.arity ≤ MOST_ARGUMENTS) tables.now.symbols }
    ensures { IfOk result (λ form. form ≡ built_in_form tables.now built) }
{
    match built {
        BuiltIn::Refl => reflexive_form(alloc),
        BuiltIn::Sym => symmetric_form(alloc),
        BuiltIn::Trans => transitive_form(alloc),
        BuiltIn::Sub {
            positive,
            symbol,
            place,
        } => kept_form(alloc, tables, positive, symbol, place),
        BuiltIn::No { symbol } => excluding_form(alloc, tables, symbol),
        BuiltIn::Or { symbol } => deciding_form(alloc, tables, symbol),
    }
}
