ghost use Rattle.std.specs.Prelude.{◌≡◌, ◌+◌, ◌<◌, ◌==◌, true, false, [], ◌∷◌, ◌++◌, if◌then◌else◌, length, IfOk, OnOk};
ghost use Rattle.std.specs.List.{flat_map};
ghost use Rattle.vernacular_tree.specs.Contexts.{counted};
ghost use Rattle.coherent_form.specs.BuiltIns.{built_ins};
ghost use Rattle.coherent_form.specs.declared.source.BuiltIn.TheVariants.{No, Or};
ghost use Rattle.coherent_form.specs.Noted.{is_noted, places_kept, symbol_kept, complement_axioms, equality_axioms, axioms_noted};

use crate::axiom_forms::arity_of;
use crate::occurrences::{Occurrences, occurring};
use crate::source::BuiltIn;
use logic_core::Form;
use signature::Tables;
use std::alloc::Global;
use text_core::{List, Memory};

fn push_places(
    tables: &Tables,
    positive: bool,
    symbol: u32,
    axioms: &mut List<BuiltIn>,
) -> Result<(), Memory>
    requires { symbol < length tables.now.symbols + 1 }
    ensures { OnOk result (axioms.new ≡ axioms.old ++ places_kept tables.now positive symbol) }
{
    for place in 0..arity_of(tables, symbol) {
        axioms.push(BuiltIn::Sub {
            positive,
            symbol,
            place: place + 1,
        })?;
    }
    Ok(())
}

fn push_symbol(tables: &Tables, symbol: u32, axioms: &mut List<BuiltIn>) -> Result<(), Memory>
    requires { symbol < length tables.now.symbols + 1 }
    ensures { OnOk result (axioms.new
        ≡ axioms.old ++ (if symbol == 0 then [] else places_kept tables.now true symbol)) }
{
    if symbol == 0 {
        return Ok(());
    }
    push_places(tables, true, symbol, axioms)
}

fn push_kept(
    tables: &Tables,
    seen: &Occurrences,
    symbol: u32,
    axioms: &mut List<BuiltIn>,
) -> Result<(), Memory>
    requires { symbol < length tables.now.symbols + 1 }
    ensures { OnOk result (axioms.new ≡ axioms.old ++ symbol_kept tables.now seen.now symbol) }
{
    push_symbol(tables, symbol, axioms)?;
    if seen.negated.contains(&symbol) {
        return push_places(tables, false, symbol, axioms);
    }
    Ok(())
}

fn push_equality(
    tables: &Tables,
    seen: &Occurrences,
    axioms: &mut List<BuiltIn>,
) -> Result<(), Memory>
    ensures { OnOk result (axioms.new ≡ axioms.old ++ equality_axioms tables.now seen.now) }
{
    axioms.push(BuiltIn::Refl)?;
    axioms.push(BuiltIn::Sym)?;
    axioms.push(BuiltIn::Trans)?;
    for symbol in 0..tables.symbols() {
        push_kept(tables, seen, symbol, axioms)?;
    }
    Ok(())
}

fn push_complement(
    seen: &Occurrences,
    symbol: u32,
    axioms: &mut List<BuiltIn>,
) -> Result<(), Memory>
    ensures { OnOk result (axioms.new ≡ axioms.old
        ++ (if is_noted seen.now symbol then No symbol ∷ Or symbol ∷ [] else [])) }
{
    if seen.negated.contains(&symbol) {
        axioms.push(BuiltIn::No { symbol })?;
        axioms.push(BuiltIn::Or { symbol })?;
    }
    Ok(())
}

fn push_complements(
    tables: &Tables,
    seen: &Occurrences,
    axioms: &mut List<BuiltIn>,
) -> Result<(), Memory>
    ensures { OnOk result (axioms.new ≡ axioms.old
        ++ flat_map (complement_axioms tables.now seen.now)
        (counted 0 (length tables.now.symbols + 1))) }
{
    for symbol in 0..tables.symbols() {
        push_complement(seen, symbol, axioms)?;
    }
    Ok(())
}

fn noted_axioms(alloc: Global, tables: &Tables, seen: &Occurrences) -> Result<List<BuiltIn>, Memory>
    ensures { IfOk result (λ axioms. axioms ≡ axioms_noted tables.now seen.now) }
{
    let mut axioms = List::new(alloc);
    if seen.equality {
        push_equality(tables, seen, &mut axioms)?;
    }
    push_complements(tables, seen, &mut axioms)?;
    Ok(axioms)
}

/// The built-in axioms of a goal and of forms in order: those of equality where it occurs, and then
/// those of the symbols that occur negated.
pub(crate) fn axioms_of(
    alloc: Global,
    tables: &Tables,
    goal: &Form,
    forms: &[Form],
) -> Result<List<BuiltIn>, Memory>
    ensures { IfOk result (λ axioms. axioms ≡ built_ins tables.now (goal.now ∷ forms.now)) }
{
    let seen = occurring(alloc, goal, forms)?;
    noted_axioms(alloc, tables, &seen)
}
