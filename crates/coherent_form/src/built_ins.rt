ghost use Rattle.std.specs.Prelude.{◌≡◌, ◌+◌, ◌≤◌, [], ◌∷◌, ◌++◌, map, length, OnOk};
ghost use Rattle.std.specs.List.{AllByRecursion};
ghost use Rattle.text_core.specs.declared.limits.TheConstants.{MOST_ARGUMENTS};
ghost use Rattle.coherent_form.specs.BuiltIns.{built_ins, built_in_form};
ghost use Rattle.coherent_form.specs.Kept.{BuiltInIsThere, IsGiven};
ghost use Rattle.coherent_form.specs.declared.source.Source.TheVariants as source;

use crate::axiom_forms::axiom_form;
use crate::axioms::axioms_of;
use crate::source::{BuiltIn, Source};
use indexmap::IndexSet;
use logic_core::Form;
use signature::Tables;
use std::alloc::Global;
use text_core::{List, Memory};

fn append_axiom(
    alloc: Global,
    tables: &Tables,
    built: BuiltIn,
    forms: &mut List<Form>,
    sources: &mut IndexSet<Source>,
) -> Result<(), Memory>
    requires there { BuiltInIsThere (length tables.now.symbols + 1) built }
    requires arities { AllByRecursion (λ s. s.arity ≤ MOST_ARGUMENTS) tables.now.symbols }
    requires new { AllByRecursion (λ s. s ≡ source.BuiltIn built → ⊥) sources.old.keys }
    ensures forms { OnOk result
        (forms.new ≡ forms.old ++ built_in_form tables.now built ∷ []) }
    ensures sources { OnOk result
        (sources.new.keys ≡ sources.old.keys ++ source.BuiltIn built ∷ []) }
{
    forms.push(axiom_form(alloc, tables, built)?)?;
    sources.insert(Source::BuiltIn(built))?;
    Ok(())
}

/// Appends the built-in axioms of forms and a goal, and where they come from. After `Memory` some
/// of them may be there. Each symbol has at most `MOST_ARGUMENTS` arguments, and what is there
/// already comes from formulas of the problem.
pub(crate) fn append_built_ins(
    alloc: Global,
    tables: &Tables,
    goal: &Form,
    forms: &mut List<Form>,
    sources: &mut IndexSet<Source>,
) -> Result<(), Memory>
    requires arities { AllByRecursion (λ s. s.arity ≤ MOST_ARGUMENTS) tables.now.symbols }
    requires given { AllByRecursion IsGiven sources.old.keys }
    ensures forms { OnOk result (forms.new ≡ forms.old
        ++ map (built_in_form tables.now) (built_ins tables.now (goal.now ∷ forms.old))) }
    ensures sources { OnOk result (sources.new.keys ≡ sources.old.keys
        ++ map source.BuiltIn (built_ins tables.now (goal.now ∷ forms.old))) }
{
    let axioms = axioms_of(alloc, tables, goal, forms.as_slice())?;
    for built in axioms.as_slice() {
        append_axiom(alloc, tables, *built, forms, sources)?;
    }
    Ok(())
}
