ghost use Rattle.std.specs.Prelude.{◌≡◌, ◌||◌, ◌∷◌, ℕ, IfOk, OnOk};
ghost use Rattle.std.specs.List.{list_any};
ghost use Rattle.coherent_form.specs.BuiltIns.{occurs, is_equation, is_complement};
ghost use Rattle.coherent_form.specs.Noted.{AreNoted, is_noted};

use indexmap::IndexSet;
use logic_core::{Atom, Form};
use std::alloc::Global;
use text_core::{List, Memory};

/// Whether equality occurs in some forms, and which symbols occur negated.
#[derive(Drop)]
pub(crate) struct Occurrences {
    pub(crate) equality: bool,
    pub(crate) negated: IndexSet<u32>,
}

fn note_atom(atom: &Atom, seen: &mut Occurrences) -> Result<(), Memory>
    ensures { OnOk result (AreNoted seen.old seen.new (λ test. test atom.now)) }
{
    if atom.symbol == 0 {
        seen.equality = true;
    }
    if !atom.positive {
        seen.negated.insert(atom.symbol)?;
    }
    Ok(())
}

fn note_atoms(atoms: &[Atom], seen: &mut Occurrences) -> Result<(), Memory>
    ensures { OnOk result (AreNoted seen.old seen.new (λ test. list_any test atoms.now)) }
{
    for atom in atoms {
        note_atom(atom, seen)?;
    }
    Ok(())
}

fn note_lists(lists: &[List<Atom>], seen: &mut Occurrences) -> Result<(), Memory>
    ensures { OnOk result
        (AreNoted seen.old seen.new (λ test. list_any (list_any test) lists.now)) }
{
    for atoms in lists {
        note_atoms(atoms.as_slice(), seen)?;
    }
    Ok(())
}

fn note_form(form: &Form, seen: &mut Occurrences) -> Result<(), Memory>
    ensures { OnOk result (AreNoted seen.old seen.new (λ test.
        list_any test form.now.premises || list_any (list_any test) form.now.disjuncts)) }
{
    note_atoms(form.premises.as_slice(), seen)?;
    note_lists(form.disjuncts.as_slice(), seen)
}

fn note_forms(forms: &[Form], seen: &mut Occurrences) -> Result<(), Memory>
    ensures { OnOk result (AreNoted seen.old seen.new (λ test. occurs test forms.now)) }
{
    for form in forms {
        note_form(form, seen)?;
    }
    Ok(())
}

/// What occurs in a goal and in forms.
pub(crate) fn occurring(alloc: Global, goal: &Form, forms: &[Form]) -> Result<Occurrences, Memory>
    ensures equality { IfOk result (λ seen.
        seen.equality ≡ occurs is_equation (goal.now ∷ forms.now)) }
    ensures negated { IfOk result (λ seen. (symbol : ℕ) →
        is_noted seen symbol ≡ occurs (is_complement symbol) (goal.now ∷ forms.now)) }
{
    let mut seen = Occurrences {
        equality: false,
        negated: IndexSet::new(alloc),
    };
    note_form(goal, &mut seen)?;
    note_forms(forms, &mut seen)?;
    Ok(seen)
}
