ghost use Rattle.std.specs.Prelude.{ℕ, ◌≡◌, ◌<◌, ◌≤◌, ◌^◌, true, [], ◌∷◌, length, take};
ghost use Rattle.std.specs.Bool.{Decides};
ghost use Rattle.std.specs.List.{AllByRecursion};
ghost use Rattle.logic_core.specs.declared.form.Atom.{Atom as AtomValue};
ghost use Rattle.instance_cursor.specs.Facts as facts;
ghost use Rattle.kept_context.specs.Noted.{IsSmall, HasAlso, args_of};

use fact_store::Store;
use instance_cursor::{element_at, signed_number};
use logic_core::Atom;
use text_core::MOST_ARGUMENTS;

// Writes the elements of an atom at the front of a buffer.
fn write_elements(buffer: &mut [u32], elements: &[u32], atom: &Atom)
    requires { length atom.now.args ≤ length buffer.old }
    ensures { take (length atom.now.args) buffer.new ≡ facts.elements_at elements.now atom.now }
{
    for (at, slot) in atom.args.as_slice().iter().enumerate() {
        buffer[at] = element_at(elements, *slot);
    }
}

/// Whether each of some elements is below a number of elements.
pub(crate) fn are_known(some: &[u32], elements: u32) -> bool
    ensures { Decides result (AllByRecursion (λ (e : ℕ). e < elements) some.now) }
{
    for element in some {
        if *element >= elements {
            return false;
        }
    }
    true
}

/// Whether an atom at elements stands.
pub(crate) fn is_standing(store: &Store, elements: &[u32], atom: &Atom) -> bool
    requires { IsSmall (2 ^ 32) atom.now }
    ensures { result ≡ facts.stands_at store.now.facts elements.now atom.now }
{
    let mut buffer = [0; MOST_ARGUMENTS as usize];
    write_elements(&mut buffer, elements, atom);
    store.holds(signed_number(atom), &buffer[..atom.args.len()])
}

/// Whether each of the atoms stands at elements.
pub(crate) fn are_standing(store: &Store, elements: &[u32], atoms: &[Atom]) -> bool
    requires { AllByRecursion (IsSmall (2 ^ 32)) atoms.now }
    ensures { Decides result (AllByRecursion (λ (atom : AtomValue).
        facts.stands_at store.now.facts elements.now atom ≡ true) atoms.now) }
{
    for atom in atoms {
        if !is_standing(store, elements, atom) {
            return false;
        }
    }
    true
}

// Adds an atom at elements, where it does not stand yet.
fn add_fact(store: &mut Store, elements: &[u32], atom: &Atom)
    requires small { IsSmall store.old.signed atom.now }
    requires few_symbols { store.old.signed < 2 ^ 32 }
    requires spare_fact { 0 < store.old.spare_facts }
    requires spare_args { length atom.now.args ≤ store.old.spare_args }
    ensures { HasAlso elements.now (atom.now ∷ []) store.old store.new }
{
    let mut buffer = [0; MOST_ARGUMENTS as usize];
    write_elements(&mut buffer, elements, atom);
    store.add(signed_number(atom), &buffer[..atom.args.len()]);
}

/// Adds atoms at elements, those that do not stand yet.
pub(crate) fn add_facts(store: &mut Store, elements: &[u32], atoms: &[Atom])
    requires small { AllByRecursion (IsSmall store.old.signed) atoms.now }
    requires few_symbols { store.old.signed < 2 ^ 32 }
    requires spare_facts { length atoms.now ≤ store.old.spare_facts }
    requires spare_args { args_of atoms.now ≤ store.old.spare_args }
    ensures { HasAlso elements.now atoms.now store.old store.new }
{
    for atom in atoms {
        add_fact(store, elements, atom);
    }
}
