//! How forms are written.

ghost use Rattle.std.specs.Prelude.{◌≡◌, ◌+◌, ◌<◌, ◌^◌, ◌++◌, map, length, IfOk, OnOk};
ghost use Rattle.std.specs.List.{AllByRecursion};
ghost use Rattle.vernacular_tree.specs.Contexts.{counted};
ghost use Rattle.coherent_form.specs.Fitting.{FormFits};
ghost use Rattle.isar_text.specs.Formulas as formulas;
ghost use Rattle.isar_text.specs.FormTexts.{AtomIsThere, SlotIsNamed, variable_in};

use crate::formula_text::{name_text, put_applied, put_equation, put_joined, put_lists};
use coherent_form::Task;
use logic_core::{Atom, Form, Slot};
use proof_text::put_number;
use std::alloc::Global;
use text_core::{Bytes, List, Memory};

// The text of a variable: the one that is given for it, or else its own.
fn variable_text(alloc: Global, names: &[Bytes], variable: u32) -> Result<Bytes, Memory>
    ensures { IfOk result (λ text. text ≡ variable_in names.now variable) }
{
    match names.get(variable as usize) {
        Some(name) => Bytes::from_slice(alloc, name.as_slice()),
        None => {
            let mut text = Bytes::from_slice(alloc, b"X")?;
            put_number(alloc, variable, &mut text)?;
            Ok(text)
        }
    }
}

// The text of an argument of a form's atom.
fn slot_text(alloc: Global, task: &Task, names: &[Bytes], slot: Slot) -> Result<Bytes, Memory>
    requires { SlotIsNamed (length task.now.tables.constants) slot }
    ensures { IfOk result (λ text. text ≡
        formulas.slot_text task.now.tables (variable_in names.now) slot) }
{
    match slot {
        Slot::Variable(variable) => variable_text(alloc, names, variable),
        Slot::Constant(constant) => name_text(alloc, task.tables().constant_name(constant)),
    }
}

fn slot_texts(
    alloc: Global,
    task: &Task,
    names: &[Bytes],
    slots: &[Slot],
) -> Result<List<Bytes>, Memory>
    requires { AllByRecursion (SlotIsNamed (length task.now.tables.constants)) slots.now }
    ensures { IfOk result (λ texts. texts ≡
        map (formulas.slot_text task.now.tables (variable_in names.now)) slots.now) }
{
    let mut texts = List::new(alloc);
    for slot in slots {
        texts.push(slot_text(alloc, task, names, *slot)?)?;
    }
    Ok(texts)
}

// Appends an atom of a form.
fn put_atom(
    alloc: Global,
    task: &Task,
    names: &[Bytes],
    atom: &Atom,
    out: &mut Bytes,
) -> Result<(), Memory>
    requires { AtomIsThere task.now.tables atom.now }
    ensures { OnOk result (out.new ≡ out.old ++
        formulas.form_atom task.now.tables (variable_in names.now) atom.now) }
{
    let args = slot_texts(alloc, task, names, atom.args.as_slice())?;
    if atom.symbol == 0 {
        return put_equation(atom.positive, args.as_slice(), out);
    }
    let predicate = task.tables().symbol_name(atom.symbol);
    put_applied(atom.positive, predicate, args.as_slice(), out)
}

// The text of an atom of a form.
fn atom_text(alloc: Global, task: &Task, names: &[Bytes], atom: &Atom) -> Result<Bytes, Memory>
    requires { AtomIsThere task.now.tables atom.now }
    ensures { IfOk result (λ text. text ≡
        formulas.form_atom task.now.tables (variable_in names.now) atom.now) }
{
    let mut text = Bytes::new(alloc);
    put_atom(alloc, task, names, atom, &mut text)?;
    Ok(text)
}

fn atom_texts(
    alloc: Global,
    task: &Task,
    names: &[Bytes],
    atoms: &[Atom],
) -> Result<List<Bytes>, Memory>
    requires { AllByRecursion (AtomIsThere task.now.tables) atoms.now }
    ensures { IfOk result (λ texts. texts ≡
        map (formulas.form_atom task.now.tables (variable_in names.now)) atoms.now) }
{
    let mut texts = List::new(alloc);
    for atom in atoms {
        texts.push(atom_text(alloc, task, names, atom)?)?;
    }
    Ok(texts)
}

// The texts of the atoms of each disjunct.
fn disjunct_texts(
    alloc: Global,
    task: &Task,
    names: &[Bytes],
    disjuncts: &[List<Atom>],
) -> Result<List<List<Bytes>>, Memory>
    requires { AllByRecursion (AllByRecursion (AtomIsThere task.now.tables)) disjuncts.now }
    ensures { IfOk result (λ texts. texts ≡
        map (map (formulas.form_atom task.now.tables (variable_in names.now))) disjuncts.now) }
{
    let mut texts = List::new(alloc);
    for disjunct in disjuncts {
        texts.push(atom_texts(alloc, task, names, disjunct.as_slice())?)?;
    }
    Ok(texts)
}

// Appends as many variables from this number on, a blank before each.
fn put_bound(alloc: Global, first: u32, count: u32, out: &mut Bytes) -> Result<(), Memory>
    requires { first + count < 2 ^ 32 }
    ensures { OnOk result (out.new ≡ out.old ++ formulas.bound_text (counted first count)) }
{
    for number in first..first + count {
        out.extend_from_slice(b" X")?;
        put_number(alloc, number, out)?;
    }
    Ok(())
}

// Appends a quantifier with as many variables; nothing where there are none.
fn put_quantified(
    alloc: Global,
    sign: &[u8],
    first: u32,
    count: u32,
    out: &mut Bytes,
) -> Result<(), Memory>
    requires { first + count < 2 ^ 32 }
    ensures { OnOk result (out.new ≡ out.old ++ formulas.quantified sign.now first count) }
{
    if count == 0 {
        return Ok(());
    }
    out.extend_from_slice(sign)?;
    put_bound(alloc, first, count, out)?;
    out.extend_from_slice(b". ")
}

/// Appends the conclusion of a form, with these texts for its first variables.
pub(crate) fn put_conclusion(
    alloc: Global,
    task: &Task,
    names: &[Bytes],
    form: &Form,
    out: &mut Bytes,
) -> Result<(), Memory>
    requires { FormFits task.now.tables form.now }
    ensures { OnOk result (out.new ≡ out.old ++ formulas.conclusion_text task.now.tables
        (variable_in names.now) form.now.universals form.now.existentials form.now.disjuncts) }
{
    let lists = disjunct_texts(alloc, task, names, form.disjuncts.as_slice())?;
    if form.existentials == 0 {
        return put_lists(lists.as_slice(), out);
    }
    out.push(b'(')?;
    put_quantified(alloc, b"EX", form.universals, form.existentials, out)?;
    put_lists(lists.as_slice(), out)?;
    out.push(b')')
}

// Appends the premises of a form, where there are some.
fn put_premises(alloc: Global, task: &Task, atoms: &[Atom], out: &mut Bytes) -> Result<(), Memory>
    requires { AllByRecursion (AtomIsThere task.now.tables) atoms.now }
    ensures { OnOk result (out.new ≡ out.old ++
        formulas.premises_text task.now.tables formulas.variable_text atoms.now) }
{
    match atoms {
        [] => Ok(()),
        atoms => {
            let texts = atom_texts(alloc, task, &[], atoms)?;
            put_joined(texts.as_slice(), b" & ", out)?;
            out.extend_from_slice(b" --> ")
        }
    }
}

/// Appends a form.
pub(crate) fn put_form(
    alloc: Global,
    task: &Task,
    form: &Form,
    out: &mut Bytes,
) -> Result<(), Memory>
    requires { FormFits task.now.tables form.now }
    ensures { OnOk result (out.new ≡ out.old ++ formulas.form_text task.now.tables form.now) }
{
    put_quantified(alloc, b"ALL", 0, form.universals, out)?;
    put_premises(alloc, task, form.premises.as_slice(), out)?;
    put_conclusion(alloc, task, &[], form, out)
}
