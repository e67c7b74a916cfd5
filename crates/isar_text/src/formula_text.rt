//! How names, atoms, facts and lines are written.

ghost use Rattle.std.specs.Prelude.{◌≡◌, ◌∷◌, ◌++◌, codes, map, Some, None, IfOk, OnOk};
ghost use Rattle.tptp_lexer.specs.Written.{joined_texts};
ghost use Rattle.isar_text.specs.Names.{isar_name};
ghost use Rattle.isar_text.specs.Heads.{spaced};
ghost use Rattle.isar_text.specs.Bodies.{names_text};
ghost use Rattle.isar_text.specs.Formulas as formulas;

use crate::name::put_name;
use proof_text::{NamedAtom, Shown};
use std::alloc::Global;
use text_core::{Bytes, List, Memory, Name};

/// Appends texts with a separator between each two.
#[tactic(auto, using(tptp_lexer::proofs::Laws::joined_led))]
pub(crate) fn put_joined(texts: &[Bytes], separator: &[u8], out: &mut Bytes) -> Result<(), Memory>
    ensures { OnOk result (out.new ≡ out.old ++ joined_texts separator.now texts.now) }
{
    let mut before: &[u8] = b"";
    for text in texts {
        out.extend_from_slice(before)?;
        out.extend_from_slice(text.as_slice())?;
        before = separator;
    }
    Ok(())
}

/// Appends texts with a blank before each.
pub(crate) fn put_spaced(texts: &[Bytes], out: &mut Bytes) -> Result<(), Memory>
    ensures { OnOk result (out.new ≡ out.old ++ spaced texts.now) }
{
    for text in texts {
        out.push(b' ')?;
        out.extend_from_slice(text.as_slice())?;
    }
    Ok(())
}

/// A name as it is written.
pub(crate) fn name_text(alloc: Global, name: &Name) -> Result<Bytes, Memory>
    ensures { IfOk result (λ text. text ≡ isar_name name.now) }
{
    let mut text = Bytes::new(alloc);
    put_name(name, &mut text)?;
    Ok(text)
}

/// Names as they are written.
pub(crate) fn name_texts(alloc: Global, names: &[Name]) -> Result<List<Bytes>, Memory>
    ensures { IfOk result (λ texts. texts ≡ map isar_name names.now) }
{
    let mut texts = List::new(alloc);
    for name in names {
        texts.push(name_text(alloc, name)?)?;
    }
    Ok(texts)
}

/// Appends names in brackets.
pub(crate) fn put_names(alloc: Global, names: &[Name], out: &mut Bytes) -> Result<(), Memory>
    ensures { OnOk result (out.new ≡ out.old ++ names_text names.now) }
{
    let texts = name_texts(alloc, names)?;
    out.push(b'[')?;
    put_joined(texts.as_slice(), b",", out)?;
    out.push(b']')
}

// Appends a predicate with its arguments.
#[tactic(auto, using(crate::proofs::Joined::joined_spaced))]
fn put_predicate(predicate: &Name, args: &[Bytes], out: &mut Bytes) -> Result<(), Memory>
    ensures { OnOk result (out.new ≡ out.old ++
        joined_texts (codes " ") (isar_name predicate.now ∷ args.now)) }
{
    put_name(predicate, out)?;
    put_spaced(args, out)
}

/// Appends an atom of a predicate with its arguments, or its complement.
pub(crate) fn put_applied(
    positive: bool,
    predicate: &Name,
    args: &[Bytes],
    out: &mut Bytes,
) -> Result<(), Memory>
    ensures { OnOk result (out.new ≡ out.old ++
        formulas.applied_text positive (Some predicate.now) args.now) }
{
    if positive {
        return put_predicate(predicate, args, out);
    }
    out.extend_from_slice(b"~ ")?;
    put_predicate(predicate, args, out)
}

/// Appends an equation, or its complement.
pub(crate) fn put_equation(positive: bool, args: &[Bytes], out: &mut Bytes) -> Result<(), Memory>
    ensures { OnOk result (out.new ≡ out.old ++ formulas.applied_text positive None args.now) }
{
    match positive {
        true => put_joined(args, b" = ", out),
        false => put_joined(args, b" ~= ", out),
    }
}

// Appends an atom of a line.
fn put_atom(alloc: Global, atom: &NamedAtom, out: &mut Bytes) -> Result<(), Memory>
    ensures { OnOk result (out.new ≡ out.old ++ formulas.atom_text atom.now) }
{
    let args = name_texts(alloc, atom.args.as_slice())?;
    match &atom.predicate {
        Some(predicate) => put_applied(atom.positive, predicate, args.as_slice(), out),
        None => put_equation(atom.positive, args.as_slice(), out),
    }
}

// The text of an atom of a line.
fn atom_text(alloc: Global, atom: &NamedAtom) -> Result<Bytes, Memory>
    ensures { IfOk result (λ text. text ≡ formulas.atom_text atom.now) }
{
    let mut text = Bytes::new(alloc);
    put_atom(alloc, atom, &mut text)?;
    Ok(text)
}

/// The texts of atoms of a line.
pub(crate) fn atom_texts(alloc: Global, atoms: &[NamedAtom]) -> Result<List<Bytes>, Memory>
    ensures { IfOk result (λ texts. texts ≡ map formulas.atom_text atoms.now) }
{
    let mut texts = List::new(alloc);
    for atom in atoms {
        texts.push(atom_text(alloc, atom)?)?;
    }
    Ok(texts)
}

// The texts of the atoms of each part.
fn part_texts(alloc: Global, parts: &[List<NamedAtom>]) -> Result<List<List<Bytes>>, Memory>
    ensures { IfOk result (λ texts. texts ≡ map (map formulas.atom_text) parts.now) }
{
    let mut texts = List::new(alloc);
    for part in parts {
        texts.push(atom_texts(alloc, part.as_slice())?)?;
    }
    Ok(texts)
}

/// Appends facts, by the texts of their atoms.
pub(crate) fn put_facts(atoms: &[Bytes], out: &mut Bytes) -> Result<(), Memory>
    ensures { OnOk result (out.new ≡ out.old ++ formulas.facts_text atoms.now) }
{
    match atoms {
        [] => out.extend_from_slice(b"True"),
        atoms => put_joined(atoms, b" & ", out),
    }
}

// Appends a part of a line of cases.
fn put_part(atoms: &[Bytes], out: &mut Bytes) -> Result<(), Memory>
    ensures { OnOk result (out.new ≡ out.old ++ formulas.part_text atoms.now) }
{
    match atoms {
        [] => out.extend_from_slice(b"True"),
        [atom] => out.extend_from_slice(atom.as_slice()),
        atoms => {
            out.push(b'(')?;
            put_joined(atoms, b" & ", out)?;
            out.push(b')')
        }
    }
}

// Appends parts with bars between them.
#[tactic(auto, using(tptp_lexer::proofs::Laws::joined_led))]
fn put_parts(parts: &[List<Bytes>], out: &mut Bytes) -> Result<(), Memory>
    ensures { OnOk result (out.new ≡ out.old ++
        joined_texts (codes " | ") (map formulas.part_text parts.now)) }
{
    let mut before: &[u8] = b"";
    for part in parts {
        out.extend_from_slice(before)?;
        put_part(part.as_slice(), out)?;
        before = b" | ";
    }
    Ok(())
}

/// Appends a line of lists of atoms, by their texts.
pub(crate) fn put_lists(lists: &[List<Bytes>], out: &mut Bytes) -> Result<(), Memory>
    ensures { OnOk result (out.new ≡ out.old ++ formulas.lists_text lists.now) }
{
    match lists {
        [] => out.extend_from_slice(b"False"),
        [facts] => put_facts(facts.as_slice(), out),
        parts => put_parts(parts, out),
    }
}

/// Appends a line.
pub(crate) fn put_line(alloc: Global, line: &Shown, out: &mut Bytes) -> Result<(), Memory>
    ensures { OnOk result (out.new ≡ out.old ++ formulas.line_text line.now) }
{
    match line {
        Shown::Falsum => out.extend_from_slice(b"False"),
        Shown::Facts(atoms) => {
            let texts = atom_texts(alloc, atoms.as_slice())?;
            put_facts(texts.as_slice(), out)
        }
        Shown::Cases(parts) => {
            let texts = part_texts(alloc, parts.as_slice())?;
            put_lists(texts.as_slice(), out)
        }
    }
}
