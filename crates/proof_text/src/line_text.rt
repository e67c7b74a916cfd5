//! How names, atoms and lines are written.

ghost use Rattle.std.specs.Prelude.{◌≡◌, ◌++◌, ◌≤◌, map, OnOk};
ghost use Rattle.std.specs.Fmt.{decimal};
ghost use Rattle.tptp_lexer.specs.Written.{word_text, joined_texts};
ghost use Rattle.std.specs.List.{AllByRecursion};
ghost use Rattle.proof_text.specs.Lines as lines;
ghost use Rattle.proof_text.specs.Marks.{most_number};
ghost use Rattle.proof_text.specs.Named.{AtomIsNamed, AtomsAreNamed, LineIsNamed, NamesAreNamed};

use crate::body::{NamedAtom, Shown};
use crate::wording::Wording;
use std::alloc::Global;
use text_core::{Bytes, List, Memory, Name};
use tptp_lexer::put_word;

/// Appends a number in decimal. `Memory` is want of memory.
pub fn put_number(alloc: Global, number: u32, out: &mut Bytes) -> Result<(), Memory>
    ensures text { OnOk result (out.new ≡ out.old ++ decimal number) }
    ensures named { OnOk result (number ≤ most_number) }
{
    let digits = number.to_string(alloc)?;
    out.extend_from_slice(digits.as_bytes())
}

/// Appends words with a separator between each two. `Memory` is want of memory.
#[tactic(auto, using(tptp_lexer::proofs::Laws::joined_led))]
pub fn put_words(names: &[Name], separator: &[u8], out: &mut Bytes) -> Result<(), Memory>
    ensures text { OnOk result (out.new ≡ out.old ++
        joined_texts separator.now (map word_text names.now)) }
    ensures named { OnOk result (NamesAreNamed names.now) }
{
    let mut before: &[u8] = b"";
    for name in names {
        out.extend_from_slice(before)?;
        put_word(name, out)?;
        before = separator;
    }
    Ok(())
}

/// Appends names in brackets.
pub(crate) fn put_names(names: &List<Name>, out: &mut Bytes) -> Result<(), Memory>
    ensures text { OnOk result (out.new ≡ out.old ++ lines.names_text names.now) }
    ensures named { OnOk result (NamesAreNamed names.now) }
{
    out.push(b'[')?;
    put_words(names.as_slice(), b",", out)?;
    out.push(b']')
}

// Appends the arguments of an atom.
fn put_arguments(args: &[Name], out: &mut Bytes) -> Result<(), Memory>
    ensures text { OnOk result (out.new ≡ out.old ++ lines.arguments_text args.now) }
    ensures named { OnOk result (NamesAreNamed args.now) }
{
    if args.is_empty() {
        return Ok(());
    }
    out.push(b'(')?;
    put_words(args, b",", out)?;
    out.push(b')')
}

// Appends an atom.
fn put_atom(wording: Wording, atom: &NamedAtom, out: &mut Bytes) -> Result<(), Memory>
    ensures text { OnOk result (out.new ≡ out.old ++ lines.atom_text wording atom.now) }
    ensures named { OnOk result (AtomIsNamed atom.now) }
{
    let args = atom.args.as_slice();
    match (atom.positive, &atom.predicate) {
        (true, Some(predicate)) => {
            put_word(predicate, out)?;
            put_arguments(args, out)
        }
        (false, Some(predicate)) => {
            out.extend_from_slice(wording.negation())?;
            put_word(predicate, out)?;
            put_arguments(args, out)
        }
        (true, None) => put_words(args, b" = ", out),
        (false, None) => put_words(args, b" != ", out),
    }
}

// Appends atoms with a separator between each two.
#[tactic(auto, using(tptp_lexer::proofs::Laws::joined_led))]
fn put_atoms(wording: Wording, atoms: &[NamedAtom], out: &mut Bytes) -> Result<(), Memory>
    ensures text { OnOk result (out.new ≡ out.old ++ lines.atoms_text wording atoms.now) }
    ensures named { OnOk result (AtomsAreNamed atoms.now) }
{
    let separator = wording.conjunction();
    let mut before: &[u8] = b"";
    for atom in atoms {
        out.extend_from_slice(before)?;
        put_atom(wording, atom, out)?;
        before = separator;
    }
    Ok(())
}

/// Appends facts. `Memory` is want of memory.
pub fn put_facts(wording: Wording, atoms: &List<NamedAtom>, out: &mut Bytes) -> Result<(), Memory>
    ensures text { OnOk result (out.new ≡ out.old ++ lines.facts_text wording atoms.now) }
    ensures named { OnOk result (AtomsAreNamed atoms.now) }
{
    match atoms.as_slice() {
        [] => out.extend_from_slice(wording.truth()),
        atoms => put_atoms(wording, atoms, out),
    }
}

// Appends a part of a line of cases.
fn put_part(wording: Wording, atoms: &List<NamedAtom>, out: &mut Bytes) -> Result<(), Memory>
    ensures text { OnOk result (out.new ≡ out.old ++ lines.part_text wording atoms.now) }
    ensures named { OnOk result (AtomsAreNamed atoms.now) }
{
    match atoms.as_slice() {
        [] => out.extend_from_slice(wording.truth()),
        [atom] => put_atom(wording, atom, out),
        atoms => {
            out.push(b'(')?;
            put_atoms(wording, atoms, out)?;
            out.push(b')')
        }
    }
}

// Appends parts with a separator between each two.
#[tactic(auto, using(tptp_lexer::proofs::Laws::joined_led))]
fn put_parts(wording: Wording, parts: &[List<NamedAtom>], out: &mut Bytes) -> Result<(), Memory>
    ensures text { OnOk result (out.new ≡ out.old ++ joined_texts
        (lines.disjunction wording) (map (lines.part_text wording) parts.now)) }
    ensures named { OnOk result (AllByRecursion AtomsAreNamed parts.now) }
{
    let separator = wording.disjunction();
    let mut before: &[u8] = b"";
    for part in parts {
        out.extend_from_slice(before)?;
        put_part(wording, part, out)?;
        before = separator;
    }
    Ok(())
}

/// Appends a line. `Memory` is want of memory.
pub fn put_line(wording: Wording, line: &Shown, out: &mut Bytes) -> Result<(), Memory>
    ensures text { OnOk result (out.new ≡ out.old ++ lines.line_text wording line.now) }
    ensures named { OnOk result (LineIsNamed line.now) }
{
    match line {
        Shown::Falsum => out.extend_from_slice(wording.falsehood()),
        Shown::Facts(atoms) => put_facts(wording, atoms, out),
        Shown::Cases(parts) => put_parts(wording, parts.as_slice(), out),
    }
}
