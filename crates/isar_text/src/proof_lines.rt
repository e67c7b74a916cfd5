//! The lines of a proof.

ghost use Rattle.std.specs.Prelude.{◌≡◌, ◌≤◌, ◌+◌, ◌++◌, OnOk};
ghost use Rattle.proof_text.specs.Canonical.{indent};
ghost use Rattle.proof_text.specs.Marks.{most_number};
ghost use Rattle.isar_text.specs.Bodies as bodies;
ghost use Rattle.isar_text.specs.Telling.{back_text, between, front_text, line_of_step};

use crate::formula_text::{atom_texts, name_texts, put_facts, put_line, put_names, put_spaced};
use crate::head_text::{put_form_label, put_line_label};
use proof_text::{NamedAtom, Shown, put_indent, put_number};
use std::alloc::Global;
use text_core::{Bytes, List, Memory, Name};

/// What the line of a step tells: its number, the names of the new elements, what it says, and by
/// which form, which lines and at which elements.
#[derive(Debug, Drop)]
pub struct StepLine {
    pub number: u32,
    pub fresh: List<Name>,
    pub line: Shown,
    pub form: u32,
    pub used: List<u32>,
    pub args: List<Name>,
}

// Appends two blanks, and two for each level.
fn put_deeper(level: u32, out: &mut Bytes) -> Result<(), Memory>
    ensures { OnOk result (out.new ≡ out.old ++ indent (level + 1)) }
{
    out.extend_from_slice(b"  ")?;
    put_indent(level, out)
}

// Appends the labels of lines, a blank before each.
fn put_labels(alloc: Global, lines: &[u32], out: &mut Bytes) -> Result<(), Memory>
    ensures { OnOk result (out.new ≡ out.old ++ bodies.labels_text lines.now) }
{
    for line in lines {
        out.push(b' ')?;
        put_line_label(alloc, *line, out)?;
    }
    Ok(())
}

// Appends the labels that an end uses; nothing where there are none.
fn put_used(alloc: Global, lines: &[u32], out: &mut Bytes) -> Result<(), Memory>
    ensures { OnOk result (out.new ≡ out.old ++ bodies.used_text lines.now) }
{
    match lines {
        [] => Ok(()),
        lines => {
            out.extend_from_slice(b" using")?;
            put_labels(alloc, lines, out)
        }
    }
}

// Appends the word of a step, with its new names.
fn put_opening(alloc: Global, fresh: &[Name], out: &mut Bytes) -> Result<(), Memory>
    ensures { OnOk result (out.new ≡ out.old ++ bodies.opening_text fresh.now) }
{
    match fresh {
        [] => out.extend_from_slice(b"have "),
        fresh => {
            let texts = name_texts(alloc, fresh)?;
            out.extend_from_slice(b"obtain")?;
            put_spaced(texts.as_slice(), out)?;
            out.extend_from_slice(b" where ")
        }
    }
}

// Appends the front of the line of a step, up to what it says.
fn put_front(alloc: Global, level: u32, step: &StepLine, out: &mut Bytes) -> Result<(), Memory>
    ensures { OnOk result (out.new ≡ out.old ++ front_text level step.now) }
{
    put_deeper(level, out)?;
    put_opening(alloc, step.fresh.as_slice(), out)?;
    put_line_label(alloc, step.number, out)?;
    out.extend_from_slice(b": \"")?;
    put_line(alloc, &step.line, out)?;
    out.push(b'"')
}

// Appends the back of the line of a step, from what it uses on.
fn put_back(alloc: Global, step: &StepLine, out: &mut Bytes) -> Result<(), Memory>
    ensures { OnOk result (out.new ≡ out.old ++ back_text step.now) }
{
    out.extend_from_slice(b" using ")?;
    put_form_label(alloc, step.form, out)?;
    put_labels(alloc, step.used.as_slice(), out)?;
    out.extend_from_slice(b" (* ")?;
    put_names(alloc, step.args.as_slice(), out)?;
    out.extend_from_slice(b" *) by blast\n")
}

/// Appends the line of a step, so many cases deep.
pub(crate) fn put_step(
    alloc: Global,
    level: u32,
    step: &StepLine,
    out: &mut Bytes,
) -> Result<(), Memory>
    ensures { OnOk result (out.new ≡ out.old ++ line_of_step level step.now) }
{
    put_front(alloc, level, step, out)?;
    put_back(alloc, step, out)
}

// Appends the first words of an end.
fn put_thesis(level: u32, out: &mut Bytes) -> Result<(), Memory>
    ensures { OnOk result (out.new ≡ out.old ++ bodies.thesis_text level) }
{
    put_deeper(level, out)?;
    out.extend_from_slice(b"show ?thesis")
}

/// Appends the end by a disjunct of the goal, which uses these lines.
pub(crate) fn put_as(
    alloc: Global,
    level: u32,
    used: &[u32],
    disjunct: u32,
    names: &[Name],
    out: &mut Bytes,
) -> Result<(), Memory>
    ensures text { OnOk result (out.new ≡ out.old ++
        bodies.as_text level used.now disjunct names.now) }
    ensures fits { OnOk result (disjunct ≤ most_number) }
{
    put_thesis(level, out)?;
    put_used(alloc, used, out)?;
    out.extend_from_slice(b" (* as ")?;
    put_number(alloc, disjunct, out)?;
    out.push(b' ')?;
    put_names(alloc, names, out)?;
    out.extend_from_slice(b" *) by blast\n")
}

/// Appends the end by falsehood, which uses this line.
pub(crate) fn put_efq(alloc: Global, level: u32, line: u32, out: &mut Bytes) -> Result<(), Memory>
    ensures { OnOk result (out.new ≡ out.old ++ bodies.efq_text level line) }
{
    put_thesis(level, out)?;
    put_used(alloc, &[line], out)?;
    out.extend_from_slice(b" (* efq *) by blast\n")
}

/// Appends what is before the cases of a split of a line.
pub(crate) fn put_split(alloc: Global, level: u32, line: u32, out: &mut Bytes) -> Result<(), Memory>
    ensures { OnOk result (out.new ≡ out.old ++ bodies.split_text level line) }
{
    put_thesis(level, out)?;
    put_used(alloc, &[line], out)?;
    out.push(b'\n')?;
    put_deeper(level, out)?;
    out.extend_from_slice(b"proof (elim disjE)\n")
}

/// Appends what is before the case with this number from 0: a line between two cases.
pub(crate) fn put_between(level: u32, case: usize, out: &mut Bytes) -> Result<(), Memory>
    ensures { OnOk result (out.new ≡ out.old ++ between level case) }
{
    if case == 0 {
        return Ok(());
    }
    put_deeper(level, out)?;
    out.extend_from_slice(b"next\n")
}

/// Appends what is behind the cases of a split.
pub(crate) fn put_close(level: u32, out: &mut Bytes) -> Result<(), Memory>
    ensures { OnOk result (out.new ≡ out.old ++ bodies.qed_text (level + 1)) }
{
    put_deeper(level, out)?;
    out.extend_from_slice(b"qed\n")
}

/// Appends the last line.
pub(crate) fn put_qed(level: u32, out: &mut Bytes) -> Result<(), Memory>
    ensures { OnOk result (out.new ≡ out.old ++ bodies.qed_text level) }
{
    put_indent(level, out)?;
    out.extend_from_slice(b"qed\n")
}

/// Appends the first line of a case, with its facts.
pub(crate) fn put_case_line(
    alloc: Global,
    level: u32,
    number: u32,
    facts: &[NamedAtom],
    out: &mut Bytes,
) -> Result<(), Memory>
    ensures { OnOk result (out.new ≡ out.old ++ bodies.case_line level number facts.now) }
{
    let texts = atom_texts(alloc, facts)?;
    put_deeper(level, out)?;
    out.extend_from_slice(b"assume ")?;
    put_line_label(alloc, number, out)?;
    out.extend_from_slice(b": \"")?;
    put_facts(texts.as_slice(), out)?;
    out.extend_from_slice(b"\"\n")
}
