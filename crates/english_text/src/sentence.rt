//! The sentences of a text.

ghost use Rattle.std.specs.Prelude.{◌≡◌, ◌++◌, OnOk};
ghost use Rattle.english_text.specs.Sentences as sentences;

use coherent_form::Citation;
use proof_text::{NamedAtom, Shown, Wording, put_cite, put_facts, put_indent, put_line, put_words};
use std::alloc::Global;
use text_core::{Bytes, List, Memory, Name};

/// Appends names behind some words; nothing where there are none.
pub(crate) fn put_behind(words: &[u8], names: &[Name], out: &mut Bytes) -> Result<(), Memory>
    ensures { OnOk result (out.new ≡ out.old ++ sentences.names_behind words.now names.now) }
{
    if names.is_empty() {
        return Ok(());
    }
    out.extend_from_slice(words)?;
    put_words(names, b", ", out)
}

/// Appends the sentence of the parameters, where there are some.
pub(crate) fn put_given(names: &[Name], out: &mut Bytes) -> Result<(), Memory>
    ensures { OnOk result (out.new ≡ out.old ++ sentences.given_text names.now) }
{
    match names {
        [] => Ok(()),
        names => {
            put_behind(b"Let ", names, out)?;
            out.extend_from_slice(b" be given")?;
            out.extend_from_slice(b".\n")
        }
    }
}

/// Appends the sentence of the goal's premises, where there are some.
pub(crate) fn put_supposed(facts: &List<NamedAtom>, out: &mut Bytes) -> Result<(), Memory>
    ensures { OnOk result (out.new ≡ out.old ++ sentences.supposed_text facts.now) }
{
    match facts.as_slice() {
        [] => Ok(()),
        _ => {
            out.extend_from_slice(b"Suppose ")?;
            put_facts(Wording::English, facts, out)?;
            out.extend_from_slice(b".\n")
        }
    }
}

/// Appends the sentence of a step: what is cited, the elements at which it is applied, its line and
/// the new elements.
pub(crate) fn put_mp(
    alloc: Global,
    level: u32,
    cite: &Citation,
    args: &[Name],
    shown: &Shown,
    fresh: &[Name],
    out: &mut Bytes,
) -> Result<(), Memory>
    ensures { OnOk result (out.new ≡ out.old ++
        sentences.step_text level cite.now args.now shown.now fresh.now) }
{
    put_indent(level, out)?;
    out.extend_from_slice(b"By ")?;
    put_cite(alloc, cite, out)?;
    put_behind(b" for ", args, out)?;
    out.extend_from_slice(b", ")?;
    put_line(Wording::English, shown, out)?;
    put_behind(b" for some ", fresh, out)?;
    out.extend_from_slice(b".\n")
}

/// Appends the sentence of a split of a line.
pub(crate) fn put_split(level: u32, line: &Shown, out: &mut Bytes) -> Result<(), Memory>
    ensures { OnOk result (out.new ≡ out.old ++ sentences.split_text level line.now) }
{
    put_indent(level, out)?;
    out.extend_from_slice(b"Split on ")?;
    put_line(Wording::English, line, out)?;
    out.extend_from_slice(b".\n")
}

/// Appends the sentence of a case with these facts.
pub(crate) fn put_case(level: u32, facts: &List<NamedAtom>, out: &mut Bytes) -> Result<(), Memory>
    ensures { OnOk result (out.new ≡ out.old ++ sentences.case_text level facts.now) }
{
    put_indent(level, out)?;
    out.extend_from_slice(b"Case ")?;
    put_facts(Wording::English, facts, out)?;
    out.extend_from_slice(b".\n")
}

/// Appends the sentence of an end by a disjunct of the goal with these facts.
pub(crate) fn put_answer(level: u32, facts: &List<NamedAtom>, out: &mut Bytes) -> Result<(), Memory>
    ensures { OnOk result (out.new ≡ out.old ++ sentences.answer_text level facts.now) }
{
    put_indent(level, out)?;
    out.extend_from_slice(b"So ")?;
    put_facts(Wording::English, facts, out)?;
    out.extend_from_slice(b", which was to be shown")?;
    out.extend_from_slice(b".\n")
}

/// Appends the sentence of an end by falsehood.
pub(crate) fn put_contradiction(level: u32, out: &mut Bytes) -> Result<(), Memory>
    ensures { OnOk result (out.new ≡ out.old ++ sentences.contradiction_text level) }
{
    put_indent(level, out)?;
    out.extend_from_slice(b"This is a contradiction")?;
    out.extend_from_slice(b".\n")
}
