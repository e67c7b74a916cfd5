//! How citations and steps are written.

ghost use Rattle.std.specs.Prelude.{◌≡◌, ◌++◌, ◌≤◌, map, OnOk};
ghost use Rattle.std.specs.List.{AllByRecursion};
ghost use Rattle.proof_text.specs.Canonical as canonical;
ghost use Rattle.proof_text.specs.Lines as lines;
ghost use Rattle.proof_text.specs.Marks.{most_number};
ghost use Rattle.proof_text.specs.Named.{ArgsAreNamed, BindIsNamed, CiteIsNamed, LineIsNamed, ShownIsNamed, StepIsNamed, SymbolIsNamed};

use crate::body::{ArgsText, Binding, MpText, Shown};
use crate::line_text::{put_line, put_names, put_number};
use crate::wording::Wording;
use coherent_form::{Citation, Symbol};
use std::alloc::Global;
use text_core::{Bytes, Memory};
use tptp_lexer::{put_name, put_word};

// Appends a rank behind a name.
fn put_rank(alloc: Global, rank: u32, out: &mut Bytes) -> Result<(), Memory>
    ensures text { OnOk result (out.new ≡ out.old ++ canonical.rank_text rank) }
    ensures named { OnOk result (rank ≤ most_number) }
{
    if rank == 1 {
        return Ok(());
    }
    out.push(b':')?;
    put_number(alloc, rank, out)
}

// Appends a symbol with its arity.
fn put_symbol(alloc: Global, symbol: &Symbol, out: &mut Bytes) -> Result<(), Memory>
    ensures text { OnOk result (out.new ≡ out.old ++ canonical.symbol_text symbol.now) }
    ensures named { OnOk result (SymbolIsNamed symbol.now) }
{
    match symbol {
        Symbol::Equality => out.extend_from_slice(b"=,2"),
        Symbol::Named(name, arity) => {
            put_word(name, out)?;
            out.push(b',')?;
            put_number(alloc, *arity, out)
        }
    }
}

/// Appends a citation. `Memory` is want of memory.
pub fn put_cite(alloc: Global, cite: &Citation, out: &mut Bytes) -> Result<(), Memory>
    ensures text { OnOk result (out.new ≡ out.old ++ canonical.cite_text cite.now) }
    ensures named { OnOk result (CiteIsNamed cite.now) }
{
    match cite {
        Citation::Axiom(name, rank) => {
            put_name(name, out)?;
            put_rank(alloc, *rank, out)
        }
        Citation::Refl => out.extend_from_slice(b"$refl"),
        Citation::Sym => out.extend_from_slice(b"$sym"),
        Citation::Trans => out.extend_from_slice(b"$trans"),
        Citation::Sub {
            positive,
            symbol,
            place,
        } => {
            out.extend_from_slice(b"$sub(")?;
            out.extend_from_slice(if *positive { b"" } else { b"~" })?;
            put_symbol(alloc, symbol, out)?;
            out.push(b',')?;
            put_number(alloc, *place, out)?;
            out.push(b')')
        }
        Citation::No(symbol) => {
            out.extend_from_slice(b"$no(")?;
            put_symbol(alloc, symbol, out)?;
            out.push(b')')
        }
        Citation::Or(symbol) => {
            out.extend_from_slice(b"$or(")?;
            put_symbol(alloc, symbol, out)?;
            out.push(b')')
        }
    }
}

// Appends a value of a variable.
fn put_bind(alloc: Global, bind: &Binding, out: &mut Bytes) -> Result<(), Memory>
    ensures text { OnOk result (out.new ≡ out.old ++ canonical.bind_text bind.now) }
    ensures named { OnOk result (BindIsNamed bind.now) }
{
    out.extend_from_slice(bind.label.name.bytes())?;
    put_rank(alloc, bind.label.rank, out)?;
    out.extend_from_slice(b" = ")?;
    put_word(&bind.value, out)
}

// Appends values of variables with commas between them.
#[tactic(auto, using(tptp_lexer::proofs::Laws::joined_led))]
fn put_binds(alloc: Global, binds: &[Binding], out: &mut Bytes) -> Result<(), Memory>
    ensures text { OnOk result (out.new ≡ out.old ++ lines.listed_text
        (map canonical.bind_text binds.now)) }
    ensures named { OnOk result (AllByRecursion BindIsNamed binds.now) }
{
    let mut before: &[u8] = b"";
    for bind in binds {
        out.extend_from_slice(before)?;
        put_bind(alloc, bind, out)?;
        before = b",";
    }
    Ok(())
}

// Appends an instance.
fn put_args(alloc: Global, args: &ArgsText, out: &mut Bytes) -> Result<(), Memory>
    ensures text { OnOk result (out.new ≡ out.old ++ canonical.args_text args.now) }
    ensures named { OnOk result (ArgsAreNamed args.now) }
{
    match args {
        ArgsText::Listed(names) => put_names(names, out),
        ArgsText::Named(binds) => {
            out.extend_from_slice(b"with [")?;
            put_binds(alloc, binds.as_slice(), out)?;
            out.push(b']')
        }
    }
}

// Appends the line of a step, where it is shown.
fn put_given(shown: &Option<Shown>, out: &mut Bytes) -> Result<(), Memory>
    ensures text { OnOk result (out.new ≡ out.old ++ canonical.given_text shown.now) }
    ensures named { OnOk result (ShownIsNamed LineIsNamed shown.now) }
{
    match shown {
        None => Ok(()),
        Some(line) => {
            out.extend_from_slice(b" gives ")?;
            put_line(Wording::Signs, line, out)
        }
    }
}

/// Appends two blanks for each level. `Memory` is want of memory.
pub fn put_indent(level: u32, out: &mut Bytes) -> Result<(), Memory>
    ensures { OnOk result (out.new ≡ out.old ++ canonical.indent level) }
{
    let mut left = level;
    while left > 0 {
        out.extend_from_slice(b"  ")?;
        left -= 1;
    }
    Ok(())
}

// Appends a step, so many cases deep.
fn put_step(alloc: Global, level: u32, step: &MpText, out: &mut Bytes) -> Result<(), Memory>
    ensures text { OnOk result (out.new ≡ out.old ++ canonical.step_text level step.now) }
    ensures named { OnOk result (StepIsNamed step.now) }
{
    put_indent(level, out)?;
    out.extend_from_slice(b"mp ")?;
    put_cite(alloc, &step.cite, out)?;
    out.push(b' ')?;
    put_args(alloc, &step.args, out)?;
    out.extend_from_slice(b" new ")?;
    put_names(&step.fresh, out)?;
    put_given(&step.shown, out)?;
    out.extend_from_slice(b".\n")
}

/// Appends steps, so many cases deep.
pub(crate) fn put_steps(
    alloc: Global,
    level: u32,
    steps: &[MpText],
    out: &mut Bytes,
) -> Result<(), Memory>
    ensures text { OnOk result (out.new ≡ out.old ++ canonical.steps_text level steps.now) }
    ensures named { OnOk result (AllByRecursion StepIsNamed steps.now) }
{
    for step in steps {
        put_step(alloc, level, step, out)?;
    }
    Ok(())
}
