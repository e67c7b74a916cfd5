ghost use Rattle.std.specs.Prelude.{◌≡◌, ◌++◌, ◌≤◌, codes, OnOk, IfOk};
ghost use Rattle.std.specs.List.{flat_map, AllByRecursion};
ghost use Rattle.std.specs.Fmt.{decimal};
ghost use Rattle.proof_text.specs.declared.body.EndText.{As, Efq, Gap};
ghost use Rattle.proof_text.specs.Marks.{most_number};
ghost use Rattle.proof_text.specs.Canonical as canonical;
ghost use Rattle.proof_text.specs.Proper.{IsProper};
ghost use Rattle.proof_text.specs.Scripts.{IsScriptOf};
ghost use Rattle.proof_text.specs.Named.{AtomsAreNamed, NamesAreNamed, BodyIsNamed, CaseIsNamed, EndIsNamed, ScriptIsNamed, ShownIsNamed};

use crate::body::{BodyText, CaseText, EndText, NamedAtom};
use crate::line_text::{put_facts, put_names, put_number};
use crate::script::Script;
use crate::step_text::{put_indent, put_steps};
use crate::wording::Wording;
use std::alloc::Global;
use text_core::{Bytes, List, Memory, Name};

// Appends the facts of a case, where they are shown.
fn put_shown(facts: &Option<List<NamedAtom>>, out: &mut Bytes) -> Result<(), Memory>
    ensures text { OnOk result (out.new ≡ out.old ++ canonical.shown_text facts.now) }
    ensures named { OnOk result (ShownIsNamed AtomsAreNamed facts.now) }
{
    match facts {
        None => Ok(()),
        Some(facts) => {
            out.push(b' ')?;
            put_facts(Wording::Signs, facts, out)
        }
    }
}

// Appends a body, so many cases deep.
#[cycle(body)]
fn put_body(alloc: Global, level: u32, body: &BodyText, out: &mut Bytes) -> Result<(), Memory>
    ensures text { OnOk result (out.new ≡ out.old ++ canonical.body_text level body.now) }
    ensures named { OnOk result (BodyIsNamed body.now) }
{
    put_steps(alloc, level, body.steps.as_slice(), out)?;
    put_end(alloc, level, &body.end, out)
}

// Appends an end, so many cases deep.
#[cycle(body)]
#[tactic(auto, using(crate::proofs::Opened::Cs_text))]
fn put_end(alloc: Global, level: u32, end: &EndText, out: &mut Bytes) -> Result<(), Memory>
    ensures text { OnOk result (out.new ≡ out.old ++ canonical.end_text level end.now) }
    ensures named { OnOk result (EndIsNamed end.now) }
{
    match end {
        EndText::As { disjunct, args } => put_as(alloc, level, *disjunct, args, out),
        EndText::Efq => put_efq(level, out),
        EndText::Gap { within } => put_gap(alloc, level, *within, out),
        EndText::Cs { line, cases } => put_split(alloc, level, *line, cases.as_slice(), out),
    }
}

// Appends the end by a disjunct of the goal.
fn put_as(
    alloc: Global,
    level: u32,
    disjunct: u32,
    args: &List<Name>,
    out: &mut Bytes,
) -> Result<(), Memory>
    ensures text { OnOk result (out.new ≡ out.old ++
        canonical.end_text level (As disjunct args.now)) }
    ensures named { OnOk result ((disjunct ≤ most_number) × NamesAreNamed args.now) }
{
    put_indent(level, out)?;
    out.extend_from_slice(b"as ")?;
    put_number(alloc, disjunct, out)?;
    out.push(b' ')?;
    put_names(args, out)?;
    out.extend_from_slice(b".\n")
}

// Appends the end by falsehood.
fn put_efq(level: u32, out: &mut Bytes) -> Result<(), Memory>
    ensures { OnOk result (out.new ≡ out.old ++ canonical.end_text level Efq) }
{
    put_indent(level, out)?;
    out.extend_from_slice(b"efq")?;
    out.extend_from_slice(b".\n")
}

// Appends the end by a gap.
fn put_gap(alloc: Global, level: u32, within: u32, out: &mut Bytes) -> Result<(), Memory>
    ensures text { OnOk result (out.new ≡ out.old ++ canonical.end_text level (Gap within)) }
    ensures named { OnOk result (within ≤ most_number) }
{
    put_indent(level, out)?;
    out.extend_from_slice(b"gap ")?;
    put_number(alloc, within, out)?;
    out.extend_from_slice(b".\n")
}

// Appends a split of a line with these cases.
#[cycle(body)]
fn put_split(
    alloc: Global,
    level: u32,
    line: u32,
    cases: &[CaseText],
    out: &mut Bytes,
) -> Result<(), Memory>
    ensures text { OnOk result (out.new ≡ out.old ++ (canonical.indent level ++ codes "cs " ++
        decimal line ++ canonical.line_end ++ flat_map (canonical.case_text level) cases.now ++
        canonical.indent level ++ codes "end" ++ canonical.line_end)) }
    ensures named { OnOk result ((line ≤ most_number) × AllByRecursion CaseIsNamed cases.now) }
{
    put_indent(level, out)?;
    out.extend_from_slice(b"cs ")?;
    put_number(alloc, line, out)?;
    out.extend_from_slice(b".\n")?;
    put_cases(alloc, level, cases, out)?;
    put_indent(level, out)?;
    out.extend_from_slice(b"end")?;
    out.extend_from_slice(b".\n")
}

// Appends cases, with their bodies one level deeper.
#[cycle(body)]
fn put_cases(alloc: Global, level: u32, cases: &[CaseText], out: &mut Bytes) -> Result<(), Memory>
    ensures text { OnOk result (out.new ≡ out.old ++
        flat_map (canonical.case_text level) cases.now) }
    ensures named { OnOk result (AllByRecursion CaseIsNamed cases.now) }
{
    let inner = level.checked_add(1).ok_or(Memory)?;
    for case in cases {
        put_indent(level, out)?;
        out.extend_from_slice(b"case")?;
        put_shown(&case.shown, out)?;
        out.extend_from_slice(b".\n")?;
        put_body(alloc, inner, &case.body, out)?;
    }
    Ok(())
}

// Appends a script.
fn put_script(alloc: Global, script: &Script, out: &mut Bytes) -> Result<(), Memory>
    ensures text { OnOk result (out.new ≡ out.old ++ canonical.script_text script.now) }
    ensures named { OnOk result (ScriptIsNamed script.now) }
    ensures proper { OnOk result (IsProper script.now) }
{
    out.extend_from_slice(b"vernacular ")?;
    put_number(alloc, script.version(), out)?;
    out.extend_from_slice(b".\ntake ")?;
    put_names(script.take(), out)?;
    out.extend_from_slice(b".\n")?;
    put_body(alloc, 0, script.body(), out)?;
    Ok(())
}

/// The canonical text of a script. `Memory` is want of memory. Source: the vernacular for coherent
/// logic, with named instances and gaps in version 2.
#[tactic(auto, using(crate::proofs::BodyPieces::spells))]
pub fn write_script(alloc: Global, script: &Script) -> Result<Bytes, Memory>
    ensures text { IfOk result (λ bytes. bytes ≡ canonical.script_text script.now) }
    // The text spells the same script.
    ensures reads_back { IfOk result (λ bytes. IsScriptOf bytes script.now) }
{
    let mut out = Bytes::new(alloc);
    put_script(alloc, script, &mut out)?;
    Ok(out)
}
