ghost use Rattle.std.specs.Prelude.{◌≡◌, ◌++◌, ◌≤◌, length, IfOk, OnOk};
ghost use Rattle.std.specs.List.{flat_map, range_with_len};
ghost use Rattle.problem_suite.specs.MadeTexts.{numbered, implication_text, application_text, made_problem_text, made_proof_text};

use std::alloc::Global;
use text_core::{Bytes, MOST_FILE_BYTES, Memory};

/// The greatest number of implications of a problem that is made.
pub const MOST_IMPLICATIONS: u32 = 50_000;

// Appends a text, and a number in decimal behind it.
fn put_numbered(alloc: Global, text: &[u8], number: u32, out: &mut Bytes) -> Result<(), Memory>
    ensures { OnOk result (out.new ≡ out.old ++ numbered text.now number) }
{
    let digits = number.to_string(alloc)?;
    out.extend_from_slice(text)?;
    out.extend_from_slice(digits.as_bytes())
}

// Appends the implication with a number.
fn put_implication(alloc: Global, number: u32, out: &mut Bytes) -> Result<(), Memory>
    requires { 1 ≤ number }
    ensures { OnOk result (out.new ≡ out.old ++ implication_text number) }
{
    put_numbered(alloc, b"fof(a", number, out)?;
    put_numbered(alloc, b",axiom,! [X] : (p", number - 1, out)?;
    put_numbered(alloc, b"(X) => p", number, out)?;
    out.extend_from_slice(b"(X))).\n")
}

// Appends so many implications.
fn put_implications(alloc: Global, count: u32, out: &mut Bytes) -> Result<(), Memory>
    requires { count ≤ MOST_IMPLICATIONS }
    ensures { OnOk result (out.new ≡ out.old ++
        flat_map implication_text (range_with_len 1 count)) }
{
    for number in 1..count + 1 {
        put_implication(alloc, number, out)?;
    }
    Ok(())
}

// Appends the step that applies the axiom with a number.
fn put_application(alloc: Global, number: u32, out: &mut Bytes) -> Result<(), Memory>
    ensures { OnOk result (out.new ≡ out.old ++ application_text number) }
{
    put_numbered(alloc, b"mp a", number, out)?;
    put_numbered(alloc, b" [c] new [] gives p", number, out)?;
    out.extend_from_slice(b"(c).\n")
}

// Appends the steps that apply so many implications.
fn put_applications(alloc: Global, count: u32, out: &mut Bytes) -> Result<(), Memory>
    requires { count ≤ MOST_IMPLICATIONS }
    ensures { OnOk result (out.new ≡ out.old ++
        flat_map application_text (range_with_len 1 count)) }
{
    for number in 1..count + 1 {
        put_application(alloc, number, out)?;
    }
    Ok(())
}

/// The text of a problem with so many implications, one or more and at most `MOST_IMPLICATIONS`: an
/// axiom says that the first predicate holds of a constant, each of the others leads from one
/// predicate to the next, and the conjecture says that the last one holds of the constant. It is no
/// longer than a file may be. `Memory` is want of memory.
pub fn made_problem(alloc: Global, implications: u32) -> Result<Bytes, Memory>
    requires some { 1 ≤ implications }
    requires most { implications ≤ MOST_IMPLICATIONS }
    ensures text { IfOk result (λ text. text ≡ made_problem_text implications) }
    ensures fits { IfOk result (λ text. length text ≤ MOST_FILE_BYTES) }
{
    let mut text = Bytes::from_slice(alloc, b"fof(a0,axiom,p0(c)).\n")?;
    put_implications(alloc, implications, &mut text)?;
    put_numbered(alloc, b"fof(g,conjecture,p", implications, &mut text)?;
    text.extend_from_slice(b"(c)).\n")?;
    Ok(text)
}

/// The text of a proof of the problem that `made_problem` gives for the same number, in its
/// canonical form: it applies each axiom once, in order. It is no longer than a file may be.
/// `Memory` is want of memory.
pub fn made_proof(alloc: Global, implications: u32) -> Result<Bytes, Memory>
    requires some { 1 ≤ implications }
    requires most { implications ≤ MOST_IMPLICATIONS }
    ensures text { IfOk result (λ text. text ≡ made_proof_text implications) }
    ensures fits { IfOk result (λ text. length text ≤ MOST_FILE_BYTES) }
{
    let head = b"vernacular 1.\ntake [].\nmp a0 [] new [] gives p0(c).\n";
    let mut text = Bytes::from_slice(alloc, head)?;
    put_applications(alloc, implications, &mut text)?;
    text.extend_from_slice(b"as 1 [].\n")?;
    Ok(text)
}
