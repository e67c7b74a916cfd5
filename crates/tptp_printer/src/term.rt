ghost use Rattle.std.specs.Prelude.{◌≡◌, ◌++◌, map, codes, OnOk};
ghost use Rattle.std.specs.List.{AllByRecursion};
ghost use Rattle.tptp_printer.specs.Canonical.{term_text, joined_texts, arguments_text};
ghost use Rattle.tptp_printer.specs.Named.{TermIsNamed};

use logic_core::{Bytes, Memory, Term};
use tptp_lexer::put_word;

/// Appends a term.
fn put_term(term: &Term, out: &mut Bytes) -> Result<(), Memory>
    ensures text { OnOk result (out.new ≡ out.old ++ term_text term.now) }
    ensures named { OnOk result (TermIsNamed term.now) }
{
    match term {
        Term::Variable(name) => out.extend_from_slice(name.bytes()),
        Term::Constant(name) => put_word(name, out),
    }
}

/// Appends terms with a comma between each two.
#[tactic(auto, using(tptp_lexer::proofs::Laws::joined_led))]
fn put_terms(terms: &[Term], out: &mut Bytes) -> Result<(), Memory>
    ensures text { OnOk result (out.new ≡ out.old
        ++ joined_texts (codes ",") (map term_text terms.now)) }
    ensures named { OnOk result (AllByRecursion TermIsNamed terms.now) }
{
    let mut before: &[u8] = b"";
    for term in terms {
        out.extend_from_slice(before)?;
        put_term(term, out)?;
        before = b",";
    }
    Ok(())
}

/// Appends the arguments of an atom.
pub(crate) fn put_arguments(terms: &[Term], out: &mut Bytes) -> Result<(), Memory>
    ensures text { OnOk result (out.new ≡ out.old ++ arguments_text terms.now) }
    ensures named { OnOk result (AllByRecursion TermIsNamed terms.now) }
{
    match terms {
        [] => Ok(()),
        _ => {
            out.push(b'(')?;
            put_terms(terms, out)?;
            out.push(b')')
        }
    }
}

/// Appends two terms with a sign between them.
pub(crate) fn put_equation(
    left: &Term,
    sign: &[u8],
    right: &Term,
    out: &mut Bytes,
) -> Result<(), Memory>
    ensures text { OnOk result (out.new ≡ out.old
        ++ (term_text left.now ++ sign.now ++ term_text right.now)) }
    ensures named { OnOk result (TermIsNamed left.now × TermIsNamed right.now) }
{
    put_term(left, out)?;
    out.extend_from_slice(sign)?;
    put_term(right, out)
}
