ghost use Rattle.std.specs.Prelude.{◌≡◌, ◌++◌, map, codes, OnOk};
ghost use Rattle.std.specs.List.{AllByRecursion};
ghost use Rattle.tptp_printer.specs.Canonical.{joined_texts, op_text, variables_text, in_unit, formula_text};
ghost use Rattle.tptp_printer.specs.Named.{IsNamed};

use crate::term::{put_arguments, put_equation};
use logic_core::{Bytes, Formula, Memory, Name, Op};
use tptp_lexer::put_word;

/// The sign of a connective.
fn op_sign(op: Op) -> &'static [u8]
    ensures { result.now ≡ op_text op }
{
    match op {
        Op::Implies => b"=>",
        Op::Implied => b"<=",
        Op::Iff => b"<=>",
        Op::Xor => b"<~>",
        Op::Nor => b"~|",
        Op::Nand => b"~&",
    }
}

/// Appends a connective between blanks.
fn put_op(op: Op, out: &mut Bytes) -> Result<(), Memory>
    ensures { OnOk result (out.new ≡ out.old ++ (codes " " ++ op_text op ++ codes " ")) }
{
    out.push(b' ')?;
    out.extend_from_slice(op_sign(op))?;
    out.push(b' ')
}

/// Appends variables with a comma between each two.
#[tactic(auto, using(tptp_lexer::proofs::Laws::joined_led))]
fn put_names(names: &[Name], out: &mut Bytes) -> Result<(), Memory>
    ensures { OnOk result (out.new ≡ out.old ++ joined_texts (codes ",") names.now) }
{
    let mut before: &[u8] = b"";
    for name in names {
        out.extend_from_slice(before)?;
        out.extend_from_slice(name.bytes())?;
        before = b",";
    }
    Ok(())
}

/// Appends the variables of a quantifier, and the colon behind them.
fn put_variables(names: &[Name], out: &mut Bytes) -> Result<(), Memory>
    ensures { OnOk result (out.new ≡ out.old ++ variables_text names.now) }
{
    out.push(b'[')?;
    put_names(names, out)?;
    out.extend_from_slice(b"] : ")
}

/// Appends a formula inside another one.
#[cycle(formula)]
fn put_unit(formula: &Formula, out: &mut Bytes) -> Result<(), Memory>
    ensures text { OnOk result (out.new ≡ out.old
        ++ in_unit formula.now (formula_text formula.now)) }
    ensures named { OnOk result (IsNamed formula.now) }
{
    match formula {
        Formula::And(_) | Formula::Or(_) | Formula::Binary(_, _, _) => {
            out.push(b'(')?;
            put_formula(formula, out)?;
            out.push(b')')
        }
        _ => put_formula(formula, out),
    }
}

/// Appends the members of a chain with a sign between each two.
#[cycle(formula)]
#[tactic(auto, using(tptp_lexer::proofs::Laws::joined_led))]
fn put_chain(members: &[Formula], sign: &[u8], out: &mut Bytes) -> Result<(), Memory>
    ensures text { OnOk result (out.new ≡ out.old
        ++ joined_texts sign.now (map (λ g. in_unit g (formula_text g)) members.now)) }
    ensures named { OnOk result (AllByRecursion IsNamed members.now) }
{
    let mut before: &[u8] = b"";
    for member in members {
        out.extend_from_slice(before)?;
        put_unit(member, out)?;
        before = sign;
    }
    Ok(())
}

/// Appends a quantified formula.
#[cycle(formula)]
fn put_quantified(
    sign: &[u8],
    variables: &[Name],
    body: &Formula,
    out: &mut Bytes,
) -> Result<(), Memory>
    ensures text { OnOk result (out.new ≡ out.old
        ++ (sign.now ++ variables_text variables.now ++ in_unit body.now (formula_text body.now))) }
    ensures named { OnOk result (IsNamed body.now) }
{
    out.extend_from_slice(sign)?;
    put_variables(variables, out)?;
    put_unit(body, out)
}

/// Appends a formula.
#[cycle(formula)]
#[tactic(auto, using(crate::proofs::Opened::opened))]
pub(crate) fn put_formula(formula: &Formula, out: &mut Bytes) -> Result<(), Memory>
    ensures text { OnOk result (out.new ≡ out.old ++ formula_text formula.now) }
    ensures named { OnOk result (IsNamed formula.now) }
{
    match formula {
        Formula::True => out.extend_from_slice(b"$true"),
        Formula::False => out.extend_from_slice(b"$false"),
        Formula::Pred(name, terms) => {
            put_word(name, out)?;
            put_arguments(terms.as_slice(), out)
        }
        Formula::Equal(left, right) => put_equation(left, b" = ", right, out),
        Formula::Not(body) => match body.get() {
            Formula::Equal(left, right) => put_equation(left, b" != ", right, out),
            inner => {
                out.extend_from_slice(b"~ ")?;
                put_unit(inner, out)
            }
        },
        Formula::And(members) => put_chain(members.as_slice(), b" & ", out),
        Formula::Or(members) => put_chain(members.as_slice(), b" | ", out),
        Formula::Binary(op, left, right) => {
            put_unit(left.get(), out)?;
            put_op(*op, out)?;
            put_unit(right.get(), out)
        }
        Formula::ForAll(variables, body) => {
            put_quantified(b"! ", variables.as_slice(), body.get(), out)
        }
        Formula::Exists(variables, body) => {
            put_quantified(b"? ", variables.as_slice(), body.get(), out)
        }
    }
}
