ghost use Rattle.std.specs.Prelude.{◌≡◌, [], ◌∷◌, length, codes, IfOk, if◌then◌else◌};
ghost use Rattle.std.specs.Str.{bytes_eq};
ghost use Rattle.logic_core.specs.declared.formula.Formula.{True, False, Binary};
ghost use Rattle.tptp_grammar.specs.Reading.{op_of, below_at, inside_at, unit_at, formula_at};
ghost use Rattle.tptp_lexer.specs.Reading.{Gives, with_front, more_from};

use crate::atom_reader::{atom, equation};
use logic_core::{Boxed, Formula, List, Memory, Op, Term};
use std::alloc::Global;
use tptp_lexer::{Cursor, Kind, Naming, NotRead};

/// The truth value that a word behind a dollar names.
fn truth(text: &[u8]) -> Formula
    ensures { result ≡ (if bytes_eq text.now (codes "$true") then True else False) }
{
    if text == b"$true".as_slice() {
        Formula::True
    } else {
        Formula::False
    }
}

/// The connective that a token of this kind is, other than `&` and `|`.
fn connective(kind: Kind) -> Option<Op>
    ensures { result ≡ op_of kind }
{
    match kind {
        Kind::Implies => Some(Op::Implies),
        Kind::Implied => Some(Op::Implied),
        Kind::Iff => Some(Op::Iff),
        Kind::Xor => Some(Op::Xor),
        Kind::Nor => Some(Op::Nor),
        Kind::Nand => Some(Op::Nand),
        _ => None,
    }
}

/// A formula of two sides. `Memory` is want of memory.
fn binary(alloc: Global, op: Op, left: Formula, right: Formula) -> Result<Formula, Memory>
    ensures { IfOk result (λ formula. formula ≡ Binary op left right) }
{
    let left = Boxed::new(alloc, left)?;
    let right = Boxed::new(alloc, right)?;
    Ok(Formula::Binary(op, left, right))
}

/// A unit formula, where so many levels may be opened.
#[cycle(formulas)]
#[tactic(auto, unfolding(crate::specs::Reading::unit_at, crate::specs::Reading::unit_with))]
fn unit<'t, 'a>(
    alloc: Global,
    cursor: &Cursor<'t, 'a>,
    depth: u32,
) -> Result<(Formula, Cursor<'t, 'a>), NotRead>
    ensures { Gives (λ read. read) result (unit_at depth cursor.now) }
{
    let Some((token, rest)) = cursor.next() else {
        return Err(NotRead::NoText);
    };
    match token.kind() {
        Kind::OpenParenthesis => {
            let (formula, rest) = inside(alloc, &rest, depth)?;
            let rest = rest.skip(Kind::CloseParenthesis)?;
            Ok((formula, rest))
        }
        Kind::Tilde => {
            let (formula, rest) = below(alloc, &rest, depth)?;
            Ok((Formula::Not(Boxed::new(alloc, formula)?), rest))
        }
        Kind::Exclamation => {
            let (names, rest) = rest.names(alloc, Naming::OfVariable)?;
            let rest = rest.skip(Kind::Colon)?;
            let (body, rest) = below(alloc, &rest, depth)?;
            Ok((Formula::ForAll(names, Boxed::new(alloc, body)?), rest))
        }
        Kind::Question => {
            let (names, rest) = rest.names(alloc, Naming::OfVariable)?;
            let rest = rest.skip(Kind::Colon)?;
            let (body, rest) = below(alloc, &rest, depth)?;
            Ok((Formula::Exists(names, Boxed::new(alloc, body)?), rest))
        }
        Kind::Dollar => Ok((truth(token.text()), rest)),
        Kind::Lower | Kind::Quoted => atom(alloc, token.name(alloc)?, rest),
        Kind::Upper => equation(alloc, Term::Variable(token.name(alloc)?), &rest),
        _ => Err(NotRead::NoText),
    }
}

/// A unit formula below a `~` or a quantifier, where so many levels may be opened.
#[cycle(formulas)]
#[tactic(auto, using(crate::proofs::ReaderSteps::levels_open))]
fn below<'t, 'a>(
    alloc: Global,
    cursor: &Cursor<'t, 'a>,
    depth: u32,
) -> Result<(Formula, Cursor<'t, 'a>), NotRead>
    ensures { Gives (λ read. read) result (below_at depth cursor.now) }
{
    if depth == 0 {
        return Err(NotRead::NoText);
    }
    unit(alloc, cursor, depth - 1)
}

/// A formula in brackets, where so many levels may be opened.
#[cycle(formulas)]
#[tactic(auto, using(crate::proofs::ReaderSteps::levels_open))]
fn inside<'t, 'a>(
    alloc: Global,
    cursor: &Cursor<'t, 'a>,
    depth: u32,
) -> Result<(Formula, Cursor<'t, 'a>), NotRead>
    ensures { Gives (λ read. read) result (inside_at depth cursor.now) }
{
    if depth == 0 {
        return Err(NotRead::NoText);
    }
    formula(alloc, cursor, depth - 1)
}

/// A unit formula in front of further ones, each behind a token of this kind.
#[cycle(formulas)]
#[tactic(auto, using(tptp_lexer::proofs::Laws::further))]
fn more_units<'t, 'a>(
    alloc: Global,
    first: Formula,
    cursor: Cursor<'t, 'a>,
    sign: Kind,
    depth: u32,
) -> Result<(List<Formula>, Cursor<'t, 'a>), NotRead>
    ensures { Gives (λ read. read) result (with_front (first ∷ []) (more_from (unit_at depth) sign
        (length cursor.entry) cursor.entry)) }
{
    let mut units = List::new(alloc);
    units.push(first)?;
    let count = cursor.len();
    let mut rest = cursor;
    for _ in 0..count {
        let Some(after) = rest.behind(sign) else {
            return Ok((units, rest));
        };
        let (next, tail) = unit(alloc, &after, depth)?;
        units.push(next)?;
        rest = tail;
    }
    Ok((units, rest))
}

/// A formula, where so many levels may be opened.
#[cycle(formulas)]
#[tactic(auto, unfolding(crate::specs::Reading::formula_at, crate::specs::Reading::rest_from), using(tptp_lexer::proofs::Laws::reread_front))]
pub(crate) fn formula<'t, 'a>(
    alloc: Global,
    cursor: &Cursor<'t, 'a>,
    depth: u32,
) -> Result<(Formula, Cursor<'t, 'a>), NotRead>
    ensures { Gives (λ read. read) result (formula_at depth cursor.now) }
{
    let (first, rest) = unit(alloc, cursor, depth)?;
    let Some((token, after)) = rest.next() else {
        return Ok((first, rest));
    };
    match token.kind() {
        Kind::Ampersand => {
            let (units, rest) = more_units(alloc, first, rest, Kind::Ampersand, depth)?;
            Ok((Formula::And(units), rest))
        }
        Kind::Bar => {
            let (units, rest) = more_units(alloc, first, rest, Kind::Bar, depth)?;
            Ok((Formula::Or(units), rest))
        }
        kind => {
            let Some(op) = connective(kind) else {
                return Ok((first, rest));
            };
            let (right, rest) = unit(alloc, &after, depth)?;
            Ok((binary(alloc, op, first, right)?, rest))
        }
    }
}
