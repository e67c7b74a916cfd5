ghost use Rattle.std.specs.Prelude.{◌≡◌, [], ◌∷◌, length};
ghost use Rattle.logic_core.specs.declared.formula.Term.TheVariants.{Variable, Constant};
ghost use Rattle.tptp_grammar.specs.Reading.{term_from, equation_from, atom_from};
ghost use Rattle.tptp_lexer.specs.Reading.{Gives, with_front, more_from, listed_from};

use logic_core::{Boxed, Formula, List, Name, Term};
use std::alloc::Global;
use tptp_lexer::{Cursor, Kind, NotRead, Reads};

/// What reads a term.
struct Terms;

impl Reads for Terms {
    type Value = Term;

    ghost use Rattle.tptp_grammar.specs.Reading.{term_from};

    ghost from = { λ terms. term_from };

    fn read<'t, 'a>(
        &self,
        alloc: Global,
        cursor: &Cursor<'t, 'a>,
    ) -> Result<(Term, Cursor<'t, 'a>), NotRead> {
        term(alloc, cursor)
    }
}

/// A term.
#[tactic(auto, unfolding(crate::specs::Reading::term_from))]
fn term<'t, 'a>(alloc: Global, cursor: &Cursor<'t, 'a>) -> Result<(Term, Cursor<'t, 'a>), NotRead>
    ensures { Gives (λ read. read) result (term_from cursor.now) }
{
    let Some((token, rest)) = cursor.next() else {
        return Err(NotRead::NoText);
    };
    match token.kind() {
        Kind::Upper => Ok((Term::Variable(token.name(alloc)?), rest)),
        Kind::Lower | Kind::Quoted => Ok((Term::Constant(token.name(alloc)?), rest)),
        _ => Err(NotRead::NoText),
    }
}

/// An equation, or an inequality, behind its left side.
#[tactic(auto, unfolding(crate::specs::Reading::equation_from))]
pub(crate) fn equation<'t, 'a>(
    alloc: Global,
    left: Term,
    cursor: &Cursor<'t, 'a>,
) -> Result<(Formula, Cursor<'t, 'a>), NotRead>
    ensures { Gives (λ read. read) result (equation_from left cursor.now) }
{
    let Some((token, rest)) = cursor.next() else {
        return Err(NotRead::NoText);
    };
    match token.kind() {
        Kind::Equal => {
            let (right, rest) = term(alloc, &rest)?;
            Ok((Formula::Equal(left, right), rest))
        }
        Kind::NotEqual => {
            let (right, rest) = term(alloc, &rest)?;
            let equal = Formula::Equal(left, right);
            Ok((Formula::Not(Boxed::new(alloc, equal)?), rest))
        }
        _ => Err(NotRead::NoText),
    }
}

/// An atom behind its first word.
#[tactic(auto, unfolding(crate::specs::Reading::atom_from))]
pub(crate) fn atom<'t, 'a>(
    alloc: Global,
    name: Name,
    cursor: Cursor<'t, 'a>,
) -> Result<(Formula, Cursor<'t, 'a>), NotRead>
    ensures { Gives (λ read. read) result (atom_from name cursor.entry) }
{
    let Some((token, rest)) = cursor.next() else {
        return Ok((Formula::Pred(name, List::new(alloc)), cursor));
    };
    match token.kind() {
        Kind::OpenParenthesis => {
            let (terms, rest) = rest.listed(alloc, &Terms, Kind::CloseParenthesis)?;
            Ok((Formula::Pred(name, terms), rest))
        }
        Kind::Equal | Kind::NotEqual => equation(alloc, Term::Constant(name), &cursor),
        _ => Ok((Formula::Pred(name, List::new(alloc)), cursor)),
    }
}
