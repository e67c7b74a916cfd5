ghost use Rattle.std.specs.Prelude.{◌≡◌, [], ◌∷◌, List, map, IfOk};
ghost use Rattle.logic_core.specs.Allowed.{ItemIsAllowed};
ghost use Rattle.logic_core.specs.declared.problem.Item.TheVariants.{Fof as ItemFof};
ghost use Rattle.tptp_lexer.specs.Tokens.{Token, AreTokens};
ghost use Rattle.tptp_grammar.specs.Spells.{AreItemsOf};
ghost use Rattle.tptp_printer.specs.Canonical.{item_text, problem_text};

use crate::item::{put_fof, put_item};
use logic_core::{Bytes, Item, Memory, Problem};
use std::alloc::Global;

/// The canonical text of an item that may be in a problem's text, with a line feed at its end.
/// `Memory` is want of memory. Source: the TPTP syntax, FOF.
pub fn print_item(alloc: Global, item: &Item) -> Result<Bytes, Memory>
    requires { ItemIsAllowed item.now }
    ensures text { IfOk result (λ bytes. bytes ≡ item_text item.now) }
    ensures reads_back { IfOk result (λ bytes.
        (ts : List Token) × AreTokens bytes ts × AreItemsOf ts (item.now ∷ [])) }
{
    let mut bytes = Bytes::new(alloc);
    put_item(item, &mut bytes)?;
    Ok(bytes)
}

/// The canonical text of a problem: its formulas in order, each on a line. `Memory` is want of
/// memory. Source: the TPTP syntax, FOF.
pub fn print_problem(alloc: Global, problem: &Problem) -> Result<Bytes, Memory>
    ensures text { IfOk result (λ bytes. bytes ≡ problem_text problem.now) }
    // The text has tokens, which are a text of the same formulas.
    ensures reads_back { IfOk result (λ bytes.
        (ts : List Token) × AreTokens bytes ts × AreItemsOf ts (map ItemFof problem.now)) }
{
    let mut bytes = Bytes::new(alloc);
    for fof in problem.as_slice() {
        put_fof(fof, &mut bytes)?;
    }
    Ok(bytes)
}
