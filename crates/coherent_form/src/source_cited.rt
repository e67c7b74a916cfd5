ghost use Rattle.std.specs.Prelude.{◌≡◌, ◌<◌, ◌^◌, length};
ghost use Rattle.signature.specs.Numbers.{AreDistinctSymbols};
ghost use Rattle.coherent_form.specs.Citing.{source_cited as cited_source, symbol_cited as cited_symbol};

use crate::citation::{Citation, Symbol};
use crate::source::{BuiltIn, Source};
use indexmap::IndexSet;
use signature::{Tables, names};
use text_core::Name;

fn symbol_cited(tables: &Tables, symbol: &Symbol) -> Option<u32>
    ensures { result ≡ cited_symbol tables.now symbol.now }
{
    match symbol {
        Symbol::Equality => Some(0),
        Symbol::Named(name, arity) => tables.find_symbol(name, *arity),
    }
}

/// Where the form comes from that is cited so. It takes no memory.
pub(crate) fn source_cited(
    names: &IndexSet<Name>,
    tables: &Tables,
    cite: &Citation,
) -> Option<Source>
    requires { length names.now.keys < 2 ^ 32 }
    ensures value { result ≡ cited_source names.now.keys tables.now cite.now }
{
    let built_in = match cite {
        Citation::Axiom(name, rank) => {
            let name = names::found(names, name)?;
            return Some(Source::Formula { name, rank: *rank });
        }
        Citation::Refl => BuiltIn::Refl,
        Citation::Sym => BuiltIn::Sym,
        Citation::Trans => BuiltIn::Trans,
        Citation::Sub {
            positive,
            symbol,
            place,
        } => BuiltIn::Sub {
            positive: *positive,
            symbol: symbol_cited(tables, symbol)?,
            place: *place,
        },
        Citation::No(symbol) => BuiltIn::No {
            symbol: symbol_cited(tables, symbol)?,
        },
        Citation::Or(symbol) => BuiltIn::Or {
            symbol: symbol_cited(tables, symbol)?,
        },
    };
    Some(Source::BuiltIn(built_in))
}
