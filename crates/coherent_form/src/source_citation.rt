ghost use Rattle.std.specs.Prelude.{◌≡◌, ◌<◌, ◌+◌, length, IfOk};
ghost use Rattle.coherent_form.specs.BuiltIns as built_ins;
ghost use Rattle.coherent_form.specs.Kept.{BuiltInIsThere, SourceIsThere, citation_at};

use crate::citation::{Citation, Symbol};
use crate::source::{BuiltIn, Source};
use indexmap::IndexSet;
use signature::Tables;
use std::alloc::Global;
use text_core::{Memory, Name};

fn symbol_citation(alloc: Global, tables: &Tables, symbol: u32) -> Result<Symbol, Memory>
    requires { symbol < length tables.now.symbols + 1 }
    ensures { IfOk result (λ cite. cite ≡ built_ins.cited_symbol tables.now symbol) }
{
    if symbol == 0 {
        return Ok(Symbol::Equality);
    }
    let name = tables.symbol_name(symbol).try_copy(alloc)?;
    Ok(Symbol::Named(name, tables.arity(symbol)))
}

fn built_in_citation(alloc: Global, tables: &Tables, built_in: BuiltIn) -> Result<Citation, Memory>
    requires { BuiltInIsThere (length tables.now.symbols + 1) built_in }
    ensures { IfOk result (λ cite. cite ≡ built_ins.built_in_citation tables.now built_in) }
{
    Ok(match built_in {
        BuiltIn::Refl => Citation::Refl,
        BuiltIn::Sym => Citation::Sym,
        BuiltIn::Trans => Citation::Trans,
        BuiltIn::Sub {
            positive,
            symbol,
            place,
        } => Citation::Sub {
            positive,
            symbol: symbol_citation(alloc, tables, symbol)?,
            place,
        },
        BuiltIn::No { symbol } => Citation::No(symbol_citation(alloc, tables, symbol)?),
        BuiltIn::Or { symbol } => Citation::Or(symbol_citation(alloc, tables, symbol)?),
    })
}

/// How a form is cited that comes from there. `Memory` is want of memory.
pub(crate) fn source_citation(
    alloc: Global,
    names: &IndexSet<Name>,
    tables: &Tables,
    source: Source,
) -> Result<Citation, Memory>
    requires { SourceIsThere (length names.now.keys) (length tables.now.symbols + 1) source }
    ensures { IfOk result (λ cite. cite ≡ citation_at names.now.keys tables.now source) }
{
    match source {
        Source::Formula { name, rank } => {
            let name = names.as_slice()[name as usize].try_copy(alloc)?;
            Ok(Citation::Axiom(name, rank))
        }
        Source::BuiltIn(built_in) => built_in_citation(alloc, tables, built_in),
    }
}
