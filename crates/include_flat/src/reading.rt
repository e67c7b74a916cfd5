ghost use Rattle.std.specs.Prelude.{◌≤◌, length, IfOk, IfErr};
ghost use Rattle.text_core.specs.declared.limits.TheConstants.{MOST_FILE_BYTES};
ghost use Rattle.include_flat.specs.Opened.{AreBytesOf, IsTextRefusal};
ghost use Rattle.include_flat.specs.Progress.{Opens, Refused};

use crate::refusal::FlatWhy;
use crate::walked::Walked;
use io_core::{Files, fetch_whole};
use logic_core::Items;
use std::alloc::Global;
use tptp_grammar::read_items;
use tptp_lexer::tokens;

/// The items that the bytes of a file are a text of.
fn items_of(alloc: Global, bytes: &[u8]) -> Result<Items, FlatWhy>
    requires { length bytes.now ≤ MOST_FILE_BYTES }
    ensures text { IfOk result (AreBytesOf bytes.now) }
    ensures refused { IfErr result (IsTextRefusal bytes.now) }
{
    let tokens = tokens(alloc, bytes)?;
    Ok(read_items(alloc, &tokens)?)
}

/// The items of a file, whose bytes are counted.
#[tactic(auto, using(crate::proofs::Opening::openings))]
pub(crate) fn fetched_items<F: Files>(
    alloc: Global,
    files: &mut F,
    walked: &mut Walked,
    name: &[u8],
) -> Result<Items, FlatWhy>
    ensures opens { IfOk result (λ items.
        Opens (F.known files.old) (F.known files.new) name.now items walked.old walked.new) }
    ensures refused { IfErr result (λ why.
        Refused (F.known files.old) (F.known files.new) name.now walked.old why) }
{
    let bytes = fetch_whole(alloc, files, name)?;
    walked.count(bytes.len())?;
    items_of(alloc, bytes.as_slice())
}
