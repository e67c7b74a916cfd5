ghost use Rattle.std.specs.Prelude.{◌≡◌, ◌≤◌, ◌⊎◌, List as Lst, IfSome, IfOk, IfErr, OnOk, MatchResult};
ghost use Rattle.text_core.specs.Names.{Text};
ghost use Rattle.logic_core.specs.declared.problem.Fof.{Fof as Formula};
ghost use Rattle.io_core.specs.Fetched.{Stays, Fails};
ghost use Rattle.include_flat.specs.declared.refusal.FlatWhy.{FlatWhy as Why};
ghost use Rattle.include_flat.specs.declared.refusal.FlatWhy.TheVariants as whys;
ghost use Rattle.logic_core.specs.Allowed.{FofIsAllowed};
ghost use Rattle.include_flat.specs.Flattened.{IsFlat};
ghost use Rattle.include_flat.specs.Refusals.{IsFlatRefused, IsFlatRefusal, IsOutside, TellsMemoryAlone};
ghost use Rattle.include_flat.specs.Walks.{with_selection, kept_entries};
ghost use Rattle.include_flat.specs.Progress.{selections_of, over_file, over_items, Passes, IsNotKept, PassesOver, RefusesOver};

use crate::reading::fetched_items;
use crate::refusal::{FlatRefusal, FlatWhy};
use crate::selected::Selected;
use crate::walked::Walked;
use io_core::Files;
use logic_core::{Bytes, Fof, Item, Items, List, Name, Problem};
use std::alloc::Global;
use text_core::MOST_FILES;

/// The formulas of a problem's file, with those of each included file where it is included, in
/// order. A formula is kept where its name is in every selection on the way from the first file.
/// Each inclusion fetches its file anew.
///
/// The refusal tells the file: one that could not be fetched, only where the files' count of faults
/// rose; one of more than `MOST_FILE_BYTES`, one with which all fetched bytes are more than
/// `MOST_PROBLEM_BYTES`, one more than `MOST_FILES` that are included one in another, one with a
/// formula that would be kept beyond `MOST_FORMULAS`; and one that has no tokens, or whose tokens
/// are no text of items. `Memory` is want of memory. Source: the TPTP syntax, `include`.
pub fn flatten<F: Files>(alloc: Global, files: &mut F, name: &[u8]) -> Result<Problem, FlatRefusal>
    ensures flat { IfSome (F.known files.old).held (λ held. IfOk result (IsFlat held name.now)) }
    ensures refused { IfSome (F.known files.old).held (λ held.
        IfErr result (λ refusal. IsFlatRefusal held name.now refusal.file refusal.why)) }
    // Where nothing decides the walk, the answer is its formulas, unless the outside fails or
    // memory runs out.
    ensures found { IfSome (F.known files.old).held (λ held.
        (problem : Lst Formula) → IsFlat held name.now problem
        → MatchResult result (λ read. read ≡ problem) (λ refusal. IsOutside refusal.why)) }
    // Where a refusal decides the walk, the answer is that one, unless the outside fails or memory
    // runs out.
    ensures told { IfSome (F.known files.old).held (λ held.
        (file : Text) (why : Why) → IsFlatRefused held name.now file why
        → MatchResult result (λ read. ⊥)
        (λ refusal. IsOutside refusal.why ⊎ ((refusal.file ≡ file) × (refusal.why ≡ why)))) }
    ensures memory { IfErr result (λ refusal. TellsMemoryAlone refusal.file refusal.why) }
    ensures failed { IfErr result (λ refusal.
        refusal.why ≡ whys.FileFault → Fails (F.known files.old) (F.known files.new) refusal.file) }
    ensures stays { (IfErr result (λ refusal. refusal.why ≡ whys.FileFault → ⊥))
        → Stays (F.known files.old) (F.known files.new) }
{
    let mut walked = Walked::new(alloc);
    let selected = Selected::all();
    match walk_file(alloc, files, &mut walked, name, &selected, MOST_FILES) {
        Ok(()) => Ok(walked.into_problem()),
        Err(refusal) => Err(refusal),
    }
}

/// Walks over a file; so many further levels of inclusion are allowed.
#[cycle(walk)]
#[tactic(auto, using(crate::proofs::Passing::files_walked))]
fn walk_file<F: Files>(
    alloc: Global,
    files: &mut F,
    walked: &mut Walked,
    name: &[u8],
    selected: &Selected,
    left: u32,
) -> Result<(), FlatRefusal>
    ensures passes { IfOk result (λ done.
        PassesOver (over_file left (selections_of selected.now) name.now)
        (F.known files.old) (F.known files.new) walked.old walked.new) }
    ensures refused { IfErr result (λ refusal.
        RefusesOver (over_file left (selections_of selected.now) name.now)
        (F.known files.old) (F.known files.new) walked.old refusal.file refusal.why) }
{
    let file = match Bytes::from_slice(alloc, name) {
        Ok(file) => file,
        Err(_) => return Err(FlatRefusal::of(alloc, Bytes::new(alloc), FlatWhy::Memory)),
    };
    if left == 0 {
        return Err(FlatRefusal::of(alloc, file, FlatWhy::IncludeDepth));
    }
    match fetched_items(alloc, files, walked, name) {
        Ok(items) => walk_items(alloc, files, walked, file, items, selected, left - 1),
        Err(why) => Err(FlatRefusal::of(alloc, file, why)),
    }
}

/// Walks over the items of a file.
#[cycle(walk)]
fn walk_items<F: Files>(
    alloc: Global,
    files: &mut F,
    walked: &mut Walked,
    file: Bytes,
    items: Items,
    selected: &Selected,
    left: u32,
) -> Result<(), FlatRefusal>
    ensures passes { IfOk result (λ done.
        PassesOver (over_items left (selections_of selected.now) file items)
        (F.known files.old) (F.known files.new) walked.old walked.new) }
    ensures refused { IfErr result (λ refusal.
        RefusesOver (over_items left (selections_of selected.now) file items)
        (F.known files.old) (F.known files.new) walked.old refusal.file refusal.why) }
{
    for item in items.into_list().into_vec() {
        match item {
            Item::Fof(fof) => {
                if let Err(why) = keep_selected(walked, selected, fof) {
                    return Err(FlatRefusal::of(alloc, file, why));
                }
            }
            Item::Include { file: name, only } => {
                walk_inclusion(alloc, files, walked, name, only, selected, left)?;
            }
        }
    }
    Ok(())
}

/// Walks over an included file.
#[cycle(walk)]
fn walk_inclusion<F: Files>(
    alloc: Global,
    files: &mut F,
    walked: &mut Walked,
    name: Name,
    only: Option<List<Name>>,
    selected: &Selected,
    left: u32,
) -> Result<(), FlatRefusal>
    ensures passes { IfOk result (λ done.
        PassesOver (over_file left (with_selection only (selections_of selected.now)) name)
        (F.known files.old) (F.known files.new) walked.old walked.new) }
    ensures refused { IfErr result (λ refusal.
        RefusesOver (over_file left (with_selection only (selections_of selected.now)) name)
        (F.known files.old) (F.known files.new) walked.old refusal.file refusal.why) }
{
    match only {
        None => walk_file(alloc, files, walked, name.bytes(), selected, left),
        Some(names) => match selected.within(alloc, names) {
            Ok(inner) => walk_file(alloc, files, walked, name.bytes(), &inner, left),
            Err(_) => Err(FlatRefusal::of(alloc, Bytes::new(alloc), FlatWhy::Memory)),
        },
    }
}

/// Keeps a formula whose name is in every selection.
fn keep_selected(walked: &mut Walked, selected: &Selected, fof: Fof) -> Result<(), FlatWhy>
    requires { FofIsAllowed fof }
    ensures passes { OnOk result ((file : Text) →
        Passes walked.old (kept_entries file (selections_of selected.now) fof) walked.new) }
    ensures refused { IfErr result (IsNotKept walked.old (selections_of selected.now) fof) }
{
    if selected.has(&fof.name) {
        walked.keep(fof)?;
    }
    Ok(())
}
