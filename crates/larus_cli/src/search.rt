ghost use Rattle.std.specs.Prelude.{◌≡◌, ◌≤◌, IfOk, IfSome, IfNone, List as Lst};
ghost use Rattle.text_core.specs.Names.{Text};
ghost use Rattle.vernacular_tree.specs.Sizes.{size};
ghost use Rattle.io_core.specs.Known.{Known};
ghost use Rattle.larus_cli.specs.Words.{to_prove, Asks};
ghost use Rattle.larus_cli.specs.Smallest.{IsSmallest, HasNoProof};
ghost use Rattle.larus_cli.specs.Read.{ReadsTask};
ghost use Rattle.larus_cli.specs.Reports.{Decides};

use crate::command::MOST_STEPS;
use crate::judge::text_for;
use crate::reading::Halt;
use crate::report::Report;
use coherent_form::Task;
use logic_core::Memory;
use proof_text::Edition;
use std::alloc::Global;
use trail_search::{Searcher, start_context};
use vernacular_tree::{Proof, preorder_is_faithful};

/// The greatest number of facts of a context with which proofs begin.
const MOST_START_FACTS: u32 = 1_024;

/// The greatest number of arguments of those facts.
const MOST_START_ARGUMENTS: u32 = 32_768;

/// A smallest proof of a task, where it has one with at most so many rule applications.
fn smallest(alloc: Global, task: &Task, most: u32) -> Result<Option<Proof>, Memory>
    requires { most ≤ MOST_STEPS }
    ensures smallest { IfOk result (λ found. IfSome found (λ proof. IsSmallest task.now proof)) }
    ensures within { IfOk result (λ found. IfSome found (λ proof. size proof ≤ most)) }
    ensures none { IfOk result (λ found. IfNone found (HasNoProof task.now most)) }
{
    preorder_is_faithful();
    let start = start_context(alloc, task)?;
    let mut searcher = Searcher::new(alloc, task, most, MOST_START_FACTS, MOST_START_ARGUMENTS)?;
    match searcher.find(&start, most) {
        Some(_) => Ok(Some(searcher.proof(alloc)?)),
        None => Ok(None),
    }
}

/// What there is to say of a task, where a proof with at most so many rule applications is wanted.
pub(crate) fn prove_task(alloc: Global, task: &Task, most: u32) -> Result<Report, Halt>
    requires { most ≤ MOST_STEPS }
    ensures { (words : Lst Text) (files later : Known) (problem : Text)
        → Asks words problem (to_prove most) → ReadsTask files problem task.now
        → Decides words files later result }
{
    match smallest(alloc, task, most)? {
        Some(proof) => Ok(Report::Converted(text_for(alloc, Edition::First, task, &proof)?)),
        None => Ok(Report::NoneUpTo(most)),
    }
}
