ghost use Rattle.std.specs.Prelude.{ℕ, ◌≡◌, ◌≤◌, Some, None, IfOk, IfSome, IfNone, IsSome};
ghost use Rattle.vernacular_tree.specs.Preorders.{preorder};
ghost use Rattle.vernacular_tree.specs.Rules.{IsProof};
ghost use Rattle.vernacular_tree.specs.Sizes.{size};
ghost use Rattle.vernacular_tree.specs.declared.tree.Body.{Body};
ghost use Rattle.coherent_form.specs.Tasks.{proof_task};
ghost use Rattle.kept_context.specs.Lent.{IsContextOf, fact_count, arg_count};
ghost use Rattle.trail_search.specs.Least.{HasNone, LeastFrom};
ghost use Rattle.trail_search.specs.Searches.{HasCursors};

use crate::answers::answer_forms;
use crate::done::{Done, none_done};
use crate::find::find_least;
use crate::found::Found;
use crate::outline::Outline;
use crate::scene::Scene;
use coherent_form::Task;
use instance_cursor::Cursor;
use kept_context::KeptContext;
use logic_core::Form;
use proof_plans::Planner;
use std::alloc::Global;
use std::marker::Model;
use text_core::{List, MOST_FORM_ATOMS, MOST_FORM_VARIABLES, Memory};
use vernacular_tree::{Context, Proof, TreeRefusal};

/// A search for smallest proofs of a task, in place: it takes all its memory when it is made. It
/// keeps the proof that the last search found.
#[derive(Drop)]
pub struct Searcher<'a> {
    task: &'a Task,
    most: u32,
    facts: u32,
    args: u32,
    answers: List<Form>,
    kept: KeptContext,
    cursors: Vec<Cursor>,
    noted: Found,
    planner: Planner,
    outline: Outline,
    done: Vec<Done>,
    found: Option<u32>,
}

impl<'a> Model for Searcher<'a> {
    ghost use Rattle.std.specs.Prelude.{reverse};
    ghost use Rattle.trail_search.specs.Searched.{Searched};
    ghost use Rattle.trail_search.specs.Prepared.{IsPrepared};

    ghost Value = { Searched };

    ghost view = { λ s. record {
      task = s.task.now;
      most = s.most;
      facts = s.facts;
      args = s.args;
      found = s.found;
      nodes = reverse s.noted.nodes;
    } };

    ghost invariant = { λ s. IsPrepared s.task.now s.most s.facts s.args s.answers s.kept
        s.cursors.items s.noted s.found };
}

// So many cursors for the greatest forms. `Memory` is want of memory.
fn wide_cursors(alloc: Global, count: u32) -> Result<Vec<Cursor>, Memory>
    ensures { IfOk result (λ cursors. HasCursors count cursors.items) }
{
    let mut cursors = Vec::new(alloc);
    for made in 0..count {
        cursors.push(Cursor::new(alloc, MOST_FORM_VARIABLES, MOST_FORM_ATOMS)?)?;
    }
    Ok(cursors)
}

impl<'a> Searcher<'a> {
    /// A searcher for proofs with at most `most` rule applications, at most 200, from contexts of
    /// the task whose facts are at most `facts`, at most 67,314,688, with at most `args` arguments,
    /// at most 2,154,070,016. `Memory` is want of memory, or of numbers of 32 bits.
    pub fn new(
        alloc: Global,
        task: &'a Task,
        most: u32,
        facts: u32,
        args: u32,
    ) -> Result<Searcher<'a>, Memory>
        requires few_steps { most ≤ 200 }
        requires few_facts { facts ≤ 67314688 }
        requires few_args { args ≤ 2154070016 }
        ensures task { IfOk result (λ searcher. searcher.task ≡ task.now) }
        ensures most { IfOk result (λ searcher. searcher.most ≡ most) }
        ensures facts { IfOk result (λ searcher. searcher.facts ≡ facts) }
        ensures args { IfOk result (λ searcher. searcher.args ≡ args) }
        ensures found { IfOk result (λ searcher. searcher.found ≡ None) }
    {
        Ok(Searcher {
            task,
            most,
            facts,
            args,
            answers: answer_forms(alloc, task)?,
            kept: KeptContext::new(alloc, task, most, facts, args)?,
            cursors: wide_cursors(alloc, most)?,
            noted: Found::new(alloc, most)?,
            planner: Planner::new(alloc, most)?,
            outline: Outline::new(alloc, most)?,
            done: none_done(alloc, most)?,
            found: None,
        })
    }

    /// The number of rule applications of a smallest proof from a context of the task, where it is
    /// at most `within`; `None` exactly where every proof from the context has more. It takes no
    /// memory.
    pub fn find(&mut self, context: &Context, within: u32) -> Option<u32>
        requires within { within ≤ self.old.most }
        requires lent { IsContextOf self.old.task context.now }
        requires few_facts { fact_count context.now ≤ self.old.facts }
        requires few_args { arg_count context.now ≤ self.old.args }
        ensures within { IfSome result (λ n. n ≤ within) }
        ensures least { IfSome result (LeastFrom (proof_task self.old.task) context.now) }
        ensures none { IfNone result (HasNone (proof_task self.old.task) context.now within) }
        ensures exact { (n : ℕ) → LeastFrom (proof_task self.old.task) context.now n
            → n ≤ within → result ≡ Some n }
        ensures kept { IfSome result (λ n. (body : Body)
            × IsProof (proof_task self.old.task) context.now body
            × (preorder body ≡ self.new.nodes) × (size body ≡ n)) }
        ensures found { self.new.found ≡ result }
        ensures task { self.new.task ≡ self.old.task }
        ensures most { self.new.most ≡ self.old.most }
        ensures facts { self.new.facts ≡ self.old.facts }
        ensures args { self.new.args ≡ self.old.args }
    {
        // A task's forms and its goal are within the limits.
        let _forms = self.task.forms();
        let scene = Scene {
            task: self.task,
            answers: self.answers.as_slice(),
            lent: context,
        };
        self.noted.back(0);
        self.found = find_least(
            &scene,
            &mut self.kept,
            self.cursors.as_mut_slice(),
            &mut self.noted,
            &mut self.planner,
            &mut self.outline,
            self.done.as_mut_slice(),
            within,
        );
        self.found
    }

    /// What the last search found; `None` exactly before the first one, and where that one found
    /// nothing.
    pub fn found(&self) -> Option<u32>
        ensures { result ≡ self.now.found }
    {
        self.found
    }

    /// The proof that the last search found. `Memory` is want of memory.
    pub fn proof(&self, alloc: Global) -> Result<Proof, Memory>
        requires { IsSome self.now.found }
        ensures { IfOk result (λ proof. preorder proof ≡ self.now.nodes) }
    {
        let nodes = self.noted.nodes(alloc)?;
        match Proof::from_nodes(alloc, &nodes) {
            Ok(proof) => Ok(proof),
            Err(TreeRefusal::Memory) => Err(Memory),
            Err(TreeRefusal::NotATree) => unreachable!(),
        }
    }
}
