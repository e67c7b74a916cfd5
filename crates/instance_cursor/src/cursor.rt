ghost use Rattle.std.specs.Prelude.{◌≡◌, ◌<◌, ◌≤◌, ◌^◌, nat_eq, List as Lst, ℕ, ◌∷◌, [], length, IfOk};
ghost use Rattle.std.specs.Bool.{OnTrue, OnFalse};
ghost use Rattle.std.specs.List.{AllByRecursion, IsDistinct};
ghost use Rattle.std.specs.Cmp.Lexicographic.{pointwise};
ghost use Rattle.text_core.specs.Lists.{IsAmong};
ghost use Rattle.logic_core.specs.Forms.{AtomIsBelow};
ghost use Rattle.logic_core.specs.declared.form.Atom.{Atom};
ghost use Rattle.instance_cursor.specs.Instances.{IsInstanceOver};
ghost use Rattle.instance_cursor.specs.Cursors.{IsAt, rest_of};

use crate::origin::{Origin, write_origins};
use crate::room::write_zeros;
use crate::search::pick_next;
use crate::space::Space;
use crate::stage::Stage;
use fact_store::Store;
use logic_core::Form;
use std::alloc::Global;
use std::marker::Model;
use text_core::Memory;

/// A place among the instances of a form over the facts of a store. It takes all its memory when it
/// is made, and serves one form after another. Contracts see the instance that it gave last and the
/// instances that it has still to give.
#[derive(Drop)]
pub struct Cursor {
    args: Vec<u32>,
    variables: u32,
    premises: u32,
    origins: Vec<Origin>,
    picks: Vec<u32>,
    stage: Stage,
}

impl Model for Cursor {
    ghost use Rattle.std.specs.Prelude.{vec_capacity};
    ghost use Rattle.instance_cursor.specs.Cursors.{Place, HasRoom};

    ghost Value = { Place };

    ghost view = { λ c. record {
      args = c.args.items;
      variables = c.variables;
      premises = c.premises;
      origins = c.origins.items;
      picks = c.picks.items;
      stage = c.stage;
    } };

    ghost invariant = { λ c. HasRoom c.variables c.premises
        (vec_capacity c.args) (vec_capacity c.origins) (vec_capacity c.picks) };
}

impl Cursor {
    /// A cursor for forms with at most so many universal variables, at most 64, and premises, at
    /// most 1,024. `Memory` is want of memory.
    pub fn new(alloc: Global, variables: u32, premises: u32) -> Result<Cursor, Memory>
        requires few_variables { variables ≤ 64 }
        requires few_premises { premises ≤ 1024 }
        ensures variables { IfOk result (λ cursor. cursor.variables ≡ variables) }
        ensures premises { IfOk result (λ cursor. cursor.premises ≡ premises) }
    {
        Ok(Cursor {
            args: Vec::with_capacity(alloc, variables as usize)?,
            variables,
            premises,
            origins: Vec::with_capacity(alloc, variables as usize)?,
            picks: Vec::with_capacity(alloc, (premises + variables) as usize)?,
            stage: Stage::Over,
        })
    }

    /// Begins with the instances of a form; each is given once. The cursor has room for the form,
    /// its premises have universal variables and constants below `elements` alone, and their symbols
    /// are below 2^31.
    pub fn start(&mut self, form: &Form, store: &Store, elements: u32)
        requires variables { form.now.universals ≤ self.old.variables }
        requires premises { length form.now.premises ≤ self.old.premises }
        requires below { AllByRecursion (AtomIsBelow form.now.universals elements) form.now.premises }
        requires small { AllByRecursion (λ (atom : Atom). atom.symbol < 2 ^ 31) form.now.premises }
        ensures at { IsAt self.new form.now store.now.facts elements }
        ensures each { AllByRecursion (IsInstanceOver form.now store.now.facts elements)
            (rest_of self.new form.now store.now.facts elements) }
        ensures all { (args : Lst ℕ) → IsInstanceOver form.now store.now.facts elements args
            → IsAmong args (rest_of self.new form.now store.now.facts elements) }
        ensures once { IsDistinct (pointwise nat_eq)
            (rest_of self.new form.now store.now.facts elements) }
        ensures variables_kept { self.new.variables ≡ self.old.variables }
        ensures premises_kept { self.new.premises ≡ self.old.premises }
    {
        // No fact stands twice.
        store.len();
        let depths = write_origins(form.premises.as_slice(), form.universals, &mut self.origins);
        write_zeros(depths, &mut self.picks);
        write_zeros(form.universals as usize, &mut self.args);
        self.stage = Stage::Before;
    }

    /// The next instance: `true`, and `args` gives it. `false` exactly where every instance was
    /// given. The form, the facts and the number of elements are those of `start`; facts may have
    /// been added and taken back since then.
    pub fn next(&mut self, form: &Form, store: &Store, elements: u32) -> bool
        requires { IsAt self.old form.now store.now.facts elements }
        ensures at { IsAt self.new form.now store.now.facts elements }
        ensures given { OnTrue result (rest_of self.old form.now store.now.facts elements
            ≡ self.new.args ∷ rest_of self.new form.now store.now.facts elements) }
        ensures over { OnFalse result (rest_of self.old form.now store.now.facts elements ≡ []) }
        ensures ended { OnFalse result (rest_of self.new form.now store.now.facts elements ≡ []) }
        ensures variables_kept { self.new.variables ≡ self.old.variables }
        ensures premises_kept { self.new.premises ≡ self.old.premises }
    {
        let space = Space {
            premises: form.premises.as_slice(),
            origins: self.origins.as_slice(),
            store,
            elements,
        };
        if !pick_next(&space, self.stage, self.picks.as_mut_slice()) {
            self.stage = Stage::Over;
            return false;
        }
        space.write_instance(self.picks.as_slice(), self.args.as_mut_slice());
        self.stage = Stage::Given;
        true
    }

    /// The instance that was given last: one element for each universal variable.
    pub fn args(&self) -> &[u32]
        ensures { result.now ≡ self.now.args }
    {
        self.args.as_slice()
    }
}
