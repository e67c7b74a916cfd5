ghost use Rattle.std.specs.Prelude.{◌≡◌, [], ◌∷◌, ◌++◌, ◌≤◌, ◌<◌, length, OnOk, OnErr};
ghost use Rattle.std.specs.List.{AllByRecursion};
ghost use Rattle.logic_core.specs.Allowed.{FofIsAllowed, ItemIsAllowed};

use crate::formula::Formula;
use std::alloc::Global;
use std::marker::Model;
use text_core::{List, MOST_FORMULAS, Memory, Name};

/// What a formula of a problem is there for. All but the last are premises. Source: the TPTP
/// syntax.
#[derive(Clone, Copy, PartialEq, Eq, Debug)]
pub enum Role {
    Axiom,
    Hypothesis,
    Definition,
    Assumption,
    Lemma,
    Theorem,
    Corollary,
    NegatedConjecture,
    Conjecture,
}

/// A formula with its name and role.
#[derive(Debug, Drop)]
pub struct Fof {
    pub name: Name,
    pub role: Role,
    pub formula: Formula,
}

/// An item of a problem's text: a formula, or the inclusion of a file, of all its formulas or of
/// those with a name in the selection.
#[derive(Debug, Drop)]
pub enum Item {
    Fof(Fof),
    Include {
        file: Name,
        only: Option<List<Name>>,
    },
}

/// The items of a problem's text, in order: each formula is closed and not nested too deep, and no
/// selection is empty. Contracts see the list of items.
#[derive(Debug, Drop)]
pub struct Items {
    items: List<Item>,
}

/// A problem without inclusions: at most `MOST_FORMULAS` formulas, each closed and not nested too
/// deep. Contracts see the list of formulas.
#[derive(Debug, Drop)]
pub struct Problem {
    formulas: List<Fof>,
}

impl Model for Items {
    ghost use Rattle.std.specs.Prelude.{List};
    ghost use Rattle.std.specs.List.{AllByRecursion};
    ghost use Rattle.logic_core.specs.declared.problem.Item.{Item};
    ghost use Rattle.logic_core.specs.contracts.problem.Item as item;
    ghost use Rattle.std.specs.Coded.{codes};

    ghost Value = { List Item };

    ghost coded = { Prim.hlevel (codes, item.the_row.coded) };

    ghost use Rattle.logic_core.specs.Allowed.{ItemIsAllowed};

    ghost view = { λ it. it.items };

    ghost invariant = { λ it. AllByRecursion ItemIsAllowed it.items };
}

impl Model for Problem {
    ghost use Rattle.std.specs.Prelude.{List, length, ◌≤◌};
    ghost use Rattle.std.specs.List.{AllByRecursion};
    ghost use Rattle.logic_core.specs.declared.problem.Fof.{Fof};
    ghost use Rattle.logic_core.specs.contracts.problem.Fof as fof;
    ghost use Rattle.std.specs.Coded.{codes};

    ghost Value = { List Fof };

    ghost coded = { Prim.hlevel (codes, fof.the_row.coded) };

    ghost use Rattle.text_core.specs.declared.limits.TheConstants.{MOST_FORMULAS};
    ghost use Rattle.logic_core.specs.Allowed.{FofIsAllowed};

    ghost view = { λ it. it.formulas };

    ghost invariant = { λ it. (length it.formulas ≤ MOST_FORMULAS)
        × AllByRecursion FofIsAllowed it.formulas };
}

impl Items {
    /// No items. It takes no memory.
    pub fn new(alloc: Global) -> Items
        ensures { result ≡ [] }
    {
        Items {
            items: List::new(alloc),
        }
    }

    /// The items in order.
    pub fn as_slice(&self) -> &[Item]
        ensures items { result.now ≡ self.now }
        ensures allowed { AllByRecursion ItemIsAllowed self.now }
    {
        self.items.as_slice()
    }

    /// The items in order, as a list of their own. It takes no memory.
    pub fn into_list(self) -> List<Item>
        ensures items { result ≡ self }
        ensures allowed { AllByRecursion ItemIsAllowed self }
    {
        self.items
    }

    /// Appends an item that may be in a problem's text. `Memory` is want of memory: the item is
    /// given up, and the items are as before.
    pub fn push(&mut self, item: Item) -> Result<(), Memory>
        requires { ItemIsAllowed item }
        ensures ok { OnOk result (self.new ≡ self.old ++ item ∷ []) }
        ensures err { OnErr result (self.new ≡ self.old) }
    {
        self.items.push(item)
    }
}

impl Problem {
    /// No formulas. It takes no memory.
    pub fn new(alloc: Global) -> Problem
        ensures { result ≡ [] }
    {
        Problem {
            formulas: List::new(alloc),
        }
    }

    /// The formulas in order.
    pub fn as_slice(&self) -> &[Fof]
        ensures formulas { result.now ≡ self.now }
        ensures few { length self.now ≤ MOST_FORMULAS }
        ensures allowed { AllByRecursion FofIsAllowed self.now }
    {
        self.formulas.as_slice()
    }

    /// Appends a formula that may be in a problem, to fewer than `MOST_FORMULAS`. `Memory` is want
    /// of memory: the formula is given up, and the problem is as before.
    pub fn push(&mut self, fof: Fof) -> Result<(), Memory>
        requires allowed { FofIsAllowed fof }
        requires room { length self.old < MOST_FORMULAS }
        ensures ok { OnOk result (self.new ≡ self.old ++ fof ∷ []) }
        ensures err { OnErr result (self.new ≡ self.old) }
    {
        self.formulas.push(fof)
    }
}
