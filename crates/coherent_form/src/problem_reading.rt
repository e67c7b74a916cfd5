ghost use Rattle.std.specs.Prelude.{◌≡◌, ◌+◌, ◌-◌, ◌<◌, ◌≤◌, ◌^◌, ◌++◌, ◌⊎◌, nat_eq, min, length, map, take, slice_get, unwrap_or, IfErr, IfOk, OnOk};
ghost use Rattle.std.specs.List.{sum_by};
ghost use Rattle.indexmap.specs.IndexMap.{get};
ghost use Rattle.logic_core.specs.Allowed.{FofIsAllowed, IsAllowed};
ghost use Rattle.vernacular_tree.specs.Contexts.{counted};
ghost use Rattle.coherent_form.specs.Gathered.{given, is_of, most_counted, AreRanked, IsReading, IsUnread, progress_of};
ghost use Rattle.coherent_form.specs.Labels.{how_many};
ghost use Rattle.coherent_form.specs.Tasks.{AreFew, IsRefusedBehind, IsTaken, after_formula, atoms_in, is_conjecture as is_role_of_goal, is_second as is_second_behind, no_goal as the_form_of_nothing, nothing_read, places};
ghost use Rattle.coherent_form.specs.Wide.{Reads};
ghost use Rattle.coherent_form.specs.declared.source.Source.TheVariants as source;
ghost use Rattle.coherent_form.specs.declared.task_refusal.TaskWhy.TheVariants as why;

use crate::forms::forms_of;
use crate::numbering::number_of;
use crate::source::Source;
use crate::task_refusal::TaskWhy;
use crate::variables::variables_of;
use indexmap::{IndexMap, IndexSet};
use logic_core::{Fof, Form, Formula, Role};
use signature::{Tables, names};
use std::alloc::Global;
use text_core::{List, MOST_ATOMS, MOST_FORMS, MOST_PLACES, Memory, Name};

/// What the formulas of a problem gave so far: the symbols and constants, with how many argument
/// places the symbols have; the names of formulas and variables, with how many forms there are
/// under the number of a name; the premises' forms, with where each comes from, the numbers of the
/// names of its universal variables, and how many atoms they have; and the goal, if any.
#[derive(Drop)]
pub(crate) struct Reading {
    pub(crate) tables: Tables,
    pub(crate) places: u32,
    pub(crate) names: IndexSet<Name>,
    pub(crate) ranks: IndexMap<u32, u32>,
    pub(crate) forms: List<Form>,
    pub(crate) sources: IndexSet<Source>,
    pub(crate) variables: List<List<u32>>,
    pub(crate) atoms: u32,
    pub(crate) goal: Option<Form>,
}

fn is_conjecture(role: Role) -> bool
    ensures { result ≡ is_role_of_goal role }
{
    matches!(role, Role::Conjecture)
}

/// The form that nothing makes true. It takes no memory.
pub(crate) fn no_goal(alloc: Global) -> Form
    ensures { result ≡ the_form_of_nothing }
{
    Form {
        universals: 0,
        premises: List::new(alloc),
        existentials: 0,
        disjuncts: List::new(alloc),
    }
}

/// The goal of a conjecture with these forms.
fn goal_of(alloc: Global, forms: List<Form>) -> Result<Form, TaskWhy>
    ensures goal { IfOk result (λ goal. goal ≡ unwrap_or (slice_get forms 0) the_form_of_nothing) }
    ensures single { OnOk result (length forms ≤ 1) }
    ensures many { IfErr result (λ w. (w ≡ why.ManyGoals) × (length forms ≤ 1 → ⊥)) }
{
    if forms.len() > 1 {
        return Err(TaskWhy::ManyGoals);
    }
    let mut forms = forms.into_vec();
    Ok(forms.pop().unwrap_or(no_goal(alloc)))
}

/// The argument places of all symbols, by those of the symbols before one. `TooWide` where they are
/// more than `MOST_PLACES`.
fn places_from(tables: &Tables, first: u32, before: u32) -> Result<u32, TaskWhy>
    requires named { 0 < first }
    requires there { first ≤ length tables.now.symbols + 1 }
    requires before { before
        ≡ sum_by (λ symbol. symbol.arity) (take (first - 1) tables.now.symbols) }
    ensures ok { IfOk result (λ all. all ≡ places tables.now) }
    ensures few { IfOk result (λ all. all ≤ MOST_PLACES) }
    ensures err { IfErr result (λ w. (w ≡ why.TooWide) × (places tables.now ≤ MOST_PLACES → ⊥)) }
{
    let mut all = before;
    for symbol in first..tables.symbols() {
        all = all.saturating_add(tables.arity(symbol));
    }
    if all > MOST_PLACES {
        return Err(TaskWhy::TooWide);
    }
    Ok(all)
}

/// How many atoms a form has. A greater number is told as the greatest one.
fn atoms_of(form: &Form) -> usize
    ensures { result ≡ min (atoms_in form.now) most_counted }
{
    let mut all = form.premises.len();
    for atoms in form.disjuncts.as_slice() {
        all = all.saturating_add(atoms.len());
    }
    all
}

/// How many atoms there are with those of further forms. `TooManyForms` where forms or atoms are
/// more than the premises of a problem may give.
fn atoms_with(atoms: u32, forms: &[Form], more: &[Form]) -> Result<u32, TaskWhy>
    requires { atoms ≡ sum_by atoms_in forms.now }
    ensures ok { IfOk result (λ all. all ≡ sum_by atoms_in (forms.now ++ more.now)) }
    ensures few { OnOk result (AreFew (forms.now ++ more.now)) }
    ensures err { IfErr result (λ w.
        (w ≡ why.TooManyForms) × (AreFew (forms.now ++ more.now) → ⊥)) }
{
    let count = forms.len().saturating_add(more.len());
    let mut all = atoms as usize;
    for form in more {
        all = all.saturating_add(atoms_of(form));
    }
    if count > MOST_FORMS as usize || all > MOST_ATOMS as usize {
        return Err(TaskWhy::TooManyForms);
    }
    Ok(all as u32)
}

/// How many forms there are under the number of a name.
fn rank_of(ranks: &IndexMap<u32, u32>, name: u32) -> u32
    ensures { result ≡ unwrap_or (get nat_eq ranks.now name) 0 }
{
    match ranks.get(&name) {
        Some(rank) => *rank,
        None => 0,
    }
}

/// Puts sources of so many forms of a formula behind those that are there; their ranks go on.
fn push_sources(
    ranks: &mut IndexMap<u32, u32>,
    sources: &mut IndexSet<Source>,
    name: u32,
    count: u32,
) -> Result<(), Memory>
    requires ranked { AreRanked (get nat_eq ranks.old) sources.old.keys }
    requires few { length sources.old.keys + count < 2 ^ 32 }
    ensures sources { OnOk result (sources.new.keys ≡ sources.old.keys ++ map (source.Formula name)
        (counted (how_many (is_of name) sources.old.keys + 1) count)) }
    ensures ranked { OnOk result (AreRanked (get nat_eq ranks.new) sources.new.keys) }
{
    let rank = rank_of(ranks, name);
    for more in 0..count {
        sources.insert(Source::Formula {
            name,
            rank: rank + 1 + more,
        })?;
    }
    ranks.insert(name, rank + count)?;
    Ok(())
}

impl Reading {
    /// Before the first formula. `Memory` is want of memory.
    pub(crate) fn new(alloc: Global) -> Result<Reading, Memory>
        ensures progress { IfOk result (λ reading. progress_of reading ≡ nothing_read) }
        ensures reading { IfOk result IsReading }
    {
        Ok(Reading {
            tables: Tables::new(alloc)?,
            places: 0,
            names: IndexSet::new(alloc),
            ranks: IndexMap::new(alloc),
            forms: List::new(alloc),
            sources: IndexSet::new(alloc),
            variables: List::new(alloc),
            atoms: 0,
            goal: None,
        })
    }

    /// Whether a formula is a conjecture behind another one.
    fn is_second(&self, fof: &Fof) -> bool
        ensures { result ≡ is_second_behind (progress_of self.now) fof.now }
    {
        is_conjecture(fof.role) && self.goal.is_some()
    }

    /// The forms of a formula, with its symbols and constants numbered. After an error further
    /// names may be in the tables.
    fn read(&mut self, alloc: Global, formula: &Formula) -> Result<List<Form>, TaskWhy>
        requires allowed { IsAllowed formula.now }
        requires places { self.old.places ≡ places self.old.tables }
        ensures forms { IfOk result (λ forms.
            Reads self.old.tables formula.now forms self.new.tables) }
        ensures kept { OnOk result (self.new ≡ record self.old {
          tables = self.new.tables;
          places = self.new.places;
        }) }
        ensures places { OnOk result (self.new.places ≡ places self.new.tables) }
        ensures few { OnOk result (self.new.places ≤ MOST_PLACES) }
        ensures err { IfErr result (λ w.
            (w ≡ why.Memory) ⊎ IsUnread self.old.tables formula.now w) }
    {
        let first = self.tables.symbols();
        let forms = forms_of(alloc, formula, &mut self.tables)?;
        self.places = places_from(&self.tables, first, self.places)?;
        Ok(forms)
    }

    /// Takes the forms of a premise: their sources, the names of their variables, and the forms.
    fn give(&mut self, alloc: Global, fof: &Fof, forms: List<Form>) -> Result<(), TaskWhy>
        requires { IsReading self.old }
        ensures progress { OnOk result (progress_of self.new
            ≡ given (progress_of self.old) fof.now forms) }
        ensures reading { OnOk result (IsReading self.new) }
        ensures few { OnOk result (AreFew (self.old.forms ++ forms)) }
        ensures err { IfErr result (λ w. (w ≡ why.Memory)
            ⊎ ((w ≡ why.TooManyForms) × (AreFew (self.old.forms ++ forms) → ⊥))) }
    {
        let atoms = atoms_with(self.atoms, self.forms.as_slice(), forms.as_slice())?;
        let count = number_of(forms.len())?;
        if self.names.len() >= u32::MAX as usize {
            return Err(TaskWhy::Memory);
        }
        let name = names::number_of(alloc, &mut self.names, &fof.name)?;
        let variables = variables_of(alloc, &mut self.names, &fof.formula)?;
        push_sources(&mut self.ranks, &mut self.sources, name, count)?;
        self.variables.append(variables)?;
        self.forms.append(forms)?;
        self.atoms = atoms;
        Ok(())
    }

    /// Takes the next formula of a problem. After an error nothing is told of what was read.
    pub(crate) fn take(&mut self, alloc: Global, fof: &Fof) -> Result<(), TaskWhy>
        requires reading { IsReading self.old }
        requires allowed { FofIsAllowed fof.now }
        ensures taken { OnOk result (IsTaken (progress_of self.old) fof.now) }
        ensures progress { OnOk result (progress_of self.new
            ≡ after_formula (progress_of self.old) fof.now) }
        ensures reading { OnOk result (IsReading self.new) }
        ensures err { IfErr result (λ w. (w ≡ why.Memory)
            ⊎ IsRefusedBehind (progress_of self.old) fof.now w) }
    {
        if self.is_second(fof) {
            return Err(TaskWhy::TooManyConjectures);
        }
        let forms = self.read(alloc, &fof.formula)?;
        if !is_conjecture(fof.role) {
            return self.give(alloc, fof, forms);
        }
        self.goal = Some(goal_of(alloc, forms)?);
        Ok(())
    }
}
