ghost use Rattle.std.specs.Prelude.{◌≡◌, ◌+◌, ◌*◌, ◌<◌, ◌≤◌, ℕ, List as Lst, [], false, length, slice_get, Some, IfOk, IfSome, IfNone};
ghost use Rattle.std.specs.Bool.{Decides};
ghost use Rattle.logic_core.specs.declared.form.Atom.{Atom as AtomValue};
ghost use Rattle.logic_core.specs.declared.form.Form.{Form as FormValue};
ghost use Rattle.vernacular_tree.specs.declared.context.Context.{Context as ContextValue};
ghost use Rattle.vernacular_tree.specs.declared.context.Line.TheVariants as line_value;
ghost use Rattle.vernacular_tree.specs.Contexts.{after_mp, with_facts};
ghost use Rattle.vernacular_tree.specs.Barren.{Barren};
ghost use Rattle.vernacular_tree.specs.Rules.{IsInstance};
ghost use Rattle.coherent_form.specs.Fitting.{FormFits};
ghost use Rattle.coherent_form.specs.Tasks.{CitedTask};
ghost use Rattle.coherent_form.specs.declared.limits.TheConstants.{MOST_SYMBOLS};
ghost use Rattle.kept_context.specs.Kept as kept;
ghost use Rattle.kept_context.specs.Lent.{IsContextOf, fact_count, arg_count};

use crate::case::{add_case, case_count};
use crate::fact::{are_known, are_standing};
use crate::line::{note_lines, note_lists, own_line};
use crate::room::{count_within, extend_within, push_within};
use coherent_form::Task;
use fact_store::Store;
use logic_core::Form;
use std::alloc::Global;
use std::marker::Model;
use text_core::{MOST_ARGUMENTS, MOST_FORM_ATOMS, MOST_FORM_VARIABLES, Memory};
use vernacular_tree::Context;

/// A line behind the lent ones: facts, which stand in the store; the cases of a form, and where its
/// elements stand; or falsehood.
#[derive(Clone, Copy, Debug)]
pub enum OwnLine {
    Facts,
    Cases {
        form: u32,
        start: usize,
        count: usize,
    },
    Falsum,
}

/// A point to which a context can go back.
#[derive(Clone, Copy, Debug)]
pub struct Point {
    pub facts: u32,
    pub lines: usize,
    pub values: usize,
    pub elements: u32,
    pub falsum: bool,
}

/// A context that is kept in place, behind the context of which it was made.
#[derive(Drop)]
pub struct KeptContext {
    store: Store,
    lines: Vec<OwnLine>,
    values: Vec<u32>,
    elements: u32,
    falsum: bool,
    line_room: usize,
    value_room: usize,
}

impl Model for KeptContext {
    ghost use Rattle.std.specs.Prelude.{◌≤◌, vec_capacity};
    ghost use Rattle.kept_context.specs.Kept.{Kept};

    ghost Value = { Kept };

    ghost view = { λ k. record {
      store = k.store;
      lines = k.lines.items;
      values = k.values.items;
      elements = k.elements;
      falsum = k.falsum;
      line_room = k.line_room;
      value_room = k.value_room;
    } };

    ghost invariant = { λ k. (k.line_room ≤ vec_capacity k.lines)
        × (k.value_room ≤ vec_capacity k.values) };
}

impl KeptContext {
    /// Nothing is kept, and there is room for so many facts with so many arguments besides those of
    /// `more` lines, at most 200. `Memory` is want of memory.
    pub fn new(
        alloc: Global,
        task: &Task,
        more: u32,
        facts: u32,
        args: u32,
    ) -> Result<KeptContext, Memory>
        requires few_facts { facts ≤ 67314688 }
        requires few_args { args ≤ 2154070016 }
        requires few_lines { more ≤ 200 }
        ensures room { IfOk result (kept.HasRoom task.now more) }
        ensures spare { IfOk result (kept.HasSpare more facts args) }
        ensures empty { IfOk result kept.IsEmpty }
    {
        // The task has few symbols.
        let _forms = task.forms();
        let mut store = Store::new(alloc, 2 * task.tables().symbols())?;
        let more_facts = more * MOST_FORM_ATOMS;
        store.reserve(facts + more_facts, args + more_facts * MOST_ARGUMENTS)?;
        let line_room = more as usize;
        let value_room = (more * MOST_FORM_VARIABLES) as usize;
        Ok(KeptContext {
            store,
            lines: Vec::with_capacity(alloc, line_room)?,
            values: Vec::with_capacity(alloc, value_room)?,
            elements: 0,
            falsum: false,
            line_room,
            value_room,
        })
    }

    /// Keeps a context that is lent, where nothing is kept.
    pub fn enter(&mut self, task: &Task, lent: &Context)
        requires empty { kept.IsEmpty self.old }
        requires lent { IsContextOf task.now lent.now }
        requires spare { (more : ℕ) × kept.HasRoom task.now more self.old
            × kept.HasSpare more (fact_count lent.now) (arg_count lent.now) self.old }
        ensures represents { kept.Represents task.now lent.now self.new lent.now }
        ensures grows { kept.Grows self.old self.new }
        ensures room { (more : ℕ) → more ≤ 200 → kept.HasRoom task.now more self.old
            → kept.HasSpare more (fact_count lent.now) (arg_count lent.now) self.old
            → kept.HasRoom task.now more self.new }
    {
        // The task has few symbols.
        let _forms = task.forms();
        note_lines(&mut self.store, &mut self.falsum, lent.lines.as_slice());
        self.elements = lent.elements;
    }

    /// The context after a form was applied to elements, one for each universal variable.
    pub fn apply(&mut self, task: &Task, form: u32, args: &[u32])
        requires instance { (f : FormValue) × (slice_get task.now.forms form ≡ Some f)
            × (length args.now ≡ f.universals) }
        requires room { kept.HasRoom task.now 1 self.old }
        ensures represents { (lent context : ContextValue) (f : FormValue)
            → kept.Represents task.now lent self.old context
            → slice_get task.now.forms form ≡ Some f
            → kept.Represents task.now lent self.new (after_mp context f args.now) }
        ensures grows { kept.Grows self.old self.new }
        ensures room { (more : ℕ) → kept.HasRoom task.now (more + 1) self.old
            → kept.HasRoom task.now more self.new }
    {
        let applied = &task.forms().as_slice()[form as usize];
        let start = self.values.len();
        extend_within(&mut self.values, args);
        count_within(&mut self.values, self.elements, applied.existentials);
        let count = self.values.len() - start;
        note_lists(
            &mut self.store,
            &mut self.falsum,
            &self.values.as_slice()[start..],
            applied.disjuncts.as_slice(),
        );
        push_within(
            &mut self.lines,
            own_line(applied.disjuncts.len(), form, start, count),
        );
        self.elements += applied.existentials;
    }

    /// The number of lists of a line of cases; `None` where there is no such line.
    pub fn cases(&self, task: &Task, lent: &Context, line: usize) -> Option<usize>
        ensures some { IfSome result (λ count. (context : ContextValue)
            → kept.Represents task.now lent.now self.now context
            → (lists : Lst (Lst AtomValue)) × (slice_get context.lines line ≡ Some (line_value.Cases lists))
            × (length lists ≡ count)) }
        ensures none { IfNone result ((context : ContextValue) (lists : Lst (Lst AtomValue))
            → kept.Represents task.now lent.now self.now context
            → slice_get context.lines line ≡ Some (line_value.Cases lists) → ⊥) }
    {
        case_count(task, lent.lines.as_slice(), self.lines.as_slice(), line)
    }

    /// The context of a case of a line.
    pub fn enter_case(&mut self, task: &Task, lent: &Context, line: usize, case: usize)
        requires lent { IsContextOf task.now lent.now }
        requires there { (context : ContextValue) × (lists : Lst (Lst AtomValue))
            × kept.Represents task.now lent.now self.old context
            × (slice_get context.lines line ≡ Some (line_value.Cases lists)) × (case < length lists) }
        requires room { kept.HasRoom task.now 1 self.old }
        ensures represents { (context : ContextValue) (lists : Lst (Lst AtomValue)) (facts : Lst AtomValue)
            → kept.Represents task.now lent.now self.old context
            → slice_get context.lines line ≡ Some (line_value.Cases lists)
            → slice_get lists case ≡ Some facts
            → kept.Represents task.now lent.now self.new (with_facts context facts) }
        ensures grows { kept.Grows self.old self.new }
        ensures room { (more : ℕ) → kept.HasRoom task.now (more + 1) self.old
            → kept.HasRoom task.now more self.new }
    {
        add_case(
            &mut self.store,
            task,
            lent.lines.as_slice(),
            self.values.as_slice(),
            self.lines.as_slice(),
            line,
            case,
        );
        push_within(&mut self.lines, OwnLine::Facts);
    }

    /// Whether an instance of a form adds nothing but facts that stand already.
    pub fn is_barren(&self, form: &Form, args: &[u32]) -> bool
        requires { (task : CitedTask) × FormFits task.tables form.now
            × (length task.tables.symbols + 1 ≤ MOST_SYMBOLS) }
        ensures { (task : CitedTask) (lent context : ContextValue)
            → kept.Represents task lent self.now context
            → Decides result (Barren context form.now args.now) }
    {
        form.existentials == 0
            && match form.disjuncts.as_slice() {
                [atoms] => are_standing(&self.store, args, atoms.as_slice()),
                _ => false,
            }
    }

    /// Whether a form may be applied to elements: there is one of them for each universal variable,
    /// and each premise stands at them.
    pub fn is_instance(&self, form: &Form, args: &[u32]) -> bool
        requires { (task : CitedTask) × FormFits task.tables form.now
            × (length task.tables.symbols + 1 ≤ MOST_SYMBOLS) }
        ensures { (task : CitedTask) (lent context : ContextValue)
            → kept.Represents task lent self.now context
            → Decides result (IsInstance context form.now args.now) }
    {
        if args.len() != form.universals as usize {
            return false;
        }
        if !are_known(args, self.elements) {
            return false;
        }
        are_standing(&self.store, args, form.premises.as_slice())
    }

    /// The number of lines, those of the lent context counted.
    pub fn line_count(&self, lent: &Context) -> usize
        ensures { (task : CitedTask) (context : ContextValue)
            → kept.Represents task lent.now self.now context → result ≡ length context.lines }
    {
        lent.lines.as_slice().len() + self.lines.len()
    }

    /// Whether some line is falsehood.
    pub fn has_falsum(&self) -> bool
        ensures { result ≡ self.now.falsum }
    {
        self.falsum
    }

    /// The number of elements.
    pub fn elements(&self) -> u32
        ensures { result ≡ self.now.elements }
    {
        self.elements
    }

    /// The facts that stand.
    pub fn store(&self) -> &Store
        ensures { result.now ≡ self.now.store }
    {
        &self.store
    }

    /// The point at which it is.
    pub fn point(&self) -> Point
        ensures { result ≡ kept.point_of self.now }
    {
        Point {
            facts: self.store.undo_point(),
            lines: self.lines.len(),
            values: self.values.len(),
            elements: self.elements,
            falsum: self.falsum,
        }
    }

    /// Goes back to a point out of which it grew: it is as it was there.
    pub fn back(&mut self, point: Point)
        requires { (before : kept.Kept) × (kept.point_of before ≡ point) × kept.Grows before self.old }
        ensures { (before : kept.Kept) → kept.point_of before ≡ point → kept.Grows before self.old
            → self.new ≡ before }
    {
        self.store.undo(point.facts);
        self.lines.truncate(point.lines);
        self.values.truncate(point.values);
        self.elements = point.elements;
        self.falsum = point.falsum;
    }
}
