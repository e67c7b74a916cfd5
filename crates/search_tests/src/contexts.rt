ghost use Rattle.std.specs.Prelude.{ℕ, ◌≡◌, ◌≤◌, IfSome, length, sum_by};
ghost use Rattle.kept_context.specs.Lent.{AreFacts, IsLine, IsContextOf, facts_in, args_in, fact_count, arg_count};

use coherent_form::Task;
use logic_core::Atom;
use std::alloc::Global;
use text_core::List;
use vernacular_tree::{Context, Line};

/// A line of a context: a fact, two cases of one fact each, or falsehood. A fact is told by the
/// number of a symbol without arguments.
#[derive(Clone, Copy)]
pub(crate) enum Known {
    Fact(u32),
    Cases(u32, u32),
    Falsum,
}

// The fact of a symbol; none where the task has no such symbol without arguments, or memory ran out.
fn one_fact(alloc: Global, task: &Task, symbol: u32) -> Option<List<Atom>>
    ensures facts { IfSome result (λ facts. (elements : ℕ) → AreFacts task.now.tables elements facts) }
    ensures one { IfSome result (λ facts. length facts ≡ 1) }
    ensures no_args { IfSome result (λ facts. sum_by (λ fact. length fact.args) facts ≡ 0) }
{
    let tables = task.tables();
    if symbol >= tables.symbols() || tables.arity(symbol) != 0 {
        return None;
    }
    let mut facts = List::new(alloc);
    facts
        .push(Atom {
            positive: true,
            symbol,
            args: List::new(alloc),
        })
        .ok()?;
    Some(facts)
}

// Two cases of one fact each; none where there is no such fact, or memory ran out.
fn two_cases(alloc: Global, task: &Task, first: u32, second: u32) -> Option<Line>
    ensures line { IfSome result (λ line. (elements : ℕ) → IsLine task.now.tables elements line) }
    ensures no_facts { IfSome result (λ line. facts_in line ≡ 0) }
    ensures no_args { IfSome result (λ line. args_in line ≡ 0) }
{
    let mut lists = List::new(alloc);
    lists.push(one_fact(alloc, task, first)?).ok()?;
    lists.push(one_fact(alloc, task, second)?).ok()?;
    Some(Line::Cases(lists))
}

// A line; none where it has a fact that is none of the task, or memory ran out.
fn line_of(alloc: Global, task: &Task, known: Known) -> Option<Line>
    ensures line { IfSome result (λ line. (elements : ℕ) → IsLine task.now.tables elements line) }
    ensures few_facts { IfSome result (λ line. facts_in line ≤ 1) }
    ensures no_args { IfSome result (λ line. args_in line ≡ 0) }
{
    match known {
        Known::Fact(symbol) => Some(Line::Facts(one_fact(alloc, task, symbol)?)),
        Known::Cases(first, second) => two_cases(alloc, task, first, second),
        Known::Falsum => Some(Line::Falsum),
    }
}

/// The context of a task with two lines; none where they have a fact that is none of the task, or
/// memory ran out.
pub(crate) fn context_of(alloc: Global, task: &Task, first: Known, second: Known) -> Option<Context>
    ensures lent { IfSome result (IsContextOf task.now) }
    ensures few_facts { IfSome result (λ context. fact_count context ≤ 1024) }
    ensures few_args { IfSome result (λ context. arg_count context ≤ 32768) }
{
    let mut lines = List::new(alloc);
    lines.push(line_of(alloc, task, first)?).ok()?;
    lines.push(line_of(alloc, task, second)?).ok()?;
    Some(Context {
        elements: task.start_elements(),
        lines,
    })
}
