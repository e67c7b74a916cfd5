ghost use Rattle.std.specs.Prelude.{IfErr, OnOk};
ghost use Rattle.text_core.specs.Exact.{Exact};
ghost use Rattle.logic_core.specs.Allowed.{IsAllowed};
ghost use Rattle.coherent_form.specs.Reading.{Extends};
ghost use Rattle.coherent_form.specs.Wide.{IsReadable, IsRefused, Reads};

use crate::numbering::enter;
use crate::refusal::FormRefusal;
use crate::rule::rule_forms;
use crate::survey::account_of;
use logic_core::{Form, Formula};
use signature::Tables;
use std::alloc::Global;
use text_core::List;

/// Refuses a formula before anything is built of it. It takes no memory.
fn check(formula: &Formula) -> Result<(), FormRefusal>
    requires { IsAllowed formula.now }
    ensures ok { OnOk result (IsReadable formula.now) }
    ensures err { IfErr result (IsRefused formula.now) }
{
    let rule = account_of(formula).rule;
    match rule.offender {
        Some(node) => Err(FormRefusal::NotCoherent { node }),
        None if rule.counts.are_small() => Ok(()),
        None => Err(FormRefusal::TooWide),
    }
}

/// The coherent forms that a closed formula is read as, whose nesting is at most `MOST_LEVELS`. Its
/// symbols and constants are numbered by the tables, new ones behind those that are there.
///
/// `NotCoherent` tells the first node whose shape does not fit one of its roles, `TooWide` that
/// every shape fits and a limit is passed; both are decided in one pass over the nodes, and the
/// tables are as before. `Memory` is want of memory, or of numbers of 32 bits; then the tables may
/// hold further names behind those that were there. Source: the coherent formulas of the 2014 paper
/// "A Vernacular for Coherent Logic".
pub fn forms_of(
    alloc: Global,
    formula: &Formula,
    tables: &mut Tables,
) -> Result<List<Form>, FormRefusal>
    requires { IsAllowed formula.now }
    ensures exact { Exact (λ forms. Reads tables.old formula.now forms tables.new)
        (IsRefused formula.now) FormRefusal.Memory result }
    ensures extends { Extends tables.old tables.new }
{
    check(formula)?;
    enter(tables, formula)?;
    let mut scope = List::new(alloc);
    let forms = rule_forms(alloc, tables, &mut scope, formula)?;
    Ok(forms)
}
