ghost use Rattle.std.specs.Prelude.{◌≡◌, [], ◌∷◌, ◌++◌, map, IfOk, OnOk};
ghost use Rattle.coherent_form.specs.Each.{each_is_plain, forms_in};
ghost use Rattle.coherent_form.specs.Offending.{is_atom as is_atom_shape, is_plain as is_plain_shape};
ghost use Rattle.coherent_form.specs.Reading.{form_bound, form_guarded as guarded_form, forms_guarded, form_of_head, head_of as head_at, forms_of};

use crate::alternative::Alternative;
use crate::alternatives::alternatives;
use crate::atoms::{push_moved, sum_of};
use crate::head::{disjuncts_moved, head_of};
use crate::numbering::number_of;
use crate::scope::bind;
use logic_core::{Form, Formula, Op};
use signature::Tables;
use std::alloc::Global;
use text_core::{List, Memory, Name};

fn is_atom(formula: &Formula) -> bool
    ensures { result ≡ is_atom_shape formula.now }
{
    matches!(formula, Formula::Pred(_, _) | Formula::Equal(_, _))
}

#[cycle(plain)]
pub(crate) fn are_plain(members: &[Formula]) -> bool
    ensures { result ≡ each_is_plain members.now }
{
    for member in members {
        if !is_plain(member) {
            return false;
        }
    }
    true
}

/// Whether a formula is truth, an atom, a negated atom or a conjunction of plain members.
#[cycle(plain)]
#[tactic(auto, using(crate::proofs::Opened::plain))]
fn is_plain(formula: &Formula) -> bool
    ensures { result ≡ is_plain_shape formula.now }
{
    match formula {
        Formula::True | Formula::Pred(_, _) | Formula::Equal(_, _) => true,
        Formula::Not(body) => is_atom(body.get()),
        Formula::And(members) => are_plain(members.as_slice()),
        _ => false,
    }
}

/// A copy of a form with an alternative's variables and atoms in front.
fn form_guarded(alloc: Global, scope: u32, guard: &Alternative, form: &Form) -> Result<Form, Memory>
    ensures { IfOk result (λ guarded. guarded ≡ guarded_form scope guard.now form.now) }
{
    let by = guard.variables;
    let mut premises = List::new(alloc);
    push_moved(alloc, scope, 0, guard.atoms.as_slice(), &mut premises)?;
    push_moved(alloc, scope, by, form.premises.as_slice(), &mut premises)?;
    Ok(Form {
        universals: sum_of(by, form.universals)?,
        premises,
        existentials: form.existentials,
        disjuncts: disjuncts_moved(alloc, scope, by, form.disjuncts.as_slice())?,
    })
}

/// Appends copies of forms with an alternative in front.
fn push_guarded(
    alloc: Global,
    scope: u32,
    guard: &Alternative,
    forms: &[Form],
    all: &mut List<Form>,
) -> Result<(), Memory>
    ensures { OnOk result (all.new
        ≡ all.old ++ map (guarded_form scope guard.now) forms.now) }
{
    for form in forms {
        all.push(form_guarded(alloc, scope, guard, form)?)?;
    }
    Ok(())
}

fn each_guarded(
    alloc: Global,
    scope: u32,
    guards: &[Alternative],
    forms: &[Form],
) -> Result<List<Form>, Memory>
    ensures { IfOk result (λ all. all ≡ forms_guarded scope guards.now forms.now) }
{
    let mut all = List::new(alloc);
    for guard in guards {
        push_guarded(alloc, scope, guard, forms, &mut all)?;
    }
    Ok(all)
}

/// Forms with an alternative in front that has no variables. What stands in them is not copied.
fn each_asking(
    alloc: Global,
    scope: u32,
    guard: &Alternative,
    forms: List<Form>,
) -> Result<List<Form>, Memory>
    requires { guard.now.variables ≡ 0 }
    ensures { IfOk result (λ all. all ≡ map (guarded_form scope guard.now) forms) }
{
    let mut all = List::new(alloc);
    for form in forms.into_vec() {
        let mut premises = List::new(alloc);
        push_moved(alloc, scope, 0, guard.atoms.as_slice(), &mut premises)?;
        premises.append(form.premises)?;
        all.push(Form {
            universals: form.universals,
            premises,
            existentials: form.existentials,
            disjuncts: form.disjuncts,
        })?;
    }
    Ok(all)
}

/// For each alternative of a premise, each form of a rule.
fn guarded(
    alloc: Global,
    scope: u32,
    guards: List<Alternative>,
    forms: List<Form>,
) -> Result<List<Form>, Memory>
    ensures { IfOk result (λ all. all ≡ forms_guarded scope guards forms) }
{
    match guards.as_slice() {
        [guard] if guard.variables == 0 => each_asking(alloc, scope, guard, forms),
        _ => each_guarded(alloc, scope, guards.as_slice(), forms.as_slice()),
    }
}

/// Forms with universal variables in front.
fn bound(alloc: Global, count: u32, forms: List<Form>) -> Result<List<Form>, Memory>
    ensures { IfOk result (λ all. all ≡ map (form_bound count) forms) }
{
    let mut all = List::new(alloc);
    for form in forms.into_vec() {
        all.push(Form {
            universals: sum_of(count, form.universals)?,
            premises: form.premises,
            existentials: form.existentials,
            disjuncts: form.disjuncts,
        })?;
    }
    Ok(all)
}

/// The one form of a rule that is a conclusion.
fn concluded(
    alloc: Global,
    tables: &Tables,
    scope: &mut List<Name>,
    formula: &Formula,
) -> Result<List<Form>, Memory>
    ensures value { IfOk result (λ all.
        all ≡ form_of_head (head_at tables.now scope.old formula.now) ∷ []) }
    ensures scope { OnOk result (scope.new ≡ scope.old) }
{
    let head = head_of(alloc, tables, scope, formula)?;
    let mut all = List::new(alloc);
    all.push(Form {
        universals: 0,
        premises: List::new(alloc),
        existentials: head.variables,
        disjuncts: head.disjuncts,
    })?;
    Ok(all)
}

#[cycle(rules)]
fn forms_of_each(
    alloc: Global,
    tables: &Tables,
    scope: &mut List<Name>,
    members: &[Formula],
) -> Result<List<Form>, Memory>
    ensures value { IfOk result (λ all. all ≡ forms_in tables.now scope.old members.now) }
    ensures scope { OnOk result (scope.new ≡ scope.old) }
{
    let mut all = List::new(alloc);
    for member in members {
        let more = rule_forms(alloc, tables, scope, member)?;
        all.append(more)?;
    }
    Ok(all)
}

/// The forms of a rule, where the names are in scope. After `Memory` further names may be in scope.
#[cycle(rules)]
pub(crate) fn rule_forms(
    alloc: Global,
    tables: &Tables,
    scope: &mut List<Name>,
    formula: &Formula,
) -> Result<List<Form>, Memory>
    ensures value { IfOk result (λ all. all ≡ forms_of tables.now scope.old formula.now) }
    ensures scope { OnOk result (scope.new ≡ scope.old) }
{
    match formula {
        Formula::ForAll(names, body) => {
            let outer = scope.len();
            bind(alloc, scope, names.as_slice())?;
            let forms = rule_forms(alloc, tables, scope, body.get())?;
            scope.truncate(outer);
            bound(alloc, number_of(names.len())?, forms)
        }
        Formula::Binary(op, left, right) => match op {
            Op::Implies => {
                let guards = alternatives(alloc, tables, scope, left.get())?;
                let forms = rule_forms(alloc, tables, scope, right.get())?;
                guarded(alloc, number_of(scope.len())?, guards, forms)
            }
            Op::Implied => {
                let guards = alternatives(alloc, tables, scope, right.get())?;
                let forms = rule_forms(alloc, tables, scope, left.get())?;
                guarded(alloc, number_of(scope.len())?, guards, forms)
            }
            Op::Iff => {
                let guards = alternatives(alloc, tables, scope, left.get())?;
                let forms = rule_forms(alloc, tables, scope, right.get())?;
                let mut all = guarded(alloc, number_of(scope.len())?, guards, forms)?;
                let guards = alternatives(alloc, tables, scope, right.get())?;
                let forms = rule_forms(alloc, tables, scope, left.get())?;
                all.append(guarded(alloc, number_of(scope.len())?, guards, forms)?)?;
                Ok(all)
            }
            _ => concluded(alloc, tables, scope, formula),
        },
        Formula::And(members) => {
            if are_plain(members.as_slice()) {
                return concluded(alloc, tables, scope, formula);
            }
            forms_of_each(alloc, tables, scope, members.as_slice())
        }
        _ => concluded(alloc, tables, scope, formula),
    }
}
