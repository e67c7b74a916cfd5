ghost use Rattle.std.specs.Prelude.{◌≡◌, ◌<◌, nat_eq, true, [], ◌∷◌, ◌++◌, List as Lst, map, length, IfOk, OnOk};
ghost use Rattle.std.specs.List.{AllByRecursion, IsDistinct};
ghost use Rattle.std.specs.Cmp.Lexicographic.{pointwise};
ghost use Rattle.text_core.specs.Names.{Text};
ghost use Rattle.coherent_form.specs.Kept.{name_at};
ghost use Rattle.coherent_form.specs.Labels.{names_bound, names_joined, alternative_names, universal_names};
ghost use Rattle.coherent_form.specs.NameNumbers.{IsLonger, AreNumbers, AreListsOf, lists_joined, choice_names_in, offer_names_in, universal_names_in};

use crate::rule::are_plain;
use indexmap::IndexSet;
use logic_core::{Formula, Op};
use signature::names::number_of;
use std::alloc::Global;
use text_core::{List, Memory, Name};

/// The number of a name, which goes last if it is new. `Memory` is want of memory, or of numbers of
/// 32 bits.
fn enter(alloc: Global, names: &mut IndexSet<Name>, name: &Name) -> Result<u32, Memory>
    requires distinct { IsDistinct (pointwise nat_eq) names.old.keys }
    ensures named { IfOk result (λ number. name_at names.new.keys number ≡ name.now) }
    ensures there { IfOk result (λ number. number < length names.new.keys) }
    ensures longer { IsLonger names.old.keys names.new.keys }
    ensures distinct { IsDistinct (pointwise nat_eq) names.new.keys }
{
    if names.len() >= u32::MAX as usize {
        return Err(Memory);
    }
    number_of(alloc, names, name)
}

/// The numbers of names.
fn enter_each(
    alloc: Global,
    names: &mut IndexSet<Name>,
    variables: &[Name],
) -> Result<List<u32>, Memory>
    requires distinct { IsDistinct (pointwise nat_eq) names.old.keys }
    ensures numbers { IfOk result (λ numbers. AreNumbers names.new.keys numbers variables.now) }
    ensures longer { IsLonger names.old.keys names.new.keys }
    ensures distinct { IsDistinct (pointwise nat_eq) names.new.keys }
{
    let mut numbers = List::new(alloc);
    for variable in variables {
        numbers.push(enter(alloc, names, variable)?)?;
    }
    Ok(numbers)
}

/// A single list.
fn single(alloc: Global, list: List<u32>) -> Result<List<List<u32>>, Memory>
    ensures { IfOk result (λ all. all ≡ list ∷ []) }
{
    let mut all = List::new(alloc);
    all.push(list)?;
    Ok(all)
}

/// Whether there is one list, which is empty.
fn is_empty_list(lists: &[List<u32>]) -> bool
    ensures { result ≡ true → lists.now ≡ [] ∷ [] }
{
    match lists {
        [only] => only.len() == 0,
        _ => false,
    }
}

/// Each list followed by the same other one.
fn each_followed(
    alloc: Global,
    firsts: List<List<u32>>,
    second: &[u32],
) -> Result<List<List<u32>>, Memory>
    ensures { IfOk result (λ all. all ≡ map (λ first. first ++ second.now) firsts) }
{
    let mut all = List::new(alloc);
    for first in firsts.into_vec() {
        let mut both = first;
        both.extend_from_slice(second)?;
        all.push(both)?;
    }
    Ok(all)
}

/// Appends a list followed by each of some others.
fn push_followed(
    alloc: Global,
    first: &[u32],
    seconds: &[List<u32>],
    all: &mut List<List<u32>>,
) -> Result<(), Memory>
    ensures { OnOk result (all.new ≡ all.old ++ map (λ second. first.now ++ second) seconds.now) }
{
    for second in seconds {
        let mut both = List::from_slice(alloc, first)?;
        both.extend_from_slice(second.as_slice())?;
        all.push(both)?;
    }
    Ok(())
}

fn product(
    alloc: Global,
    firsts: &[List<u32>],
    seconds: &[List<u32>],
) -> Result<List<List<u32>>, Memory>
    ensures { IfOk result (λ all. all ≡ lists_joined firsts.now seconds.now) }
{
    let mut all = List::new(alloc);
    for first in firsts {
        push_followed(alloc, first.as_slice(), seconds, &mut all)?;
    }
    Ok(all)
}

/// Each of some lists followed by each of others. What stands is not copied where the others are a
/// single list.
fn joined(
    alloc: Global,
    firsts: List<List<u32>>,
    seconds: List<List<u32>>,
) -> Result<List<List<u32>>, Memory>
    ensures { IfOk result (λ all. all ≡ lists_joined firsts seconds) }
{
    if is_empty_list(seconds.as_slice()) {
        return Ok(firsts);
    }
    if is_empty_list(firsts.as_slice()) {
        return Ok(seconds);
    }
    match seconds.as_slice() {
        [second] => each_followed(alloc, firsts, second.as_slice()),
        _ => product(alloc, firsts.as_slice(), seconds.as_slice()),
    }
}

/// The names of a quantifier in front of each list of names.
fn bound(
    alloc: Global,
    names: &mut IndexSet<Name>,
    variables: &[Name],
    inner: List<List<u32>>,
) -> Result<List<List<u32>>, Memory>
    requires distinct { IsDistinct (pointwise nat_eq) names.old.keys }
    ensures lists { (texts : Lst (Lst Text)) → AreListsOf names.old.keys inner texts
        → IfOk result (λ lists. AreListsOf names.new.keys lists (names_bound variables.now texts)) }
    ensures longer { IsLonger names.old.keys names.new.keys }
    ensures distinct { IsDistinct (pointwise nat_eq) names.new.keys }
{
    let numbers = enter_each(alloc, names, variables)?;
    joined(alloc, single(alloc, numbers)?, inner)
}

#[cycle(alternatives)]
fn choices(
    alloc: Global,
    names: &mut IndexSet<Name>,
    members: &[Formula],
) -> Result<List<List<u32>>, Memory>
    requires distinct { IsDistinct (pointwise nat_eq) names.old.keys }
    ensures lists { IfOk result (λ lists.
        AreListsOf names.new.keys lists (choice_names_in members.now)) }
    ensures longer { IsLonger names.old.keys names.new.keys }
    ensures distinct { IsDistinct (pointwise nat_eq) names.new.keys }
{
    let mut all = single(alloc, List::new(alloc))?;
    for member in members {
        let more = alternatives(alloc, names, member)?;
        all = joined(alloc, all, more)?;
    }
    Ok(all)
}

#[cycle(alternatives)]
fn offers(
    alloc: Global,
    names: &mut IndexSet<Name>,
    members: &[Formula],
) -> Result<List<List<u32>>, Memory>
    requires distinct { IsDistinct (pointwise nat_eq) names.old.keys }
    ensures lists { IfOk result (λ lists.
        AreListsOf names.new.keys lists (offer_names_in members.now)) }
    ensures longer { IsLonger names.old.keys names.new.keys }
    ensures distinct { IsDistinct (pointwise nat_eq) names.new.keys }
{
    let mut all = List::new(alloc);
    for member in members {
        let more = alternatives(alloc, names, member)?;
        all.append(more)?;
    }
    Ok(all)
}

/// The names of the variables of each alternative of a premise.
#[cycle(alternatives)]
fn alternatives(
    alloc: Global,
    names: &mut IndexSet<Name>,
    formula: &Formula,
) -> Result<List<List<u32>>, Memory>
    requires distinct { IsDistinct (pointwise nat_eq) names.old.keys }
    ensures lists { IfOk result (λ lists.
        AreListsOf names.new.keys lists (alternative_names formula.now)) }
    ensures longer { IsLonger names.old.keys names.new.keys }
    ensures distinct { IsDistinct (pointwise nat_eq) names.new.keys }
{
    match formula {
        Formula::And(members) => choices(alloc, names, members.as_slice()),
        Formula::Or(members) => offers(alloc, names, members.as_slice()),
        Formula::Exists(variables, body) => {
            let inner = alternatives(alloc, names, body.get())?;
            bound(alloc, names, variables.as_slice(), inner)
        }
        _ => single(alloc, List::new(alloc)),
    }
}

/// The names of the variables of each alternative of a premise, each followed by those of each form
/// of a rule.
fn guarded(
    alloc: Global,
    names: &mut IndexSet<Name>,
    premise: &Formula,
    forms: List<List<u32>>,
) -> Result<List<List<u32>>, Memory>
    requires distinct { IsDistinct (pointwise nat_eq) names.old.keys }
    ensures lists { (texts : Lst (Lst Text)) → AreListsOf names.old.keys forms texts
        → IfOk result (λ lists.
        AreListsOf names.new.keys lists (names_joined (alternative_names premise.now) texts)) }
    ensures longer { IsLonger names.old.keys names.new.keys }
    ensures distinct { IsDistinct (pointwise nat_eq) names.new.keys }
{
    let guards = alternatives(alloc, names, premise)?;
    joined(alloc, guards, forms)
}

#[cycle(variables)]
fn variables_of_each(
    alloc: Global,
    names: &mut IndexSet<Name>,
    members: &[Formula],
) -> Result<List<List<u32>>, Memory>
    requires distinct { IsDistinct (pointwise nat_eq) names.old.keys }
    ensures lists { IfOk result (λ lists.
        AreListsOf names.new.keys lists (universal_names_in members.now)) }
    ensures longer { IsLonger names.old.keys names.new.keys }
    ensures distinct { IsDistinct (pointwise nat_eq) names.new.keys }
{
    let mut all = List::new(alloc);
    for member in members {
        let more = variables_of(alloc, names, member)?;
        all.append(more)?;
    }
    Ok(all)
}

/// The names of the universal variables of each form that a formula is read as, as numbers of
/// names: new ones go behind those that are there. `Memory` is want of memory, or of numbers of 32
/// bits; then some of them may be there.
#[cycle(variables)]
pub(crate) fn variables_of(
    alloc: Global,
    names: &mut IndexSet<Name>,
    formula: &Formula,
) -> Result<List<List<u32>>, Memory>
    requires distinct { IsDistinct (pointwise nat_eq) names.old.keys }
    ensures variables { IfOk result (λ lists.
        map (map (name_at names.new.keys)) lists ≡ universal_names formula.now) }
    ensures there { IfOk result (λ lists.
        AllByRecursion (AllByRecursion (λ n. n < length names.new.keys)) lists) }
    ensures extends { (more : Lst Text) × (names.new.keys ≡ names.old.keys ++ more) }
    ensures distinct { IsDistinct (pointwise nat_eq) names.new.keys }
{
    match formula {
        Formula::ForAll(variables, body) => {
            let inner = variables_of(alloc, names, body.get())?;
            bound(alloc, names, variables.as_slice(), inner)
        }
        Formula::Binary(op, left, right) => match op {
            Op::Implies => {
                let forms = variables_of(alloc, names, right.get())?;
                guarded(alloc, names, left.get(), forms)
            }
            Op::Implied => {
                let forms = variables_of(alloc, names, left.get())?;
                guarded(alloc, names, right.get(), forms)
            }
            Op::Iff => {
                let forms = variables_of(alloc, names, right.get())?;
                let mut all = guarded(alloc, names, left.get(), forms)?;
                let forms = variables_of(alloc, names, left.get())?;
                all.append(guarded(alloc, names, right.get(), forms)?)?;
                Ok(all)
            }
            _ => single(alloc, List::new(alloc)),
        },
        Formula::And(members) => {
            if are_plain(members.as_slice()) {
                return single(alloc, List::new(alloc));
            }
            variables_of_each(alloc, names, members.as_slice())
        }
        _ => single(alloc, List::new(alloc)),
    }
}
