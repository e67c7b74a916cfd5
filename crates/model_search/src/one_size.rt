ghost use Rattle.std.specs.Prelude.{◌≡◌, ◌≤◌, IfOk, IfSome, IfNone, OnOk};
ghost use Rattle.model_search.specs.Candidates.{Candidate};
ghost use Rattle.model_search.specs.Orders.{IsFair};
ghost use Rattle.model_search.specs.Rules.{SuitsForm, SuitsRules};
ghost use Rattle.model_search.specs.Rounds.{HasSize};
ghost use Rattle.model_search.specs.Sheets.{GoesIf, IsSuited};

use crate::choices::choices;
use crate::find::MOST_SOUGHT;
use crate::formed::are_formed;
use crate::found::Found;
use crate::instance::add_instance;
use crate::near::add_near;
use crate::order::add_order;
use crate::places::add_places;
use crate::read_off::read_off;
use crate::rule::Rule;
use crate::sheet::Sheet;
use crate::violated::violated;
use clause_solver::Answer;
use coherent_form::Task;
use finite_model::Model;
use logic_core::Form;
use std::alloc::Global;
use text_core::Memory;

/// A form has all its instances made at once where they are at most so many.
const MOST_AT_ONCE: u64 = 20_000;

/// All forms together have at most so many made at once.
const MOST_AT_FIRST: u64 = 1_000_000;

/// The greatest number of looks for instances of a form, once one of an earlier form is there.
const FEWER_LOOKS: u64 = 1_000_000;

/// The greatest number of rounds of one size.
const MOST_ROUNDS: u32 = 1_000_000;

/// Values of the universal variables of a rule's form, by the rule's number.
#[derive(Drop)]
struct Batch {
    rule: usize,
    instances: Vec<Vec<u32>>,
}

/// What a look at the solver's values gave: a structure, or instances that are not true in it, with
/// the elements of the constants.
#[derive(Drop)]
enum Round {
    Model(Model),
    Batches {
        places: Vec<u32>,
        batches: Vec<Batch>,
    },
}

/// Puts the elements of a choice, told by its number, to the variables and the constants.
fn spread(
    number: u64,
    size: u32,
    values: &mut Vec<u32>,
    universals: u32,
    places: &mut Vec<u32>,
    constants: &[u32],
) -> Result<(), Memory> {
    let base = u64::from(size);
    if base == 0 {
        return Err(Memory);
    }
    let mut rest = number;
    values.clear();
    for _ in 0..universals {
        values.push((rest % base) as u32)?;
        rest /= base;
    }
    for constant in constants {
        if let Some(place) = places.get_mut(*constant as usize) {
            *place = (rest % base) as u32;
        }
        rest /= base;
    }
    Ok(())
}

/// Adds the clauses of this many instances of a rule's form.
fn add_first(
    alloc: Global,
    sheet: &mut Sheet,
    rule: &Rule<'_>,
    places: &mut Vec<u32>,
    size: u32,
    count: u64,
) -> Result<(), Memory>
    ensures { OnOk result (GoesIf (SuitsForm size rule.now.form.now) sheet.old sheet.new) }
{
    let mut values = Vec::new(alloc);
    for number in 0..count {
        let constants = rule.constants.as_slice();
        spread(
            number,
            size,
            &mut values,
            rule.form.universals,
            places,
            constants,
        )?;
        add_instance(
            alloc,
            sheet,
            rule.form,
            &mut values,
            places.as_slice(),
            size,
        )?;
    }
    Ok(())
}

/// How many instances of a rule's form are made at once: all, or none.
fn first_count(rule: &Rule<'_>, size: u32, room: u64) -> u64 {
    let constants = rule.constants.len();
    if constants > 32 || rule.form.universals > 64 {
        return 0;
    }
    let variables = rule.form.universals + constants as u32;
    match choices(size, variables, MOST_AT_ONCE) {
        Some(count) => { if count <= room { count } else { 0 } }
        None => 0,
    }
}

/// Adds the clauses of all instances of the forms that have few.
fn add_firsts(
    alloc: Global,
    sheet: &mut Sheet,
    rules: &[Rule<'_>],
    count: u32,
    size: u32,
) -> Result<(), Memory>
    ensures { OnOk result (GoesIf (SuitsRules size rules.now) sheet.old sheet.new) }
{
    let mut places = Vec::new(alloc);
    for _ in 0..count {
        places.push(0)?;
    }
    let mut room = MOST_AT_FIRST;
    for rule in rules {
        let first = first_count(rule, size, room);
        room = room.saturating_sub(first);
        add_first(alloc, sheet, rule, &mut places, size, first)?;
    }
    Ok(())
}

/// What the solver's values tell.
fn look(
    alloc: Global,
    task: &Task,
    sheet: &Sheet,
    rules: &[Rule<'_>],
    size: u32,
) -> Result<Round, Memory>
    requires some { 1 ≤ size }
    requires few { size ≤ MOST_SOUGHT }
    ensures { IfOk result (HasSize size) }
{
    let found = Found::new(alloc, sheet, task.start_elements())?;
    let mut batches = Vec::new(alloc);
    let mut looks = u64::MAX;
    for (number, rule) in rules.iter().enumerate() {
        let instances = violated(alloc, rule, &found, size, looks)?;
        if !instances.is_empty() {
            looks = FEWER_LOOKS;
            batches.push(Batch {
                rule: number,
                instances,
            })?;
        }
    }
    if batches.is_empty() {
        return Ok(Round::Model(read_off(alloc, task.tables(), &found, size)?));
    }
    Ok(Round::Batches {
        places: found.places,
        batches,
    })
}

/// Adds the clauses of instances of a form.
fn add_instances(
    alloc: Global,
    sheet: &mut Sheet,
    form: &Form,
    instances: &[Vec<u32>],
    places: &[u32],
    size: u32,
) -> Result<(), Memory>
    ensures { OnOk result (GoesIf (SuitsForm size form.now) sheet.old sheet.new) }
{
    for instance in instances {
        let mut values = Vec::from_slice(alloc, instance.as_slice())?;
        add_instance(alloc, sheet, form, &mut values, places, size)?;
    }
    Ok(())
}

/// Adds the clauses of the instances of several forms.
fn add_batches(
    alloc: Global,
    sheet: &mut Sheet,
    rules: &[Rule<'_>],
    batches: &[Batch],
    places: &[u32],
    size: u32,
) -> Result<(), Memory>
    ensures { OnOk result (GoesIf (SuitsRules size rules.now) sheet.old sheet.new) }
{
    for batch in batches {
        let Some(rule) = rules.get(batch.rule) else {
            return Err(Memory);
        };
        let instances = batch.instances.as_slice();
        add_instances(alloc, sheet, rule.form, instances, places, size)?;
    }
    Ok(())
}

/// The clauses on so many constants and parameters. They are put in order, and witnesses near them,
/// where the rules' forms are well-formed.
fn first_sheet(alloc: Global, rules: &[Rule<'_>], count: u32, size: u32) -> Result<Sheet, Memory>
    ensures { IfOk result (IsFair size rules.now) }
{
    let mut sheet = Sheet::new(alloc)?;
    add_places(&mut sheet, count, size)?;
    if !are_formed(rules, count) {
        return Ok(sheet);
    }
    add_order(&mut sheet, count, size)?;
    add_near(alloc, &mut sheet, rules, count, size)?;
    Ok(sheet)
}

/// A structure of this size that may be a countermodel; `None` where no candidate of this size
/// suits the rules. `Memory` is want of memory, or where there are too many options or rounds.
pub(crate) fn find_of_size(
    alloc: Global,
    task: &Task,
    rules: &[Rule<'_>],
    size: u32,
) -> Result<Option<Model>, Memory>
    requires some { 1 ≤ size }
    requires few { size ≤ MOST_SOUGHT }
    ensures some { IfOk result (λ found. IfSome found (λ model. model.size ≡ size)) }
    ensures none { IfOk result (λ found. IfNone found
        ((c : Candidate) → SuitsRules size rules.now c → ⊥)) }
{
    let count = task.start_elements();
    let mut sheet = first_sheet(alloc, rules, count, size)?;
    add_firsts(alloc, &mut sheet, rules, count, size)?;
    for _ in 0..MOST_ROUNDS {
        match sheet.solve()? {
            Answer::None => return Ok(None),
            Answer::Values => {}
        }
        match look(alloc, task, &sheet, rules, size)? {
            Round::Model(model) => return Ok(Some(model)),
            Round::Batches { places, batches } => {
                let list = batches.as_slice();
                add_batches(alloc, &mut sheet, rules, list, places.as_slice(), size)?;
            }
        }
    }
    Err(Memory)
}
