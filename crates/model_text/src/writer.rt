ghost use Rattle.std.specs.Prelude.{◌≡◌, ◌++◌, codes, OnOk, IfOk};
ghost use Rattle.std.specs.List.{flat_map, AllByRecursion};
ghost use Rattle.model_text.specs.Canonical as canonical;
ghost use Rattle.model_text.specs.Named.{PlaceIsNamed, FactIsNamed};
ghost use Rattle.model_text.specs.Structures.{IsSound};
ghost use Rattle.model_text.specs.Texts.{IsModelOf};

use crate::number::put_number;
use crate::structure::{Fact, Model, Place};
use std::alloc::Global;
use text_core::{Bytes, Memory};
use tptp_lexer::put_word;

// Appends the place of a constant.
fn put_place(alloc: Global, place: &Place, out: &mut Bytes) -> Result<(), Memory>
    ensures text { OnOk result (out.new ≡ out.old ++ canonical.place_text place.now) }
    ensures named { OnOk result (PlaceIsNamed place.now) }
{
    out.extend_from_slice(b"place ")?;
    put_word(&place.constant, out)?;
    out.extend_from_slice(b" is ")?;
    put_number(alloc, place.element, out)?;
    out.extend_from_slice(b".\n")
}

// Appends places.
fn put_places(alloc: Global, places: &[Place], out: &mut Bytes) -> Result<(), Memory>
    ensures text { OnOk result (out.new ≡ out.old ++ flat_map canonical.place_text places.now) }
    ensures named { OnOk result (AllByRecursion PlaceIsNamed places.now) }
{
    for place in places {
        put_place(alloc, place, out)?;
    }
    Ok(())
}

// Appends further arguments, each behind a comma.
fn put_further(alloc: Global, arguments: &[u32], out: &mut Bytes) -> Result<(), Memory>
    ensures { OnOk result (out.new ≡ out.old ++ flat_map canonical.further_text arguments.now) }
{
    for argument in arguments {
        out.push(b',')?;
        put_number(alloc, *argument, out)?;
    }
    Ok(())
}

// Appends the arguments of a fact in brackets, and nothing where there are none.
fn put_arguments(alloc: Global, arguments: &[u32], out: &mut Bytes) -> Result<(), Memory>
    ensures { OnOk result (out.new ≡ out.old ++ canonical.arguments_text arguments.now) }
{
    match arguments {
        [] => Ok(()),
        [first, rest @ ..] => {
            out.push(b'(')?;
            put_number(alloc, *first, out)?;
            put_further(alloc, rest, out)?;
            out.push(b')')
        }
    }
}

// Appends a fact.
fn put_fact(alloc: Global, fact: &Fact, out: &mut Bytes) -> Result<(), Memory>
    ensures text { OnOk result (out.new ≡ out.old ++ canonical.fact_text fact.now) }
    ensures named { OnOk result (FactIsNamed fact.now) }
{
    out.extend_from_slice(b"fact ")?;
    put_word(&fact.predicate, out)?;
    put_arguments(alloc, fact.arguments.as_slice(), out)?;
    out.extend_from_slice(b".\n")
}

// Appends facts.
fn put_facts(alloc: Global, facts: &[Fact], out: &mut Bytes) -> Result<(), Memory>
    ensures text { OnOk result (out.new ≡ out.old ++ flat_map canonical.fact_text facts.now) }
    ensures named { OnOk result (AllByRecursion FactIsNamed facts.now) }
{
    for fact in facts {
        put_fact(alloc, fact, out)?;
    }
    Ok(())
}

// Appends a structure.
fn put_model(alloc: Global, model: &Model, out: &mut Bytes) -> Result<(), Memory>
    ensures text { OnOk result (out.new ≡ out.old ++ canonical.model_text model.now) }
    ensures places { OnOk result (AllByRecursion PlaceIsNamed model.now.places) }
    ensures facts { OnOk result (AllByRecursion FactIsNamed model.now.facts) }
    ensures sound { OnOk result (IsSound model.now) }
{
    out.extend_from_slice(b"model 1.\nsize ")?;
    put_number(alloc, model.size(), out)?;
    out.extend_from_slice(b".\n")?;
    put_places(alloc, model.places().as_slice(), out)?;
    put_facts(alloc, model.facts().as_slice(), out)?;
    Ok(())
}

/// The canonical text of a structure, which spells the same structure. `Memory` is want of memory.
pub fn write_model(alloc: Global, model: &Model) -> Result<Bytes, Memory>
    ensures text { IfOk result (λ bytes. bytes ≡ canonical.model_text model.now) }
    // The text spells the same structure.
    ensures reads_back { IfOk result (λ bytes. IsModelOf bytes model.now) }
{
    let mut out = Bytes::new(alloc);
    put_model(alloc, model, &mut out)?;
    Ok(out)
}
