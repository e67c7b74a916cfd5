ghost use Rattle.std.specs.Prelude.{◌≡◌, ◌<◌, ◌≤◌, ◌+◌, ◌==◌, ◌++◌, map, codes, length, IfOk};
ghost use Rattle.std.specs.List.{AllByRecursion};
ghost use Rattle.std.specs.Fmt.{decimal};
ghost use Rattle.coherent_form.specs.Kept.{name_at};
ghost use Rattle.coherent_form.specs.Labels.{how_many, label_of};

use crate::label::Label;
use indexmap::IndexSet;
use std::alloc::Global;
use text_core::{Bytes, Memory, Name};

fn how_often(numbers: &[u32], number: u32) -> usize
    ensures value { result ≡ how_many (λ other. other == number) numbers.now }
    ensures few { result ≤ length numbers.now }
{
    let mut count = 0;
    for other in numbers {
        if *other == number {
            count += 1;
        }
    }
    count
}

/// The label of one of the variables whose names have these numbers. `Memory` is want of memory.
pub(crate) fn label_among(
    alloc: Global,
    names: &IndexSet<Name>,
    numbers: &[u32],
    variable: u32,
) -> Result<Label, Memory>
    requires named { AllByRecursion (λ n. n < length names.now.keys) numbers.now }
    requires there { variable < length numbers.now }
    requires few { variable < 4294967295 }
    ensures { IfOk result (λ label.
        label ≡ label_of (map (name_at names.now.keys) numbers.now) variable) }
{
    let number = numbers[variable as usize];
    let name = names.as_slice()[number as usize].try_copy(alloc)?;
    let rank = how_often(&numbers[..variable as usize], number) as u32 + 1;
    Ok(Label { name, rank })
}

/// The label of a variable of a built-in axiom. `Memory` is want of memory.
pub(crate) fn built_in_label(alloc: Global, variable: u32) -> Result<Label, Memory>
    ensures { IfOk result (λ label.
        label ≡ record { name = codes "V" ++ decimal variable; rank = 1 }) }
{
    let mut bytes = Bytes::new(alloc);
    bytes.push(b'V')?;
    let digits = variable.to_string(alloc)?;
    bytes.extend_from_slice(digits.as_bytes())?;
    let name = Name::from_bytes(alloc, bytes.as_slice())?;
    Ok(Label { name, rank: 1 })
}
