ghost use Rattle.std.specs.Prelude.{◌≡◌, ◌<◌, ◌+◌, ◌^◌, ◌++◌, IfOk};
ghost use Rattle.std.specs.Fmt.{decimal};
ghost use Rattle.coherent_form.specs.ElementNames as element_names;

use signature::Tables;
use std::alloc::Global;
use text_core::{Bytes, Memory, Name};

fn leading(name: &[u8]) -> usize
    ensures value { result ≡ element_names.leading name.now }
    ensures few { result < 2 ^ 63 }
{
    let mut count = 0;
    for byte in name {
        if *byte != b'w' {
            return count;
        }
        count += 1;
    }
    count
}

/// The number of letters w of the shortest word of them with which no constant begins.
pub(crate) fn prefix_letters(tables: &Tables) -> usize
    ensures { result ≡ element_names.most_leading tables.now.constants + 1 }
{
    let mut most = 0;
    for constant in 0..tables.constants() {
        let count = leading(tables.constant_name(constant).bytes());
        if most < count {
            most = count;
        }
    }
    most + 1
}

/// So many letters w and a number in decimal. `Memory` is want of memory.
pub(crate) fn numbered_element(alloc: Global, letters: usize, number: u32) -> Result<Name, Memory>
    ensures { IfOk result (λ name. name ≡ element_names.letters letters ++ decimal number) }
{
    let mut bytes = Bytes::new(alloc);
    for _ in 0..letters {
        bytes.push(b'w')?;
    }
    let digits = number.to_string(alloc)?;
    bytes.extend_from_slice(digits.as_bytes())?;
    Name::from_bytes(alloc, bytes.as_slice())
}
