ghost use Rattle.std.specs.Prelude.{◌≡◌, ◌++◌, OnOk};
ghost use Rattle.std.specs.Fmt.{decimal};
ghost use Rattle.model_text.specs.Numbers as numbers;

use std::alloc::Global;
use text_core::{Bytes, Memory};

/// Whether the text begins with a sign.
pub(crate) fn is_signed(text: &[u8]) -> bool
    ensures { result ≡ numbers.is_signed text.now }
{
    match text {
        [] => false,
        [first, ..] => *first == b'+' || *first == b'-',
    }
}

/// The number that digits write, where it is below 2 ^ 32; `None` where it is not.
pub(crate) fn number_in(text: &[u8]) -> Option<u32>
    ensures { result ≡ numbers.number_in text.now }
{
    let mut number = 0;
    for byte in text {
        number = number_after(number, *byte)?;
    }
    Some(number)
}

// The number with one more digit, where it is below 2 ^ 32.
fn number_after(number: u32, byte: u8) -> Option<u32>
    ensures { result ≡ numbers.number_next number byte }
{
    number
        .checked_mul(10)?
        .checked_add(u32::from(byte.saturating_sub(b'0')))
}

/// Appends a number in decimal. `Memory` is want of memory.
pub(crate) fn put_number(alloc: Global, number: u32, out: &mut Bytes) -> Result<(), Memory>
    ensures { OnOk result (out.new ≡ out.old ++ decimal number) }
{
    let digits = number.to_string(alloc)?;
    out.extend_from_slice(digits.as_bytes())
}
