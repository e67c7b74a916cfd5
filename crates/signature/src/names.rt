ghost use Rattle.std.specs.Prelude.{◌≡◌, ◌<◌, nat_eq, length, IfOk, OnOk, OnErr};
ghost use Rattle.std.specs.List.{IsDistinct};
ghost use Rattle.std.specs.Cmp.Lexicographic.{pointwise};
ghost use Rattle.signature.specs.Columns.{name_number, found_name, with_name};

use indexmap::IndexSet;
use std::alloc::Global;
use text_core::{Memory, Name};

/// The number of a name, which goes last if it is new. `Memory` is want of memory, and the names
/// are as before.
pub fn number_of(alloc: Global, names: &mut IndexSet<Name>, name: &Name) -> Result<u32, Memory>
    requires few { length names.old.keys < 4294967295 }
    requires distinct { IsDistinct (pointwise nat_eq) names.old.keys }
    ensures number { IfOk result (λ number. number ≡ name_number names.old.keys name.now) }
    ensures ok { OnOk result (names.new.keys ≡ with_name names.old.keys name.now) }
    ensures err { OnErr result (names.new.keys ≡ names.old.keys) }
    ensures distinct { IsDistinct (pointwise nat_eq) names.new.keys }
{
    match names.get_index_of(name) {
        Some(number) => Ok(number as u32),
        None => {
            let copy = name.try_copy(alloc)?;
            let (number, _) = names.insert_full(copy)?;
            Ok(number as u32)
        }
    }
}

/// The number of a name that is there.
pub fn found(names: &IndexSet<Name>, name: &Name) -> Option<u32>
    requires { length names.now.keys < 4294967296 }
    ensures { result ≡ found_name names.now.keys name.now }
{
    match names.get_index_of(name) {
        Some(number) => Some(number as u32),
        None => None,
    }
}
