ghost use Rattle.std.specs.Prelude.{◌≡◌, ◌++◌, OnOk};

use std::alloc::Global;
use text_core::{List, Memory, Name};

/// Puts the variables of a quantifier into scope.
pub(crate) fn bind(alloc: Global, scope: &mut List<Name>, names: &[Name]) -> Result<(), Memory>
    ensures { OnOk result (scope.new ≡ scope.old ++ names.now) }
{
    for name in names {
        scope.push(name.try_copy(alloc)?)?;
    }
    Ok(())
}
