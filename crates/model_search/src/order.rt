ghost use Rattle.std.specs.Prelude.{◌≤◌, min, OnOk};
ghost use Rattle.model_search.specs.Orders.{Follows, IsOrdered};
ghost use Rattle.model_search.specs.Sheets.{GoesIf};

use crate::key::Key;
use crate::sheet::Sheet;
use text_core::Memory;

/// So many constants and parameters are put in order at most.
const MOST_ORDERED: u32 = 64;

/// The clause that a constant stands for this element only where an earlier one stands for the
/// element before it.
fn add_follows(sheet: &mut Sheet, constant: u32, element: u32) -> Result<(), Memory>
    requires { 1 ≤ element }
    ensures { OnOk result (GoesIf (Follows constant) sheet.old sheet.new) }
{
    sheet.begin();
    sheet.add(Key::Place { constant, element }, false)?;
    let element = element - 1;
    for earlier in 0..constant {
        let constant = earlier;
        sheet.add(Key::Place { constant, element }, true)?;
    }
    sheet.finish()
}

/// The clauses that a constant stands for an element behind another only where an earlier one
/// stands for that one.
fn add_each_follows(sheet: &mut Sheet, constant: u32, size: u32) -> Result<(), Memory>
    ensures { OnOk result (GoesIf (Follows constant) sheet.old sheet.new) }
{
    for element in 1..size {
        add_follows(sheet, constant, element)?;
    }
    Ok(())
}

/// The clauses that the first of so many constants and parameters are in order.
pub(crate) fn add_order(sheet: &mut Sheet, count: u32, size: u32) -> Result<(), Memory>
    ensures { OnOk result (GoesIf (IsOrdered count) sheet.old sheet.new) }
{
    for constant in 0..count.min(MOST_ORDERED) {
        add_each_follows(sheet, constant, size)?;
    }
    Ok(())
}
