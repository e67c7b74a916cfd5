ghost use Rattle.std.specs.Prelude.{◌<◌, OnOk};
ghost use Rattle.model_search.specs.Candidates.{Candidate};
ghost use Rattle.model_search.specs.Rules.{IsPlacedBelow};
ghost use Rattle.model_search.specs.Sheets.{IsSuited, GoesIf};

use crate::key::Key;
use crate::sheet::Sheet;
use text_core::Memory;

/// The clause that a constant or parameter stands for some element.
fn add_some(sheet: &mut Sheet, constant: u32, size: u32) -> Result<(), Memory>
    ensures { OnOk result (GoesIf (IsPlacedBelow size) sheet.old sheet.new) }
{
    sheet.begin();
    for element in 0..size {
        sheet.add(Key::Place { constant, element }, true)?;
    }
    sheet.finish()
}

/// The clause that a constant or parameter does not stand for two elements.
fn add_not_both(sheet: &mut Sheet, constant: u32, one: u32, other: u32) -> Result<(), Memory>
    requires { one < other }
    ensures { OnOk result ((c : Candidate) → IsSuited c sheet.old → IsSuited c sheet.new) }
{
    sheet.begin();
    sheet.add(
        Key::Place {
            constant,
            element: one,
        },
        false,
    )?;
    sheet.add(
        Key::Place {
            constant,
            element: other,
        },
        false,
    )?;
    sheet.finish()
}

/// The clauses that a constant or parameter stands for one element.
fn add_place(sheet: &mut Sheet, constant: u32, size: u32) -> Result<(), Memory>
    ensures { OnOk result (GoesIf (IsPlacedBelow size) sheet.old sheet.new) }
{
    add_some(sheet, constant, size)?;
    for other in 0..size {
        for one in 0..other {
            add_not_both(sheet, constant, one, other)?;
        }
    }
    Ok(())
}

/// The clauses that each constant and each parameter, of so many, stands for one element.
pub(crate) fn add_places(sheet: &mut Sheet, count: u32, size: u32) -> Result<(), Memory>
    ensures { OnOk result (GoesIf (IsPlacedBelow size) sheet.old sheet.new) }
{
    for constant in 0..count {
        add_place(sheet, constant, size)?;
    }
    Ok(())
}
