ghost use Rattle.calc_addr.specs.Shifts.{area_after_deletion, area_after_insertion};
ghost use Rattle.calc_names.specs.LookUps.{answer_of};
ghost use Rattle.calc_names.specs.Kept.{answer_on_sheet, kept_on_sheet};
ghost use Rattle.std.specs.Prelude.{◌+◌, ◌≡◌, ◌≤◌};

use calc_addr::{Area, LAST_ROW, delete_row_area, insert_row_area};
use calc_model::{Looked, Text};

/// Moves the areas of a sheet where rows are inserted.
pub(crate) fn insert_rows(entries: &mut [(Text, Looked)], sheet: u8, place: u32, count: u32)
    requires from { 1 ≤ place }
    requires some { 1 ≤ count }
    requires to { place + count ≤ LAST_ROW + 1 }
    ensures { entries.new ≡ kept_on_sheet sheet (area_after_insertion place count) entries.old }
{
    for entry in entries.iter_mut() {
        entry.1 = after_insertion(entry.1, sheet, place, count);
    }
}

/// Moves the areas of a sheet where rows are deleted.
pub(crate) fn delete_rows(entries: &mut [(Text, Looked)], sheet: u8, place: u32, count: u32)
    requires from { 1 ≤ place }
    requires some { 1 ≤ count }
    requires to { place + count ≤ LAST_ROW + 1 }
    ensures { entries.new ≡ kept_on_sheet sheet (area_after_deletion place count) entries.old }
{
    for entry in entries.iter_mut() {
        entry.1 = after_deletion(entry.1, sheet, place, count);
    }
}

fn after_insertion(looked: Looked, sheet: u8, place: u32, count: u32) -> Looked
    requires from { 1 ≤ place }
    requires some { 1 ≤ count }
    requires to { place + count ≤ LAST_ROW + 1 }
    ensures { result ≡ answer_on_sheet sheet (area_after_insertion place count) looked }
{
    match looked {
        Looked::At(area) if area.sheet == sheet => answer(insert_row_area(area, place, count)),
        _ => looked,
    }
}

fn after_deletion(looked: Looked, sheet: u8, place: u32, count: u32) -> Looked
    requires from { 1 ≤ place }
    requires some { 1 ≤ count }
    requires to { place + count ≤ LAST_ROW + 1 }
    ensures { result ≡ answer_on_sheet sheet (area_after_deletion place count) looked }
{
    match looked {
        Looked::At(area) if area.sheet == sheet => answer(delete_row_area(area, place, count)),
        _ => looked,
    }
}

/// What a look-up gives of a name with that area, or with none where it was deleted.
fn answer(area: Option<Area>) -> Looked
    ensures { result ≡ answer_of area }
{
    match area {
        Some(area) => Looked::At(area),
        None => Looked::Gone,
    }
}
