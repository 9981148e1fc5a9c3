ghost use Rattle.calc_addr.specs.Shifts.{area_after_deletion, area_after_insertion, has_all_rows, reference_after_deletion, reference_after_insertion};
ghost use Rattle.std.specs.Prelude.{◌+◌, ◌≡◌, ◌≤◌};

use crate::cell::{Area, LAST_ROW};
use crate::reference::Ref;

/// A reference after rows were inserted at a place of its sheet, or None where it is deleted.
pub fn insert_row_ref(r: Ref, place: u32, count: u32) -> Option<Ref>
    requires from { 1 ≤ place }
    requires some { 1 ≤ count }
    requires to { place + count ≤ LAST_ROW + 1 }
    ensures { result ≡ reference_after_insertion place count r }
{
    let area = insert_row_area(r.area, place, count)?;
    Some(Ref { area, ..r })
}

/// A reference after rows from a place of its sheet on were deleted, or None where it is deleted.
pub fn delete_row_ref(r: Ref, place: u32, count: u32) -> Option<Ref>
    requires from { 1 ≤ place }
    requires some { 1 ≤ count }
    requires to { place + count ≤ LAST_ROW + 1 }
    ensures { result ≡ reference_after_deletion place count r }
{
    let area = delete_row_area(r.area, place, count)?;
    Some(Ref { area, ..r })
}

/// An area after rows were inserted at a place of its sheet, or None where it is deleted.
pub fn insert_row_area(area: Area, place: u32, count: u32) -> Option<Area>
    requires from { 1 ≤ place }
    requires some { 1 ≤ count }
    requires to { place + count ≤ LAST_ROW + 1 }
    ensures { result ≡ area_after_insertion place count area }
{
    if has_all_rows(area) {
        return Some(area);
    }
    let moved = |row: u32| if row < place { row } else { row + count };
    let first_row = moved(area.first_row);
    if first_row > LAST_ROW {
        return None;
    }
    Some(Area {
        first_row,
        last_row: moved(area.last_row).min(LAST_ROW),
        ..area
    })
}

/// An area after rows from a place of its sheet on were deleted, or None where it is deleted.
pub fn delete_row_area(area: Area, place: u32, count: u32) -> Option<Area>
    requires from { 1 ≤ place }
    requires some { 1 ≤ count }
    requires to { place + count ≤ LAST_ROW + 1 }
    ensures { result ≡ area_after_deletion place count area }
{
    if has_all_rows(area) {
        return Some(area);
    }
    let after = place + count;
    if place <= area.first_row && area.last_row < after {
        return None;
    }
    let moved = |row: u32, end: u32| {
        if row < place {
            row
        } else if row < after {
            end
        } else {
            row - count
        }
    };
    Some(Area {
        first_row: moved(area.first_row, place),
        last_row: moved(area.last_row, place - 1),
        ..area
    })
}

fn has_all_rows(area: Area) -> bool
    ensures { result ≡ has_all_rows area }
{
    area.first_row == 1 && area.last_row == LAST_ROW
}
