//! Cells and areas as plain numbers.
use calc_addr::{Area, Cell};

pub(crate) const LAST_ROW: u32 = 1_048_576;

pub(crate) const LAST_COL: u16 = 1_024;

pub(crate) const LAST_SHEET: u8 = 15;

/// A cell by sheet, column and row.
pub(crate) type Place = (u8, u16, u32);

/// An area by sheet, first and last column, first and last row.
pub(crate) type Part = (u8, u16, u16, u32, u32);

/// The cell, if it lies in a sheet.
pub(crate) fn cell_of(place: &Place) -> Option<Cell> {
    let (sheet, col, row) = *place;
    if sheet > LAST_SHEET || col == 0 || col > LAST_COL || row == 0 || row > LAST_ROW {
        return None;
    }
    Some(Cell { sheet, col, row })
}

/// The area, if its ends are in order and lie in a sheet.
pub(crate) fn area_of(part: &Part) -> Option<Area> {
    let (sheet, first_col, last_col, first_row, last_row) = *part;
    if sheet > LAST_SHEET
        || first_col == 0
        || first_col > last_col
        || last_col > LAST_COL
        || first_row == 0
        || first_row > last_row
        || last_row > LAST_ROW
    {
        return None;
    }
    Some(Area {
        sheet,
        first_col,
        last_col,
        first_row,
        last_row,
    })
}

pub(crate) fn meet(a: &Part, b: &Part) -> bool {
    a.0 == b.0 && a.1 <= b.2 && b.1 <= a.2 && a.3 <= b.4 && b.3 <= a.4
}

pub(crate) fn has(part: &Part, place: &Place) -> bool {
    let (sheet, col, row) = *place;
    meet(part, &(sheet, col, col, row, row))
}
