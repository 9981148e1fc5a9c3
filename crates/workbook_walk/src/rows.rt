//! Inserted and deleted rows, by the rule of a sheet.
use crate::pieces::{End, Piece, Reference};
use crate::places::{LAST_ROW, LAST_SHEET, Part, Place};

/// Rows that come before a row of a sheet, or go from it on.
#[derive(Clone, Copy, Debug)]
pub(crate) struct RowEdit {
    pub(crate) inserts: bool,
    pub(crate) sheet: u8,
    pub(crate) place: u32,
    pub(crate) count: u32,
}

impl RowEdit {
    /// Whether no such rows lie in a sheet.
    pub(crate) fn is_off_sheet(&self) -> bool {
        self.sheet > LAST_SHEET
            || self.place == 0
            || self.count == 0
            || self.place.saturating_add(self.count) > LAST_ROW + 1
    }

    /// Whether a row of the edited sheet goes.
    fn deletes(&self, row: u32) -> bool {
        !self.inserts && self.place <= row && row < self.place.saturating_add(self.count)
    }

    /// Where a row of the edited sheet comes that stays.
    fn row_after(&self, row: u32) -> u32 {
        if row < self.place {
            row
        } else if self.inserts {
            row.saturating_add(self.count)
        } else {
            row.saturating_sub(self.count)
        }
    }

    /// Where a cell comes, if it stays.
    pub(crate) fn place_after(&self, place: &Place) -> Option<Place> {
        let (sheet, col, row) = *place;
        if sheet != self.sheet {
            return Some(*place);
        }
        if self.deletes(row) {
            return None;
        }
        Some((sheet, col, self.row_after(row)))
    }

    /// The first and the last row of an area of the edited sheet afterwards, if a row of it stays.
    fn ends_after(&self, first: u32, last: u32) -> Option<(u32, u32)> {
        if first == 1 && last == LAST_ROW {
            return Some((first, last));
        }
        if self.deletes(first) && self.deletes(last) {
            return None;
        }
        let first_after = if self.deletes(first) {
            self.place
        } else {
            self.row_after(first)
        };
        let last_after = if self.deletes(last) {
            self.place.saturating_sub(1)
        } else {
            self.row_after(last)
        };
        if first_after > LAST_ROW {
            return None;
        }
        Some((first_after, last_after.min(LAST_ROW)))
    }

    /// An area of any sheet afterwards.
    pub(crate) fn part_after(&self, part: &Part) -> Option<Part> {
        let (sheet, left, right, first, last) = *part;
        if sheet != self.sheet {
            return Some(*part);
        }
        let (first, last) = self.ends_after(first, last)?;
        Some((sheet, left, right, first, last))
    }

    fn reference_after(&self, reference: &Reference) -> Option<Reference> {
        let (first, last) = self.ends_after(reference.first_row.at, reference.last_row.at)?;
        Some(Reference {
            first_row: End {
                at: first,
                marked: reference.first_row.marked,
            },
            last_row: End {
                at: last,
                marked: reference.last_row.marked,
            },
            ..*reference
        })
    }

    /// A piece of a formula of a sheet afterwards.
    pub(crate) fn piece_after(&self, piece: &Piece, home: u8) -> Piece {
        match piece {
            Piece::Reference(reference) if reference.sheet.unwrap_or(home) == self.sheet => {
                match self.reference_after(reference) {
                    Some(after) => Piece::Reference(after),
                    None => Piece::Gone,
                }
            }
            _ => *piece,
        }
    }
}
