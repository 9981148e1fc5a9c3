//! Edits of a plain book.
use crate::book::{Book, Held, HeldCell, NamedPart};
use crate::generated::generated;
use crate::places::{LAST_COL, LAST_ROW, Part, Place, has};
use crate::rows::RowEdit;
use calc_model::EditCause;
use std::alloc::{AllocError, Global};

/// Names that aren't spelled as names are.
pub(crate) const BAD_NAMES: [&str; 4] = ["", "b2", "2x", "a b"];

/// An edit.
#[derive(Debug, Drop)]
pub(crate) enum Change {
    Set { place: Place, held: Option<Held> },
    Clear { part: Part },
    Copy { part: Part, to: Place },
    Fill { from: Place, part: Part },
    Rows { rows: RowEdit },
    Name { name: &'static str, part: Part },
    Unname { name: &'static str },
    Make { start: u32, rows: u32 },
    /// The book is loaded anew, with the names whose areas weren't deleted.
    Load,
}

impl Book {
    /// Makes an edit, or says why it is refused.
    pub(crate) fn apply(
        &mut self,
        alloc: Global,
        change: &Change,
    ) -> Result<Option<EditCause>, AllocError> {
        match change {
            Change::Set { place, held } => self.set(alloc, place, held.as_ref()),
            Change::Clear { part } => {
                self.clear(part);
                Ok(None)
            }
            Change::Copy { part, to } => self.copy(alloc, part, to),
            Change::Fill { from, part } => self.fill(alloc, from, part),
            Change::Rows { rows } => self.edit_rows(alloc, rows),
            Change::Name { name, part } => self.define(name, part),
            Change::Unname { name } => Ok(self.undefine(name)),
            Change::Make { start, rows } => {
                *self = generated(alloc, *start, *rows)?;
                Ok(None)
            }
            Change::Load => {
                self.names.retain(|entry| entry.part.is_some());
                Ok(None)
            }
        }
    }

    fn set(
        &mut self,
        alloc: Global,
        place: &Place,
        held: Option<&Held>,
    ) -> Result<Option<EditCause>, AllocError> {
        let (sheet, col, row) = *place;
        self.clear(&(sheet, col, col, row, row));
        if let Some(held) = held {
            let held = held.moved(alloc, place, place)?;
            self.cells.push(HeldCell {
                place: *place,
                held,
            })?;
        }
        Ok(None)
    }

    fn copy(
        &mut self,
        alloc: Global,
        part: &Part,
        to: &Place,
    ) -> Result<Option<EditCause>, AllocError> {
        let (sheet, left, right, first, last) = *part;
        let right_after = to.1.saturating_add(right.saturating_sub(left));
        let last_after = to.2.saturating_add(last.saturating_sub(first));
        if to.0 != sheet || right_after > LAST_COL || last_after > LAST_ROW {
            return Ok(Some(EditCause::OffSheet));
        }
        let mut copied = Vec::new(alloc);
        for cell in &self.cells {
            if has(part, &cell.place) {
                let place = (
                    sheet,
                    to.1.saturating_add(cell.place.1.saturating_sub(left)),
                    to.2.saturating_add(cell.place.2.saturating_sub(first)),
                );
                let held = cell.held.moved(alloc, &cell.place, &place)?;
                copied.push(HeldCell { place, held })?;
            }
        }
        self.clear(&(sheet, to.1, right_after, to.2, last_after));
        self.cells.append(&mut copied)?;
        Ok(None)
    }

    fn fill(
        &mut self,
        alloc: Global,
        from: &Place,
        part: &Part,
    ) -> Result<Option<EditCause>, AllocError> {
        let (sheet, left, right, first, last) = *part;
        if from.0 != sheet {
            return Ok(Some(EditCause::OffSheet));
        }
        let mut filled = Vec::new(alloc);
        if let Some(held) = self.held_at(from) {
            for col in left..=right {
                for row in first..=last {
                    let place = (sheet, col, row);
                    let held = held.moved(alloc, from, &place)?;
                    filled.push(HeldCell { place, held })?;
                }
            }
        }
        self.clear(part);
        self.cells.append(&mut filled)?;
        Ok(None)
    }

    /// Whether inserted rows would push a cell past the last row.
    fn is_pushed_out(&self, rows: &RowEdit) -> bool {
        for cell in &self.cells {
            if matches!(rows.place_after(&cell.place), Some((_, _, row)) if row > LAST_ROW) {
                return true;
            }
        }
        false
    }

    fn edit_rows(
        &mut self,
        alloc: Global,
        rows: &RowEdit,
    ) -> Result<Option<EditCause>, AllocError> {
        if rows.is_off_sheet() {
            return Ok(Some(EditCause::OffSheet));
        }
        if self.is_pushed_out(rows) {
            return Ok(Some(EditCause::RowsFull));
        }
        self.cells = self.cells_after(alloc, rows)?;
        for entry in &mut self.names {
            entry.part = entry.part.and_then(|part| rows.part_after(&part));
        }
        Ok(None)
    }

    /// The cells that stay, where they come.
    fn cells_after(&self, alloc: Global, rows: &RowEdit) -> Result<Vec<HeldCell>, AllocError> {
        let mut cells = Vec::new(alloc);
        for cell in &self.cells {
            if let Some(place) = rows.place_after(&cell.place) {
                let mut pieces = Vec::new(alloc);
                for piece in &cell.held.pieces {
                    pieces.push(rows.piece_after(piece, cell.place.0))?;
                }
                let kind = cell.held.kind;
                let held = Held { kind, pieces };
                cells.push(HeldCell { place, held })?;
            }
        }
        Ok(cells)
    }

    fn define(&mut self, name: &'static str, part: &Part) -> Result<Option<EditCause>, AllocError> {
        if BAD_NAMES.contains(&name) {
            return Ok(Some(EditCause::BadName));
        }
        self.forget(name);
        let part = Some(*part);
        self.names.push(NamedPart { name, part })?;
        Ok(None)
    }

    fn undefine(&mut self, name: &str) -> Option<EditCause> {
        if !self.has_name(name) {
            return Some(EditCause::NoName);
        }
        self.forget(name);
        None
    }
}
