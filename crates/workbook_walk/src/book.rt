//! A book as a plain list of cells and a plain list of names.
use crate::moves::piece_moved;
use crate::pieces::{Piece, printed};
use crate::places::{Part, Place, has, meet};
use block_column::Kind;
use std::alloc::{AllocError, Global};

/// What a cell holds that isn't empty: its kind, and the pieces of its field.
#[derive(Debug, Drop)]
pub(crate) struct Held {
    pub(crate) kind: Kind,
    pub(crate) pieces: Vec<Piece>,
}

#[derive(Debug, Drop)]
pub(crate) struct HeldCell {
    pub(crate) place: Place,
    pub(crate) held: Held,
}

/// A name, by a spelling, with its area, or none where that was deleted.
#[derive(Clone, Copy, Debug)]
pub(crate) struct NamedPart {
    pub(crate) name: &'static str,
    pub(crate) part: Option<Part>,
}

#[derive(Debug, Drop)]
pub(crate) struct Book {
    pub(crate) cells: Vec<HeldCell>,
    pub(crate) names: Vec<NamedPart>,
}

impl Held {
    /// What is held, in another cell.
    pub(crate) fn moved(
        &self,
        alloc: Global,
        from: &Place,
        to: &Place,
    ) -> Result<Held, AllocError> {
        let mut pieces = Vec::new(alloc);
        for piece in &self.pieces {
            pieces.push(piece_moved(piece, from, to))?;
        }
        Ok(Held {
            kind: self.kind,
            pieces,
        })
    }

    pub(crate) fn field(&self, alloc: Global) -> Result<String, AllocError> {
        printed(alloc, &self.pieces, 0)
    }

    pub(crate) fn is_formula(&self) -> bool {
        self.kind == Kind::Formula
    }
}

impl Book {
    pub(crate) fn new(alloc: Global) -> Book {
        Book {
            cells: Vec::new(alloc),
            names: Vec::new(alloc),
        }
    }

    /// What a cell holds.
    pub(crate) fn held_at(&self, place: &Place) -> Option<&Held> {
        for cell in &self.cells {
            if cell.place == *place {
                return Some(&cell.held);
            }
        }
        None
    }

    pub(crate) fn has_name(&self, name: &str) -> bool {
        self.names
            .iter()
            .any(|entry| entry.name.eq_ignore_ascii_case(name))
    }

    /// Takes a name away.
    pub(crate) fn forget(&mut self, name: &str) {
        self.names
            .retain(|entry| !entry.name.eq_ignore_ascii_case(name));
    }

    /// The area of a name, if it is defined and wasn't deleted.
    fn part_named(&self, name: &str) -> Option<Part> {
        for entry in &self.names {
            if entry.name.eq_ignore_ascii_case(name) {
                return entry.part;
            }
        }
        None
    }

    /// The area that a piece of a formula of a sheet reads.
    fn part_read(&self, piece: &Piece, home: u8) -> Option<Part> {
        match piece {
            Piece::Reference(reference) => Some((
                reference.sheet.unwrap_or(home),
                u16::try_from(reference.first_col.at).ok()?,
                u16::try_from(reference.last_col.at).ok()?,
                reference.first_row.at,
                reference.last_row.at,
            )),
            Piece::Name(name) => self.part_named(name),
            Piece::Text(_) | Piece::Number(_) | Piece::Gone => None,
        }
    }

    /// Whether the cell's formula reads a cell of the area.
    fn reads(&self, cell: &HeldCell, part: &Part) -> bool {
        for piece in &cell.held.pieces {
            if let Some(read) = self.part_read(piece, cell.place.0) {
                if meet(&read, part) {
                    return true;
                }
            }
        }
        false
    }

    /// The cells whose formulas read a cell of the area, in the order of cells.
    pub(crate) fn readers(&self, alloc: Global, part: &Part) -> Result<Vec<Place>, AllocError> {
        let mut places = Vec::new(alloc);
        for cell in &self.cells {
            if cell.held.is_formula() && self.reads(cell, part) {
                places.push(cell.place)?;
            }
        }
        places.sort_unstable();
        Ok(places)
    }

    /// The cells of a column, downwards.
    pub(crate) fn column(
        &self,
        alloc: Global,
        sheet: u8,
        col: u16,
    ) -> Result<Vec<(u32, &Held)>, AllocError> {
        let mut cells = Vec::new(alloc);
        for cell in &self.cells {
            if cell.place.0 == sheet && cell.place.1 == col {
                cells.push((cell.place.2, &cell.held))?;
            }
        }
        cells.sort_by_key(|cell: &(u32, &Held)| cell.0)?;
        Ok(cells)
    }

    /// Empties the cells of an area.
    pub(crate) fn clear(&mut self, part: &Part) {
        self.cells.retain(|cell| !has(part, &cell.place));
    }
}
