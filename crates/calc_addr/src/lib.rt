//! Cells, areas and references (OpenFormula, 5.8) on sixteen sheets, and the words that spell them.
//!
//! A sheet has the columns 1 to 1,024 (`A` to `AMJ`) and the rows 1 to 1,048,576. The order of cells
//! is by sheet, then column, then row; within an area this is area order. A text is read in time
//! that grows with its length; every other call takes constant time, and none allocates.
#![tactic(auto)]

mod bracketed;
mod cell;
mod ends;
mod laws;
mod moves;
mod pieces;
mod read;
mod reference;
mod shift;
mod walk;
mod write;

pub use bracketed::read_ref;
pub use cell::{Area, Cell, LAST_COL, LAST_ROW, LAST_SHEET, Run};
pub use laws::{
    areas_list_their_cells, cells_go_with_rows, cells_read_back, deletion_undoes_insertion,
    opposite_move_gives_back, references_read_back, references_stay_valid,
    spelled_words_lie_inside,
};
pub use moves::move_ref;
pub use read::{Spelled, read_address, read_area, read_cell, read_col, read_row};
pub use reference::{Marks, Ref, Span};
pub use shift::{delete_row_area, delete_row_ref, insert_row_area, insert_row_ref};
use std::alloc::AllocError;
pub use walk::{AreaCells, AreaRows};
pub use write::{AddrText, write_cell, write_ref, write_run};

/// Want of memory.
pub type NoMemory = AllocError;
