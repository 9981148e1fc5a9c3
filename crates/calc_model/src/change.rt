ghost use Rattle.std.specs.Prelude.{◌≡◌};
ghost use Rattle.calc_model.specs.Changes.{IsChange, changed};
ghost use Rattle.calc_model.specs.TreeShifts.{or_deleted};

use crate::fault::Fault;
use crate::tree::Tree;
use calc_addr::{Cell, Ref, delete_row_ref, insert_row_ref, move_ref};

/// What becomes of a formula's references.
#[derive(Clone, Copy)]
pub enum Change {
    Stays,
    /// The formula moves.
    Moves { cols: i32, rows: i32 },
    /// Rows of a sheet are inserted.
    Inserted { sheet: u8, place: u32, count: u32 },
    /// Rows of a sheet are deleted.
    Deleted { sheet: u8, place: u32, count: u32 },
}

impl Change {
    /// What takes the place of a reference of the formula at `home`.
    pub fn node(self, home: Cell, reference: Ref) -> Tree
        requires { IsChange self }
        ensures { result ≡ changed self home reference }
    {
        or_deleted(self.reference(home, reference))
    }

    /// What becomes of a reference of the formula at `home`, or None where it is deleted.
    pub fn reference(self, home: Cell, reference: Ref) -> Option<Ref>
        requires { IsChange self }
        ensures { or_deleted result ≡ changed self home reference }
    {
        match self {
            Change::Stays => Some(reference),
            Change::Moves { cols, rows } => move_ref(reference, cols, rows),
            Change::Inserted {
                sheet,
                place,
                count,
            } if reference.here(home).sheet == sheet => { insert_row_ref(reference, place, count) }
            Change::Deleted {
                sheet,
                place,
                count,
            } if reference.here(home).sheet == sheet => { delete_row_ref(reference, place, count) }
            _ => Some(reference),
        }
    }
}

/// The node of a reference, or of a deleted one.
fn or_deleted(reference: Option<Ref>) -> Tree
    ensures { result ≡ or_deleted reference }
{
    match reference {
        Some(reference) => Tree::Ref(reference),
        None => Tree::Bad(Fault::BadRef),
    }
}
