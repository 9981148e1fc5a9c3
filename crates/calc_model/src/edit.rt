use crate::content::Content;
use crate::text::Text;
use calc_addr::{Area, Cell};

/// A change of a book.
#[derive(Drop)]
pub enum Edit {
    /// The cell holds the content.
    Set { cell: Cell, content: Content },
    /// The area's cells become empty.
    Clear { area: Area },
    /// Each content of the area, moved, goes to the equal place of the area that begins at `to`.
    Copy { area: Area, to: Cell },
    /// The content at `from`, moved, goes to each cell of the area.
    Fill { from: Cell, area: Area },
    /// `count` empty rows come before the row `place`; it and those below move down.
    InsertRows { sheet: u8, place: u32, count: u32 },
    /// `count` rows from the row `place` on go; those below move up.
    DeleteRows { sheet: u8, place: u32, count: u32 },
    /// The name has that area.
    Name { name: Text, area: Area },
    /// The name goes.
    Unname { name: Text },
    /// The generated book takes the place of all cells and names.
    Make { start: u32, rows: u32 },
}

/// Why an edit is refused, in the order in which the causes are looked for.
#[derive(Clone, Copy, Debug, PartialEq, Eq)]
pub enum EditCause {
    /// What the edit reaches lies outside the sheet.
    OffSheet,
    /// The name isn't spelled as names are.
    BadName,
    /// The name isn't defined.
    NoName,
    /// There would be more names than a book may have.
    NamesFull,
    /// A cell that isn't empty would be pushed past the last row.
    RowsFull,
    /// There would be more cells that aren't empty than a book may have.
    CellsFull,
}
