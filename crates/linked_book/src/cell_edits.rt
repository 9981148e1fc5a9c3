//! Edits of cells.
ghost use Rattle.std.specs.Prelude.{◌≡◌, ◌≤◌, false, true, length, OnErr, OnOk};
ghost use Rattle.calc_addr.specs.ValidReferences.{is_rectangle};
ghost use Rattle.calc_model.specs.Books.{IsBook, content_at, with_content};
ghost use Rattle.calc_model.specs.CellEdits.{after_copy, after_fill, area_at, without_area};

use crate::linked::LinkedBook;
use crate::listening::{area_of, listen, listen_content, settle};
use book_parts::area_at;
use calc_addr::{Area, Cell, NoMemory};
use calc_model::{Content, MOST_CELLS};
use formula_listeners::{reads_go_with_cells, silence};
use std::alloc::Global;

impl LinkedBook {
    /// Puts a content into a cell, or empties it. It costs what the setting of a slot in its column does, and
    /// what the registering of a formula does. Where memory is refused, the book is as before.
    pub fn set(&mut self, alloc: Global, cell: Cell, content: &Content) -> Result<(), NoMemory>
        requires ready { self.old.spent ≡ false }
        requires room { length (with_content self.old.book.cells cell content.now) ≤ MOST_CELLS }
        ensures cells { OnOk result
            (self.new.book.cells ≡ with_content self.old.book.cells cell content.now) }
        ensures names { self.new.book.names ≡ self.old.book.names }
        ensures book { IsBook self.new.book }
        ensures ready { OnOk result (self.new.spent ≡ false) }
        ensures kept { OnErr result (self.new.book ≡ self.old.book) }
    {
        self.parts.are_book();
        reads_go_with_cells();
        silence(&mut self.hub, area_of(cell))?;
        listen_content(alloc, &mut self.hub, &self.parts, cell, content)?;
        let set = self.parts.set(alloc, cell, content);
        settle(&mut self.hub, set)
    }

    /// Empties the cells of an area. It costs what the emptying of rows in each of its columns does, and what
    /// the forgetting of their formulas does. Where memory is refused, the book is as before.
    pub fn clear(&mut self, area: Area) -> Result<(), NoMemory>
        requires { self.old.spent ≡ false }
        ensures cells { OnOk result
            (self.new.book.cells ≡ without_area self.old.book.cells area) }
        ensures names { self.new.book.names ≡ self.old.book.names }
        ensures book { IsBook self.new.book }
        ensures ready { OnOk result (self.new.spent ≡ false) }
        ensures kept { OnErr result (self.new.book ≡ self.old.book) }
    {
        self.parts.are_book();
        reads_go_with_cells();
        silence(&mut self.hub, area)?;
        let cleared = self.parts.clear(area);
        settle(&mut self.hub, cleared)
    }

    /// Copies the contents of an area, moved, to the equal places of the area that begins at `to`. It costs
    /// what the setting of each does, and what the registering of the groups in that area's columns does.
    /// Where memory is refused, some places may be empty.
    pub fn copy(&mut self, alloc: Global, area: Area, to: Cell) -> Result<(), NoMemory>
        requires ready { self.old.spent ≡ false }
        requires place { is_rectangle (area_at area to) ≡ true }
        requires room { length (after_copy self.old.book.cells area to) ≤ MOST_CELLS }
        ensures cells { OnOk result
            (self.new.book.cells ≡ after_copy self.old.book.cells area to) }
        ensures names { self.new.book.names ≡ self.old.book.names }
        ensures book { IsBook self.new.book }
        ensures ready { OnOk result (self.new.spent ≡ false) }
    {
        self.parts.are_book();
        reads_go_with_cells();
        let there = area_at(area, to);
        silence(&mut self.hub, there)?;
        let copied = self.parts.copy(alloc, area, to);
        settle(&mut self.hub, copied)?;
        listen(alloc, &mut self.hub, &self.parts, there)
    }

    /// Fills each cell of an area with the content of a cell, moved, at the same cost. Where memory is
    /// refused, some of the cells may be empty.
    pub fn fill(&mut self, alloc: Global, from: Cell, area: Area) -> Result<(), NoMemory>
        requires ready { self.old.spent ≡ false }
        requires room { length (after_fill self.old.book.cells from
            (content_at self.old.book from) area) ≤ MOST_CELLS }
        ensures cells { OnOk result (self.new.book.cells
            ≡ after_fill self.old.book.cells from (content_at self.old.book from) area) }
        ensures names { self.new.book.names ≡ self.old.book.names }
        ensures book { IsBook self.new.book }
        ensures ready { OnOk result (self.new.spent ≡ false) }
    {
        self.parts.are_book();
        reads_go_with_cells();
        silence(&mut self.hub, area)?;
        let filled = self.parts.fill(alloc, from, area);
        settle(&mut self.hub, filled)?;
        listen(alloc, &mut self.hub, &self.parts, area)
    }
}
