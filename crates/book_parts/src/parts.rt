ghost use Rattle.std.specs.Prelude.{◌≡◌, ◌≤◌, ◌<◌, ◌+◌, ◌-◌, ◌↔◌, nat_le, [], false, true, length, IfNone, IfOk, IfSome, IsErrOf, IsTrue, OnOk, OnErr, Contains, map};
ghost use Rattle.std.specs.List.{All, AllPairs};
ghost use Rattle.calc_model.specs.Books.{IsBook, content_at, formula_count, is_formula, is_held, with_content};
ghost use Rattle.calc_addr.specs.Places.{IsBefore, Place, column_places, places};
ghost use Rattle.calc_addr.specs.ValidReferences.{is_rectangle};
ghost use Rattle.calc_model.specs.CellEdits.{after_copy, after_fill, area_at, with_entries, without_area};
ghost use Rattle.calc_model.specs.Changes.{IsShift};
ghost use Rattle.calc_model.specs.NamedAreas.{is_defined, names_after_deletion, names_after_insertion, with_name, without_name};
ghost use Rattle.calc_model.specs.Tokens.{is_name};
ghost use Rattle.calc_names.specs.NameFaults.{IsOneTooMany};
ghost use Rattle.calc_model.specs.GeneratedBook.{generated_book};
ghost use Rattle.calc_model.specs.RowEdits.{cells_after_deletion, cells_after_insertion, is_pushed_out};
ghost use Rattle.formula_code.specs.Coded.{AreCoded, AreFormulasOf};
ghost use Rattle.formula_groups.specs.GroupRows.{columns_of};
ghost use Rattle.cell_columns.specs.Filled.{moved_entries};
ghost use Rattle.moved_forms.specs.Alike.{AreOneSide};
ghost use Rattle.cell_runs.specs.CellLists.{cells_of};
ghost use Rattle.cell_columns.specs.ColumnRuns.{AllLie, IsSheetColumn, blocks_in, groups_in, rows_of_block, rows_of_group, rows_of_run};
ghost use Rattle.cell_columns.specs.Looks.{AreSlotsOf, IsLent};
ghost use Rattle.cell_columns.specs.Walks.{places_of};
ghost use Rattle.book_parts.specs.Pieces.{all_entries, entries_of};
ghost use Rattle.book_parts.specs.Runs.{AreEmpty, IsCodedIn};

use crate::copies::{area_at, copied_pieces};
use crate::generated::generated;
use crate::pieces::Piece;
use crate::rows::{Rows, is_pushed_out};
use block_column::{Block, BlockColumn, SlotRef};
use calc_addr::{Area, Cell, LAST_ROW, LAST_SHEET, NoMemory, Run};
use calc_model::{Content, Looked, MOST_CELLS, MOST_GENERATED_ROWS, NameTable, Text};
use calc_names::{NameFault, Names};
use cell_columns::{CellColumns, Coded, CodedGroups};
use cell_runs::CellRuns;
use formula_groups::Group;
use std::alloc::Global;
use std::marker::Model;

/// What each cell that isn't empty holds, of at most 4,194,304 cells, as block columns and groups, and the
/// names. Contracts see it as a book.
#[derive(Drop)]
pub struct BookParts {
    cells: CellColumns,
    names: Names,
}

impl Model for BookParts {
    ghost use Rattle.std.specs.Coded.{codes};
    ghost use Rattle.calc_model.specs.Books.{Book};
    ghost use Rattle.calc_model.specs.contracts.tree.Tree as coded_tree;

    ghost Value = { Book };

    ghost coded = { Prim.hlevel (codes, coded_tree.the_row.coded) };

    ghost view = { λ m. record { cells = m.cells; names = m.names } };
}

impl BookParts {
    /// No cell and no name.
    pub fn new(alloc: Global) -> Result<BookParts, NoMemory>
        ensures cells { IfOk result (λ parts. parts.cells ≡ []) }
        ensures names { IfOk result (λ parts. parts.names ≡ []) }
    {
        Ok(BookParts {
            cells: CellColumns::new(alloc)?,
            names: Names::new(alloc),
        })
    }

    /// The generated book of so many rows. It costs what the setting of its cells does.
    pub fn generated(alloc: Global, start: u32, rows: u32) -> Result<BookParts, NoMemory>
        requires { rows ≤ MOST_GENERATED_ROWS }
        ensures book { IfOk result (λ parts. parts ≡ generated_book start rows) }
        ensures is { IfOk result (λ parts. IsBook parts) }
    {
        let parts = BookParts {
            cells: generated(alloc, start, rows)?,
            names: Names::new(alloc),
        };
        parts.are_book();
        Ok(parts)
    }

    /// They are those of a book.
    pub fn are_book(&self)
        ensures { IsBook self.now }
    {
        self.cells.are_book();
        let _ = self.names.entries();
    }

    /// How many cells aren't empty.
    pub fn len(&self) -> usize
        ensures cells { result ≡ length self.now.cells }
        ensures book { IsBook self.now }
    {
        self.are_book();
        self.cells.len()
    }

    pub fn is_empty(&self) -> bool
        ensures { IsTrue result ↔ (self.now.cells ≡ []) }
    {
        self.cells.len() == 0
    }

    /// What the cell holds. It takes the logarithm of the blocks of its column, and is linear in the content.
    pub fn content(&self, alloc: Global, cell: Cell) -> Result<Content, NoMemory>
        ensures content { IfOk result (λ content. content ≡ content_at self.now cell) }
        ensures book { IsBook self.now }
    {
        self.are_book();
        self.cells.content(alloc, cell)
    }

    /// The same, lent: of a formula the number of its code. It takes the logarithm of the blocks.
    pub fn look(&self, cell: Cell) -> SlotRef<'_>
        ensures { IsLent (content_at self.now cell) result }
    {
        self.cells.look(cell)
    }

    /// The code of the formula that the cell holds, if it holds one, at the same cost.
    pub fn formula(&self, cell: Cell) -> Option<Coded<'_>>
        ensures coded { IfSome result (λ f. IsCodedIn self.now cell f.codes.now f.id) }
        ensures none { IfNone result (is_formula (content_at self.now cell) ≡ false) }
    {
        self.cells.formula(cell)
    }

    /// The cells that aren't empty, in the order of cells. It takes the logarithm of the blocks of its column
    /// for each.
    pub fn cells(&self, alloc: Global) -> Result<Vec<Cell>, NoMemory>
        ensures { IfOk result (λ cells. cells.items ≡ places_of self.now.cells) }
    {
        self.cells.cells(alloc)
    }

    /// The same, with copies of what they hold.
    pub fn entries(&self, alloc: Global) -> Result<Vec<(Cell, Content)>, NoMemory>
        ensures entries { IfOk result (λ entries. entries.items ≡ self.now.cells) }
        ensures found { All (λ entry. content_at self.now entry.0 ≡ entry.1) self.now.cells }
    {
        self.cells.are_book();
        self.cells.entries(alloc)
    }

    /// How many rows from a cell on, down to that row, hold nothing before the first that holds something. It
    /// takes the logarithm of the blocks.
    pub fn empty_rows(&self, start: Cell, last_row: u32) -> u32
        requires from { start.row ≤ last_row }
        requires to { last_row ≤ LAST_ROW }
        ensures most { result ≤ last_row + 1 - start.row }
        ensures empty { AreEmpty self.now start result }
    {
        self.cells.empty_rows(start, last_row)
    }

    /// Whether the cell isn't empty.
    fn is_held(&self, cell: Cell) -> bool
        ensures { result ≡ is_held (content_at self.now cell) }
    {
        !matches!(self.look(cell), SlotRef::Empty)
    }

    /// Whether the content fits into the cell: there would be no more cells than a book may have.
    pub fn has_room(&self, cell: Cell, content: &Content) -> bool
        ensures { result ≡ nat_le (length (with_content self.now.cells cell content.now)) MOST_CELLS }
    {
        let len = self.len();
        if !content.is_held() {
            return true;
        }
        if len < MOST_CELLS {
            return true;
        }
        self.is_held(cell)
    }

    /// Puts a content into a cell, or empties it. It costs what the setting of a slot in its column does, and
    /// is linear in the content.
    pub fn set(&mut self, alloc: Global, cell: Cell, content: &Content) -> Result<(), NoMemory>
        requires room { length (with_content self.old.cells cell content.now) ≤ MOST_CELLS }
        ensures cells { OnOk result (self.new.cells ≡ with_content self.old.cells cell content.now) }
        ensures names { self.new.names ≡ self.old.names }
        ensures book { IsBook self.new }
        ensures kept { OnErr result (self.new ≡ self.old) }
    {
        let set = self.cells.set(alloc, cell, content);
        self.are_book();
        set
    }

    /// Empties the cells of an area. It is linear in the groups of its columns and costs what the emptying of
    /// rows in each of them does.
    pub fn clear(&mut self, area: Area) -> Result<(), NoMemory>
        ensures cells { OnOk result (self.new.cells ≡ without_area self.old.cells area) }
        ensures names { self.new.names ≡ self.old.names }
        ensures book { IsBook self.new }
        ensures kept { OnErr result (self.new ≡ self.old) }
    {
        let cleared = self.cells.clear(area);
        self.are_book();
        cleared
    }

    /// Whether the contents of an area fit into the equal places of the area that begins at `to`: there
    /// would be no more cells than a book may have. Linear in the blocks of the columns of both.
    pub fn has_room_to_copy(&self, area: Area, to: Cell) -> bool
        requires { is_rectangle (area_at area to) ≡ true }
        ensures { result ≡ nat_le (length (after_copy self.now.cells area to)) MOST_CELLS }
    {
        let left = self.len() - self.cells.count_within(area_at(area, to));
        left + self.cells.count_within(area) <= MOST_CELLS
    }

    /// Copies the contents of an area, moved, to the equal places of the area that begins at `to`. Formulas of
    /// one group and equal constants in neighbouring rows cost what the setting of neighbouring rows does, once
    /// for each relative form that they have there, and other constants what the setting of each does. Where
    /// memory is refused, some places may be empty.
    pub fn copy(&mut self, alloc: Global, area: Area, to: Cell) -> Result<(), NoMemory>
        requires place { is_rectangle (area_at area to) ≡ true }
        requires room { length (after_copy self.old.cells area to) ≤ MOST_CELLS }
        ensures cells { OnOk result (self.new.cells ≡ after_copy self.old.cells area to) }
        ensures names { self.new.names ≡ self.old.names }
        ensures book { IsBook self.new }
    {
        self.are_book();
        let pieces = copied_pieces(alloc, &self.cells, area, to)?;
        self.clear(area_at(area, to))?;
        self.put_pieces(alloc, &pieces)
    }

    /// Puts pieces into their rows, one after the other.
    fn put_pieces(&mut self, alloc: Global, pieces: &[Piece]) -> Result<(), NoMemory>
        requires book { IsBook self.old }
        requires room { length self.old.cells + length (all_entries pieces.now) ≤ MOST_CELLS }
        ensures cells { OnOk result
            (self.new.cells ≡ with_entries self.old.cells (all_entries pieces.now)) }
        ensures names { self.new.names ≡ self.old.names }
        ensures book { IsBook self.new }
    {
        for piece in pieces {
            self.put_piece(alloc, piece)?;
        }
        Ok(())
    }

    /// Puts a piece into its rows.
    fn put_piece(&mut self, alloc: Global, piece: &Piece) -> Result<(), NoMemory>
        requires book { IsBook self.old }
        requires room { length self.old.cells + length (entries_of piece.now) ≤ MOST_CELLS }
        ensures cells { OnOk result
            (self.new.cells ≡ with_entries self.old.cells (entries_of piece.now)) }
        ensures names { self.new.names ≡ self.old.names }
        ensures book { IsBook self.new }
    {
        if !piece.content.is_held() {
            return Ok(());
        }
        self.put_rows(alloc, piece.from, &piece.content, piece.rows)
    }

    /// Whether the content of a cell fits into each cell of an area: there would be no more cells than a
    /// book may have. Linear in the blocks of the area's columns.
    pub fn has_room_to_fill(&self, from: Cell, area: Area) -> bool
        ensures { result ≡ nat_le
            (length (after_fill self.now.cells from (content_at self.now from) area)) MOST_CELLS }
    {
        let left = self.len() - self.cells.count_within(area);
        if !self.is_held(from) {
            return true;
        }
        left as u64 + area.cell_count() <= MOST_CELLS as u64
    }

    /// Fills each cell of an area with the content of a cell, moved. It is linear in the cells, and costs what the
    /// setting of neighbouring rows in each column does, once for each relative form that the content has
    /// there. Where memory is refused, some of the cells may be empty.
    pub fn fill(&mut self, alloc: Global, from: Cell, area: Area) -> Result<(), NoMemory>
        requires { length (after_fill self.old.cells from (content_at self.old from) area)
            ≤ MOST_CELLS }
        ensures cells { OnOk result (self.new.cells
            ≡ after_fill self.old.cells from (content_at self.old from) area) }
        ensures names { self.new.names ≡ self.old.names }
        ensures book { IsBook self.new }
    {
        let content = self.content(alloc, from)?;
        self.clear(area)?;
        if !content.is_held() {
            return Ok(());
        }
        self.put_moved(alloc, from, &content, area)
    }

    /// Puts a content that isn't empty, moved, into each cell of an area.
    fn put_moved(
        &mut self,
        alloc: Global,
        from: Cell,
        content: &Content,
        area: Area,
    ) -> Result<(), NoMemory>
        requires book { IsBook self.old }
        requires held { is_held content.now ≡ true }
        requires room { length self.old.cells + length (places area) ≤ MOST_CELLS }
        ensures cells { OnOk result (self.new.cells
            ≡ with_entries self.old.cells (moved_entries from content.now (places area))) }
        ensures names { self.new.names ≡ self.old.names }
        ensures book { IsBook self.new }
    {
        for col in area.first_col..area.last_col + 1 {
            let rows = Run {
                sheet: area.sheet,
                col,
                first: area.first_row,
                last: area.last_row,
            };
            self.put_rows(alloc, from, content, rows)?;
        }
        Ok(())
    }

    /// Puts a content that isn't empty, moved, into neighbouring rows of a column: once for each relative form
    /// that it has there.
    fn put_rows(
        &mut self,
        alloc: Global,
        from: Cell,
        content: &Content,
        rows: Run,
    ) -> Result<(), NoMemory>
        requires book { IsBook self.old }
        requires held { is_held content.now ≡ true }
        requires room { length self.old.cells + (rows.last + 1 - rows.first) ≤ MOST_CELLS }
        ensures cells { OnOk result (self.new.cells ≡ with_entries self.old.cells
            (moved_entries from content.now (cells_of rows))) }
        ensures names { self.new.names ≡ self.old.names }
        ensures book { IsBook self.new }
    {
        let from_row = from.row;
        let mut row = rows.first;
        while row <= rows.last {
            let cell = Cell {
                sheet: rows.sheet,
                col: rows.col,
                row,
            };
            let last = if row < from_row {
                rows.last.min(from_row)
            } else {
                rows.last
            };
            row = self.put_alike(alloc, from, content, cell, last)? + 1;
        }
        Ok(())
    }

    /// Puts a content that isn't empty, moved, into a cell and into those below it in which it has the same
    /// relative form, down to the last at most. Gives the row of the last of these.
    fn put_alike(
        &mut self,
        alloc: Global,
        from: Cell,
        content: &Content,
        cell: Cell,
        last: u32,
    ) -> Result<u32, NoMemory>
        requires held { is_held content.now ≡ true }
        requires order { cell.row ≤ last }
        requires to { last ≤ LAST_ROW }
        requires side { AreOneSide from.row cell.row last }
        requires room { length self.old.cells + (last + 1 - cell.row) ≤ MOST_CELLS }
        ensures from { IfOk result (λ row. cell.row ≤ row) }
        ensures to { IfOk result (λ row. row ≤ last) }
        ensures cells { IfOk result (λ row. self.new.cells ≡ with_entries self.old.cells
            (moved_entries from content.now (column_places cell.sheet cell.col cell.row row))) }
        ensures names { self.new.names ≡ self.old.names }
        ensures book { IsBook self.new }
    {
        let put = self.cells.fill_alike(alloc, from, content, cell, last);
        self.are_book();
        put
    }

    /// Whether inserted rows would push a cell that isn't empty past the last row. Linear in the blocks of
    /// the sheet's columns.
    pub fn pushes_out(&self, sheet: u8, place: u32, count: u32) -> bool
        requires sheet { sheet ≤ LAST_SHEET }
        requires rows { IsShift place count }
        ensures { result ≡ is_pushed_out sheet place count self.now.cells }
    {
        let rows = Rows {
            sheet,
            place,
            count,
        };
        is_pushed_out(&self.cells, rows)
    }

    /// Inserts rows into a sheet. It is linear in the blocks and groups of the sheet's columns, in the formulas
    /// whose relative forms change, and in the names.
    pub fn insert_rows(
        &mut self,
        alloc: Global,
        sheet: u8,
        place: u32,
        count: u32,
    ) -> Result<(), NoMemory>
        requires sheet { sheet ≤ LAST_SHEET }
        requires rows { IsShift place count }
        requires inside { is_pushed_out sheet place count self.old.cells ≡ false }
        ensures cells { OnOk result
            (self.new.cells ≡ cells_after_insertion sheet place count self.old.cells) }
        ensures names { OnOk result
            (self.new.names ≡ names_after_insertion sheet place count self.old.names) }
        ensures was_book { IsBook self.old }
        ensures book { IsBook self.new }
    {
        self.are_book();
        let inserted = self.cells.insert_rows(alloc, sheet, place, count);
        self.names.insert_rows(sheet, place, count);
        self.are_book();
        inserted
    }

    /// Deletes rows of a sheet, at the same cost and with that of emptying them.
    pub fn delete_rows(
        &mut self,
        alloc: Global,
        sheet: u8,
        place: u32,
        count: u32,
    ) -> Result<(), NoMemory>
        requires sheet { sheet ≤ LAST_SHEET }
        requires rows { IsShift place count }
        ensures cells { OnOk result
            (self.new.cells ≡ cells_after_deletion sheet place count self.old.cells) }
        ensures names { OnOk result
            (self.new.names ≡ names_after_deletion sheet place count self.old.names) }
        ensures was_book { IsBook self.old }
        ensures book { IsBook self.new }
    {
        self.are_book();
        let deleted = self.cells.delete_rows(alloc, sheet, place, count);
        self.names.delete_rows(sheet, place, count);
        self.are_book();
        deleted
    }

    /// Gives the name that area. A new name moves those behind it in the order of names.
    pub fn define_name(&mut self, name: &Text, area: Area) -> Result<(), NameFault>
        ensures cells { self.new.cells ≡ self.old.cells }
        ensures names { OnOk result (self.new.names ≡ with_name self.old.names name.now area) }
        ensures bad_name { IsErrOf result NameFault.BadName ↔ (is_name name.now ≡ false) }
        ensures full { IsErrOf result NameFault.Full ↔ IsOneTooMany self.old.names name.now }
        ensures no_name { ¬ (IsErrOf result NameFault.NoName) }
        ensures was_book { IsBook self.old }
        ensures book { IsBook self.new }
        ensures kept { OnErr result (self.new ≡ self.old) }
    {
        self.are_book();
        self.names.define(name, area)?;
        self.are_book();
        Ok(())
    }

    /// Takes a name away. It takes no memory.
    pub fn remove_name(&mut self, name: &Text) -> Result<(), NameFault>
        ensures cells { self.new.cells ≡ self.old.cells }
        ensures names { OnOk result (self.new.names ≡ without_name self.old.names name.now) }
        ensures no_name { IsErrOf result NameFault.NoName
            ↔ (is_defined self.old.names name.now ≡ false) }
        ensures only { OnErr result (IsErrOf result NameFault.NoName) }
        ensures book { IsBook self.new }
        ensures kept { OnErr result (self.new ≡ self.old) }
    {
        self.are_book();
        self.names.remove(name)?;
        self.are_book();
        Ok(())
    }

    /// The formula groups of a column, downwards: its maximal runs of formulas with one relative form. It
    /// takes no time.
    #[tactic(auto, unfolding(cell_columns::specs::ColumnRuns::groups_in, calc_model::specs::Books::content_at))]
    pub fn groups(&self, sheet: u8, col: u16) -> &[Group]
        requires { IsSheetColumn sheet col }
        ensures groups { map (rows_of_group sheet col) result.now
            ≡ map (rows_of_run sheet col) (groups_in self.now sheet col) }
        ensures rows { AllLie (map (rows_of_group sheet col) result.now) }
    {
        self.cells.groups(sheet, col)
    }

    /// The blocks of a column, downwards: its maximal runs of cells of one kind. It takes no time.
    #[tactic(auto, unfolding(cell_columns::specs::ColumnRuns::blocks_in, calc_model::specs::Books::content_at))]
    pub fn blocks(&self, sheet: u8, col: u16) -> &[Block]
        requires { IsSheetColumn sheet col }
        ensures blocks { result.now ≡ blocks_in self.now sheet col }
        ensures rows { AllLie (map (rows_of_block sheet col) result.now) }
    {
        self.cells.blocks(sheet, col)
    }

    /// What the rows of a column hold. It takes no time.
    pub fn column(&self, sheet: u8, col: u16) -> &BlockColumn
        requires { IsSheetColumn sheet col }
        ensures { AreSlotsOf self.now sheet col result.now.slots }
    {
        self.cells.column(sheet, col)
    }

    /// The codes of all formulas. It takes no time.
    pub fn coded(&self) -> CodedGroups<'_>
        ensures coded { AreCoded result.codes.now (columns_of result.groups.now) }
        ensures formulas { AreFormulasOf result.codes.now (columns_of result.groups.now) self.now }
    {
        self.cells.coded()
    }

    /// The cells that hold a formula, in the order of cells, a run for each group. Linear in the groups and in
    /// the columns.
    pub fn formula_cells(&self, alloc: Global) -> Result<CellRuns, NoMemory>
        ensures in_order { IfOk result (λ cells. AllPairs IsBefore cells) }
        ensures exact { IfOk result (λ cells. (q : Place) → Contains cells q
            ↔ (is_formula (content_at self.now q) ≡ true)) }
    {
        self.cells.formula_cells(alloc)
    }

    /// How many cells hold a formula. Linear in the blocks.
    #[tactic(auto, unfolding(calc_model::specs::Books::formula_count))]
    pub fn formula_count(&self) -> usize
        ensures { result ≡ formula_count self.now }
    {
        self.cells.formula_count()
    }
}

impl NameTable for BookParts {
    ghost use Rattle.calc_model.specs.Books.{book_names};

    ghost entries = { book_names };

    /// It takes the logarithm of the names.
    fn lookup(&self, name: &[u8]) -> Looked {
        self.names.lookup(name)
    }
}
