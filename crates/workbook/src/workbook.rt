//! A workbook: its parts, what they show, and the edits of both.
ghost use Rattle.std.specs.Prelude.{◌≡◌, ◌≤◌, ◌↔◌, ◌++◌, [], length, IfOk, IsErrOf, OnOk, OnErr, false, map, true};
ghost use Rattle.calc_addr.specs.Places.{Place};
ghost use Rattle.calc_model.specs.Books.{content_at, formula_count, with_content};
ghost use Rattle.calc_model.specs.Step.{is_makeable};
ghost use Rattle.calc_model.specs.Stale.{count_in, is_formula_cell};
ghost use Rattle.calc_model.specs.Printed.{printed_content};
ghost use Rattle.calc_model.specs.Val.{val};
ghost use Rattle.calc_model.specs.ValueTexts.{lent};
ghost use Rattle.formula_results.specs.ShownCells.{shown_values};
ghost use Rattle.listener_hub.specs.Hubs.{areas_read};
ghost use Rattle.formula_listeners.specs.Held.{HoldsReads};
ghost use Rattle.cell_columns.specs.Looks.{AreSlotsOf};
ghost use Rattle.cell_columns.specs.ColumnRuns.{AllLie, IsSheetColumn, blocks_in, groups_in, rows_of_block, rows_of_group, rows_of_run};
ghost use Rattle.calc_model.specs.declared.edit.EditCause.{EditCause};
ghost use Rattle.recalc.specs.Evaluating.{CanFork, Spends};
ghost use Rattle.recalc.specs.Units.{StaleUnits};
ghost use Rattle.workbook.specs.Workbook.{AfterNoMemory, IsDead, IsFresh, IsRefused, Made, WasBook, mended, stale_of, values_of};

use crate::fault::EditFault;
use crate::stale::{count_stale, stale_cells};
use crate::touched::Touched;
use block_column::{Block, BlockColumn};
use book_parts::BookParts;
use calc_addr::{Area, Cell, NoMemory};
use calc_io::Gate;
use calc_model::{Content, Edit, EditCause, MOST_CELLS, Seen, Steps};
use formula_groups::Group;
use formula_printer::print_content;
use formula_results::{ShownCells, shown};
use linked_book::LinkedBook;
use listener_hub::Hub;
use recalc::{Recalculated, StoredResults};
use std::alloc::Global;
use std::marker::Model;
use std::sync::ledger::Ledger;

/// The parts of a book with its hub, the stored results of its formulas, what edits touched since the last
/// recalculation, and whether it is dead. Contracts see the book, whether the hub is spent, and the other
/// three; `stale_of` says which formulas are stale, and `values_of` what cells show by the results.
#[derive(Drop)]
pub struct Workbook {
    alloc: Global,
    pub(crate) book: LinkedBook,
    results: StoredResults,
    pub(crate) touched: Touched,
    dead: bool,
}

impl Model for Workbook {
    ghost use Rattle.calc_model.specs.declared.edit.EditCause.{EditCause};
    ghost use Rattle.workbook.specs.Touched.{contains_cell};
    ghost use Rattle.workbook.specs.Workbook.{State};
    ghost use Rattle.calc_model.specs.contracts.tree.Tree as coded_tree;
    ghost use Rattle.std.specs.Coded.{codes};

    ghost Value = { State };

    ghost coded = { Prim.hlevel (codes, coded_tree.the_row.coded) };

    ghost view = { λ w. record {
      book = w.book.book;
      spent = w.book.spent;
      results = w.results;
      touched = w.touched;
      dead = w.dead;
    } };
}

impl Workbook {
    /// The workbook without cells and names.
    pub fn new(alloc: Global) -> Result<Workbook, NoMemory>
        ensures cells { IfOk result (λ w. w.book.cells ≡ []) }
        ensures names { IfOk result (λ w. w.book.names ≡ []) }
        ensures stale { IfOk result (λ w. (q : Place) → stale_of w q ≡ false) }
        ensures fresh { IfOk result (λ w. IsFresh w) }
        ensures alive { IfOk result (λ w. w.dead ≡ false) }
        ensures ready { IfOk result (λ w. w.spent ≡ false) }
    {
        let parts = BookParts::new(alloc)?;
        let book = LinkedBook::link(alloc, parts)?;
        Ok(Workbook {
            alloc,
            book,
            results: StoredResults::new(alloc),
            touched: Touched::none(alloc),
            dead: false,
        })
    }

    /// The workbook of these cells, whose formulas are all stale. It makes their hub, which is linear in
    /// their groups.
    pub fn load(alloc: Global, cells: BookParts) -> Result<Workbook, NoMemory>
        ensures book { IfOk result (λ w. w.book ≡ cells) }
        ensures stale { IfOk result (λ w. (q : Place) → stale_of w q ≡ is_formula_cell cells q) }
        ensures fresh { IfOk result (λ w. IsFresh w) }
        ensures alive { IfOk result (λ w. w.dead ≡ false) }
        ensures ready { IfOk result (λ w. w.spent ≡ false) }
    {
        let book = LinkedBook::link(alloc, cells)?;
        Ok(Workbook {
            alloc,
            book,
            results: StoredResults::new(alloc),
            touched: Touched::all(alloc),
            dead: false,
        })
    }

    /// Whether memory was refused in the midst of an edit. A dead workbook takes no edit.
    pub fn is_dead(&self) -> bool
        ensures { result ≡ self.now.dead }
    {
        self.dead
    }

    /// How many cells aren't empty.
    pub fn cell_count(&self) -> usize
        ensures { result ≡ length self.now.book.cells }
    {
        self.book.parts().len()
    }

    /// How many cells hold a formula. Linear in the cells.
    pub fn formula_count(&self) -> usize
        ensures { result ≡ formula_count self.now.book }
    {
        self.book.parts().formula_count()
    }

    /// Makes an edit, and a spent hub anew before it. Each edit costs what it costs the parts of the book and
    /// the hub: to set a cell what the setting of a slot in its column does, and to clear, copy or fill an
    /// area that for each of its cells, with the groups of its columns. Row edits are linear in the blocks
    /// and groups of the sheet's columns, in the formulas that change and in what all formulas read. Edits of
    /// names go over all columns. The generated book costs what the setting of its cells does.
    pub fn edit(&mut self, alloc: Global, edit: &Edit) -> Result<(), EditFault>
        requires { is_makeable edit.now ≡ true }
        ensures done { OnOk result (Made self.old edit.now self.new) }
        ensures refused { (cause : EditCause) → IsErrOf result (EditFault.Refused cause) →
            IsRefused (mended self.old) edit.now cause self.new }
        ensures dead { IsErrOf result EditFault.Dead ↔ (self.old.dead ≡ true) }
        ensures kept { self.old.dead ≡ true → self.new ≡ self.old }
        ensures no_memory { IsErrOf result EditFault.NoMemory →
            AfterNoMemory self.old edit.now self.new }
        ensures fresh { IsFresh self.old → IsFresh self.new }
    {
        if self.dead {
            return Err(EditFault::Dead);
        }
        if self.book.mend(alloc).is_err() {
            return Err(self.give_up(edit));
        }
        self.make(alloc, edit)
    }

    /// The fault of an edit for which the hub isn't made anew.
    fn give_up(&mut self, edit: &Edit) -> EditFault
        ensures fault { result ≡ EditFault.NoMemory }
        ensures after { AfterNoMemory self.old edit.now self.new }
    {
        match edit {
            Edit::Set { .. } | Edit::Clear { .. } => EditFault::NoMemory,
            _ => self.die(),
        }
    }

    /// Makes an edit of a workbook that isn't dead and whose hub isn't spent.
    fn make(&mut self, alloc: Global, edit: &Edit) -> Result<(), EditFault>
        requires makeable { is_makeable edit.now ≡ true }
        requires ready { self.old.spent ≡ false }
        ensures done { OnOk result (Made self.old edit.now self.new) }
        ensures refused { (cause : EditCause) → IsErrOf result (EditFault.Refused cause) →
            IsRefused self.old edit.now cause self.new }
        ensures not_dead { IsErrOf result EditFault.Dead → ⊥ }
        ensures no_memory { IsErrOf result EditFault.NoMemory →
            AfterNoMemory self.old edit.now self.new }
        ensures was_book { OnOk result (WasBook self.old.book edit.now) }
    {
        match edit {
            Edit::Set { cell, content } => self.set(alloc, *cell, content),
            Edit::Clear { area } => self.clear(*area),
            Edit::Copy { area, to } => self.copy(alloc, *area, *to),
            Edit::Fill { from, area } => self.fill(alloc, *from, *area),
            Edit::InsertRows {
                sheet,
                place,
                count,
            } => self.insert_rows(alloc, *sheet, *place, *count),
            Edit::DeleteRows {
                sheet,
                place,
                count,
            } => self.delete_rows(alloc, *sheet, *place, *count),
            Edit::Name { name, area } => self.define_name(alloc, name, *area),
            Edit::Unname { name } => self.remove_name(alloc, name),
            Edit::Make { start, rows } => self.generate(alloc, *start, *rows),
        }
    }

    fn set(&mut self, alloc: Global, cell: Cell, content: &Content) -> Result<(), EditFault>
        requires { self.old.spent ≡ false }
        ensures done { OnOk result (Made self.old (Edit.Set cell content.now) self.new) }
        ensures refused { (cause : EditCause) → IsErrOf result (EditFault.Refused cause) →
            IsRefused self.old (Edit.Set cell content.now) cause self.new }
        ensures no_memory { IsErrOf result EditFault.NoMemory →
            mended self.new ≡ mended self.old }
        ensures not_dead { IsErrOf result EditFault.Dead → ⊥ }
    {
        if !self.book.parts().has_room(cell, content) {
            return Err(EditFault::Refused(EditCause::CellsFull));
        }
        match self.put(alloc, cell, content) {
            Ok(()) => Ok(()),
            Err(_) => Err(EditFault::NoMemory),
        }
    }

    /// Sets a cell to the content.
    fn put(&mut self, alloc: Global, cell: Cell, content: &Content) -> Result<(), NoMemory>
        requires ready { self.old.spent ≡ false }
        requires room { length (with_content self.old.book.cells cell content.now) ≤ MOST_CELLS }
        ensures done { OnOk result (Made self.old (Edit.Set cell content.now) self.new) }
        ensures kept { OnErr result (mended self.new ≡ mended self.old) }
    {
        let added = self.touched.add_cell(cell)?;
        match self.book.set(alloc, cell, content) {
            Ok(()) => Ok(()),
            Err(refused) => {
                if added {
                    self.touched.remove_cell(cell);
                    return Err(refused);
                }
                Err(refused)
            }
        }
    }

    fn clear(&mut self, area: Area) -> Result<(), EditFault>
        requires { self.old.spent ≡ false }
        ensures done { OnOk result (Made self.old (Edit.Clear area) self.new) }
        ensures refused { (cause : EditCause) → IsErrOf result (EditFault.Refused cause) → ⊥ }
        ensures no_memory { IsErrOf result EditFault.NoMemory →
            mended self.new ≡ mended self.old }
        ensures not_dead { IsErrOf result EditFault.Dead → ⊥ }
    {
        match self.empty(area) {
            Ok(()) => Ok(()),
            Err(_) => Err(EditFault::NoMemory),
        }
    }

    /// Empties the cells of an area.
    fn empty(&mut self, area: Area) -> Result<(), NoMemory>
        requires { self.old.spent ≡ false }
        ensures done { OnOk result (Made self.old (Edit.Clear area) self.new) }
        ensures kept { OnErr result (mended self.new ≡ mended self.old) }
    {
        self.touched.push_area(area)?;
        match self.book.clear(area) {
            Ok(()) => Ok(()),
            Err(refused) => {
                self.touched.pop_area();
                Err(refused)
            }
        }
    }

    /// Dies of want of memory.
    pub(crate) fn die(&mut self) -> EditFault
        ensures fault { result ≡ EditFault.NoMemory }
        ensures dead { IsDead self.new }
    {
        self.dead = true;
        self.touched = Touched::all(self.alloc);
        EditFault::NoMemory
    }

    /// How many formulas are stale. It asks the hub which ones, as a recalculation does, and one made for
    /// this where the hub is spent.
    pub fn stale_count(&self, alloc: Global) -> Result<usize, NoMemory>
        ensures { IfOk result (λ count. count ≡ count_in self.now.book (stale_of self.now)) }
    {
        let (parts, hub) = (self.book.parts(), self.book.hub());
        if hub.is_spent() {
            let made = self.book.new_hub(alloc)?;
            return count_stale(alloc, parts, &made, &self.touched);
        }
        count_stale(alloc, parts, hub, &self.touched)
    }

    /// Calculates the stale formulas again, over the results of the others. None is stale afterwards, and
    /// every cell has its value. Each stale formula is evaluated once, after those that it reads, unit after
    /// unit; each unit enters the gate with its number in its wave. Where memory is refused, the same
    /// formulas are stale, and the others keep their results. `workers` is how many threads may search and
    /// calculate; so far the calling one works alone.
    pub fn recalculate<G: Gate + Sync, L: Ledger>(
        &mut self,
        alloc: Global,
        workers: u32,
        gate: &G,
        steps: &mut Steps<L>,
    ) -> Result<Recalculated, NoMemory>
        requires some { 1 ≤ workers }
        requires few { workers ≤ 64 }
        requires fresh { IsFresh self.old }
        requires room { CanFork steps.old }
        ensures count { IfOk result (λ done.
            done.stale ≡ count_in self.old.book (stale_of self.old)) }
        ensures units { IfOk result (λ done.
            StaleUnits self.old.book (stale_of self.old) done.units) }
        ensures steps { OnOk result (Spends steps.old steps.new
            (count_in self.old.book (stale_of self.old))) }
        ensures parts { steps.new.parts ≡ steps.old.parts }
        ensures values { OnOk result ((q : Place) → values_of self.new q ≡ val self.new.book q) }
        ensures stale { OnOk result ((q : Place) → stale_of self.new q ≡ false) }
        ensures kept { OnErr result ((q : Place) → stale_of self.new q ≡ stale_of self.old q) }
        ensures fresh { IsFresh self.new }
        ensures book { self.new.book ≡ self.old.book }
        ensures alive { self.new.dead ≡ self.old.dead }
        ensures ready { OnOk result (self.new.spent ≡ false) }
        ensures hub { self.old.spent ≡ false → self.new.spent ≡ false }
    {
        self.book.mend(alloc)?;
        self.book.parts().are_book();
        let (parts, hub) = (self.book.parts(), self.book.hub());
        let stale = stale_cells(alloc, workers, parts, hub, &self.touched)?;
        let done = self
            .results
            .recalculate(alloc, workers, parts, hub, &stale, gate, steps)?;
        self.touched = Touched::none(alloc);
        Ok(done)
    }

    /// What the cell shows. It takes the logarithm of the cells.
    #[tactic(auto, unfolding(crate::specs::Workbook::values_of))]
    pub fn value(&self, cell: Cell) -> Seen<'_>
        ensures value { lent result ≡ values_of self.now cell }
        ensures fresh { IsFresh self.now → stale_of self.now cell ≡ false
            → lent result ≡ val self.now.book cell }
    {
        shown(self.book.parts(), self.results.results(), cell)
    }

    /// What all cells show.
    #[tactic(auto, unfolding(crate::specs::Workbook::values_of))]
    pub fn values(&self) -> ShownCells<'_>
        ensures values { shown_values result ≡ values_of self.now }
        ensures fresh { IsFresh self.now → ((q : Place) → stale_of self.now q ≡ false)
            → (q : Place) → shown_values result q ≡ val self.now.book q }
    {
        ShownCells::of(self.book.parts(), self.results.results())
    }

    /// The formula groups of a column, downwards: its maximal runs of formulas with one relative form. It
    /// takes no time.
    pub fn groups(&self, sheet: u8, col: u16) -> &[Group]
        requires { IsSheetColumn sheet col }
        ensures groups { map (rows_of_group sheet col) result.now
            ≡ map (rows_of_run sheet col) (groups_in self.now.book sheet col) }
        ensures rows { AllLie (map (rows_of_group sheet col) result.now) }
    {
        self.book.parts().groups(sheet, col)
    }

    /// The blocks of a column, downwards: its maximal runs of cells of one kind. It takes no time.
    pub fn blocks(&self, sheet: u8, col: u16) -> &[Block]
        requires { IsSheetColumn sheet col }
        ensures blocks { result.now ≡ blocks_in self.now.book sheet col }
        ensures rows { AllLie (map (rows_of_block sheet col) result.now) }
    {
        self.book.parts().blocks(sheet, col)
    }

    /// What the rows of a column hold: a formula is there by its code. It takes no time.
    pub fn column(&self, sheet: u8, col: u16) -> &BlockColumn
        requires { IsSheetColumn sheet col }
        ensures { AreSlotsOf self.now.book sheet col result.now.slots }
    {
        self.book.parts().column(sheet, col)
    }

    /// Which formulas read a cell. It takes no time.
    pub fn hub(&self) -> &Hub
        ensures spent { result.now.spent ≡ self.now.spent }
        ensures holds { self.now.spent ≡ false → HoldsReads (areas_read result.now) self.now.book }
    {
        self.book.hub()
    }

    /// Appends the printed content of a cell. It takes the logarithm of the blocks of its column, and is
    /// linear in what is printed. Where memory is refused, `out` is as before.
    pub fn formula(&self, cell: Cell, out: &mut Vec<u8>) -> Result<(), NoMemory>
        ensures ok { OnOk result (out.new.items
            ≡ out.old.items ++ printed_content (content_at self.now.book cell)) }
        ensures err { OnErr result (out.new.items ≡ out.old.items) }
    {
        let content = self.book.parts().content(self.alloc, cell)?;
        print_content(&content, out)
    }
}
