//! Inserted and deleted rows.
ghost use Rattle.std.specs.Prelude.{◌≡◌, ◌≤◌, ◌&&◌, ◌||◌, false, true, IsErrOf, OnOk};
ghost use Rattle.std.specs.List.{list_any};
ghost use Rattle.std.specs.Ordering.{eq_by_cmp};
ghost use Rattle.calc_addr.specs.Places.{Place, covers, place_cmp};
ghost use Rattle.calc_model.specs.Books.{IsBook};
ghost use Rattle.calc_model.specs.Reads.{reads};
ghost use Rattle.calc_model.specs.Changes.{IsChange};
ghost use Rattle.calc_model.specs.RowEdits.{are_rows, has_rows_of, is_pushed_out};
ghost use Rattle.calc_model.specs.Touched.{rows_from};
ghost use Rattle.calc_model.specs.declared.edit.EditCause.{EditCause};
ghost use Rattle.calc_model.specs.Listeners.{listed};
ghost use Rattle.dirty_spread.specs.Waves.{has};
ghost use Rattle.listener_hub.specs.Hubs.{areas_read};
ghost use Rattle.workbook.specs.Readers.{changes_area};
ghost use Rattle.workbook.specs.Touched.{lies_in};
ghost use Rattle.workbook.specs.Workbook.{IsDead, IsRefused, Made};

use crate::fault::EditFault;
use crate::touched::Touched;
use crate::workbook::Workbook;
use calc_addr::{
    Area, Cell, LAST_COL, LAST_ROW, LAST_SHEET, NoMemory, delete_row_area, insert_row_area,
};
use calc_model::{Change, Dependents, Edit, EditCause};
use cell_runs::CellRuns;
use listener_hub::Hub;
use std::alloc::Global;

impl Workbook {
    pub(crate) fn insert_rows(
        &mut self,
        alloc: Global,
        sheet: u8,
        place: u32,
        count: u32,
    ) -> Result<(), EditFault>
        requires { self.old.spent ≡ false }
        ensures done { OnOk result (Made self.old (Edit.InsertRows sheet place count) self.new) }
        ensures refused { (cause : EditCause) → IsErrOf result (EditFault.Refused cause) →
            IsRefused self.old (Edit.InsertRows sheet place count) cause self.new }
        ensures was_book { OnOk result (IsBook self.old.book) }
        ensures no_memory { IsErrOf result EditFault.NoMemory → IsDead self.new }
        ensures not_dead { IsErrOf result EditFault.Dead → ⊥ }
    {
        if !are_rows(sheet, place, count) {
            return Err(EditFault::Refused(EditCause::OffSheet));
        }
        if self.book.parts().pushes_out(sheet, place, count) {
            return Err(EditFault::Refused(EditCause::RowsFull));
        }
        match self.make_insertion(alloc, sheet, place, count) {
            Ok(()) => Ok(()),
            Err(_) => Err(self.die()),
        }
    }

    fn make_insertion(
        &mut self,
        alloc: Global,
        sheet: u8,
        place: u32,
        count: u32,
    ) -> Result<(), NoMemory>
        requires ready { self.old.spent ≡ false }
        requires rows { are_rows sheet place count ≡ true }
        requires inside { is_pushed_out sheet place count self.old.book.cells ≡ false }
        ensures done { OnOk result (Made self.old (Edit.InsertRows sheet place count) self.new) }
        ensures was_book { OnOk result (IsBook self.old.book) }
    {
        let change = Change::Inserted {
            sheet,
            place,
            count,
        };
        self.touch_rows(alloc, sheet, place, change)?;
        self.book.insert_rows(alloc, sheet, place, count)
    }

    pub(crate) fn delete_rows(
        &mut self,
        alloc: Global,
        sheet: u8,
        place: u32,
        count: u32,
    ) -> Result<(), EditFault>
        requires { self.old.spent ≡ false }
        ensures done { OnOk result (Made self.old (Edit.DeleteRows sheet place count) self.new) }
        ensures refused { (cause : EditCause) → IsErrOf result (EditFault.Refused cause) →
            IsRefused self.old (Edit.DeleteRows sheet place count) cause self.new }
        ensures was_book { OnOk result (IsBook self.old.book) }
        ensures no_memory { IsErrOf result EditFault.NoMemory → IsDead self.new }
        ensures not_dead { IsErrOf result EditFault.Dead → ⊥ }
    {
        if !are_rows(sheet, place, count) {
            return Err(EditFault::Refused(EditCause::OffSheet));
        }
        match self.make_deletion(alloc, sheet, place, count) {
            Ok(()) => Ok(()),
            Err(_) => Err(self.die()),
        }
    }

    fn make_deletion(
        &mut self,
        alloc: Global,
        sheet: u8,
        place: u32,
        count: u32,
    ) -> Result<(), NoMemory>
        requires ready { self.old.spent ≡ false }
        requires rows { are_rows sheet place count ≡ true }
        ensures done { OnOk result (Made self.old (Edit.DeleteRows sheet place count) self.new) }
        ensures was_book { OnOk result (IsBook self.old.book) }
    {
        let change = Change::Deleted {
            sheet,
            place,
            count,
        };
        self.touch_rows(alloc, sheet, place, change)?;
        self.book.delete_rows(alloc, sheet, place, count)
    }

    /// Touches the cells of a sheet from a row on, and the formulas that read an area that changes.
    fn touch_rows(
        &mut self,
        alloc: Global,
        sheet: u8,
        place: u32,
        change: Change,
    ) -> Result<(), NoMemory>
        requires ready { self.old.spent ≡ false }
        requires sheet { sheet ≤ LAST_SHEET }
        requires from { 1 ≤ place }
        requires to { place ≤ LAST_ROW }
        requires change { IsChange change }
        ensures book { self.new.book ≡ self.old.book }
        ensures hub { self.new.spent ≡ self.old.spent }
        ensures results { self.new.results ≡ self.old.results }
        ensures alive { self.new.dead ≡ self.old.dead }
        ensures names { self.new.touched.names ≡ self.old.touched.names }
        ensures touched { OnOk result ((q : Place) → lies_in self.new.touched q
            ≡ (lies_in self.old.touched q || (covers (rows_from sheet place) q
            || list_any (changes_area change) (reads self.old.book q)))) }
    {
        let area = Area {
            sheet,
            first_col: 1,
            last_col: LAST_COL,
            first_row: place,
            last_row: LAST_ROW,
        };
        self.touched.add_area(area)?;
        let formulas = self.book.parts().formula_cells(alloc)?;
        touch_readers(
            alloc,
            &mut self.touched,
            area,
            &formulas,
            self.book.hub(),
            change,
        )
    }
}

/// Touches those of some formulas that read an area that changes. It asks the hub what each of them reads,
/// but for those in an area that is touched.
fn touch_readers(
    alloc: Global,
    touched: &mut Touched,
    inside: Area,
    formulas: &CellRuns,
    hub: &Hub,
    change: Change,
) -> Result<(), NoMemory>
    requires inside { (q : Place) → covers inside q ≡ true → lies_in touched.old q ≡ true }
    requires change { IsChange change }
    requires ready { hub.now.spent ≡ false }
    ensures cells { OnOk result ((q : Place) → lies_in touched.new q ≡ (lies_in touched.old q
        || (has formulas.now q && list_any (changes_area change) (listed (areas_read hub.now q))))) }
    ensures names { touched.new.names ≡ touched.old.names }
{
    let mut areas = Vec::new(alloc);
    for place in 0..formulas.len() {
        if let Some(cell) = formulas.cell(place) {
            if !inside.covers(cell) {
                touch_reader(touched, cell, hub, &mut areas, change)?;
            }
        }
    }
    Ok(())
}

/// Touches the formula where it reads an area that changes. The areas are where those that it reads are put.
fn touch_reader(
    touched: &mut Touched,
    cell: Cell,
    hub: &Hub,
    areas: &mut Vec<Area>,
    change: Change,
) -> Result<(), NoMemory>
    requires change { IsChange change }
    requires ready { hub.now.spent ≡ false }
    ensures cells { OnOk result ((q : Place) → lies_in touched.new q ≡ (lies_in touched.old q
        || (eq_by_cmp place_cmp q cell
        && list_any (changes_area change) (listed (areas_read hub.now q))))) }
    ensures names { touched.new.names ≡ touched.old.names }
{
    areas.clear();
    hub.reads(cell, areas)?;
    if is_any_changed(areas, change) {
        touched.add_cell(cell)?;
    }
    Ok(())
}

/// Whether one of the areas changes.
fn is_any_changed(areas: &[Area], change: Change) -> bool
    requires { IsChange change }
    ensures { result ≡ list_any (changes_area change) areas.now }
{
    areas.iter().any(|area| is_changed(*area, change))
}

/// Whether the area changes, or is deleted.
fn is_changed(area: Area, change: Change) -> bool
    requires { IsChange change }
    ensures { result ≡ changes_area change area }
{
    match change {
        Change::Inserted {
            sheet,
            place,
            count,
        } => { area.sheet == sheet && !has_rows_of(area, insert_row_area(area, place, count)) }
        Change::Deleted {
            sheet,
            place,
            count,
        } => { area.sheet == sheet && !has_rows_of(area, delete_row_area(area, place, count)) }
        Change::Stays | Change::Moves { .. } => false,
    }
}

/// Whether what became of the area is that area.
fn has_rows_of(area: Area, to: Option<Area>) -> bool
    ensures { result ≡ has_rows_of area to }
{
    match to {
        Some(to) => to.first_row == area.first_row && to.last_row == area.last_row,
        None => false,
    }
}

/// Whether the rows of a sheet are some, and lie in it.
fn are_rows(sheet: u8, place: u32, count: u32) -> bool
    ensures { result ≡ are_rows sheet place count }
{
    sheet <= LAST_SHEET
        && 1 <= place
        && 1 <= count
        && count <= LAST_ROW
        && place <= LAST_ROW + 1 - count
}
