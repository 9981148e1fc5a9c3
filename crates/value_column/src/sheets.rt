ghost use Rattle.std.specs.Option.{option_copied};
ghost use Rattle.std.specs.Prelude.{◌≡◌, [], ◌≢◌, ℕ, ◌≤◌, ◌<◌, ◌+◌, ◌-◌, ◌^◌, length, map, OnOk, OnErr, IsOk, None, slice_index_or, slice_set, vec_len};
ghost use Rattle.run_tables.specs.Rows.{AreRows, IsRowEdit, rows_erased, rows_inserted, rows_set};
ghost use Rattle.calc_addr.specs.declared.cell.TheConstants.{LAST_COL, LAST_ROW, LAST_SHEET};
ghost use Rattle.calc_model.specs.declared.value.Value.TheVariants as value;
ghost use Rattle.value_column.specs.ValueRows.{IsRun, run_set};
ghost use Rattle.value_column.specs.Sheets.{IsColumn, IsEdited, IsSet, ShowsSame, column_in, column_place, shown_in, spare_in};

use crate::column::ValueColumn;
use calc_addr::{Cell, LAST_COL, NoMemory, Run};
use calc_model::Value;
use std::alloc::Global;
use std::marker::Model;

/// What the cells of all sheets show, as the columns that were ever used. Contracts see what is
/// known of each column, by its place among those of all sheets.
#[derive(Debug, Drop)]
pub struct ValueSheets {
    alloc: Global,
    columns: Vec<Option<ValueColumn>>,
}

impl Model for ValueSheets {
    ghost use Rattle.std.specs.Prelude.{List, Option};
    ghost use Rattle.value_column.specs.ValueRows.{ValueRows};

    ghost Value = { List (Option ValueRows) };

    ghost view = { λ s. s.columns.items };
}

/// The place of a column among those of all sheets.
fn place_of(sheet: u8, col: u16) -> usize
    requires sheet { sheet ≤ LAST_SHEET }
    requires from { 1 ≤ col }
    requires to { col ≤ LAST_COL }
    ensures place { result ≡ column_place sheet col }
    ensures small { result < 2 ^ 31 }
{
    sheet as usize * LAST_COL as usize + (col as usize - 1)
}

/// Makes the table of columns reach a place.
fn reach(columns: &mut Vec<Option<ValueColumn>>, place: usize) -> Result<(), NoMemory>
    requires { place < 2 ^ 31 }
    ensures same { (p : ℕ) → slice_index_or columns.new.items p None
        ≡ slice_index_or columns.old.items p None }
    ensures ok { OnOk result (place < vec_len columns.new) }
    ensures reached { place < vec_len columns.old → IsOk result }
{
    let have = columns.len();
    if have <= place {
        columns.reserve(place + 1 - have)?;
        for _ in have..place + 1 {
            columns.push_reserved(None);
        }
    }
    Ok(())
}

/// Makes a row of a column show a value.
fn set_row(
    alloc: Global,
    columns: &mut Vec<Option<ValueColumn>>,
    place: usize,
    row: u32,
    value: Value,
) -> Result<(), NoMemory>
    requires place { place < 2 ^ 31 }
    requires row { AreRows row row }
    ensures ok { OnOk result (IsSet columns.old.items columns.new.items place
        (slice_set (shown_in columns.old.items place) (row - 1) value)) }
    ensures rows { OnOk result (length (shown_in columns.old.items place) ≡ LAST_ROW) }
    ensures err { OnErr result (ShowsSame columns.old.items columns.new.items) }
    ensures reserved { 1 ≤ spare_in columns.old.items place → IsOk result }
    ensures spare { OnOk result (spare_in columns.old.items place
        ≤ spare_in columns.new.items place + 1) }
{
    reach(columns, place)?;
    if let Some(column) = &mut columns[place] {
        return column.set(row, value);
    }
    let mut column = ValueColumn::new(alloc)?;
    column.set(row, value)?;
    columns[place] = Some(column);
    Ok(())
}

/// Makes neighbouring rows of a column show small numbers.
fn set_small_rows(
    alloc: Global,
    columns: &mut Vec<Option<ValueColumn>>,
    place: usize,
    first: u32,
    items: &[i64],
) -> Result<(), NoMemory>
    requires place { place < 2 ^ 31 }
    requires rows { IsRun first (length items.now) }
    ensures ok { OnOk result (IsSet columns.old.items columns.new.items place
        (run_set (first - 1) (map value.Number items.now) (shown_in columns.old.items place))) }
    ensures err { OnErr result (ShowsSame columns.old.items columns.new.items) }
{
    reach(columns, place)?;
    if let Some(column) = &mut columns[place] {
        return column.set_small(first, items);
    }
    let mut column = ValueColumn::new(alloc)?;
    column.set_small(first, items)?;
    columns[place] = Some(column);
    Ok(())
}

/// Makes neighbouring rows of a column show values.
fn set_run_rows(
    alloc: Global,
    columns: &mut Vec<Option<ValueColumn>>,
    place: usize,
    first: u32,
    values: Vec<Value>,
) -> Result<(), NoMemory>
    requires place { place < 2 ^ 31 }
    requires rows { IsRun first (vec_len values) }
    ensures ok { OnOk result (IsSet columns.old.items columns.new.items place
        (run_set (first - 1) values.items (shown_in columns.old.items place))) }
    ensures rows { OnOk result (length (shown_in columns.old.items place) ≡ LAST_ROW) }
    ensures err { OnErr result (ShowsSame columns.old.items columns.new.items) }
{
    reach(columns, place)?;
    if let Some(column) = &mut columns[place] {
        return column.set_run(first, values);
    }
    let mut column = ValueColumn::new(alloc)?;
    column.set_run(first, values)?;
    columns[place] = Some(column);
    Ok(())
}

/// Makes room in a column.
fn reserve_rows(
    alloc: Global,
    columns: &mut Vec<Option<ValueColumn>>,
    place: usize,
    n: usize,
) -> Result<(), NoMemory>
    requires place { place < 2 ^ 31 }
    ensures ok { OnOk result (IsSet columns.old.items columns.new.items place
        (shown_in columns.old.items place)) }
    ensures room { OnOk result (n ≤ spare_in columns.new.items place) }
    ensures err { OnErr result (ShowsSame columns.old.items columns.new.items) }
{
    reach(columns, place)?;
    if let Some(column) = &mut columns[place] {
        return column.reserve(n);
    }
    let mut column = ValueColumn::new(alloc)?;
    column.reserve(n)?;
    columns[place] = Some(column);
    Ok(())
}

impl ValueSheets {
    /// No column, which takes no memory.
    pub fn new(alloc: Global) -> ValueSheets
        ensures { result ≡ [] }
    {
        ValueSheets {
            alloc,
            columns: Vec::new(alloc),
        }
    }

    /// The column, if it was ever used.
    pub fn column(&self, sheet: u8, col: u16) -> Option<&ValueColumn>
        requires { IsColumn sheet col }
        ensures { option_copied result ≡ column_in self.now sheet col }
    {
        let place = place_of(sheet, col);
        if place < self.columns.len() {
            self.columns[place].as_ref()
        } else {
            None
        }
    }

    /// Makes a cell show a value, which makes its column used.
    pub fn set(&mut self, cell: Cell, value: Value) -> Result<(), NoMemory>
        ensures ok { OnOk result (IsSet self.old self.new (column_place cell.sheet cell.col)
            (slice_set (shown_in self.old (column_place cell.sheet cell.col))
            (cell.row - 1) value)) }
        ensures rows { OnOk result
            (length (shown_in self.old (column_place cell.sheet cell.col)) ≡ LAST_ROW) }
        ensures err { OnErr result (ShowsSame self.old self.new) }
        ensures reserved { 1 ≤ spare_in self.old (column_place cell.sheet cell.col)
            → IsOk result }
        ensures spare { OnOk result (spare_in self.old (column_place cell.sheet cell.col)
            ≤ spare_in self.new (column_place cell.sheet cell.col) + 1) }
    {
        let alloc = self.alloc;
        let place = place_of(cell.sheet, cell.col);
        set_row(alloc, &mut self.columns, place, cell.row, value)
    }

    /// Makes the cells of a run show values, which makes their column used.
    pub fn set_run(&mut self, run: Run, values: Vec<Value>) -> Result<(), NoMemory>
        requires { vec_len values ≡ run.last + 1 - run.first }
        ensures ok { OnOk result (IsSet self.old self.new (column_place run.sheet run.col)
            (run_set (run.first - 1) values.items
            (shown_in self.old (column_place run.sheet run.col)))) }
        ensures rows { OnOk result
            (length (shown_in self.old (column_place run.sheet run.col)) ≡ LAST_ROW) }
        ensures err { OnErr result (ShowsSame self.old self.new) }
    {
        let alloc = self.alloc;
        let place = place_of(run.sheet, run.col);
        set_run_rows(alloc, &mut self.columns, place, run.first, values)
    }

    /// Makes the cells of a run show the numbers of these raw numbers, which makes their column
    /// used.
    pub fn set_small(&mut self, run: Run, items: &[i64]) -> Result<(), NoMemory>
        requires { length items.now ≡ run.last + 1 - run.first }
        ensures ok { OnOk result (IsSet self.old self.new (column_place run.sheet run.col)
            (run_set (run.first - 1) (map value.Number items.now)
            (shown_in self.old (column_place run.sheet run.col)))) }
        ensures err { OnErr result (ShowsSame self.old self.new) }
    {
        let alloc = self.alloc;
        let place = place_of(run.sheet, run.col);
        set_small_rows(alloc, &mut self.columns, place, run.first, items)
    }

    /// Makes the cells of a run blank.
    pub fn clear(&mut self, run: Run) -> Result<(), NoMemory>
        ensures ok { OnOk result (IsEdited self.old self.new (column_place run.sheet run.col)
            (λ s. rows_set (run.first - 1) (run.last + 1 - run.first) value.Blank s)) }
        ensures rows { length (shown_in self.old (column_place run.sheet run.col)) ≡ LAST_ROW }
        ensures err { OnErr result (ShowsSame self.old self.new) }
        ensures reserved { 1 ≤ spare_in self.old (column_place run.sheet run.col)
            → IsOk result }
        ensures spare { OnOk result (spare_in self.old (column_place run.sheet run.col)
            ≤ spare_in self.new (column_place run.sheet run.col) + 1) }
    {
        let place = place_of(run.sheet, run.col);
        if place >= self.columns.len() {
            return Ok(());
        }
        match &mut self.columns[place] {
            Some(column) => column.clear(run.first, run.last),
            None => Ok(()),
        }
    }

    /// Puts blank rows in a column.
    pub fn insert_empty(
        &mut self,
        sheet: u8,
        col: u16,
        place: u32,
        count: u32,
    ) -> Result<(), NoMemory>
        requires column { IsColumn sheet col }
        requires rows { IsRowEdit place count }
        ensures ok { OnOk result (IsEdited self.old self.new (column_place sheet col)
            (λ s. rows_inserted (place - 1) count value.Blank s)) }
        ensures err { OnErr result (ShowsSame self.old self.new) }
    {
        let column = place_of(sheet, col);
        if column >= self.columns.len() {
            return Ok(());
        }
        match &mut self.columns[column] {
            Some(rows) => rows.insert_empty(place, count),
            None => Ok(()),
        }
    }

    /// Takes rows out of a column.
    pub fn erase(&mut self, sheet: u8, col: u16, place: u32, count: u32) -> Result<(), NoMemory>
        requires column { IsColumn sheet col }
        requires rows { IsRowEdit place count }
        ensures ok { OnOk result (IsEdited self.old self.new (column_place sheet col)
            (λ s. rows_erased (place - 1) count value.Blank s)) }
        ensures err { OnErr result (ShowsSame self.old self.new) }
    {
        let column = place_of(sheet, col);
        if column >= self.columns.len() {
            return Ok(());
        }
        match &mut self.columns[column] {
            Some(rows) => rows.erase(place, count),
            None => Ok(()),
        }
    }

    /// Makes room for the setting or clearing of n cells of a column, which makes it used.
    pub fn reserve(&mut self, sheet: u8, col: u16, n: usize) -> Result<(), NoMemory>
        requires { IsColumn sheet col }
        ensures room { OnOk result (n ≤ spare_in self.new (column_place sheet col)) }
        ensures ok { OnOk result (IsSet self.old self.new (column_place sheet col)
            (shown_in self.old (column_place sheet col))) }
        ensures err { OnErr result (ShowsSame self.old self.new) }
    {
        let alloc = self.alloc;
        let place = place_of(sheet, col);
        reserve_rows(alloc, &mut self.columns, place, n)
    }
}
