ghost use Rattle.std.specs.Prelude.{◌≡◌, false, ◌≤◌, ◌+◌, ◌-◌, ◌↔◌, [], ◌++◌, Some, length, map, slice_get, IsTrue, IfSome, IfNone, OnOk, OnErr};
ghost use Rattle.std.specs.List.{Contains};
ghost use Rattle.cell_runs.specs.CellLists.{IsFirstAbove, LieBefore, all_cells, cells_of, first_number, number_of};

use calc_addr::{Cell, NoMemory, Run};
use std::alloc::Global;
use std::marker::Model;

/// Cells in area order without repeats, kept as runs. Contracts see the list of the cells.
#[derive(Debug, Drop)]
pub struct CellRuns {
    runs: Vec<Run>,
    /// The place in the list at which each run begins.
    places: Vec<usize>,
    len: usize,
}

impl Model for CellRuns {
    ghost use Rattle.std.specs.Prelude.{List};
    ghost use Rattle.calc_addr.specs.Places.{Place};
    ghost use Rattle.cell_runs.specs.CellLists.{IsList, all_cells};

    ghost Value = { List Place };

    ghost view = { λ c. all_cells c.runs.items };

    ghost invariant = { λ c. IsList c.runs.items c.places.items c.len };
}

/// How many cells a run has.
fn count(run: Run) -> usize
    ensures { result ≡ run.last + 1 - run.first }
{
    (run.last - run.first) as usize + 1
}

/// The number of a cell in area order.
fn number(sheet: u8, col: u16, row: u32) -> u64
    ensures { result ≡ number_of sheet col row }
{
    u64::from(sheet) * (1 << 30) + u64::from(col) * (1 << 20) + u64::from(row)
}

/// The place of the first of rising numbers that is above one, or how many there are.
fn first_above(numbers: &[usize], number: usize) -> usize
    ensures within { result ≤ length numbers.now }
    ensures place { IsFirstAbove number numbers.now result }
{
    let mut low = 0;
    let mut high = numbers.len();
    while low < high {
        let middle = low + (high - low) / 2;
        if numbers[middle] <= number {
            low = middle + 1;
        } else {
            high = middle;
        }
    }
    low
}

/// The place of the first of runs in order that begins behind a cell, by the cell's number.
fn first_behind(runs: &[Run], cell: u64) -> usize
    ensures within { result ≤ length runs.now }
    ensures place { IsFirstAbove cell (map first_number runs.now) result }
{
    let mut low = 0;
    let mut high = runs.len();
    while low < high {
        let middle = low + (high - low) / 2;
        let run = runs[middle];
        if number(run.sheet, run.col, run.first) <= cell {
            low = middle + 1;
        } else {
            high = middle;
        }
    }
    low
}

/// Whether the second run begins right behind the first.
fn goes_on(first: Run, second: Run) -> bool
    ensures { IsTrue result ↔ (first.sheet ≡ second.sheet × first.col ≡ second.col
        × first.last + 1 ≡ second.first) }
{
    first.sheet == second.sheet && first.col == second.col && first.last + 1 == second.first
}

/// Whether a run that begins at a cell or in front of it has the cell.
fn has_cell(run: Run, cell: Cell) -> bool
    ensures { IsTrue result ↔ (run.sheet ≡ cell.sheet × run.col ≡ cell.col × cell.row ≤ run.last) }
{
    run.sheet == cell.sheet && run.col == cell.col && cell.row <= run.last
}

impl CellRuns {
    /// No cells, which takes no memory.
    pub fn new(alloc: Global) -> CellRuns
        ensures { result ≡ [] }
    {
        CellRuns {
            runs: Vec::new(alloc),
            places: Vec::new(alloc),
            len: 0,
        }
    }

    /// Lengthens the last run by one that goes on with it, or answers false.
    fn lengthen(&mut self, run: Run) -> bool
        ensures yes { IsTrue result → self.new ≡ self.old ++ cells_of run }
        ensures no { result ≡ false → self.new ≡ self.old }
    {
        let count_before = self.runs.len();
        if count_before == 0 {
            return false;
        }
        let last = self.runs[count_before - 1];
        if !goes_on(last, run) {
            return false;
        }
        self.runs[count_before - 1] = Run {
            sheet: last.sheet,
            col: last.col,
            first: last.first,
            last: run.last,
        };
        self.len += count(run);
        true
    }

    /// Appends the cells of a run, which lengthens the last run where it goes on with it.
    pub fn push(&mut self, run: Run) -> Result<(), NoMemory>
        requires { LieBefore self.old run }
        ensures ok { OnOk result (self.new ≡ self.old ++ cells_of run) }
        ensures err { OnErr result (self.new ≡ self.old) }
    {
        if self.lengthen(run) {
            return Ok(());
        }
        self.append(run)
    }

    /// Appends a run.
    fn append(&mut self, run: Run) -> Result<(), NoMemory>
        requires { LieBefore self.old run }
        ensures ok { OnOk result (self.new ≡ self.old ++ cells_of run) }
        ensures err { OnErr result (self.new ≡ self.old) }
    {
        let _ = &run.sheet;
        self.runs.reserve(1)?;
        self.places.push(self.len)?;
        self.runs.push_reserved(run);
        self.len += count(run);
        Ok(())
    }

    /// Runs whose cells joined are the list.
    pub fn runs(&self) -> &[Run]
        ensures { all_cells result.now ≡ self.now }
    {
        self.runs.as_slice()
    }

    /// How many cells there are.
    pub fn len(&self) -> usize
        ensures { result ≡ length self.now }
    {
        self.len
    }

    /// Whether there is no cell.
    pub fn is_empty(&self) -> bool
        ensures { IsTrue result ↔ (self.now ≡ []) }
    {
        self.len == 0
    }

    /// The cell at a place of the list, counted from 0. It is logarithmic in the runs.
    pub fn cell(&self, place: usize) -> Option<Cell>
        ensures { result ≡ slice_get self.now place }
    {
        if place >= self.len {
            return None;
        }
        let behind = first_above(self.places.as_slice(), place);
        if behind == 0 {
            return None;
        }
        let run = self.runs[behind - 1];
        let row = run.first + (place - self.places[behind - 1]) as u32;
        Some(Cell {
            sheet: run.sheet,
            col: run.col,
            row,
        })
    }

    /// The place of a cell in the list, counted from 0. It is logarithmic in the runs.
    pub fn place(&self, cell: Cell) -> Option<usize>
        ensures at { IfSome result (λ place. slice_get self.now place ≡ Some cell) }
        ensures absent { IfNone result (¬ Contains self.now cell) }
    {
        let behind = first_behind(self.runs.as_slice(), number(cell.sheet, cell.col, cell.row));
        if behind == 0 {
            return None;
        }
        let run = self.runs[behind - 1];
        if !has_cell(run, cell) {
            return None;
        }
        Some(self.places[behind - 1] + (cell.row - run.first) as usize)
    }
}
