ghost use Rattle.std.specs.Prelude.{◌≡◌, ◌≢◌, ◌≤◌, ◌<◌, ◌+◌, ◌-◌, ◌↔◌, [], false, length, slice_index_or, IsTrue, OnOk};
ghost use Rattle.std.specs.List.{slice_range};
ghost use Rattle.cell_runs.specs.WaveLists.{AreStarts, IsAdded, IsOpened, part};
ghost use Rattle.cell_runs.specs.CellLists.{all_cells};

use calc_addr::{Cell, NoMemory, Run};
use std::alloc::Global;
use std::marker::Model;

/// Lists of cells, one list of runs for all of them. Contracts see the lists.
#[derive(Debug, Drop)]
pub struct WaveList {
    runs: Vec<Run>,
    /// The place among the runs at which each list begins.
    starts: Vec<usize>,
}

impl Model for WaveList {
    ghost use Rattle.std.specs.Prelude.{List};
    ghost use Rattle.calc_addr.specs.Places.{Place};
    ghost use Rattle.cell_runs.specs.WaveLists.{AreStarts, lists_of};

    ghost Value = { List (List Place) };

    ghost view = { λ w. lists_of w.runs.items w.starts.items };

    ghost invariant = { λ w. AreStarts w.runs.items w.starts.items };
}

/// Whether the cell lies right below a run.
fn goes_on(run: Run, cell: Cell) -> bool
    ensures { IsTrue result ↔ (run.sheet ≡ cell.sheet × run.col ≡ cell.col
        × run.last + 1 ≡ cell.row) }
{
    run.sheet == cell.sheet && run.col == cell.col && run.last + 1 == cell.row
}

/// Where a list ends that begins at a place of these, of so many runs.
fn end_of(starts: &[usize], k: usize, count: usize) -> usize
    requires { k < length starts.now }
    ensures { result ≡ slice_index_or starts.now (k + 1) count }
{
    if k + 1 < starts.len() {
        starts[k + 1]
    } else {
        count
    }
}

/// The runs from one to before another.
fn between(runs: &[Run], start: usize, end: usize) -> &[Run]
    requires order { start ≤ end }
    requires within { end ≤ length runs.now }
    ensures { result.now ≡ slice_range runs.now start end }
{
    &runs[start..end]
}

/// The runs of a list.
fn list_at<'a>(runs: &'a [Run], starts: &[usize], k: usize) -> &'a [Run]
    requires starts { AreStarts runs.now starts.now }
    requires within { k < length starts.now }
    ensures { result.now ≡ part runs.now starts.now k }
{
    between(runs, starts[k], end_of(starts, k, runs.len()))
}

impl WaveList {
    /// No lists, which takes no memory.
    pub fn new(alloc: Global) -> WaveList
        ensures { result ≡ [] }
    {
        WaveList {
            runs: Vec::new(alloc),
            starts: Vec::new(alloc),
        }
    }

    /// How many lists there are.
    pub fn len(&self) -> usize
        ensures { result ≡ length self.now }
    {
        self.starts.len()
    }

    /// Runs whose cells joined are a list.
    pub fn wave(&self, k: usize) -> &[Run]
        requires { k < length self.now }
        ensures { all_cells result.now ≡ slice_index_or self.now k [] }
    {
        list_at(&self.runs, &self.starts, k)
    }

    /// Appends a list without cells.
    pub fn open(&mut self) -> Result<(), NoMemory>
        ensures { OnOk result (IsOpened self.old self.new) }
    {
        self.starts.push(self.runs.len())?;
        Ok(())
    }

    /// Lengthens the last run by a cell that goes on with it, where it is one of the last list, or
    /// answers false.
    fn lengthen(&mut self, cell: Cell) -> bool
        requires { self.old ≢ [] }
        ensures yes { IsTrue result → IsAdded self.old self.new (length self.old - 1) cell }
        ensures no { result ≡ false → self.new ≡ self.old }
    {
        let count = self.runs.len();
        let lists = self.starts.len();
        if lists == 0 || count <= self.starts[lists - 1] {
            return false;
        }
        let last = self.runs[count - 1];
        if !goes_on(last, cell) {
            return false;
        }
        self.runs[count - 1] = Run {
            sheet: last.sheet,
            col: last.col,
            first: last.first,
            last: cell.row,
        };
        true
    }

    /// Appends a cell to the last list.
    pub fn push(&mut self, cell: Cell) -> Result<(), NoMemory>
        requires { self.old ≢ [] }
        ensures { OnOk result (IsAdded self.old self.new (length self.old - 1) cell) }
    {
        if self.lengthen(cell) {
            return Ok(());
        }
        self.append(cell)
    }

    /// Appends a cell to the last list as a run of its own.
    fn append(&mut self, cell: Cell) -> Result<(), NoMemory>
        requires { self.old ≢ [] }
        ensures { OnOk result (IsAdded self.old self.new (length self.old - 1) cell) }
    {
        self.runs.push(Run {
            sheet: cell.sheet,
            col: cell.col,
            first: cell.row,
            last: cell.row,
        })?;
        Ok(())
    }
}
