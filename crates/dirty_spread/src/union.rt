//! The cells of runs, each once, in a list.
ghost use Rattle.std.specs.Prelude.{◌≡◌, ◌≤◌, ◌+◌, ◌-◌, [], IfOk, OnOk};
ghost use Rattle.std.specs.List.Sorted.{IsNonDecreasingBy};
ghost use Rattle.cell_runs.specs.CellLists.{first_number, number_of};
ghost use Rattle.run_unions.specs.Unions.{AreUnion};

use calc_addr::{NoMemory, Run};
use cell_runs::CellRuns;
use std::alloc::Global;

/// The number of a cell in the order of cells.
fn number(sheet: u8, col: u16, row: u32) -> u64
    ensures { result ≡ number_of sheet col row }
{
    u64::from(sheet) * (1 << 30) + u64::from(col) * (1 << 20) + u64::from(row)
}

/// The number of a run's first cell.
fn first_number(run: &Run) -> u64
    ensures { result ≡ first_number run.now }
{
    number(run.sheet, run.col, run.first)
}

/// The rows of a run from one on, by how far it lies below the first one.
fn rows_from(run: &Run, step: u32) -> Run
    requires { run.now.first + step ≤ run.now.last }
    ensures { result ≡ record run.now { first = run.now.first + step } }
{
    Run {
        sheet: run.sheet,
        col: run.col,
        first: run.first + step,
        last: run.last,
    }
}

/// Appends the cells of runs that are sorted by their first cells, each once.
fn push_runs(runs: &[Run], cells: &mut CellRuns) -> Result<(), NoMemory>
    requires sorted { IsNonDecreasingBy first_number runs.now }
    requires empty { cells.old ≡ [] }
    ensures { OnOk result (AreUnion runs.now cells.new) }
{
    let mut next = 0;
    for run in runs {
        let begin = first_number(run);
        let first = begin.max(next);
        let last = number(run.sheet, run.col, run.last);
        if first <= last {
            cells.push(rows_from(run, (first - begin) as u32))?;
            next = last + 1;
        }
    }
    Ok(())
}

/// The cells of runs in any order, each once, in the order of cells. Linear in the runs, with a
/// sort of them.
pub fn union_of_runs(alloc: Global, mut runs: Vec<Run>) -> Result<CellRuns, NoMemory>
    ensures { IfOk result (AreUnion runs.items) }
{
    runs.sort_unstable_by_key(|run| first_number(run));
    let mut cells = CellRuns::new(alloc);
    push_runs(&runs, &mut cells)?;
    Ok(cells)
}
