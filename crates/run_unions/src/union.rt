ghost use Rattle.std.specs.Prelude.{◌≡◌, ◌≤◌, ◌+◌, ◌++◌, ◌-◌, IfOk, OnErr, OnOk, map, max, length, take};
ghost use Rattle.std.specs.List.{range_with_len};
ghost use Rattle.std.specs.List.Sorted.{IsNonDecreasingBy};
ghost use Rattle.calc_addr.specs.Places.{IsRows};
ghost use Rattle.calc_model.specs.Listeners.{Gets};
ghost use Rattle.run_unions.specs.Emitted.{IsEmitted};
ghost use Rattle.run_unions.specs.Keys.{MOST, first_key, last_key, place_at};
ghost use Rattle.run_unions.specs.Unions.{AreUnion};

use crate::entry::{Entry, Runs};
use crate::keys::{cell_at, first_key, last_key};
use calc_addr::{Cell, NoMemory, Run};

/// Appends the cells from one number to before another.
fn push_cells(first: u64, end: u64, out: &mut Vec<Cell>) -> Result<(), NoMemory>
    requires order { first ≤ end }
    requires within { end ≤ MOST }
    ensures ok { OnOk result (out.new.items
        ≡ out.old.items ++ map place_at (range_with_len first (end - first))) }
    ensures err { OnErr result (take (length out.old.items) out.new.items ≡ out.old.items) }
{
    for key in first..end {
        out.push(cell_at(key))?;
    }
    Ok(())
}

/// Appends the cells of a run from a number on, and gives the number behind all that were appended.
fn push_run(run: &Entry, next: u64, out: &mut Vec<Cell>) -> Result<u64, NoMemory>
    requires { next ≤ MOST }
    ensures next { IfOk result (λ n. n ≡ max next (last_key run.now + 1)) }
    ensures within { IfOk result (λ n. n ≤ MOST) }
    ensures rows { IsRows run.now }
    ensures ok { OnOk result (out.new.items ≡ out.old.items
        ++ map place_at (range_with_len (max (first_key run.now) next)
        (last_key run.now + 1 - max (first_key run.now) next))) }
    ensures err { OnErr result (take (length out.old.items) out.new.items ≡ out.old.items) }
{
    let rows = run.run();
    let first = first_key(rows).max(next);
    let end = last_key(rows) + 1;
    if first < end {
        push_cells(first, end, out)?;
    }
    Ok(next.max(end))
}

/// Appends the cells of runs that are sorted by their first cells, each once.
fn push_runs(runs: &[Entry], out: &mut Vec<Cell>) -> Result<(), NoMemory>
    requires { IsNonDecreasingBy first_key runs.now }
    ensures ok { OnOk result (IsEmitted out.old.items out.new.items runs.now) }
    ensures err { OnErr result (take (length out.old.items) out.new.items ≡ out.old.items) }
{
    let mut next = 0;
    for run in runs {
        next = push_run(run, next, out)?;
    }
    Ok(())
}

/// Appends the cells of runs, each once, in the order of cells. Linear in the cells, with a sort of the
/// runs.
pub fn push_union(mut runs: Runs, out: &mut Vec<Cell>) -> Result<(), NoMemory>
    ensures ok { OnOk result (Gets out.old.items out.new.items (AreUnion runs.items)) }
    ensures err { OnErr result (out.new.items ≡ out.old.items) }
{
    runs.sort_unstable_by_key(|run| first_key(run.run()));
    let before = out.len();
    match push_runs(&runs, out) {
        Ok(()) => Ok(()),
        Err(fault) => {
            out.truncate(before);
            Err(fault)
        }
    }
}
