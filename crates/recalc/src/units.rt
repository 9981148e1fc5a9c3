//! Units of waves: rows of one column whose formulas have one code, so many at a time at most.
ghost use Rattle.std.specs.Prelude.{min, ◌≡◌, ◌≤◌, ◌<◌, ◌+◌, ◌-◌, ◌++◌, true, false, None, List, IfOk, IfSome, IfNone, IsSome, OnOk};
ghost use Rattle.calc_addr.specs.Places.{IsPlace, IsRows, Place, column_places};
ghost use Rattle.cell_runs.specs.CellLists.{all_cells, cells_of, first_cell};
ghost use Rattle.formula_code.specs.Coded.{CodeColumns, code_of};
ghost use Rattle.formula_groups.specs.GroupRows.{columns_of};
ghost use Rattle.run_unions.specs.Unions.{is_in};
ghost use Rattle.dirty_spread.specs.Marking.{is_in_any};
ghost use Rattle.recalc.specs.CodedUnits.{AreCodedUnits, AreColumns, Continues, IsOpen, IsPart, IsPartOf, rows_of};
ghost use Rattle.recalc.specs.Units.{height};

use calc_addr::{LAST_COL, NoMemory, Run};
use calc_model::CodeId;
use formula_groups::GroupColumn;

/// A unit has at most so many rows.
pub const UNIT_ROWS: u32 = 1_024;

/// Neighbouring rows of a column whose formulas have one code.
#[derive(Clone, Copy, Debug, PartialEq, Eq)]
pub(crate) struct Unit {
    pub(crate) sheet: u8,
    pub(crate) col: u16,
    pub(crate) first: u32,
    pub(crate) last: u32,
    pub(crate) code: CodeId,
}

/// The rows of a unit.
pub(crate) fn rows_of(unit: &Unit) -> Run
    requires { IsRows (rows_of unit.now) }
    ensures { result ≡ rows_of unit.now }
{
    Run {
        sheet: unit.sheet,
        col: unit.col,
        first: unit.first,
        last: unit.last,
    }
}

/// Whether the part lies below the unit, with its code, and the unit can take more rows.
fn takes(unit: &Unit, part: &Unit) -> bool
    ensures yes { result ≡ true
        → Continues unit.now part.now × (height (rows_of unit.now) < UNIT_ROWS) }
    ensures no { result ≡ false → unit.now.first ≤ unit.now.last
        → Continues unit.now part.now → UNIT_ROWS ≤ height (rows_of unit.now) }
{
    unit.code == part.code
        && unit.sheet == part.sheet
        && unit.col == part.col
        && unit.last < part.first
        && part.first - unit.last == 1
        && unit.first < part.first
        && part.first - unit.first < UNIT_ROWS
}

/// Takes back the last unit if the part belongs to it, and gives the row in which the part's unit begins.
fn open(units: &mut Vec<Unit>, part: &Unit) -> Result<u32, NoMemory>
    ensures few { IfOk result (λ first. part.now.first < first + UNIT_ROWS) }
    ensures open { IfOk result (λ first. (columns : CodeColumns) (cells : List Place)
        → IsPart columns part.now → AreCodedUnits columns cells units.old.items
        → IsOpen columns cells units.new.items part.now first) }
{
    let from = part.first;
    let Some(unit) = units.pop() else {
        return Ok(from);
    };
    let first = unit.first;
    if takes(&unit, part) {
        return Ok(first);
    }
    units.push(unit)?;
    Ok(from)
}

/// The last row of the unit that begins in a row and to which a part belongs, as far as the part goes.
fn last_row(first: u32, part: &Unit) -> u32
    ensures { result ≡ min part.now.last (first + (UNIT_ROWS - 1)) }
{
    if part.last < UNIT_ROWS - 1 || part.last - (UNIT_ROWS - 1) <= first {
        part.last
    } else {
        first + (UNIT_ROWS - 1)
    }
}

/// Adds the rows of a part to the units as far as the first of its units goes, and gives the last of them.
fn push_rows(units: &mut Vec<Unit>, part: &Unit) -> Result<u32, NoMemory>
    requires { IsRows (rows_of part.now) }
    ensures from { IfOk result (λ last. part.now.first ≤ last) }
    ensures to { IfOk result (λ last. last ≤ part.now.last) }
    ensures cells { IfOk result (λ last. (columns : CodeColumns) (cells : List Place)
        → IsPart columns part.now → AreCodedUnits columns cells units.old.items
        → AreCodedUnits columns (cells ++ column_places part.now.sheet part.now.col
        part.now.first last) units.new.items) }
{
    let first = open(units, part)?;
    let last = last_row(first, part);
    units.push(Unit {
        sheet: part.sheet,
        col: part.col,
        first,
        last,
        code: part.code,
    })?;
    Ok(last)
}

/// The first rows of a run that have one code.
fn part_of(groups: &[GroupColumn], run: Run) -> Option<Unit>
    requires { AreColumns (columns_of groups.now) }
    ensures some { IfSome result (IsPartOf (columns_of groups.now) run) }
    ensures none { IfNone result (code_of (columns_of groups.now) (first_cell run) ≡ None) }
{
    let number = usize::from(LAST_COL) * usize::from(run.sheet) + usize::from(run.col) - 1;
    let group = groups[number].group_at(run.first)?;
    Some(Unit {
        sheet: run.sheet,
        col: run.col,
        first: run.first,
        last: run.last.min(group.last),
        code: group.code,
    })
}

/// Adds the rows of a run to the units.
fn push_run(groups: &[GroupColumn], run: Run, units: &mut Vec<Unit>) -> Result<(), NoMemory>
    requires columns { AreColumns (columns_of groups.now) }
    requires coded { (q : Place) → IsPlace q → is_in q run ≡ true
        → IsSome (code_of (columns_of groups.now) q) }
    ensures { OnOk result ((cells : List Place)
        → AreCodedUnits (columns_of groups.now) cells units.old.items
        → AreCodedUnits (columns_of groups.now) (cells ++ cells_of run) units.new.items) }
{
    let mut row = run.first;
    while row <= run.last {
        let rest = Run {
            sheet: run.sheet,
            col: run.col,
            first: row,
            last: run.last,
        };
        let Some(part) = part_of(groups, rest) else {
            return Ok(());
        };
        row = push_rows(units, &part)? + 1;
    }
    Ok(())
}

/// The units of the cells of runs, in the place of others. Linear in the runs and the groups that they
/// meet, with the logarithm of a column's groups for each.
pub(crate) fn find_units(
    groups: &[GroupColumn],
    runs: &[Run],
    units: &mut Vec<Unit>,
) -> Result<(), NoMemory>
    requires columns { AreColumns (columns_of groups.now) }
    requires coded { (q : Place) → IsPlace q → is_in_any q runs.now ≡ true
        → IsSome (code_of (columns_of groups.now) q) }
    ensures { OnOk result (AreCodedUnits (columns_of groups.now) (all_cells runs.now)
        units.new.items) }
{
    units.clear();
    for run in runs {
        push_run(groups, *run, units)?;
    }
    Ok(())
}
