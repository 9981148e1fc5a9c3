//! The formulas of neighbouring rows by the groups of their column.
ghost use Rattle.std.specs.Prelude.{◌≡◌, ◌<◌, ◌*◌, ◌+◌, ℕ, false, true, length, option_map, None, Some, OnErr, OnOk, if◌then◌else◌};
ghost use Rattle.calc_addr.specs.declared.cell.TheConstants.{LAST_COL, LAST_ROW, LAST_SHEET};
ghost use Rattle.calc_addr.specs.Places.{Place};
ghost use Rattle.formula_code.specs.Codes.{IsCodeAt};
ghost use Rattle.formula_groups.specs.Groups.{codes_of, groups_of};
ghost use Rattle.listener_hub.specs.Hubs.{areas_read};
ghost use Rattle.registration_slab.specs.Slab.{is_in};
ghost use Rattle.formula_code.specs.Coded.{AreCoded, areas_by_code, code_in_row, coded_areas, number_of};
ghost use Rattle.formula_groups.specs.GroupRows.{columns_of};
ghost use Rattle.formula_listeners.specs.GroupCells.{is_in_group};

use crate::runs::listen_run;
use calc_addr::{LAST_COL, NoMemory, Run};
use calc_model::NameTable;
use formula_code::CodeTable;
use formula_groups::{Group, GroupColumn};
use listener_hub::Hub;
use std::alloc::Global;

/// Registers those rows of a run that a group of its column has.
fn listen_group<N: NameTable>(
    alloc: Global,
    hub: &mut Hub,
    codes: &CodeTable,
    names: &N,
    rows: Run,
    group: &Group,
) -> Result<(), NoMemory>
    requires ready { hub.old.spent ≡ false }
    requires coded { (q : Place) → is_in_group rows group.now q ≡ true
        → IsCodeAt codes.now group.now.code q }
    requires absent { (q : Place) → is_in_group rows group.now q ≡ true
        → areas_read hub.old q ≡ None }
    ensures areas { OnOk result ((q : Place) → areas_read hub.new q
        ≡ (if is_in_group rows group.now q
        then Some (areas_by_code codes.now (N.entries names.now) q group.now.code)
        else areas_read hub.old q)) }
    ensures ready { OnOk result (hub.new.spent ≡ false) }
    ensures spent { OnErr result (hub.new.spent ≡ true) }
{
    let first = group.first.max(rows.first);
    let last = group.last.min(rows.last);
    if last < first {
        return Ok(());
    }
    let run = Run {
        sheet: rows.sheet,
        col: rows.col,
        first,
        last,
    };
    listen_run(alloc, hub, codes, names, run, group.code)
}

/// Registers the formulas of a run's rows by the groups of its column, those of one group as one run. Linear
/// in the groups.
fn listen_groups<N: NameTable>(
    alloc: Global,
    hub: &mut Hub,
    codes: &CodeTable,
    names: &N,
    rows: Run,
    groups: &[Group],
) -> Result<(), NoMemory>
    requires ready { hub.old.spent ≡ false }
    requires table { groups.now ≡ groups_of (codes_of groups.now) }
    requires coded { (q : Place) → is_in rows q ≡ true → (id : ℕ)
        → code_in_row (codes_of groups.now) q.row ≡ Some id → IsCodeAt codes.now id q }
    requires absent { (q : Place) → is_in rows q ≡ true → areas_read hub.old q ≡ None }
    ensures areas { OnOk result ((q : Place) → areas_read hub.new q ≡ (if is_in rows q
        then option_map (areas_by_code codes.now (N.entries names.now) q)
        (code_in_row (codes_of groups.now) q.row)
        else areas_read hub.old q)) }
    ensures ready { OnOk result (hub.new.spent ≡ false) }
    ensures spent { OnErr result (hub.new.spent ≡ true) }
{
    let _ = &rows.first;
    for group in groups {
        listen_group(alloc, hub, codes, names, rows, group)?;
    }
    Ok(())
}

/// The number of a run's column among those of all sheets.
pub(crate) fn number_of(run: &Run) -> usize
    ensures number { result ≡ number_of run.now.sheet run.now.col }
    ensures among { result < (LAST_SHEET + 1) * LAST_COL }
{
    usize::from(LAST_COL) * usize::from(run.sheet) + usize::from(run.col) - 1
}

/// Registers the formulas of a run's rows by the groups of all columns, those of one group as one run.
/// Linear in the groups of the run's column.
pub(crate) fn listen_rows<N: NameTable>(
    alloc: Global,
    hub: &mut Hub,
    codes: &CodeTable,
    groups: &[GroupColumn],
    names: &N,
    rows: Run,
) -> Result<(), NoMemory>
    requires ready { hub.old.spent ≡ false }
    requires coded { AreCoded codes.now (columns_of groups.now) }
    requires absent { (q : Place) → is_in rows q ≡ true → areas_read hub.old q ≡ None }
    ensures areas { OnOk result ((q : Place) → areas_read hub.new q ≡ (if is_in rows q
        then coded_areas codes.now (N.entries names.now) (columns_of groups.now) q
        else areas_read hub.old q)) }
    ensures ready { OnOk result (hub.new.spent ≡ false) }
    ensures spent { OnErr result (hub.new.spent ≡ true) }
{
    let _ = &rows.first;
    let column = &groups[number_of(&rows)];
    listen_groups(alloc, hub, codes, names, rows, column.groups())
}
