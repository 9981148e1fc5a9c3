//! The formulas that use a name.
ghost use Rattle.std.specs.Prelude.{◌≡◌, false, true, OnErr, OnOk, if◌then◌else◌};
ghost use Rattle.std.specs.List.{All};
ghost use Rattle.calc_addr.specs.Places.{Place, covers};
ghost use Rattle.calc_model.specs.Books.{Book, IsBook, NameEntries, is_place};
ghost use Rattle.formula_code.specs.Codes.{IsLive, form_at};
ghost use Rattle.formula_code.specs.Names.{UsesName};
ghost use Rattle.listener_hub.specs.Hubs.{areas_read};
ghost use Rattle.registration_slab.specs.Slab.{is_in};
ghost use Rattle.formula_code.specs.Coded.{AreCoded, AreFormulasOf, coded_areas};
ghost use Rattle.formula_groups.specs.GroupRows.{columns_of};
ghost use Rattle.formula_listeners.specs.Held.{HoldsReads};
ghost use Rattle.formula_listeners.specs.Renamed.{AgreeElsewhere};

use crate::rows::{listen_rows, number_of};
use calc_addr::{Area, LAST_COL, LAST_ROW, LAST_SHEET, NoMemory, Run};
use calc_model::NameTable;
use formula_code::CodeTable;
use formula_groups::{Group, GroupColumn};
use listener_hub::Hub;
use std::alloc::Global;

/// Whether a formula of some groups uses the name. Linear in their formulas.
fn any_uses(codes: &CodeTable, groups: &[Group], name: &[u8]) -> bool
    requires { All (λ group. IsLive codes.now group.code) groups.now }
    ensures { result ≡ false
        → All (λ group. ¬ UsesName (form_at codes.now group.code) name.now) groups.now }
{
    for group in groups {
        if codes.uses_name(group.code, name) {
            return true;
        }
    }
    false
}

/// Registers the rows of a run anew, after the name changed, if a formula of the run's column uses it.
fn renew_rows<N: NameTable>(
    alloc: Global,
    hub: &mut Hub,
    codes: &CodeTable,
    groups: &[GroupColumn],
    names: &N,
    name: &[u8],
    rows: Run,
) -> Result<(), NoMemory>
    requires ready { hub.old.spent ≡ false }
    requires coded { AreCoded codes.now (columns_of groups.now) }
    ensures areas { OnOk result ((before : NameEntries)
        → AgreeElsewhere name.now before (N.entries names.now)
        → ((q : Place) → is_in rows q ≡ true
        → areas_read hub.old q ≡ coded_areas codes.now before (columns_of groups.now) q)
        → (q : Place) → areas_read hub.new q ≡ (if is_in rows q
        then coded_areas codes.now (N.entries names.now) (columns_of groups.now) q
        else areas_read hub.old q)) }
    ensures ready { OnOk result (hub.new.spent ≡ false) }
    ensures spent { OnErr result (hub.new.spent ≡ true) }
{
    let _ = &rows.first;
    let column = &groups[number_of(&rows)];
    if !any_uses(codes, column.groups(), name) {
        return Ok(());
    }
    hub.detach(rows)?;
    listen_rows(alloc, hub, codes, groups, names, rows)
}

/// Registers the columns of an area anew, after the name changed, of which a formula uses it.
fn renew_area<N: NameTable>(
    alloc: Global,
    hub: &mut Hub,
    codes: &CodeTable,
    groups: &[GroupColumn],
    names: &N,
    name: &[u8],
    area: Area,
) -> Result<(), NoMemory>
    requires ready { hub.old.spent ≡ false }
    requires coded { AreCoded codes.now (columns_of groups.now) }
    ensures areas { OnOk result ((before : NameEntries)
        → AgreeElsewhere name.now before (N.entries names.now)
        → ((q : Place) → covers area q ≡ true
        → areas_read hub.old q ≡ coded_areas codes.now before (columns_of groups.now) q)
        → (q : Place) → areas_read hub.new q ≡ (if covers area q
        then coded_areas codes.now (N.entries names.now) (columns_of groups.now) q
        else areas_read hub.old q)) }
    ensures ready { OnOk result (hub.new.spent ≡ false) }
    ensures spent { OnErr result (hub.new.spent ≡ true) }
{
    for col in area.first_col..area.last_col + 1 {
        let rows = Run {
            sheet: area.sheet,
            col,
            first: area.first_row,
            last: area.last_row,
        };
        renew_rows(alloc, hub, codes, groups, names, name, rows)?;
    }
    Ok(())
}

/// Registers the formulas that use a name anew, after it got an area, or another one, or went. It goes over
/// all columns, and is linear in their groups and in the formulas of these. A column in which a formula uses
/// the name is registered as a whole. Where memory is refused, the hub is spent.
pub fn listen_users<N: NameTable>(
    alloc: Global,
    hub: &mut Hub,
    codes: &CodeTable,
    groups: &[GroupColumn],
    names: &N,
    name: &[u8],
) -> Result<(), NoMemory>
    requires ready { hub.old.spent ≡ false }
    requires coded { AreCoded codes.now (columns_of groups.now) }
    ensures areas { OnOk result ((before : NameEntries)
        → AgreeElsewhere name.now before (N.entries names.now)
        → ((q : Place) → is_place q ≡ true
        → areas_read hub.old q ≡ coded_areas codes.now before (columns_of groups.now) q)
        → (q : Place) → areas_read hub.new q ≡ (if is_place q
        then coded_areas codes.now (N.entries names.now) (columns_of groups.now) q
        else areas_read hub.old q)) }
    ensures held { OnOk result ((book after : Book) → IsBook book
        → AreFormulasOf codes.now (columns_of groups.now) book
        → after.cells ≡ book.cells → after.names ≡ N.entries names.now
        → AgreeElsewhere name.now book.names after.names
        → HoldsReads (areas_read hub.old) book → HoldsReads (areas_read hub.new) after) }
    ensures ready { OnOk result (hub.new.spent ≡ false) }
    ensures spent { OnErr result (hub.new.spent ≡ true) }
{
    for sheet in 0..LAST_SHEET + 1 {
        let area = Area {
            sheet,
            first_col: 1,
            last_col: LAST_COL,
            first_row: 1,
            last_row: LAST_ROW,
        };
        renew_area(alloc, hub, codes, groups, names, name, area)?;
    }
    Ok(())
}
