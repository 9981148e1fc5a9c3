//! The formulas of areas.
ghost use Rattle.std.specs.Prelude.{◌≡◌, false, true, None, OnErr, OnOk, if◌then◌else◌};
ghost use Rattle.calc_addr.specs.Places.{Place, covers};
ghost use Rattle.calc_model.specs.Books.{Book};
ghost use Rattle.listener_hub.specs.Hubs.{areas_read};
ghost use Rattle.formula_code.specs.Coded.{AreCoded, AreFormulasOf, coded_areas};
ghost use Rattle.formula_groups.specs.GroupRows.{columns_of};
ghost use Rattle.formula_listeners.specs.Held.{HoldsOutside, HoldsReads};

use crate::rows::listen_rows;
use calc_addr::{Area, NoMemory, Run};
use calc_model::NameTable;
use formula_code::CodeTable;
use formula_groups::GroupColumn;
use listener_hub::Hub;
use std::alloc::Global;

/// Forgets what the formulas of an area read, before they go or change. It costs what the detaching of a run
/// costs, for each column of the area. Where memory is refused, the hub is spent.
pub fn silence(hub: &mut Hub, area: Area) -> Result<(), NoMemory>
    requires { hub.old.spent ≡ false }
    ensures areas { OnOk result ((q : Place) → areas_read hub.new q
        ≡ (if covers area q then None else areas_read hub.old q)) }
    ensures held { OnOk result ((book : Book) → HoldsReads (areas_read hub.old) book
        → HoldsOutside area (areas_read hub.new) book) }
    ensures ready { OnOk result (hub.new.spent ≡ false) }
    ensures spent { OnErr result (hub.new.spent ≡ true) }
{
    for col in area.first_col..area.last_col + 1 {
        hub.detach(Run {
            sheet: area.sheet,
            col,
            first: area.first_row,
            last: area.last_row,
        })?;
    }
    Ok(())
}

/// Registers the formulas of an area, of which none is held, after they came. Those of one group are
/// registered as one run. Linear in the groups of the area's columns. Where memory is refused, the hub is
/// spent.
pub fn listen_area<N: NameTable>(
    alloc: Global,
    hub: &mut Hub,
    codes: &CodeTable,
    groups: &[GroupColumn],
    names: &N,
    area: Area,
) -> Result<(), NoMemory>
    requires ready { hub.old.spent ≡ false }
    requires coded { AreCoded codes.now (columns_of groups.now) }
    requires absent { (q : Place) → covers area q ≡ true → areas_read hub.old q ≡ None }
    ensures areas { OnOk result ((q : Place) → areas_read hub.new q ≡ (if covers area q
        then coded_areas codes.now (N.entries names.now) (columns_of groups.now) q
        else areas_read hub.old q)) }
    ensures held { OnOk result ((book : Book)
        → AreFormulasOf codes.now (columns_of groups.now) book → book.names ≡ N.entries names.now
        → HoldsOutside area (areas_read hub.old) book → HoldsReads (areas_read hub.new) book) }
    ensures ready { OnOk result (hub.new.spent ≡ false) }
    ensures spent { OnErr result (hub.new.spent ≡ true) }
{
    for col in area.first_col..area.last_col + 1 {
        let rows = Run {
            sheet: area.sheet,
            col,
            first: area.first_row,
            last: area.last_row,
        };
        listen_rows(alloc, hub, codes, groups, names, rows)?;
    }
    Ok(())
}
