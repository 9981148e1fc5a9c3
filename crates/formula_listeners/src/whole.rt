//! The formulas of a whole book.
ghost use Rattle.std.specs.Prelude.{◌≡◌, false, None, IfOk, OnOk, if◌then◌else◌};
ghost use Rattle.calc_addr.specs.Places.{Place};
ghost use Rattle.calc_model.specs.Books.{Book, IsBook, is_place};
ghost use Rattle.listener_hub.specs.Hubs.{areas_read};
ghost use Rattle.formula_code.specs.Coded.{AreCoded, AreFormulasOf, coded_areas};
ghost use Rattle.formula_groups.specs.GroupRows.{columns_of};
ghost use Rattle.formula_listeners.specs.Held.{HoldsReads};

use crate::areas::listen_area;
use calc_addr::{Area, LAST_COL, LAST_ROW, LAST_SHEET, NoMemory};
use calc_model::NameTable;
use formula_code::CodeTable;
use formula_groups::GroupColumn;
use listener_hub::Hub;
use std::alloc::Global;

/// Registers the formulas of all sheets in a hub that holds nothing.
fn listen_sheets<N: NameTable>(
    alloc: Global,
    hub: &mut Hub,
    codes: &CodeTable,
    groups: &[GroupColumn],
    names: &N,
) -> Result<(), NoMemory>
    requires ready { hub.old.spent ≡ false }
    requires coded { AreCoded codes.now (columns_of groups.now) }
    requires empty { (q : Place) → areas_read hub.old q ≡ None }
    ensures areas { OnOk result ((q : Place) → areas_read hub.new q ≡ (if is_place q
        then coded_areas codes.now (N.entries names.now) (columns_of groups.now) q else None)) }
    ensures ready { OnOk result (hub.new.spent ≡ false) }
{
    for sheet in 0..LAST_SHEET + 1 {
        let area = Area {
            sheet,
            first_col: 1,
            last_col: LAST_COL,
            first_row: 1,
            last_row: LAST_ROW,
        };
        listen_area(alloc, hub, codes, groups, names, area)?;
    }
    Ok(())
}

/// A hub of all formulas of a book, for one that was loaded, and where a hub is spent. It goes over all
/// columns. Linear in their groups, each of which takes what the attaching of a run with its formula's ears
/// does.
pub fn listen_all<N: NameTable>(
    alloc: Global,
    codes: &CodeTable,
    groups: &[GroupColumn],
    names: &N,
) -> Result<Hub, NoMemory>
    requires coded { AreCoded codes.now (columns_of groups.now) }
    ensures areas { IfOk result (λ hub. (q : Place) → areas_read hub q ≡ (if is_place q
        then coded_areas codes.now (N.entries names.now) (columns_of groups.now) q else None)) }
    ensures held { IfOk result (λ hub. (book : Book) → IsBook book
        → AreFormulasOf codes.now (columns_of groups.now) book → book.names ≡ N.entries names.now
        → HoldsReads (areas_read hub) book) }
    ensures ready { IfOk result (λ hub. hub.spent ≡ false) }
{
    let mut hub = Hub::new(alloc);
    listen_sheets(alloc, &mut hub, codes, groups, names)?;
    Ok(hub)
}
