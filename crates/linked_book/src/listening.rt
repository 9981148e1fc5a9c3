//! The hub before and after its book changes.
ghost use Rattle.std.specs.Prelude.{◌≡◌, false, true, OnErr, OnOk};
ghost use Rattle.calc_addr.specs.Places.{single};
ghost use Rattle.calc_model.specs.Books.{Book, IsBook, content_at};
ghost use Rattle.listener_hub.specs.Hubs.{areas_read};
ghost use Rattle.formula_listeners.specs.Held.{HoldsOutside, HoldsReads};
ghost use Rattle.formula_listeners.specs.Renamed.{AgreeElsewhere};

use book_parts::BookParts;
use calc_addr::{Area, Cell, NoMemory};
use calc_model::{Content, Text};
use formula_listeners::{listen_area, listen_cell, listen_users, reads_go_with_cells};
use listener_hub::Hub;
use std::alloc::Global;

/// The area of a cell alone.
pub(crate) fn area_of(cell: Cell) -> Area
    ensures { result ≡ single cell }
{
    Area {
        sheet: cell.sheet,
        first_col: cell.col,
        last_col: cell.col,
        first_row: cell.row,
        last_row: cell.row,
    }
}

/// Registers a content of a cell, which isn't held, before it comes.
pub(crate) fn listen_content(
    alloc: Global,
    hub: &mut Hub,
    parts: &BookParts,
    cell: Cell,
    content: &Content,
) -> Result<(), NoMemory>
    requires ready { hub.old.spent ≡ false }
    requires outside { HoldsOutside (single cell) (areas_read hub.old) parts.now }
    ensures held { OnOk result ((book : Book) → book.names ≡ parts.now.names
        → content_at book cell ≡ content.now
        → HoldsOutside (single cell) (areas_read hub.old) book
        → HoldsReads (areas_read hub.new) book) }
    ensures ready { OnOk result (hub.new.spent ≡ false) }
    ensures spent { OnErr result (hub.new.spent ≡ true) }
{
    match content {
        Content::Formula(formula) => listen_cell(alloc, hub, parts, cell, formula),
        _ => {
            reads_go_with_cells();
            Ok(())
        }
    }
}

/// Registers the formulas of an area, of which none is held, after they came.
pub(crate) fn listen(
    alloc: Global,
    hub: &mut Hub,
    parts: &BookParts,
    area: Area,
) -> Result<(), NoMemory>
    requires ready { hub.old.spent ≡ false }
    requires outside { HoldsOutside area (areas_read hub.old) parts.now }
    ensures held { OnOk result (HoldsReads (areas_read hub.new) parts.now) }
    ensures ready { OnOk result (hub.new.spent ≡ false) }
    ensures spent { OnErr result (hub.new.spent ≡ true) }
{
    let coded = parts.coded();
    listen_area(alloc, hub, coded.codes, coded.groups, parts, area)
}

/// Registers the formulas that use a name anew, after it got an area or went.
pub(crate) fn listen_again(
    alloc: Global,
    hub: &mut Hub,
    parts: &BookParts,
    name: &Text,
) -> Result<(), NoMemory>
    requires { hub.old.spent ≡ false }
    ensures held { OnOk result ((book : Book) → IsBook book → parts.now.cells ≡ book.cells
        → AgreeElsewhere name.now book.names parts.now.names
        → HoldsReads (areas_read hub.old) book → HoldsReads (areas_read hub.new) parts.now) }
    ensures ready { OnOk result (hub.new.spent ≡ false) }
    ensures spent { OnErr result (hub.new.spent ≡ true) }
{
    let coded = parts.coded();
    let bytes = name.as_str().as_bytes();
    listen_users(alloc, hub, coded.codes, coded.groups, parts, bytes)
}

/// Leaves the hub spent where memory was refused in the midst of an edit of its book.
pub(crate) fn settle(hub: &mut Hub, done: Result<(), NoMemory>) -> Result<(), NoMemory>
    ensures result { result ≡ done }
    ensures same { OnOk result (hub.new ≡ hub.old) }
    ensures spent { OnErr result (hub.new.spent ≡ true) }
{
    if done.is_err() {
        hub.spend();
    }
    done
}
