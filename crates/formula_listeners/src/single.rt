//! The formula of one cell.
ghost use Rattle.std.specs.Prelude.{◌≡◌, false, true, None, Some, OnErr, OnOk, if◌then◌else◌};
ghost use Rattle.calc_addr.specs.Places.{Place, covers, single};
ghost use Rattle.calc_model.specs.declared.content.Content.{Content};
ghost use Rattle.calc_model.specs.Books.{Book, content_at, entry_named};
ghost use Rattle.calc_model.specs.Reads.{areas};
ghost use Rattle.listener_hub.specs.Hubs.{areas_read};
ghost use Rattle.formula_listeners.specs.Held.{HoldsOutside, HoldsReads};

use crate::runs::listen_run;
use calc_addr::{Cell, NoMemory, Run};
use calc_model::{Formula, NameTable};
use formula_code::CodeTable;
use listener_hub::Hub;
use std::alloc::Global;

/// Registers the formula of a cell, which isn't held, before it comes, so that all memory is taken while the
/// cell is as it was. Linear in the formula, beside what the attaching of a run with its ears costs. Where
/// memory is refused, the hub is spent.
pub fn listen_cell<N: NameTable>(
    alloc: Global,
    hub: &mut Hub,
    names: &N,
    cell: Cell,
    formula: &Formula,
) -> Result<(), NoMemory>
    requires ready { hub.old.spent ≡ false }
    requires absent { areas_read hub.old cell ≡ None }
    ensures areas { OnOk result ((q : Place) → areas_read hub.new q ≡ (if covers (single cell) q
        then Some (areas cell (entry_named (N.entries names.now)) formula.now)
        else areas_read hub.old q)) }
    ensures held { OnOk result ((book : Book) → book.names ≡ N.entries names.now
        → content_at book cell ≡ Content.Formula formula.now
        → HoldsOutside (single cell) (areas_read hub.old) book
        → HoldsReads (areas_read hub.new) book) }
    ensures ready { OnOk result (hub.new.spent ≡ false) }
    ensures spent { OnErr result (hub.new.spent ≡ true) }
{
    let mut codes = CodeTable::new(alloc);
    let id = match codes.intern(formula.tree(), cell) {
        Ok(id) => id,
        Err(refused) => {
            hub.spend();
            return Err(refused);
        }
    };
    let row = Run {
        sheet: cell.sheet,
        col: cell.col,
        first: cell.row,
        last: cell.row,
    };
    listen_run(alloc, hub, &codes, names, row, id)
}
