//! Runs of formulas with one code, and what they read.
ghost use Rattle.std.specs.Prelude.{◌≡◌, ℕ, false, true, None, Some, OnErr, OnOk, if◌then◌else◌};
ghost use Rattle.std.specs.List.{All};
ghost use Rattle.calc_addr.specs.Places.{IsRectangle, Place};
ghost use Rattle.formula_code.specs.Codes.{IsCodeAt};
ghost use Rattle.listener_hub.specs.Hubs.{areas_read};
ghost use Rattle.registration_slab.specs.Slab.{is_in};
ghost use Rattle.formula_code.specs.Coded.{areas_by_code};

use calc_addr::{Area, Cell, NoMemory, Run};
use calc_model::{CodeId, Ear, NameTable};
use formula_code::CodeTable;
use listener_hub::Hub;
use std::alloc::Global;

/// An area lies in a sheet, as every area does.
fn lies_in_sheet(area: Area)
    ensures { IsRectangle area }
{
    let _ = area.sheet;
}

/// The areas of ears lie in a sheet.
fn lie_in_sheet(ears: &[Ear])
    ensures { All (λ ear. IsRectangle ear.area) ears.now }
{
    for ear in ears {
        lies_in_sheet(ear.area);
    }
}

/// Registers the rows of a run, whose formulas have one code, with what they read. It costs what the
/// attaching of a run with the formula's ears does. Where memory is refused, the hub is spent.
pub(crate) fn listen_run<N: NameTable>(
    alloc: Global,
    hub: &mut Hub,
    codes: &CodeTable,
    names: &N,
    run: Run,
    id: CodeId,
) -> Result<(), NoMemory>
    requires ready { hub.old.spent ≡ false }
    requires coded { (q : Place) → is_in run q ≡ true → IsCodeAt codes.now id q }
    requires absent { (q : Place) → is_in run q ≡ true → areas_read hub.old q ≡ None }
    ensures areas { OnOk result ((q : Place) → areas_read hub.new q
        ≡ (if is_in run q then Some (areas_by_code codes.now (N.entries names.now) q id)
        else areas_read hub.old q)) }
    ensures ready { OnOk result (hub.new.spent ≡ false) }
    ensures spent { OnErr result (hub.new.spent ≡ true) }
{
    let home = Cell {
        sheet: run.sheet,
        col: run.col,
        row: run.first,
    };
    let mut ears = Vec::new(alloc);
    if let Err(refused) = codes.ears_at(id, home, names, &mut ears) {
        hub.spend();
        return Err(refused);
    }
    lie_in_sheet(ears.as_slice());
    hub.attach(run, ears.as_slice())
}
