ghost use Rattle.std.specs.Prelude.{◌≡◌, ◌++◌, OnOk, OnErr};
ghost use Rattle.calc_model.specs.Results.{shown_by};
ghost use Rattle.calc_model.specs.Scalars.{number_of};
ghost use Rattle.calc_model.specs.ValueTexts.{lent, text_of};
ghost use Rattle.formula_results.specs.Results.{results_of};

use crate::results::FormulaResults;
use block_column::SlotRef;
use book_parts::BookParts;
use calc_addr::{Cell, NoMemory};
use calc_model::{Fault, Seen, Text, show};
use calc_num::Num;

/// What the cell shows by these results; a formula that has none counts as circular.
pub fn shown<'a>(cells: &'a BookParts, results: &'a FormulaResults, cell: Cell) -> Seen<'a>
    ensures { lent result ≡ shown_by cells.now (results_of results.now) cell }
{
    match cells.look(cell) {
        SlotRef::Empty => Seen::Blank,
        SlotRef::Number(number) => Seen::Number(number),
        SlotRef::Words(text) => Seen::Words(text),
        SlotRef::Bad(fault) => Seen::Bad(fault),
        SlotRef::Raw(_) => Seen::Bad(Fault::Syntax),
        SlotRef::Formula(_) => match results.get(cell) {
            Some(seen) => seen,
            None => Seen::Bad(Fault::Circular),
        },
    }
}

/// The number that the cell shows by these results: blank is 0, a text is `BadValue`, and an error is
/// itself.
pub fn number_shown(cells: &BookParts, results: &FormulaResults, cell: Cell) -> Result<Num, Fault>
    ensures { result ≡ number_of (shown_by cells.now (results_of results.now) cell) }
{
    match shown(cells, results, cell) {
        Seen::Number(number) => Ok(number),
        Seen::Words(text) => {
            let _: &Text = text;
            Err(Fault::BadValue)
        }
        Seen::Bad(fault) => Err(fault),
        Seen::Blank => Ok(Num::default()),
    }
}

/// Appends the printed text of what the cell shows by these results. Where memory is refused, `out` is
/// as before.
pub fn show_cell(
    cells: &BookParts,
    results: &FormulaResults,
    cell: Cell,
    out: &mut Vec<u8>,
) -> Result<(), NoMemory>
    ensures ok { OnOk result (out.new.items
        ≡ out.old.items ++ text_of (shown_by cells.now (results_of results.now) cell)) }
    ensures err { OnErr result (out.new.items ≡ out.old.items) }
{
    match shown(cells, results, cell) {
        Seen::Number(number) => show(Seen::Number(number), out),
        Seen::Words(text) => show(Seen::Words(text), out),
        Seen::Bad(fault) => fault.show(out),
        Seen::Blank => Ok(()),
    }
}
