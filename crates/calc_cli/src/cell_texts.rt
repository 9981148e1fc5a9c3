//! The texts of cells that a line prints.
ghost use Rattle.std.specs.Prelude.{OnOk, ◌++◌, ◌≡◌};
ghost use Rattle.calc_cli.specs.Records.{held_texts, shown_texts};
ghost use Rattle.workbook.specs.Workbook.{values_of};

use calc_addr::{Cell, NoMemory};
use calc_model::{Seen, show};
use calc_num::Num;
use workbook::Workbook;

/// A text for each cell.
pub(crate) trait CellTexts {
    ghost use Rattle.calc_cli.specs.Records.{Texts};

    ghost texts: { Self → Texts };

    /// Appends the text of a cell.
    fn push(&self, cell: Cell, out: &mut Vec<u8>) -> Result<(), NoMemory>
        ensures { OnOk result (out.new.items ≡ out.old.items ++ texts self.now cell) };
}

/// What the cells of a workbook show.
#[derive(Clone, Copy)]
pub(crate) struct Shown<'a> {
    pub(crate) workbook: &'a Workbook,
}

impl CellTexts for Shown<'_> {
    ghost texts = { λ all. shown_texts (values_of all.workbook.now) };

    fn push(&self, cell: Cell, out: &mut Vec<u8>) -> Result<(), NoMemory> {
        match self.workbook.value(cell) {
            Seen::Number(number) => {
                let number: Num = number;
                show(Seen::Number(number), out)
            }
            Seen::Words(text) => show(Seen::Words(text), out),
            Seen::Bad(fault) => fault.show(out),
            Seen::Blank => Ok(()),
        }
    }
}

/// What they hold.
#[derive(Clone, Copy)]
pub(crate) struct Held<'a> {
    pub(crate) workbook: &'a Workbook,
}

impl CellTexts for Held<'_> {
    ghost texts = { λ all. held_texts all.workbook.now.book };

    fn push(&self, cell: Cell, out: &mut Vec<u8>) -> Result<(), NoMemory> {
        self.workbook.formula(cell, out)
    }
}
