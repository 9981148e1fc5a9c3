//! Records of cells.
ghost use Rattle.std.specs.Prelude.{◌≡◌, IfOk, OnOk};
ghost use Rattle.csv.specs.Records.{fields_of};
ghost use Rattle.calc_cli.specs.Records.{printed_area, row_texts};

use crate::cell_texts::CellTexts;
use calc_addr::{Area, NoMemory};
use csv::ByteRecord;
use csv_records::{write_record, writer_to, written_by};
use std::alloc::Global;

/// The records of the rows of an area.
#[tactic(auto, unfolding(crate::specs::Records::printed_area))]
pub(crate) fn print_area<T: CellTexts>(
    alloc: Global,
    texts: &T,
    area: Area,
) -> Result<Vec<u8>, NoMemory>
    ensures { IfOk result (λ text. text.items ≡ printed_area (T.texts texts.now) area) }
{
    let mut writer = writer_to(Vec::new(alloc));
    let mut record = ByteRecord::new(alloc);
    for row in area.rows() {
        fill_record(alloc, texts, row, &mut record)?;
        write_record(&mut writer, &record)?;
    }
    written_by(writer)
}

/// Puts the texts of a row's cells into a record.
fn fill_record<T: CellTexts>(
    alloc: Global,
    texts: &T,
    row: Area,
    fields: &mut ByteRecord,
) -> Result<(), NoMemory>
    ensures { OnOk result (fields_of fields.new ≡ row_texts (T.texts texts.now) row) }
{
    let mut text = Vec::new(alloc);
    fields.clear();
    for cell in row.cells() {
        text.clear();
        texts.push(cell, &mut text)?;
        fields.push_field(&text)?;
    }
    Ok(())
}
