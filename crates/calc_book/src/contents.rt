//! What the fields of records hold, read by many workers.
ghost use Rattle.csv.specs.Records.{AllText, fields_of};
ghost use Rattle.formula_reader.specs.Fields.{field_of};
ghost use Rattle.std.specs.List.{All};
ghost use Rattle.std.specs.Prelude.{IfOk, map, ◌≡◌};

use calc_addr::NoMemory;
use calc_model::Content;
use csv::ByteRecord;
use formula_reader::read_field;
use rayon::prelude::*;
use std::alloc::Global;
use std::thread::Threads;

/// How many fields are worth a thread of their own.
const PIECE_FIELDS: usize = 4_096;

/// The contents of the records' fields, so many in all, in order. They are read by as many threads as there are
/// processors, where they are enough for that.
pub(crate) fn read_contents<T: Threads + Sync>(
    rt: &T,
    alloc: Global,
    rows: &[ByteRecord],
    field_count: usize,
) -> Result<Vec<Vec<Content>>, NoMemory>
    requires { All (λ row. AllText (fields_of row)) rows.now }
    ensures { IfOk result (λ contents. map (λ row. row.items) contents.items
        ≡ map (λ row. map field_of (fields_of row)) rows.now) }
{
    let pieces = field_count / PIECE_FIELDS + 1;
    rows.par_iter()
        .with_min_len(rows.len() / pieces)
        .map(
            |row: &ByteRecord| -> Result<Vec<Content>, NoMemory>
                requires { AllText (fields_of row.now) }
                ensures { IfOk result (λ contents. contents.items
                    ≡ map field_of (fields_of row.now)) }
            { read_record(alloc, row) },
        )
        .collect::<Result<Vec<_>, NoMemory>>(rt, alloc)?
}

/// The contents of a record's fields.
fn read_record(alloc: Global, fields: &ByteRecord) -> Result<Vec<Content>, NoMemory>
    requires { AllText (fields_of fields.now) }
    ensures { IfOk result (λ contents. contents.items ≡ map field_of (fields_of fields.now)) }
{
    let mut contents = Vec::with_capacity(alloc, fields.len())?;
    for field in fields {
        contents.push(read_field(alloc, field)?)?;
    }
    Ok(contents)
}
