//! Records of fields, written into memory.
#![tactic(auto)]

ghost use Rattle.csv.specs.Records.{fields_of};
ghost use Rattle.csv_records.specs.Records.{record_text};
ghost use Rattle.csv_records.specs.Writers.{Holds};
ghost use Rattle.std.specs.Prelude.{IfOk, List, OnOk, ℕ, ◌++◌, ◌≡◌};

use csv::{ByteRecord, Writer, WriterBuilder};
use std::alloc::{AllocError, Global};

/// A writer that appends records to these bytes.
pub fn writer_to(bytes: Vec<u8>) -> Writer<Vec<u8>>
    ensures { Holds result bytes.items }
{
    WriterBuilder::new().from_writer(bytes)
}

/// Writes one record. It fails where memory is refused, and where the record has more or fewer fields
/// than the writer's first one. Linear in the record.
pub fn write_record(writer: &mut Writer<Vec<u8>>, fields: &ByteRecord) -> Result<(), AllocError>
    ensures { (bytes : List ℕ) → Holds writer.old bytes
        → OnOk result (Holds writer.new (bytes ++ record_text (fields_of fields.now))) }
{
    match writer.write_byte_record(fields) {
        Ok(()) => Ok(()),
        Err(_) => Err(AllocError),
    }
}

/// The bytes that the writer holds. It fails only where memory is refused.
pub fn written_by(writer: Writer<Vec<u8>>) -> Result<Vec<u8>, AllocError>
    ensures { (bytes : List ℕ) → Holds writer bytes → IfOk result (λ text. text.items ≡ bytes) }
{
    match writer.into_inner() {
        Ok(text) => Ok(text),
        Err(_) => Err(AllocError),
    }
}
