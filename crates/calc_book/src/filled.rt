//! How many fields have a byte.
ghost use Rattle.calc_addr.specs.declared.cell.TheConstants.{LAST_COL};
ghost use Rattle.calc_book.specs.BookCells.{has_bytes};
ghost use Rattle.csv.specs.Records.{fields_of};
ghost use Rattle.std.specs.Prelude.{count_by, length, ◌≡◌, ◌≤◌};

use csv::ByteRecord;

/// How many fields of a record have a byte.
pub(crate) fn filled_in(fields: &ByteRecord) -> usize
    requires { length (fields_of fields.now) ≤ LAST_COL }
    ensures { result ≡ count_by has_bytes (fields_of fields.now) }
{
    let mut count = 0;
    for field in fields {
        count += usize::from(!field.is_empty());
    }
    count
}
