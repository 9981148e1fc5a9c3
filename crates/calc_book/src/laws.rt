ghost use Rattle.calc_book.specs.CsvLaw.{ReadsAsCsv};

/// The records of a book are those that csv's relation has.
pub fn books_are_read_as_csv()
    ensures { ReadsAsCsv }
{}
