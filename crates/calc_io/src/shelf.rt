ghost use Rattle.std.specs.Prelude.{◌≡◌, ◌↔◌, ◌<◌, [], drop, Some, position, IsSome, IsTrue};
ghost use Rattle.std.specs.Bool.{OnTrue, OnFalse};
ghost use Rattle.calc_io.specs.Desk.{book_of, kept_books};
ghost use Rattle.calc_io.specs.Shelf.{is_named, open_bytes, shelf_books, book_rest, script_rest};
ghost use Rattle.calc_io.specs.Memory.{IsRead};

use calc_model::Text;

/// Books and a script in memory, and how far they are read.
#[derive(Drop)]
pub(crate) struct Shelf {
    books: Vec<(Text, Vec<u8>)>,
    /// The place of the open book.
    opened: Option<usize>,
    book_read: usize,
    script: Vec<u8>,
    script_read: usize,
}

impl Shelf {
    pub(crate) fn new(books: Vec<(Text, Vec<u8>)>, script: Vec<u8>) -> Shelf
        ensures books { shelf_books result ≡ kept_books books.items }
        ensures unopened { book_rest result ≡ [] }
        ensures script { script_rest result ≡ script.items }
    {
        Shelf {
            books,
            opened: None,
            book_read: 0,
            script,
            script_read: 0,
        }
    }

    /// Opens the first book of that name, and says whether there is one.
    pub(crate) fn open(&mut self, name: &Text) -> bool
        ensures found { IsTrue result ↔ IsSome (book_of (shelf_books self.old) name.now) }
        ensures opened { OnTrue result
            (book_of (shelf_books self.old) name.now ≡ Some (book_rest self.new)) }
        ensures unknown { OnFalse result (book_rest self.new ≡ book_rest self.old) }
        ensures same_books { shelf_books self.new ≡ shelf_books self.old }
        ensures same_script { script_rest self.new ≡ script_rest self.old }
    {
        let Some(place) = find_book(&self.books, name) else {
            return false;
        };
        self.opened = Some(place);
        self.book_read = 0;
        true
    }

    /// Moves bytes of the open book to the front of `buf`, at most so many.
    pub(crate) fn read_book(&mut self, buf: &mut [u8], most: usize) -> usize
        requires { 0 < most }
        ensures read { IsRead (book_rest self.old) most buf.new result }
        ensures left { book_rest self.new ≡ drop result (book_rest self.old) }
        ensures same_books { shelf_books self.new ≡ shelf_books self.old }
        ensures same_script { script_rest self.new ≡ script_rest self.old }
    {
        let book = opened_book(&self.books, self.opened);
        give(book, &mut self.book_read, buf, most)
    }

    /// Moves bytes of the script to the front of `buf`, at most so many.
    pub(crate) fn read_script(&mut self, buf: &mut [u8], most: usize) -> usize
        requires { 0 < most }
        ensures read { IsRead (script_rest self.old) most buf.new result }
        ensures left { script_rest self.new ≡ drop result (script_rest self.old) }
        ensures same_books { shelf_books self.new ≡ shelf_books self.old }
        ensures same_book { book_rest self.new ≡ book_rest self.old }
    {
        give(&self.script, &mut self.script_read, buf, most)
    }
}

// The place of the first book of that name.
fn find_book(books: &[(Text, Vec<u8>)], name: &Text) -> Option<usize>
    ensures { result ≡ position (is_named name.now) books.now }
{
    books
        .iter()
        .position(|book| book.0.as_str() == name.as_str())
}

// The bytes of the open book.
fn opened_book(books: &[(Text, Vec<u8>)], opened: Option<usize>) -> &[u8]
    ensures { result.now ≡ open_bytes (kept_books books.now) opened }
{
    let Some(place) = opened else { return &[] };
    let Some((_, bytes)) = books.get(place) else {
        return &[]
    };
    bytes
}

// Moves bytes to the front of `buf`, at most so many, from the place up to which they are read.
fn give(bytes: &[u8], read: &mut usize, buf: &mut [u8], most: usize) -> usize
    requires { 0 < most }
    ensures given { IsRead (drop read.old bytes.now) most buf.new result }
    ensures left { drop read.new bytes.now ≡ drop result (drop read.old bytes.now) }
{
    let left = bytes.get(*read..).unwrap_or_default();
    let count = left.len().min(buf.len()).min(most);
    buf[..count].copy_from_slice(&left[..count]);
    *read += count;
    count
}
