ghost use Rattle.std.specs.Prelude.{◌≡◌, ◌≤◌, Some, IsTrue, IsSome, IfSome, IsErr, OnOk, OnErr};
ghost use Rattle.std.specs.Io.{ReadsAtMost};
ghost use Rattle.std.specs.Io.KnownBytes.{Keeps, ReadConsumes};
ghost use Rattle.calc_io.specs.Desk.{told_book, IsUnknown};
ghost use Rattle.calc_io.specs.Faults.{Rose};

use crate::faults::Failed;
use calc_model::Text;

/// Where books and the script come from.
///
/// Each call counts its own failures in `faults` and answers `Failed` for no other reason.
pub trait Desk {
    ghost use Rattle.std.specs.Prelude.{ℕ, List, Option, Bool};
    ghost use Rattle.calc_io.specs.Desk.{Books, IsTold};

    /// The books by name, where they are told. They never change.
    ghost books: { Self → Option Books };

    /// What is left of the open book, where it is told: nothing before the first is opened.
    ghost book_left: { Self → Option (List ℕ) };

    /// What is left of the script, where it is told.
    ghost script_left: { Self → Option (List ℕ) };

    /// How many calls have failed, up to 2^64 - 1.
    ghost faults: { Self → ℕ };

    /// It tells all that it has, and counts a fault only where a book is opened that it doesn't have.
    /// This never changes.
    ghost calm: { Self → Bool };

    /// Opens the book of that name at its front, in place of the one that was open.
    fn open_book(&mut self, name: &Text) -> Result<(), Failed>
        ensures opened { OnOk result (IfSome (told_book (books self.old) name.now) (λ book.
            book_left self.new ≡ Some book)) }
        ensures unknown { IsUnknown (books self.old) name.now → IsErr result }
        ensures still_open { OnErr result (Keeps (book_left self.old) (book_left self.new)) }

        ensures same_script { Keeps (script_left self.old) (script_left self.new) }
        ensures same_books { books self.new ≡ books self.old }
        ensures same_calm { calm self.new ≡ calm self.old }

        ensures later { faults self.old ≤ faults self.new }
        ensures cause { OnErr result (Rose (faults self.old) (faults self.new)) }
        ensures no_fault { IsTrue (calm self.old) → IsSome (told_book (books self.old) name.now)
            → faults self.new ≡ faults self.old };

    /// Moves bytes from the front of what is left of the open book to the front of `buf`, and answers
    /// how many: at least one, unless nothing is left or `buf` is empty. What the rest of `buf` has is
    /// open.
    fn read_book(&mut self, buf: &mut [u8]) -> Result<usize, Failed>
        ensures bound { ReadsAtMost result buf.new }
        ensures bytes { ReadConsumes (book_left self.old) (book_left self.new) result buf.new }

        ensures same_script { Keeps (script_left self.old) (script_left self.new) }
        ensures same_books { books self.new ≡ books self.old }
        ensures same_calm { calm self.new ≡ calm self.old }

        ensures later { faults self.old ≤ faults self.new }
        ensures cause { OnErr result (Rose (faults self.old) (faults self.new)) }
        ensures no_fault { IsTrue (calm self.old) → faults self.new ≡ faults self.old };

    /// As `read_book`, of the script.
    fn read_script(&mut self, buf: &mut [u8]) -> Result<usize, Failed>
        ensures bound { ReadsAtMost result buf.new }
        ensures bytes { ReadConsumes (script_left self.old) (script_left self.new) result buf.new }

        ensures same_book { Keeps (book_left self.old) (book_left self.new) }
        ensures same_books { books self.new ≡ books self.old }
        ensures same_calm { calm self.new ≡ calm self.old }

        ensures later { faults self.old ≤ faults self.new }
        ensures cause { OnErr result (Rose (faults self.old) (faults self.new)) }
        ensures no_fault { IsTrue (calm self.old) → faults self.new ≡ faults self.old };

    /// A calm desk tells all.
    ghost tells: { (desk : Self) → IsTrue (calm desk)
        → IsTold (books desk) (book_left desk) (script_left desk) };
}
