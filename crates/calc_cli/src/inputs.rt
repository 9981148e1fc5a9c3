ghost use Rattle.std.specs.Prelude.{◌≡◌, ◌≤◌, ◌+◌, ◌⊎◌, length, drop, Some, IfOk, OnOk, OnErr, IsTrue, IsSome, IfSome, List, ℕ};
ghost use Rattle.std.specs.Io.KnownBytes.{Keeps};
ghost use Rattle.calc_io.specs.Desk.{told_book, IsUnknown};
ghost use Rattle.calc_io.specs.Faults.{HasFailed, Rose};
ghost use Rattle.formula_reader.specs.Fields.{field_of};
ghost use Rattle.calc_cli.specs.Ending.{ending};
ghost use Rattle.calc_cli.specs.Inputs.{IsLeft, IsLoaded, IsShort, IsTaken, ending_of};
ghost use Rattle.calc_cli.specs.Runs.{IsEnding, TakesAtMost, Tells};

use crate::input_bytes::{Input, read_all};
use crate::limits::MOST_SCRIPT_BYTES;
use book_parts::BookParts;
use calc_book::{BookCause, BookFault, MOST_BYTES, load};
use calc_io::{Desk, DeviceFault};
use calc_model::Text;
use std::alloc::Global;
use std::thread::Threads;

/// What the desk gave.
#[derive(Drop)]
pub(crate) enum Inputs {
    /// The book and the script.
    Loaded(BookParts, Vec<u8>),
    /// The book is refused.
    Refused(BookCause),
    /// The script is too long.
    TooLong,
}

/// The book of these bytes, or why it is refused.
fn book_of<R: Threads + Sync>(
    rt: &R,
    alloc: Global,
    bytes: &[u8],
) -> Result<Result<BookParts, BookCause>, DeviceFault>
    ensures read { IfOk result (λ book. IsLoaded book bytes.now) }
    ensures memory { HasFailed result → ⊥ }
{
    match load(rt, alloc, bytes) {
        Ok(book) => Ok(Ok(book)),
        Err(BookFault::Refused(cause)) => Ok(Err(cause)),
        Err(BookFault::NoMemory(refused)) => Err(DeviceFault::NoMemory(refused)),
    }
}

/// The script, unless it is too long.
fn read_script<D: Desk>(alloc: Global, desk: &mut D) -> Result<Option<Vec<u8>>, DeviceFault>
    ensures told { (script : List ℕ) → D.script_left desk.old ≡ Some script
        → IfOk result (λ taken. IsTaken taken script) }
    ensures some_script { IfOk result (λ taken. (script : List ℕ) × IsTaken taken script) }
    ensures short { IfOk result (λ taken.
        IfSome taken (λ bytes. length bytes.items ≤ MOST_SCRIPT_BYTES)) }
    ensures left { (script : List ℕ) → D.script_left desk.old ≡ Some script
        → OnOk result (D.script_left desk.new ≡ Some (drop (MOST_SCRIPT_BYTES + 1) script)) }
    ensures within { (script : List ℕ) → D.script_left desk.old ≡ Some script
        → TakesAtMost (MOST_SCRIPT_BYTES + 1) script (D.script_left desk.new) }
    ensures same_book { Keeps (D.book_left desk.old) (D.book_left desk.new) }

    ensures later { D.faults desk.old ≤ D.faults desk.new }
    ensures cause { HasFailed result → Rose (D.faults desk.old) (D.faults desk.new) }
    ensures no_fault { IsTrue (D.calm desk.old) → D.faults desk.new ≡ D.faults desk.old }
{
    let script = read_all(alloc, desk, Input::ScriptInput, MOST_SCRIPT_BYTES)?;
    if script.len() > MOST_SCRIPT_BYTES {
        return Ok(None);
    }
    Ok(Some(script))
}

/// Opens the book of that name.
fn open<D: Desk>(desk: &mut D, name: &Text) -> Result<(), DeviceFault>
    ensures opened { (bytes : List ℕ) → told_book (D.books desk.old) name.now ≡ Some bytes
        → OnOk result (D.book_left desk.new ≡ Some bytes) }
    ensures unknown { IsUnknown (D.books desk.old) name.now → HasFailed result }
    ensures still_open { OnErr result (Keeps (D.book_left desk.old) (D.book_left desk.new)) }
    ensures same_script { Keeps (D.script_left desk.old) (D.script_left desk.new) }
    ensures same_calm { D.calm desk.new ≡ D.calm desk.old }

    ensures later { D.faults desk.old ≤ D.faults desk.new }
    ensures cause { HasFailed result → Rose (D.faults desk.old) (D.faults desk.new) }
    ensures no_fault { IsTrue (D.calm desk.old) → IsSome (told_book (D.books desk.old) name.now)
        → D.faults desk.new ≡ D.faults desk.old }
{
    match desk.open_book(name) {
        Ok(()) => Ok(()),
        Err(failed) => Err(DeviceFault::Failed(failed)),
    }
}

/// The book of that name, or why it is refused.
fn load_book<R: Threads + Sync, D: Desk>(
    rt: &R,
    alloc: Global,
    desk: &mut D,
    name: &Text,
) -> Result<Result<BookParts, BookCause>, DeviceFault>
    ensures told { (bytes : List ℕ) → told_book (D.books desk.old) name.now ≡ Some bytes
        → IfOk result (λ book. IsLoaded book bytes) }
    ensures some_book { IfOk result (λ book. (bytes : List ℕ) × IsLoaded book bytes) }
    ensures left { (bytes : List ℕ) → told_book (D.books desk.old) name.now ≡ Some bytes
        → OnOk result (D.book_left desk.new ≡ Some (drop (MOST_BYTES + 1) bytes)) }
    ensures within { (bytes : List ℕ) → told_book (D.books desk.old) name.now ≡ Some bytes
        → Keeps (D.book_left desk.old) (D.book_left desk.new)
        ⊎ TakesAtMost (MOST_BYTES + 1) bytes (D.book_left desk.new) }
    ensures unknown { IsUnknown (D.books desk.old) name.now
        → HasFailed result × Keeps (D.book_left desk.old) (D.book_left desk.new) }
    ensures same_script { Keeps (D.script_left desk.old) (D.script_left desk.new) }
    ensures same_calm { D.calm desk.new ≡ D.calm desk.old }

    ensures later { D.faults desk.old ≤ D.faults desk.new }
    ensures cause { HasFailed result → Rose (D.faults desk.old) (D.faults desk.new) }
    ensures no_fault { IsTrue (D.calm desk.old) → IsSome (told_book (D.books desk.old) name.now)
        → D.faults desk.new ≡ D.faults desk.old }
{
    open(desk, name)?;
    let bytes = read_all(alloc, desk, Input::BookInput, MOST_BYTES)?;
    let book = book_of(rt, alloc, &bytes)?;
    Ok(book)
}

/// What the desk has, or why it can't be taken.
pub(crate) fn read_inputs<R: Threads + Sync, D: Desk>(
    rt: &R,
    alloc: Global,
    desk: &mut D,
    name: &Text,
) -> Result<Inputs, DeviceFault>
    ensures told { (stock : ℕ) (book script : List ℕ)
        → Tells (D.books desk.old) (D.script_left desk.old) name.now book script
        → IfOk result (λ inputs. ending_of stock inputs ≡ ending field_of stock book script) }
    ensures somehow { (stock : ℕ)
        → IfOk result (λ inputs. IsEnding stock (ending_of stock inputs)) }
    ensures left { (book script : List ℕ)
        → Tells (D.books desk.old) (D.script_left desk.old) name.now book script
        → IfOk result (λ inputs.
        IsLeft inputs script (D.book_left desk.new) (D.script_left desk.new)) }
    ensures book_within { (book : List ℕ) → told_book (D.books desk.old) name.now ≡ Some book
        → Keeps (D.book_left desk.old) (D.book_left desk.new)
        ⊎ TakesAtMost (MOST_BYTES + 1) book (D.book_left desk.new) }
    ensures script_within { (script : List ℕ) → D.script_left desk.old ≡ Some script
        → TakesAtMost (MOST_SCRIPT_BYTES + 1) script (D.script_left desk.new) }
    ensures unknown { IsUnknown (D.books desk.old) name.now → HasFailed result
        × Keeps (D.book_left desk.old) (D.book_left desk.new)
        × Keeps (D.script_left desk.old) (D.script_left desk.new) }
    ensures short { IfOk result IsShort }

    ensures later { D.faults desk.old ≤ D.faults desk.new }
    ensures cause { HasFailed result → Rose (D.faults desk.old) (D.faults desk.new) }
    ensures no_fault { IsTrue (D.calm desk.old) → IsSome (told_book (D.books desk.old) name.now)
        → D.faults desk.new ≡ D.faults desk.old }
{
    let book = load_book(rt, alloc, desk, name)?;
    match book {
        Ok(book) => match read_script(alloc, desk)? {
            Some(script) => Ok(Inputs::Loaded(book, script)),
            None => Ok(Inputs::TooLong),
        },
        Err(cause) => Ok(Inputs::Refused(cause)),
    }
}
