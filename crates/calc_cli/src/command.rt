ghost use Rattle.std.specs.List.{All};
ghost use Rattle.std.specs.Prelude.{◌≡◌, [], ◌≢◌, ◌↔◌, length, List, ℕ, None, Some, IsTrue, IsSome};
ghost use Rattle.std.specs.Io.KnownBytes.{Keeps};
ghost use Rattle.calc_io.specs.Desk.{told_book, IsUnknown};
ghost use Rattle.calc_model.specs.OverFields.{OverFields};
ghost use Rattle.calc_cli.specs.Ending.{ending};
ghost use Rattle.calc_cli.specs.Runs.{CountsFaults, Ends, EndsSomehow, Serves, TakesInputs, TakesWhole, Tells};
ghost use Rattle.calc_words.specs.Words.{book_name, words_of};
ghost use Rattle.formula_reader.specs.Fields.{field_of};

use crate::end::finish;
use crate::inputs::read_inputs;
use crate::status::{BAD_WORDS, DESK_FAILED, NO_MEMORY, SINK_FAILED};
use calc_io::{Desk, DeviceFault, Sink};
use calc_model::Text;
use calc_watch::Watcher;
use calc_words::read_words;
use std::alloc::Global;
use std::thread::Threads;

/// Runs the command of the words: takes a book and a script from the desk and writes the output of the
/// script's lines to the sink. The stock is what watchers the script may attach: they must have been told
/// nothing, and are dropped at the end. Answers the exit status.
///
/// 0: all is written and no line was refused; 1: a line was refused; 2: the words aren't of the command;
/// 3: the desk failed; 4: the sink failed; 5: memory was refused; 6: the book is refused; 7: the script
/// has more than 16,777,216 bytes.
pub fn run<R: Threads + Sync, D: Desk, K: Sink, W: Watcher>(
    rt: &R,
    alloc: Global,
    words: &[Text],
    desk: &mut D,
    sink: &mut K,
    stock: Vec<W>,
) -> u8
    requires stock { All (λ w. W.told w ≡ []) stock.items }
    ensures words { result ≢ NO_MEMORY → (result ≡ BAD_WORDS ↔ words_of words.now ≡ None) }
    ensures untouched { words_of words.now ≡ None → (desk.new ≡ desk.old) × (sink.new ≡ sink.old) }
    ensures ends { OverFields (λ field. (book script : List ℕ)
        → Serves (D.books desk.old) (D.script_left desk.old) words.now book script
        → Ends result (K.written sink.old) (K.written sink.new)
        (ending field (length stock.items) book script)) }
    ensures ends_somehow { result ≢ BAD_WORDS
        → EndsSomehow (length stock.items) result (K.written sink.old) (K.written sink.new) }

    ensures takes { (book script : List ℕ)
        → Serves (D.books desk.old) (D.script_left desk.old) words.now book script
        → TakesInputs result book script
        (D.book_left desk.old) (D.book_left desk.new) (D.script_left desk.new) }
    ensures unknown { (name : List ℕ) → book_name words.now ≡ Some name
        → IsUnknown (D.books desk.old) name → (result ≢ NO_MEMORY → result ≡ DESK_FAILED)
        × Keeps (D.book_left desk.old) (D.book_left desk.new)
        × Keeps (D.script_left desk.old) (D.script_left desk.new) }

    ensures desk_faults { CountsFaults DESK_FAILED result (D.faults desk.old) (D.faults desk.new) }
    ensures desk_calm { (name : List ℕ) → book_name words.now ≡ Some name
        → IsTrue (D.calm desk.old) → IsSome (told_book (D.books desk.old) name)
        → D.faults desk.new ≡ D.faults desk.old }
    ensures sink_faults { CountsFaults SINK_FAILED result (K.faults sink.old) (K.faults sink.new) }
    ensures sink_room { OverFields (λ field. (book script : List ℕ)
        → Serves (D.books desk.old) (D.script_left desk.old) words.now book script
        → TakesWhole result (K.room sink.old)
        (length (ending field (length stock.items) book script).written)
        (K.faults sink.old) (K.faults sink.new)) }
{
    match read_words(alloc, words) {
        Ok(Some(said)) => run_book(rt, alloc, &said.book, desk, sink, stock),
        Ok(None) => BAD_WORDS,
        Err(_) => NO_MEMORY,
    }
}

/// Runs the command for the book of that name.
fn run_book<R: Threads + Sync, D: Desk, K: Sink, W: Watcher>(
    rt: &R,
    alloc: Global,
    name: &Text,
    desk: &mut D,
    sink: &mut K,
    stock: Vec<W>,
) -> u8
    requires stock { All (λ w. W.told w ≡ []) stock.items }
    ensures words { result ≢ BAD_WORDS }
    ensures ends { (book script : List ℕ)
        → Tells (D.books desk.old) (D.script_left desk.old) name.now book script
        → Ends result (K.written sink.old) (K.written sink.new)
        (ending field_of (length stock.items) book script) }
    ensures ends_somehow { EndsSomehow (length stock.items) result (K.written sink.old) (K.written sink.new) }

    ensures takes { (book script : List ℕ)
        → Tells (D.books desk.old) (D.script_left desk.old) name.now book script
        → TakesInputs result book script
        (D.book_left desk.old) (D.book_left desk.new) (D.script_left desk.new) }
    ensures unknown { IsUnknown (D.books desk.old) name.now → (result ≡ DESK_FAILED)
        × Keeps (D.book_left desk.old) (D.book_left desk.new)
        × Keeps (D.script_left desk.old) (D.script_left desk.new) }

    ensures desk_faults { CountsFaults DESK_FAILED result (D.faults desk.old) (D.faults desk.new) }
    ensures desk_calm { IsTrue (D.calm desk.old) → IsSome (told_book (D.books desk.old) name.now)
        → D.faults desk.new ≡ D.faults desk.old }
    ensures sink_faults { CountsFaults SINK_FAILED result (K.faults sink.old) (K.faults sink.new) }
    ensures sink_room { (book script : List ℕ)
        → Tells (D.books desk.old) (D.script_left desk.old) name.now book script
        → TakesWhole result (K.room sink.old)
        (length (ending field_of (length stock.items) book script).written)
        (K.faults sink.old) (K.faults sink.new) }
{
    match read_inputs(rt, alloc, desk, name) {
        Ok(inputs) => finish(alloc, inputs, sink, stock),
        Err(DeviceFault::Failed(_)) => DESK_FAILED,
        Err(DeviceFault::NoMemory(_)) => NO_MEMORY,
    }
}
