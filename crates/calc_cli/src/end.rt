ghost use Rattle.std.specs.List.{All};
ghost use Rattle.std.specs.Prelude.{◌≡◌, ◌≢◌, ◌<◌, ◌≤◌, [], length, IfOk, List, Option, ℕ};
ghost use Rattle.formula_reader.specs.Fields.{field_of};
ghost use Rattle.calc_cli.specs.Ending.{book_refused, calculated};
ghost use Rattle.calc_cli.specs.Inputs.{IsLeft, IsShort, ending_of};
ghost use Rattle.calc_cli.specs.Runs.{CountsFaults, Ends, LeavesInputs, TakesWhole};

use crate::inputs::Inputs;
use crate::limits::MOST_SCRIPT_BYTES;
use crate::output::write_output;
use crate::session::Session;
use crate::status::{
    BAD_WORDS, BOOK_REFUSED, DESK_FAILED, DONE, LINE_REFUSED, NO_MEMORY, SCRIPT_TOO_LONG,
    SINK_FAILED,
};
use crate::written::write_all;
use book_parts::BookParts;
use calc_addr::NoMemory;
use calc_book::{BookCause, push_cause};
use calc_io::{DeviceFault, Sink};
use calc_watch::Watcher;
use std::alloc::Global;
use workbook::Workbook;

/// Ends a run by what the desk gave: writes the output, and answers the status.
pub(crate) fn finish<K: Sink, W: Watcher>(
    alloc: Global,
    inputs: Inputs,
    sink: &mut K,
    stock: Vec<W>,
) -> u8
    requires short { IsShort inputs }
    requires stock { All (λ w. W.told w ≡ []) stock.items }
    ensures ends { Ends result (K.written sink.old) (K.written sink.new)
        (ending_of (length stock.items) inputs) }
    ensures words { result ≢ BAD_WORDS }
    ensures desk { result ≢ DESK_FAILED }
    ensures leaves { (script : List ℕ) → (book_left script_left : Option (List ℕ))
        → IsLeft inputs script book_left script_left
        → LeavesInputs result script book_left script_left }

    ensures faults { CountsFaults SINK_FAILED result (K.faults sink.old) (K.faults sink.new) }
    ensures room { TakesWhole result (K.room sink.old)
        (length (ending_of (length stock.items) inputs).written)
        (K.faults sink.old) (K.faults sink.new) }
{
    match inputs {
        Inputs::Loaded(book, script) => answer_script(alloc, book, &script, sink, stock),
        Inputs::Refused(cause) => refuse_book(alloc, cause, sink),
        Inputs::TooLong => SCRIPT_TOO_LONG,
    }
}

/// Writes why the book is refused.
#[tactic(auto, unfolding(crate::specs::Ending::book_refused))]
fn refuse_book<K: Sink>(alloc: Global, cause: BookCause, sink: &mut K) -> u8
    ensures ends { Ends result (K.written sink.old) (K.written sink.new) (book_refused cause) }
    ensures late { LINE_REFUSED < result }
    ensures words { result ≢ BAD_WORDS }
    ensures desk { result ≢ DESK_FAILED }
    ensures script { result ≢ SCRIPT_TOO_LONG }

    ensures faults { CountsFaults SINK_FAILED result (K.faults sink.old) (K.faults sink.new) }
    ensures room { TakesWhole result (K.room sink.old) (length (book_refused cause).written)
        (K.faults sink.old) (K.faults sink.new) }
{
    let Ok(text) = refusal_of(alloc, cause) else {
        return NO_MEMORY;
    };
    match write_all(sink, &text) {
        Ok(()) => BOOK_REFUSED,
        Err(_) => SINK_FAILED,
    }
}

/// What is written where the book is refused.
#[tactic(auto, unfolding(crate::specs::Ending::book_refused))]
fn refusal_of(alloc: Global, cause: BookCause) -> Result<Vec<u8>, NoMemory>
    ensures { IfOk result (λ text. text.items ≡ (book_refused cause).written) }
{
    let mut text = Vec::new(alloc);
    text.extend_from_slice(b"book refused: ")?;
    push_cause(cause, &mut text)?;
    text.push(b'\n')?;
    Ok(text)
}

/// Answers the script's lines over the book.
#[tactic(auto, unfolding(crate::specs::Ending::calculated))]
fn answer_script<K: Sink, W: Watcher>(
    alloc: Global,
    book: BookParts,
    script: &[u8],
    sink: &mut K,
    stock: Vec<W>,
) -> u8
    requires script { length script.now ≤ MOST_SCRIPT_BYTES }
    requires stock { All (λ w. W.told w ≡ []) stock.items }
    ensures ends { Ends result (K.written sink.old) (K.written sink.new)
        (calculated field_of (length stock.items) book script.now) }
    ensures words { result ≢ BAD_WORDS }
    ensures desk { result ≢ DESK_FAILED }
    ensures book { result ≢ BOOK_REFUSED }
    ensures script { result ≢ SCRIPT_TOO_LONG }

    ensures faults { CountsFaults SINK_FAILED result (K.faults sink.old) (K.faults sink.new) }
    ensures room { TakesWhole result (K.room sink.old)
        (length (calculated field_of (length stock.items) book script.now).written)
        (K.faults sink.old) (K.faults sink.new) }
{
    let Ok(workbook) = Workbook::load(alloc, book) else {
        return NO_MEMORY;
    };
    let mut session = Session::new(alloc, workbook, stock);
    match write_output(alloc, &mut session, script, sink) {
        Ok(false) => DONE,
        Ok(true) => LINE_REFUSED,
        Err(DeviceFault::Failed(_)) => SINK_FAILED,
        Err(DeviceFault::NoMemory(_)) => NO_MEMORY,
    }
}
