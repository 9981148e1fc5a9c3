use byte_cuts::lines;
use calc_cli::run;
use calc_io::{SteadyDesk, SteadySink};
use calc_model::Text;
use calc_watch::pads;
use std::alloc::{AllocError, Global};
use std::thread::Threads;

/// What begins a line of a book, of a script and of what is printed, and the line that ends a row.
const BOOK: &[u8] = b"book   ";

const SCRIPT: &[u8] = b"script ";

const PRINTS: &[u8] = b"prints ";

const STATUS: &[u8] = b"status ";

/// The most bytes that a run may write.
const ROOM: usize = 65_536;

/// How many watchers a script may attach.
const WATCHERS: usize = 8;

/// A row: a book, a script, and what its run prints.
#[derive(Drop)]
struct Row {
    book: Vec<u8>,
    script: Vec<u8>,
    prints: Vec<u8>,
}

/// How many rows of a table were run, how many of them don't hold, and what the first of these prints.
#[derive(Drop)]
pub(crate) struct Outcome {
    pub(crate) rows: u64,
    pub(crate) failed: u64,
    pub(crate) first_failed: u64,
    pub(crate) printed: Vec<u8>,
}

impl Row {
    fn new(alloc: Global) -> Row {
        Row {
            book: Vec::new(alloc),
            script: Vec::new(alloc),
            prints: Vec::new(alloc),
        }
    }

    /// What the run of the row prints, unless it is what the row says, with that status.
    fn failure(
        self,
        rt: &(impl Threads + Sync),
        alloc: Global,
        status: &[u8],
    ) -> Result<Option<Vec<u8>>, AllocError> {
        let name = Text::of(String::from_str(alloc, "book")?);
        let words = vec![in alloc; name.copy(alloc)?]?;
        let mut desk = SteadyDesk::new(vec![in alloc; (name, self.book)]?, self.script);
        let mut sink = SteadySink::new(alloc, ROOM)?;
        let stock = pads(alloc, WATCHERS)?;
        let ended = run(rt, alloc, &words, &mut desk, &mut sink, stock);
        if sink.written() == self.prints.as_slice() && is_number(ended, status) {
            return Ok(None);
        }
        Ok(Some(Vec::from_slice(alloc, sink.written())?))
    }
}

/// Whether the digits are those of a status, which has one.
fn is_number(status: u8, digits: &[u8]) -> bool {
    matches!(digits, [digit] if digit.wrapping_sub(b'0') == status)
}

fn push_line(text: &mut Vec<u8>, line: &[u8]) -> Result<(), AllocError> {
    text.extend_from_slice(line)?;
    text.extend_from_slice(b"\n")
}

/// Runs the rows of a table. A line that begins as none of a row does is a comment.
pub(crate) fn run_rows(
    rt: &(impl Threads + Sync),
    alloc: Global,
    table: &[u8],
) -> Result<Outcome, AllocError> {
    let mut row = Row::new(alloc);
    let mut outcome = Outcome {
        rows: 0,
        failed: 0,
        first_failed: 0,
        printed: Vec::new(alloc),
    };
    for line in lines(table) {
        if let Some(rest) = line.strip_prefix(BOOK) {
            push_line(&mut row.book, rest)?;
        } else if let Some(rest) = line.strip_prefix(SCRIPT) {
            push_line(&mut row.script, rest)?;
        } else if let Some(rest) = line.strip_prefix(PRINTS) {
            push_line(&mut row.prints, rest)?;
        } else if let Some(status) = line.strip_prefix(STATUS) {
            outcome.rows = outcome.rows.wrapping_add(1);
            let whole = row;
            row = Row::new(alloc);
            if let Some(printed) = whole.failure(rt, alloc, status)? {
                if outcome.failed == 0 {
                    outcome.first_failed = outcome.rows;
                    outcome.printed = printed;
                }
                outcome.failed = outcome.failed.wrapping_add(1);
            }
        }
    }
    Ok(outcome)
}
