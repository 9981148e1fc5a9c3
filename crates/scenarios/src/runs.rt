//! Runs over a book and a script in memory.
use calc_cli::run;
use calc_io::{SteadyDesk, SteadySink};
use calc_model::Text;
use calc_watch::pads;
use std::alloc::{AllocError, Global};
use std::process::Abort;
use std::thread::Threads;

/// The most bytes that a run may write.
const ROOM: usize = 262_144;

/// A book, a script, what the run writes, and its status.
pub(crate) type Row = (&'static str, &'static str, &'static str, u8);

pub(crate) fn text(alloc: Global, text: &str) -> Result<Text, AllocError> {
    Ok(Text::of(String::from_str(alloc, text)?))
}

pub(crate) fn bytes(alloc: Global, text: &str) -> Result<Vec<u8>, AllocError> {
    Vec::from_slice(alloc, text.as_bytes())
}

/// The words of the command for the book with the name `book`.
pub(crate) fn words(alloc: Global) -> Result<Vec<Text>, AllocError> {
    Ok(vec![in alloc; text(alloc, "book")?]?)
}

/// A book with the name `book`.
pub(crate) fn books(alloc: Global, book: Vec<u8>) -> Result<Vec<(Text, Vec<u8>)>, AllocError> {
    Ok(vec![in alloc; (text(alloc, "book")?, book)]?)
}

/// The status of a run over one book, and what it wrote.
pub(crate) fn outcome(
    rt: &(impl Threads + Sync),
    alloc: Global,
    book: Vec<u8>,
    script: Vec<u8>,
) -> Result<(u8, Vec<u8>), AllocError> {
    let mut desk = SteadyDesk::new(books(alloc, book)?, script);
    let mut sink = SteadySink::new(alloc, ROOM)?;
    let status = run(
        rt,
        alloc,
        &words(alloc)?,
        &mut desk,
        &mut sink,
        pads(alloc, 0)?,
    );
    Ok((status, Vec::from_slice(alloc, sink.written())?))
}

/// Stops unless the run of a row ends and writes as the row says.
pub(crate) fn expect(
    rt: &(impl Abort + Threads + Sync),
    alloc: Global,
    row: Row,
) -> Result<(), AllocError> {
    let (book, script, output, status) = row;
    let (ended, written) = outcome(rt, alloc, bytes(alloc, book)?, bytes(alloc, script)?)?;
    assert_eq!(rt; written.as_slice(), output.as_bytes(), "{book}: {script}");
    assert_eq!(rt; ended, status, "{book}: {script}");
    Ok(())
}
