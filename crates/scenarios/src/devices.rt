//! Inputs that are missing or too long, devices that fail, and real files and pipes.
use crate::runs::{books, bytes, outcome, text, words};
use calc_cli::{message, run};
use calc_io::{MemoryDesk, MemorySink, PipeDesk, PipeSink, SteadyDesk, SteadySink};
use calc_watch::pads;
use calc_words::{HELP, VERSION, answer};
use std::alloc::{AllocError, Global};
use std::test::Fail;
use std::thread::Threads;
use std::{env, fs};

const BOOK: &str = "1,2,=[.A1]+[.B1],=[.C1]+[.C1]\n";

const SCRIPT: &str = "print A1:D1\nprint D1\n";

const OUTPUT: &str = "1,2,3,6\n6\n";

#[test]
fn a_missing_book_ends_with_3(rt: HostRuntime) -> Result<(), Fail> {
    let alloc = rt.alloc();
    let mut desk = SteadyDesk::new(Vec::new(alloc), bytes(alloc, SCRIPT)?);
    let mut sink = SteadySink::new(alloc, 64)?;
    assert_eq!(rt;
        run(
            &rt,
            alloc,
            &words(alloc)?,
            &mut desk,
            &mut sink,
            pads(alloc, 0)?
        ),
        3
    );
    assert_eq!(rt; sink.written(), b"".as_slice());
    Ok(())
}

/// Words, each with a space in front, and the status of a run by them.
const WORDS: [(&str, u8); 11] = [
    (" book", 0),
    (" --workers 1 book", 0),
    (" book --workers 4", 0),
    (" --workers=64 book", 0),
    (" --workers 65 book", 2),
    (" --workers 0 book", 2),
    (" --workers book", 2),
    (" -book", 2),
    (" --help", 2),
    (" book book", 2),
    ("", 2),
];

#[test]
fn words_decide_whether_a_run_begins(rt: HostRuntime) -> Result<(), Fail> {
    let alloc = rt.alloc();
    for (line, status) in WORDS {
        let mut words = Vec::new(alloc);
        for word in line.split(' ').skip(1) {
            words.push(text(alloc, word)?)?;
        }
        let mut desk = SteadyDesk::new(books(alloc, bytes(alloc, BOOK)?)?, bytes(alloc, SCRIPT)?);
        let mut sink = SteadySink::new(alloc, 64)?;
        let ended = run(&rt, alloc, &words, &mut desk, &mut sink, pads(alloc, 0)?);
        assert_eq!(rt; ended, status, "{line}");
        let written = if status == 0 { OUTPUT } else { "" };
        assert_eq!(rt; sink.written(), written.as_bytes(), "{line}");
    }
    Ok(())
}

#[test]
fn help_and_version_are_answered(rt: HostRuntime) -> Result<(), Fail> {
    let alloc = rt.alloc();
    let asked = [
        ("--help", HELP),
        ("-h", HELP),
        ("--version", VERSION),
        ("-V", VERSION),
    ];
    for (word, told) in asked {
        assert_eq!(rt; answer(&[text(alloc, word)?]), Some(told), "{word}");
    }
    assert_eq!(rt; answer(&words(alloc)?), None);
    Ok(())
}

#[test]
fn a_script_past_its_limit_ends_with_7(rt: HostRuntime) -> Result<(), Fail> {
    let alloc = rt.alloc();
    for (size, status) in [(16_777_216, 0), (16_777_217, 7)] {
        let script = vec![in alloc; b'\n'; size]?;
        let (ended, written) = outcome(&rt, alloc, Vec::new(alloc), script)?;
        assert_eq!(rt; ended, status);
        assert_eq!(rt; written.as_slice(), b"".as_slice());
    }
    Ok(())
}

/// A run in pieces of three bytes whose k-th call of the desk and of the sink fails.
fn failing(
    rt: &(impl Threads + Sync),
    alloc: Global,
    desk_call: u64,
    sink_call: u64,
) -> Result<(u8, Vec<u8>), AllocError> {
    let mut desk = MemoryDesk::new(
        books(alloc, bytes(alloc, BOOK)?)?,
        bytes(alloc, SCRIPT)?,
        vec![in alloc; desk_call]?,
        3,
    );
    let mut sink = MemorySink::new(alloc, 64, vec![in alloc; sink_call]?, 3)?;
    let status = run(
        rt,
        alloc,
        &words(alloc)?,
        &mut desk,
        &mut sink,
        pads(alloc, 0)?,
    );
    Ok((status, Vec::from_slice(alloc, sink.written())?))
}

#[test]
fn a_desk_that_fails_ends_with_3(rt: HostRuntime) -> Result<(), Fail> {
    let alloc = rt.alloc();
    // One call opens the book; 30 bytes and 21 bytes are read by threes, and one call tells each end.
    for call in 1..=20 {
        let (status, written) = failing(&rt, alloc, call, 0)?;
        assert_eq!(rt; status, 3);
        assert_eq!(rt; written.as_slice(), b"".as_slice());
    }
    let (status, written) = failing(&rt, alloc, 21, 0)?;
    assert_eq!(rt; status, 0);
    assert_eq!(rt; written.as_slice(), OUTPUT.as_bytes());
    Ok(())
}

#[test]
fn a_sink_that_fails_ends_with_4(rt: HostRuntime) -> Result<(), Fail> {
    let alloc = rt.alloc();
    for (call, output) in [(1, ""), (2, "1,2"), (3, "1,2,3,"), (4, "1,2,3,6\n")] {
        let (status, written) = failing(&rt, alloc, 0, call)?;
        assert_eq!(rt; status, 4);
        assert_eq!(rt; written.as_slice(), output.as_bytes());
    }
    let (status, written) = failing(&rt, alloc, 0, 5)?;
    assert_eq!(rt; status, 0);
    assert_eq!(rt; written.as_slice(), OUTPUT.as_bytes());
    Ok(())
}

#[test]
fn real_files_serve(rt: HostRuntime) -> Result<(), Fail> {
    let alloc = rt.alloc();
    let mut folder = env::temp_dir(&rt)?;
    folder.push("calc-files")?;
    fs::create_dir_all(&rt, &folder)?;
    let mut book = folder.clone()?;
    book.push("book.csv")?;
    let mut script = folder.clone()?;
    script.push("script.txt")?;
    let mut output = folder.clone()?;
    output.push("output.csv")?;
    fs::write(&rt, &book, BOOK)?;
    fs::write(&rt, &script, SCRIPT)?;
    let name = book.to_str().ok_or("a path in UTF-8")?;
    let words = vec![in alloc; text(alloc, name)?]?;
    let mut desk = PipeDesk::new(&rt, fs::open(&rt, &script)?);
    let mut sink = PipeSink::new(fs::create(&rt, &output)?);
    let status = run(&rt, alloc, &words, &mut desk, &mut sink, pads(alloc, 0)?);
    drop(sink);
    let written = fs::read(&rt, &output)?;
    fs::remove_dir_all(&rt, &folder)?;
    assert_eq!(rt; status, 0);
    assert_eq!(rt; written.as_slice(), OUTPUT.as_bytes());
    Ok(())
}

#[test]
fn users_are_told_what_went_wrong(rt: HostRuntime) -> Result<(), Fail> {
    let told = [
        (0, ""),
        (1, ""),
        (2, "usage: calc [--workers N] BOOK"),
        (3, "the book or the script can't be read"),
        (4, "the output can't be written"),
        (5, "out of memory"),
        (6, ""),
        (7, "the script has more than 16,777,216 bytes"),
    ];
    for (status, text) in told {
        assert_eq!(rt; message(status), text);
    }
    Ok(())
}
