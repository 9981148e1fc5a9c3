//! The trusted edge: a real file, a reader for the script and a writer. As a desk and a sink they tell
//! nothing of content, and their own clauses say no more of it than the reader and the writer do.
ghost use Rattle.std.specs.Prelude.{◌≡◌, ◌↔◌, ◌<◌, ◌≤◌, length, None, false, Ok, IsTrue, IfOk, OnOk, OnErr};
ghost use Rattle.std.specs.IoError.{error_kind};
ghost use Rattle.std.specs.Io.{ReadsAtMost, WritesAtMost};
ghost use Rattle.std.specs.Io.KnownBytes.{ReadConsumes, WriteAppends};
ghost use Rattle.std.proofs.Common.{rules};
ghost use Rattle.calc_io.specs.Faults.{CountsFailure};

use crate::desk::Desk;
use crate::faults::{Failed, count_fault};
use crate::sink::Sink;
use calc_model::Text;
use std::fs;
use std::io::{Error, ErrorKind, Read, Write};
use std::marker::Model;
use std::rt::Files;

/// How often a call is tried that is interrupted each time.
const TRIES: u32 = 1_000;

/// A desk whose books are files, each under its path, and whose script is what a reader gives.
#[derive(Drop)]
pub struct PipeDesk<'a, R: Files, S: Read + Drop> {
    files: &'a R,
    book: Option<R::File>,
    script: S,
    faults: u64,
}

impl<'a, R: Files, S: Read + Drop> Model for PipeDesk<'a, R, S> {
    ghost use Rattle.std.specs.Prelude.{is_some, option_and_then};
    ghost use Rattle.calc_io.specs.Edge.{PipeDeskState};

    ghost Value = { PipeDeskState };

    ghost view = { λ desk. record {
      is_open = is_some desk.book;
      file = option_and_then R.File.remaining desk.book;
      script = S.remaining desk.script;
      faults = desk.faults;
    } };
}

impl<'a, R: Files, S: Read + Drop> PipeDesk<'a, R, S> {
    /// A desk with no book open.
    pub fn new(files: &'a R, script: S) -> PipeDesk<'a, R, S>
        ensures { result ≡ record {
          is_open = false;
          file = None;
          script = S.remaining script;
          faults = 0;
        } }
    {
        PipeDesk {
            files,
            book: None,
            script,
            faults: 0,
        }
    }
}

impl<R: Files, S: Read + Drop> Desk for PipeDesk<'_, R, S> {
    ghost books = { λ _. None };

    ghost book_left = { λ _. None };

    ghost script_left = { λ _. None };

    ghost faults = { λ desk. desk.faults };

    ghost calm = { λ _. false };

    ghost tells = { λ desk calm. Prim.search rules };

    fn open_book(&mut self, name: &Text) -> Result<(), Failed>
        ensures opened { OnOk result (IsTrue self.new.is_open) }
        ensures same_book { OnErr result (self.new ≡ record self.old { faults = self.new.faults }) }
        ensures same_script { self.new.script ≡ self.old.script }
        ensures later { self.old.faults ≤ self.new.faults }
        ensures counted { CountsFailure self.old.faults self.new.faults result }
    {
        match fs::open(self.files, name.as_str()) {
            Ok(file) => {
                self.book = Some(file);
                Ok(())
            }
            Err(_) => Err(count_fault(&mut self.faults)),
        }
    }

    fn read_book(&mut self, buf: &mut [u8]) -> Result<usize, Failed>
        ensures bound { ReadsAtMost result buf.new }
        ensures bytes { ReadConsumes self.old.file self.new.file result buf.new }
        ensures closed { self.old.is_open ≡ false → result ≡ Ok 0 }
        ensures same { self.new
            ≡ record self.old { file = self.new.file; faults = self.new.faults } }
        ensures later { self.old.faults ≤ self.new.faults }
        ensures counted { CountsFailure self.old.faults self.new.faults result }
    {
        match &mut self.book {
            None => Ok(0),
            Some(file) => read_some(file, buf, &mut self.faults),
        }
    }

    fn read_script(&mut self, buf: &mut [u8]) -> Result<usize, Failed>
        ensures bound { ReadsAtMost result buf.new }
        ensures bytes { ReadConsumes self.old.script self.new.script result buf.new }
        ensures same { self.new
            ≡ record self.old { script = self.new.script; faults = self.new.faults } }
        ensures later { self.old.faults ≤ self.new.faults }
        ensures counted { CountsFailure self.old.faults self.new.faults result }
    {
        read_some(&mut self.script, buf, &mut self.faults)
    }
}

/// A sink over a writer, which it never flushes: one that keeps no bytes to itself, as standard output's.
#[derive(Drop)]
pub struct PipeSink<W: Write + Drop> {
    writer: W,
    faults: u64,
}

impl<W: Write + Drop> Model for PipeSink<W> {
    ghost use Rattle.calc_io.specs.Edge.{PipeSinkState};

    ghost Value = { PipeSinkState };

    ghost view = { λ sink. record { writer = W.contents sink.writer; faults = sink.faults } };
}

impl<W: Write + Drop> PipeSink<W> {
    /// A sink over that writer.
    pub fn new(writer: W) -> PipeSink<W>
        ensures { result ≡ record { writer = W.contents writer; faults = 0 } }
    {
        PipeSink { writer, faults: 0 }
    }
}

impl<W: Write + Drop> Sink for PipeSink<W> {
    ghost written = { λ _. None };

    ghost room = { λ _. None };

    ghost faults = { λ sink. sink.faults };

    fn write(&mut self, piece: &[u8]) -> Result<usize, Failed>
        ensures bound { WritesAtMost result piece.now }
        ensures some { IfOk result (λ taken. 0 < length piece.now → 0 < taken) }
        ensures bytes { WriteAppends self.old.writer self.new.writer result piece.now }
        ensures later { self.old.faults ≤ self.new.faults }
        ensures counted { CountsFailure self.old.faults self.new.faults result }
    {
        write_some(&mut self.writer, piece, &mut self.faults)
    }
}

// Reads once, and again where that was interrupted. A failure is counted.
fn read_some<R: Read>(reader: &mut R, buf: &mut [u8], faults: &mut u64) -> Result<usize, Failed>
    ensures bound { ReadsAtMost result buf.new }
    ensures bytes { ReadConsumes (R.remaining reader.old) (R.remaining reader.new) result buf.new }
    ensures later { faults.old ≤ faults.new }
    ensures counted { CountsFailure faults.old faults.new result }
{
    'reads: for _ in 0..TRIES {
        match reader.read(buf) {
            Ok(count) => return Ok(count),
            Err(error) if is_interrupted(&error) => {}
            Err(_) => break 'reads,
        }
    }
    Err(count_fault(faults))
}

// Writes once, and again where that was interrupted. A failure is counted, and so is a write that takes
// nothing of a piece that isn't empty.
fn write_some<W: Write>(writer: &mut W, piece: &[u8], faults: &mut u64) -> Result<usize, Failed>
    ensures bound { WritesAtMost result piece.now }
    ensures some { IfOk result (λ taken. 0 < length piece.now → 0 < taken) }
    ensures bytes { WriteAppends (W.contents writer.old) (W.contents writer.new) result piece.now }
    ensures later { faults.old ≤ faults.new }
    ensures counted { CountsFailure faults.old faults.new result }
{
    'writes: for _ in 0..TRIES {
        match writer.write(piece) {
            Ok(taken) if taken > 0 || piece.is_empty() => return Ok(taken),
            Err(error) if is_interrupted(&error) => {}
            _ => break 'writes,
        }
    }
    Err(count_fault(faults))
}

fn is_interrupted(error: &Error) -> bool
    ensures { IsTrue result ↔ (error_kind error.now ≡ ErrorKind.Interrupted) }
{
    error.kind() == ErrorKind::Interrupted
}
