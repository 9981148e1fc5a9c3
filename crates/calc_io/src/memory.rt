ghost use Rattle.std.specs.Prelude.{◌≡◌, ◌↔◌, ◌⊎◌, ◌-◌, ◌<◌, ◌≤◌, ◌++◌, [], Some, None, false, min, length, take, drop, IsNone, IsErr, IfSome, IfOk, OnOk, OnErr};
ghost use Rattle.std.proofs.Common.{rules};
ghost use Rattle.calc_io.specs.Desk.{book_of, kept_books};
ghost use Rattle.calc_io.specs.Memory.{IsRead, FailsNext, after_call, desk_after_failure, sink_after_failure};

use crate::desk::Desk;
use crate::faults::{Failed, Failing, count_fault};
use crate::page::Page;
use crate::shelf::Shelf;
use crate::sink::Sink;
use calc_addr::NoMemory;
use calc_model::Text;
use std::alloc::Global;
use std::marker::Model;

/// A desk in memory that fails where it is told to, and gives at most a few bytes at once. Each call is
/// linear in the numbers of the calls that fail, and opening a book in the names as well.
#[derive(Drop)]
pub struct MemoryDesk {
    shelf: Shelf,
    failing: Failing,
    piece: usize,
    faults: u64,
}

impl Model for MemoryDesk {
    ghost use Rattle.std.specs.Prelude.{◌<◌};
    ghost use Rattle.calc_io.specs.Memory.{PlannedDesk};

    ghost Value = { PlannedDesk };

    ghost use Rattle.calc_io.specs.Shelf.{shelf_books, book_rest, script_rest};

    ghost view = { λ desk. record {
      books = shelf_books desk.shelf;
      book_left = book_rest desk.shelf;
      script_left = script_rest desk.shelf;
      faults = desk.faults;
      plan = record { failing = desk.failing.numbers.items; calls = desk.failing.calls; piece = desk.piece };
    } };

    ghost invariant = { λ desk. 0 < desk.piece };
}

impl MemoryDesk {
    /// Books by name, of which the first counts where several have one name, and a script. The calls
    /// with the numbers of `failing`, counted from 1 over all of the desk's, fail, and no call moves
    /// more than `piece` bytes.
    pub fn new(
        books: Vec<(Text, Vec<u8>)>,
        script: Vec<u8>,
        failing: Vec<u64>,
        piece: usize,
    ) -> MemoryDesk
        requires { 0 < piece }
        ensures holds { result ≡ record {
          books = kept_books books.items;
          book_left = [];
          script_left = script.items;
          faults = 0;
          plan = record { failing = failing.items; calls = 0; piece = piece };
        } }
        ensures books { ⟦<MemoryDesk as Desk>⟧.books result ≡ Some (kept_books books.items) }
        ensures unopened { ⟦<MemoryDesk as Desk>⟧.book_left result ≡ Some [] }
        ensures script { ⟦<MemoryDesk as Desk>⟧.script_left result ≡ Some script.items }
    {
        MemoryDesk {
            shelf: Shelf::new(books, script),
            failing: Failing::new(failing),
            piece,
            faults: 0,
        }
    }
}

impl Desk for MemoryDesk {
    ghost books = { λ desk. Some desk.books };

    ghost book_left = { λ desk. Some desk.book_left };

    ghost script_left = { λ desk. Some desk.script_left };

    ghost faults = { λ desk. desk.faults };

    ghost calm = { λ _. false };

    ghost tells = { λ desk calm. Prim.search rules };

    fn open_book(&mut self, name: &Text) -> Result<(), Failed>
        ensures fails { IsErr result ↔
            (FailsNext self.old.plan ⊎ IsNone (book_of self.old.books name.now)) }
        ensures opened { OnOk result (IfSome (book_of self.old.books name.now) (λ book.
            self.new ≡ record self.old { plan = after_call self.old.plan; book_left = book })) }
        ensures failed { OnErr result (self.new ≡ desk_after_failure self.old) }
        ensures later { self.old.faults ≤ self.new.faults }
    {
        if self.failing.call_fails() || !self.shelf.open(name) {
            return Err(count_fault(&mut self.faults));
        }
        Ok(())
    }

    fn read_book(&mut self, buf: &mut [u8]) -> Result<usize, Failed>
        ensures fails { IsErr result ↔ FailsNext self.old.plan }
        ensures read { IfOk result (IsRead self.old.book_left self.old.plan.piece buf.new) }
        ensures left { IfOk result (λ count.
            self.new ≡ record self.old {
              plan = after_call self.old.plan;
              book_left = drop count self.old.book_left;
            }) }
        ensures failed { OnErr result (self.new ≡ desk_after_failure self.old) }
        ensures later { self.old.faults ≤ self.new.faults }
        ensures moves { 0 < self.old.plan.piece }
    {
        if self.failing.call_fails() {
            return Err(count_fault(&mut self.faults));
        }
        Ok(self.shelf.read_book(buf, self.piece))
    }

    fn read_script(&mut self, buf: &mut [u8]) -> Result<usize, Failed>
        ensures fails { IsErr result ↔ FailsNext self.old.plan }
        ensures read { IfOk result (IsRead self.old.script_left self.old.plan.piece buf.new) }
        ensures left { IfOk result (λ count.
            self.new ≡ record self.old {
              plan = after_call self.old.plan;
              script_left = drop count self.old.script_left;
            }) }
        ensures failed { OnErr result (self.new ≡ desk_after_failure self.old) }
        ensures later { self.old.faults ≤ self.new.faults }
        ensures moves { 0 < self.old.plan.piece }
    {
        if self.failing.call_fails() {
            return Err(count_fault(&mut self.faults));
        }
        Ok(self.shelf.read_script(buf, self.piece))
    }
}

/// A sink in memory that fails where it is told to and where it is full, and takes at most a few bytes
/// at once. Each call is linear in the numbers of the calls that fail.
#[derive(Drop)]
pub struct MemorySink {
    page: Page,
    failing: Failing,
    piece: usize,
    faults: u64,
}

impl Model for MemorySink {
    ghost use Rattle.std.specs.Prelude.{◌<◌};
    ghost use Rattle.calc_io.specs.Memory.{PlannedSink};

    ghost Value = { PlannedSink };

    ghost view = { λ sink. record {
      written = sink.page.bytes.items;
      room = sink.page.room;
      faults = sink.faults;
      plan = record { failing = sink.failing.numbers.items; calls = sink.failing.calls; piece = sink.piece };
    } };

    ghost invariant = { λ sink. 0 < sink.piece };
}

impl MemorySink {
    /// A sink that holds at most `room` bytes, whose memory it takes at once. The calls with the numbers
    /// of `failing`, counted from 1, fail, and no call takes more than `piece` bytes.
    pub fn new(
        alloc: Global,
        room: usize,
        failing: Vec<u64>,
        piece: usize,
    ) -> Result<MemorySink, NoMemory>
        requires { 0 < piece }
        ensures { IfOk result (λ sink. sink ≡ record {
          written = [];
          room = room;
          faults = 0;
          plan = record { failing = failing.items; calls = 0; piece = piece };
        }) }
    {
        Ok(MemorySink {
            page: Page::new(alloc, room)?,
            failing: Failing::new(failing),
            piece,
            faults: 0,
        })
    }

    /// All that was written.
    pub fn written(&self) -> &[u8]
        ensures held { result.now ≡ self.now.written }
        ensures told { ⟦<MemorySink as Sink>⟧.written self.now ≡ Some result.now }
    {
        self.page.bytes()
    }
}

impl Sink for MemorySink {
    ghost written = { λ sink. Some sink.written };

    ghost room = { λ _. None };

    ghost faults = { λ sink. sink.faults };

    fn write(&mut self, piece: &[u8]) -> Result<usize, Failed>
        ensures fails { IsErr result ↔
            (FailsNext self.old.plan ⊎ ((self.old.room ≡ 0) × (0 < length piece.now))) }
        ensures taken { IfOk result (λ taken.
            taken ≡ min (min (length piece.now) self.old.room) self.old.plan.piece) }
        ensures wrote { IfOk result (λ taken. self.new ≡ record self.old {
          plan = after_call self.old.plan;
          written = self.old.written ++ take taken piece.now;
          room = self.old.room - taken;
        }) }
        ensures failed { OnErr result (self.new ≡ sink_after_failure self.old) }
        ensures later { self.old.faults ≤ self.new.faults }
        ensures moves { 0 < self.old.plan.piece }
    {
        if self.failing.call_fails() {
            return Err(count_fault(&mut self.faults));
        }
        match self.page.write(piece, self.piece) {
            Some(taken) => Ok(taken),
            None => Err(count_fault(&mut self.faults)),
        }
    }
}
