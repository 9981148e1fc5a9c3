ghost use Rattle.std.specs.Prelude.{◌≡◌, ◌↔◌, ◌-◌, ◌<◌, ◌≤◌, ◌++◌, [], Some, true, min, length, take, drop, IsTrue, IsOk, IsErr, IfSome, IfNone, IfOk, IsOkAnd, OnErr};
ghost use Rattle.std.proofs.Common.{rules};
ghost use Rattle.calc_io.specs.Desk.{book_of, kept_books};
ghost use Rattle.calc_io.specs.Faults.{one_more};
ghost use Rattle.calc_io.specs.Memory.{IsRead};

use crate::desk::Desk;
use crate::faults::{Failed, count_fault};
use crate::page::Page;
use crate::shelf::Shelf;
use crate::sink::Sink;
use calc_addr::NoMemory;
use calc_model::Text;
use std::alloc::Global;
use std::marker::Model;

/// A desk in memory that tells all, and fails only to open a book that it doesn't have. Opening a book
/// is linear in the names.
#[derive(Drop)]
pub struct SteadyDesk {
    shelf: Shelf,
    faults: u64,
}

impl Model for SteadyDesk {
    ghost use Rattle.calc_io.specs.Memory.{DeskState};

    ghost Value = { DeskState };

    ghost use Rattle.calc_io.specs.Shelf.{shelf_books, book_rest, script_rest};

    ghost view = { λ desk. record {
      books = shelf_books desk.shelf;
      book_left = book_rest desk.shelf;
      script_left = script_rest desk.shelf;
      faults = desk.faults;
    } };
}

impl SteadyDesk {
    /// Books by name, of which the first counts where several have one name, and a script.
    pub fn new(books: Vec<(Text, Vec<u8>)>, script: Vec<u8>) -> SteadyDesk
        ensures holds { result ≡ record {
          books = kept_books books.items;
          book_left = [];
          script_left = script.items;
          faults = 0;
        } }
        ensures books { ⟦<SteadyDesk as Desk>⟧.books result ≡ Some (kept_books books.items) }
        ensures unopened { ⟦<SteadyDesk as Desk>⟧.book_left result ≡ Some [] }
        ensures script { ⟦<SteadyDesk as Desk>⟧.script_left result ≡ Some script.items }
        ensures calm { IsTrue (⟦<SteadyDesk as Desk>⟧.calm result) }
    {
        SteadyDesk {
            shelf: Shelf::new(books, script),
            faults: 0,
        }
    }
}

impl Desk for SteadyDesk {
    ghost books = { λ desk. Some desk.books };

    ghost book_left = { λ desk. Some desk.book_left };

    ghost script_left = { λ desk. Some desk.script_left };

    ghost faults = { λ desk. desk.faults };

    ghost calm = { λ _. true };

    ghost tells = { λ desk calm. Prim.search rules };

    fn open_book(&mut self, name: &Text) -> Result<(), Failed>
        ensures found { IfSome (book_of self.old.books name.now) (λ book.
            IsOk result × (self.new ≡ record self.old { book_left = book })) }
        ensures unknown { IfNone (book_of self.old.books name.now)
            (IsErr result × (self.new ≡ record self.old { faults = one_more self.old.faults })) }
        ensures later { self.old.faults ≤ self.new.faults }
    {
        if self.shelf.open(name) {
            Ok(())
        } else {
            Err(count_fault(&mut self.faults))
        }
    }

    fn read_book(&mut self, buf: &mut [u8]) -> Result<usize, Failed>
        ensures gives { IsOkAnd result (IsRead self.old.book_left usize.MAX buf.new) }
        ensures left { IfOk result (λ count.
            self.new ≡ record self.old { book_left = drop count self.old.book_left }) }
    {
        Ok(self.shelf.read_book(buf, usize::MAX))
    }

    fn read_script(&mut self, buf: &mut [u8]) -> Result<usize, Failed>
        ensures gives { IsOkAnd result (IsRead self.old.script_left usize.MAX buf.new) }
        ensures left { IfOk result (λ count.
            self.new ≡ record self.old { script_left = drop count self.old.script_left }) }
    {
        Ok(self.shelf.read_script(buf, usize::MAX))
    }
}

/// A sink in memory that tells all, and fails only where its room is used up.
#[derive(Drop)]
pub struct SteadySink {
    page: Page,
    faults: u64,
}

impl Model for SteadySink {
    ghost use Rattle.calc_io.specs.Memory.{SinkState};

    ghost Value = { SinkState };

    ghost view = { λ sink. record { written = sink.page.bytes.items; room = sink.page.room; faults = sink.faults } };
}

impl SteadySink {
    /// A sink with room for so many bytes, whose memory it takes at once.
    pub fn new(alloc: Global, room: usize) -> Result<SteadySink, NoMemory>
        ensures holds { IfOk result (λ sink.
            sink ≡ record { written = []; room = room; faults = 0 }) }
        ensures empty { IfOk result (λ sink. ⟦<SteadySink as Sink>⟧.written sink ≡ Some []) }
        ensures room { IfOk result (λ sink. ⟦<SteadySink as Sink>⟧.room sink ≡ Some room) }
    {
        Ok(SteadySink {
            page: Page::new(alloc, room)?,
            faults: 0,
        })
    }

    /// All that was written.
    pub fn written(&self) -> &[u8]
        ensures held { result.now ≡ self.now.written }
        ensures told { ⟦<SteadySink as Sink>⟧.written self.now ≡ Some result.now }
    {
        self.page.bytes()
    }
}

impl Sink for SteadySink {
    ghost written = { λ sink. Some sink.written };

    ghost room = { λ sink. Some sink.room };

    ghost faults = { λ sink. sink.faults };

    fn write(&mut self, piece: &[u8]) -> Result<usize, Failed>
        ensures full { IsErr result ↔ ((self.old.room ≡ 0) × (0 < length piece.now)) }
        ensures taken { IfOk result (λ taken. taken ≡ min (length piece.now) self.old.room) }
        ensures wrote { IfOk result (λ taken. self.new ≡ record self.old {
          written = self.old.written ++ take taken piece.now;
          room = self.old.room - taken;
        }) }
        ensures failed { OnErr result
            (self.new ≡ record self.old { faults = one_more self.old.faults }) }
        ensures later { self.old.faults ≤ self.new.faults }
    {
        match self.page.write(piece, usize::MAX) {
            Some(taken) => Ok(taken),
            None => Err(count_fault(&mut self.faults)),
        }
    }
}
