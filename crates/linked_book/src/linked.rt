//! A book linked with its hub.
ghost use Rattle.std.specs.Prelude.{◌≡◌, ◌≤◌, false, IfOk, OnErr, OnOk};
ghost use Rattle.calc_model.specs.Books.{IsBook};
ghost use Rattle.calc_model.specs.GeneratedBook.{generated_book};
ghost use Rattle.listener_hub.specs.Hubs.{areas_read};
ghost use Rattle.formula_listeners.specs.Held.{HoldsReads};

use book_parts::BookParts;
use calc_addr::NoMemory;
use calc_model::MOST_GENERATED_ROWS;
use formula_listeners::listen_all;
use listener_hub::Hub;
use std::alloc::Global;
use std::marker::Model;

/// The parts of a book, and the hub of what its formulas read. Contracts see the book, and whether the hub is
/// spent: where an edit is refused memory, it may be, and then it is made anew before the next edit.
#[derive(Drop)]
pub struct LinkedBook {
    pub(crate) parts: BookParts,
    pub(crate) hub: Hub,
}

impl Model for LinkedBook {
    ghost use Rattle.std.specs.Coded.{codes};
    ghost use Rattle.calc_model.specs.contracts.tree.Tree as coded_tree;
    ghost use Rattle.linked_book.specs.Linked.{IsLinked, Linked};

    ghost Value = { Linked };

    ghost coded = { Prim.hlevel (codes, coded_tree.the_row.coded) };

    ghost view = { λ l. record { book = l.parts; spent = l.hub.spent } };

    ghost invariant = { λ l. IsLinked l.hub l.parts };
}

/// The hub of a book.
fn hub_of(alloc: Global, parts: &BookParts) -> Result<Hub, NoMemory>
    ensures holds { IfOk result (λ hub. HoldsReads (areas_read hub) parts.now) }
    ensures ready { IfOk result (λ hub. hub.spent ≡ false) }
{
    parts.are_book();
    let coded = parts.coded();
    listen_all(alloc, coded.codes, coded.groups, parts)
}

impl LinkedBook {
    /// The book with a hub that is made for it. It goes over all columns, and is linear in their groups.
    pub fn link(alloc: Global, parts: BookParts) -> Result<LinkedBook, NoMemory>
        ensures book { IfOk result (λ linked. linked.book ≡ parts) }
        ensures ready { IfOk result (λ linked. linked.spent ≡ false) }
    {
        let hub = hub_of(alloc, &parts)?;
        Ok(LinkedBook { parts, hub })
    }

    /// The generated book of so many rows with its hub. It costs what the setting of its cells does.
    pub fn generated(alloc: Global, start: u32, rows: u32) -> Result<LinkedBook, NoMemory>
        requires { rows ≤ MOST_GENERATED_ROWS }
        ensures book { IfOk result (λ linked. linked.book ≡ generated_book start rows) }
        ensures is { IfOk result (λ linked. IsBook linked.book) }
        ensures ready { IfOk result (λ linked. linked.spent ≡ false) }
    {
        let parts = BookParts::generated(alloc, start, rows)?;
        LinkedBook::link(alloc, parts)
    }

    /// Makes a spent hub anew. It goes over all columns, and is linear in their groups.
    pub fn mend(&mut self, alloc: Global) -> Result<(), NoMemory>
        ensures book { self.new.book ≡ self.old.book }
        ensures ready { OnOk result (self.new.spent ≡ false) }
        ensures kept { OnErr result (self.new ≡ self.old) }
    {
        if self.hub.is_spent() {
            self.hub = hub_of(alloc, &self.parts)?;
        }
        Ok(())
    }

    pub fn parts(&self) -> &BookParts
        ensures { result.now ≡ self.now.book }
    {
        &self.parts
    }

    /// A hub that holds what each formula of the book reads, beside the one that is here. It goes over all
    /// columns, and is linear in their groups.
    pub fn new_hub(&self, alloc: Global) -> Result<Hub, NoMemory>
        ensures holds { IfOk result (λ hub. HoldsReads (areas_read hub) self.now.book) }
        ensures ready { IfOk result (λ hub. hub.spent ≡ false) }
    {
        hub_of(alloc, &self.parts)
    }

    /// The hub: where it isn't spent, it holds what each formula of the book reads.
    pub fn hub(&self) -> &Hub
        ensures spent { result.now.spent ≡ self.now.spent }
        ensures holds { self.now.spent ≡ false → HoldsReads (areas_read result.now) self.now.book }
    {
        &self.hub
    }
}
