ghost use Rattle.std.specs.Prelude.{◌≡◌, ◌≤◌, ◌+◌, ◌-◌, Some, IfOk, OnOk, OnErr, IsOk, slice_get, slice_set};
ghost use Rattle.std.specs.List.{count_by};
ghost use Rattle.run_tables.specs.Rows.{AreRows, IsRowEdit, rows_erased, rows_inserted, rows_set};
ghost use Rattle.block_column.specs.Kinds.{is_filled, lent_slot};
ghost use Rattle.block_column.specs.Blocks.{blocks_of};
ghost use Rattle.block_column.specs.Tables.{no_slots};

use crate::block::Block;
use crate::slot::{Slot, SlotRef};
use crate::table::Table;
use calc_addr::NoMemory;
use std::alloc::Global;
use std::marker::Model;

/// What the rows of a column hold, kept as blocks of one kind with one store of items a kind.
/// Contracts see the slot of each row, row 1 first, and how many single rows can be set or cleared
/// before memory is asked for.
#[derive(Debug, Drop)]
pub struct BlockColumn {
    alloc: Global,
    table: Table,
}

impl Model for BlockColumn {
    ghost use Rattle.block_column.specs.SlotRows.{SlotRows};

    ghost Value = { SlotRows };

    ghost use Rattle.block_column.specs.Tables.{IsColumn, room_of, slots_of};

    ghost view = { λ c. record { slots = slots_of c.table; spare = room_of c.table } };

    ghost invariant = { λ c. IsColumn c.table };
}

impl BlockColumn {
    /// A column without contents.
    pub fn new(alloc: Global) -> Result<BlockColumn, NoMemory>
        ensures { IfOk result (λ c. c.slots ≡ no_slots) }
    {
        let table = Table::new(alloc)?;
        Ok(BlockColumn { alloc, table })
    }

    /// Makes room for the setting or clearing of n rows.
    pub fn reserve(&mut self, n: usize) -> Result<(), NoMemory>
        ensures room { OnOk result (n ≤ self.new.spare) }
        ensures slots { self.new.slots ≡ self.old.slots }
    {
        self.table.reserve(n)
    }

    /// Puts a slot in a row. Where the kind of the row changes it is linear in the blocks, and in a
    /// page of items and the pages behind it.
    pub fn set(&mut self, row: u32, slot: Slot) -> Result<(), NoMemory>
        requires { AreRows row row }
        ensures ok { OnOk result (self.new.slots ≡ slice_set self.old.slots (row - 1) slot) }
        ensures err { OnErr result (self.new.slots ≡ self.old.slots) }
        ensures reserved { 1 ≤ self.old.spare → IsOk result }
        ensures spare { OnOk result (self.old.spare ≤ self.new.spare + 1) }
    {
        self.table.put(row, slot)
    }

    /// Puts copies of a slot in neighbouring rows. It is linear in these, in the blocks, and in the
    /// items behind the rows.
    pub fn set_range(&mut self, first: u32, last: u32, slot: &Slot) -> Result<(), NoMemory>
        requires { AreRows first last }
        ensures ok { OnOk result (self.new.slots
            ≡ rows_set (first - 1) (last + 1 - first) slot.now self.old.slots) }
        ensures err { OnErr result (self.new.slots ≡ self.old.slots) }
    {
        let alloc = self.alloc;
        self.table
            .fill(alloc, first - 1, last, last + 1 - first, slot)
    }

    /// Makes neighbouring rows empty. It is linear in the blocks and in the items behind the rows.
    pub fn clear(&mut self, first: u32, last: u32) -> Result<(), NoMemory>
        requires { AreRows first last }
        ensures ok { OnOk result (self.new.slots
            ≡ rows_set (first - 1) (last + 1 - first) Slot.Empty self.old.slots) }
        ensures err { OnErr result (self.new.slots ≡ self.old.slots) }
        ensures reserved { 1 ≤ self.old.spare → IsOk result }
        ensures spare { OnOk result (self.old.spare ≤ self.new.spare + 1) }
    {
        let alloc = self.alloc;
        self.table
            .fill(alloc, first - 1, last, last + 1 - first, &Slot::Empty)
    }

    /// Puts in empty rows from a place on, and drops as many at the end with what they hold. It is
    /// linear in the blocks.
    pub fn insert_empty(&mut self, place: u32, count: u32) -> Result<(), NoMemory>
        requires { IsRowEdit place count }
        ensures ok { OnOk result (self.new.slots
            ≡ rows_inserted (place - 1) count Slot.Empty self.old.slots) }
        ensures err { OnErr result (self.new.slots ≡ self.old.slots) }
    {
        let alloc = self.alloc;
        self.table.insert_rows(alloc, place, count)
    }

    /// Takes out rows from a place on with what they hold, and adds as many empty ones at the end.
    /// It is linear in the blocks and in the items behind the place.
    pub fn erase(&mut self, place: u32, count: u32) -> Result<(), NoMemory>
        requires { IsRowEdit place count }
        ensures ok { OnOk result (self.new.slots
            ≡ rows_erased (place - 1) count Slot.Empty self.old.slots) }
        ensures err { OnErr result (self.new.slots ≡ self.old.slots) }
    {
        let alloc = self.alloc;
        self.table.erase_rows(alloc, place, count)
    }

    /// The slot of a row. It is logarithmic in the blocks.
    pub fn get(&self, row: u32) -> SlotRef<'_>
        requires { AreRows row row }
        ensures { slice_get self.now.slots (row - 1) ≡ Some (lent_slot result) }
    {
        self.table.get(row)
    }

    /// How many slots aren't empty.
    pub fn used(&self) -> u64
        ensures { result ≡ count_by is_filled self.now.slots }
    {
        self.table.stores.len()
    }

    /// All blocks in order, which the column keeps so.
    pub fn blocks(&self) -> &[Block]
        ensures { result.now ≡ blocks_of self.now.slots }
    {
        self.table.blocks.as_slice()
    }
}
