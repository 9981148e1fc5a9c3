ghost use Rattle.std.specs.Prelude.{◌≡◌, ◌≤◌, ◌<◌, ◌+◌, ◌-◌, ◌^◌, ◌++◌, [], ◌∷◌, length, map, drop, take, Option, Some, vec_len, ℕ, ◌*◌, IfOk, OnOk, OnErr, IsOk, slice_get};
ghost use Rattle.std.specs.List.{All};
ghost use Rattle.std.specs.Option.{option_map};
ghost use Rattle.std.specs.Vec.{vec_capacity};
ghost use Rattle.calc_addr.specs.declared.cell.TheConstants.{LAST_ROW};
ghost use Rattle.run_tables.specs.Edges.{HasSmallRows};
ghost use Rattle.run_tables.specs.Rows.{IsRowEdit, rows_erased, rows_inserted, spliced};
ghost use Rattle.run_tables.specs.Runs.{Rises, runs_of};
ghost use Rattle.block_column.specs.Kinds.{kind_of, lent_slot, same_kind};
ghost use Rattle.block_column.specs.Counting.{no_items, tally};
ghost use Rattle.block_column.specs.Blocks.{block_kinds, block_run, counts_from};
ghost use Rattle.block_column.specs.Tables.{AreBlocks, HasPlaces, HasRow, IsAtRow, IsColumn, IsTable, IsTableOf, no_slots, room_of, slots_of};

use crate::block::{Block, Kind};
use crate::counts::Counts;
use crate::more::More;
use crate::slot::{Slot, SlotRef};
use crate::stores::Stores;
use calc_addr::{LAST_ROW, NoMemory};
use run_tables::{first_past, splice};
use std::alloc::{AllocError, Global};

/// How many places an edit of a table may take.
pub(crate) const PLACES: usize = 3;

/// A block of a kind, wherever it lies.
fn key_of(kind: Kind) -> Option<Block>
    ensures { option_map (λ b. b.kind) result ≡ Some kind }
{
    Some(Block {
        first: 1,
        last: 1,
        kind,
    })
}

/// Counts the items in front of each block. It is linear in the blocks.
fn recount(blocks: &[Block], counts: &mut Vec<Counts>)
    requires in_order { Rises 1 (map block_run blocks.now) }
    requires small { All (λ b. HasSmallRows (block_run b)) blocks.now }
    requires room { length blocks.now ≤ vec_capacity counts.old }
    ensures items { counts.new.items ≡ counts_from no_items blocks.now }
    ensures len { vec_len counts.new ≡ length blocks.now }
    ensures capacity { vec_capacity counts.new ≡ vec_capacity counts.old }
{
    counts.clear();
    let mut here = Counts::none();
    for block in blocks {
        counts.push_reserved(here);
        here = here.with(block.kind, block.last + 1 - block.first);
    }
}

/// Puts `rows` rows of a kind in the place of those from the one behind `from` to `to`. It is
/// linear in the blocks.
pub(crate) fn edit_blocks(
    blocks: &mut Vec<Block>,
    counts: &mut Vec<Counts>,
    from: u32,
    to: u32,
    rows: u32,
    kind: Kind,
) -> Result<(), NoMemory>
    requires blocks { AreBlocks blocks.old.items }
    requires order { from ≤ to }
    requires to { to ≤ length (block_kinds blocks.old.items) }
    requires rows { from + rows + (length (block_kinds blocks.old.items) - to) ≤ LAST_ROW }
    requires places { vec_len counts.old ≡ vec_len blocks.old }
    ensures ok { OnOk result (map block_run blocks.new.items ≡ runs_of same_kind
        (spliced from to rows (Some kind) (map Some (block_kinds blocks.old.items)))) }
    ensures counts { OnOk result (counts.new.items ≡ counts_from no_items blocks.new.items) }
    ensures places { vec_len counts.new ≡ vec_len blocks.new }
    ensures err { OnErr result (blocks.new.items ≡ blocks.old.items) }
    ensures err_counts { OnErr result (counts.new.items ≡ counts.old.items) }
    ensures len { vec_len blocks.new ≤ vec_len blocks.old + PLACES }
    ensures capacity { vec_capacity blocks.old ≤ vec_capacity blocks.new }
    ensures counts_capacity { vec_capacity counts.old ≤ vec_capacity counts.new }
    ensures succeeds { vec_len blocks.old + PLACES ≤ vec_capacity blocks.old
        → vec_len blocks.old + PLACES ≤ vec_capacity counts.old → IsOk result }
{
    counts.reserve(PLACES)?;
    splice(blocks, from, to, rows, key_of(kind))?;
    recount(blocks, counts);
    Ok(())
}

/// As `edit_blocks` for one row, which has a block of the old kind. Where the kinds are equal,
/// nothing is done.
fn edit_row(
    blocks: &mut Vec<Block>,
    counts: &mut Vec<Counts>,
    row: u32,
    old: Kind,
    kind: Kind,
) -> Result<(), NoMemory>
    requires blocks { AreBlocks blocks.old.items }
    requires row { 1 ≤ row }
    requires within { row ≤ length (block_kinds blocks.old.items) }
    requires old { slice_get (block_kinds blocks.old.items) (row - 1) ≡ Some old }
    requires counted { counts.old.items ≡ counts_from no_items blocks.old.items }
    requires places { vec_len counts.old ≡ vec_len blocks.old }
    ensures ok { OnOk result (map block_run blocks.new.items ≡ runs_of same_kind
        (spliced (row - 1) row 1 (Some kind) (map Some (block_kinds blocks.old.items)))) }
    ensures counts { OnOk result (counts.new.items ≡ counts_from no_items blocks.new.items) }
    ensures places { vec_len counts.new ≡ vec_len blocks.new }
    ensures err { OnErr result (blocks.new.items ≡ blocks.old.items) }
    ensures err_counts { OnErr result (counts.new.items ≡ counts.old.items) }
    ensures len { vec_len blocks.new ≤ vec_len blocks.old + PLACES }
    ensures capacity { vec_capacity blocks.old ≤ vec_capacity blocks.new }
    ensures counts_capacity { vec_capacity counts.old ≤ vec_capacity counts.new }
    ensures succeeds { vec_len blocks.old + PLACES ≤ vec_capacity blocks.old
        → vec_len blocks.old + PLACES ≤ vec_capacity counts.old → IsOk result }
{
    if old.is(kind) {
        return Ok(());
    }
    edit_blocks(blocks, counts, row - 1, row, 1, kind)
}

/// The blocks of a column, how many items lie in front of each, and the items.
#[derive(Debug, Drop)]
pub(crate) struct Table {
    pub(crate) blocks: Vec<Block>,
    pub(crate) counts: Vec<Counts>,
    pub(crate) stores: Stores,
}

impl Table {
    /// A table of empty rows alone.
    pub(crate) fn new(alloc: Global) -> Result<Table, NoMemory>
        ensures { IfOk result (λ t. IsTableOf t no_slots) }
    {
        let mut blocks = Vec::new(alloc);
        blocks.push(Block {
            first: 1,
            last: LAST_ROW,
            kind: Kind::Empty,
        })?;
        let mut counts = Vec::new(alloc);
        counts.push(Counts::none())?;
        Ok(Table {
            blocks,
            counts,
            stores: Stores::new(alloc),
        })
    }

    /// Room for the setting or clearing of n rows.
    pub(crate) fn reserve(&mut self, n: usize) -> Result<(), NoMemory>
        requires table { IsTable self.old }
        ensures room { OnOk result (n ≤ room_of self.new) }
        ensures table { IsTableOf self.new (slots_of self.old) }
    {
        self.reserve_places(n)?;
        self.stores.reserve(n)
    }

    /// Room for n edits of the blocks, but not of the items.
    pub(crate) fn reserve_places(&mut self, n: usize) -> Result<(), NoMemory>
        requires table { IsTable self.old }
        ensures places { OnOk result (HasPlaces (n * PLACES) self.new) }
        ensures table { IsTableOf self.new (slots_of self.old) }
        ensures stores { self.new.stores ≡ self.old.stores }
    {
        let places = n.checked_mul(PLACES).ok_or(AllocError)?;
        self.blocks.reserve(places)?;
        self.counts.reserve(places)
    }

    /// The block of a row, and what lies in front of it.
    fn block_at(&self, row: u32) -> (Block, Counts)
        requires table { IsTable self.now }
        requires row { HasRow (slots_of self.now) row }
        ensures { IsAtRow row (slots_of self.now) result.0 result.1 }
    {
        let place = first_past(&self.blocks, row) - 1;
        (self.blocks[place], self.counts[place])
    }

    /// How many items the first rows have.
    fn ahead(&self, rows: u32) -> Counts
        requires table { IsTable self.now }
        requires rows { rows ≤ length (slots_of self.now) }
        ensures { result ≡ tally (take rows (slots_of self.now)) }
    {
        if rows == 0 {
            return Counts::none();
        }
        let (block, counts) = self.block_at(rows);
        counts.with(block.kind, rows + 1 - block.first)
    }

    /// The slot of a row.
    pub(crate) fn get(&self, row: u32) -> SlotRef<'_>
        requires table { IsTable self.now }
        requires row { HasRow (slots_of self.now) row }
        ensures { slice_get (slots_of self.now) (row - 1) ≡ Some (lent_slot result) }
    {
        let (block, counts) = self.block_at(row);
        self.stores
            .lend(block.kind, counts.with(block.kind, row - block.first))
    }

    /// Puts a slot in a row.
    pub(crate) fn put(&mut self, row: u32, slot: Slot) -> Result<(), NoMemory>
        requires table { IsTable self.old }
        requires row { HasRow (slots_of self.old) row }
        ensures ok { OnOk result (IsTableOf self.new
            (spliced (row - 1) row 1 slot (slots_of self.old))) }
        ensures err { OnErr result (IsTableOf self.new (slots_of self.old)) }
        ensures reserved { 1 ≤ room_of self.old → IsOk result }
        ensures room { OnOk result (room_of self.old ≤ room_of self.new + 1) }
    {
        let (block, counts) = self.block_at(row);
        let low = counts.with(block.kind, row - block.first);
        let high = low.with(block.kind, 1);
        self.stores.reserve(1)?;
        edit_row(
            &mut self.blocks,
            &mut self.counts,
            row,
            block.kind,
            slot.kind(),
        )?;
        self.stores.put(low, high, slot);
        Ok(())
    }

    /// Puts `rows` rows that hold a slot in the place of those from the one behind `from` to `to`.
    pub(crate) fn fill(
        &mut self,
        alloc: Global,
        from: u32,
        to: u32,
        rows: u32,
        slot: &Slot,
    ) -> Result<(), NoMemory>
        requires table { IsTable self.old }
        requires order { from ≤ to }
        requires to { to ≤ length (slots_of self.old) }
        requires rows { from + rows + (length (slots_of self.old) - to) ≤ LAST_ROW }
        ensures ok { OnOk result (IsTableOf self.new
            (spliced from to rows slot.now (slots_of self.old))) }
        ensures err { OnErr result (IsTableOf self.new (slots_of self.old)) }
        ensures reserved { slot.now ≡ Slot.Empty → HasPlaces PLACES self.old → IsOk result }
        ensures room { OnOk result (slot.now ≡ Slot.Empty
            → room_of self.old ≤ room_of self.new + 1) }
        ensures places { (n : ℕ) → HasPlaces (n + PLACES) self.old → HasPlaces n self.new }
    {
        let more = More::of_rows(alloc, rows as usize, slot)?;
        let low = self.ahead(from);
        let high = self.ahead(to);
        self.stores.make_room(&more)?;
        edit_blocks(
            &mut self.blocks,
            &mut self.counts,
            from,
            to,
            rows,
            slot.kind(),
        )?;
        self.stores.replace(low, high, more);
        Ok(())
    }

    /// Takes out rows behind the first ones, and then puts in as many empty ones behind others.
    fn move_rows(&mut self, alloc: Global, cut: u32, gap: u32, count: u32) -> Result<(), NoMemory>
        requires column { IsColumn self.old }
        requires cut { cut + count ≤ LAST_ROW }
        requires gap { gap + count ≤ LAST_ROW }
        ensures ok { OnOk result (IsTableOf self.new (spliced gap gap count Slot.Empty
            (spliced cut (cut + count) 0 Slot.Empty (slots_of self.old)))) }
        ensures err { OnErr result (IsTableOf self.new (slots_of self.old)) }
    {
        self.reserve_places(2)?;
        self.fill(alloc, cut, cut + count, 0, &Slot::Empty)?;
        self.fill(alloc, gap, gap, count, &Slot::Empty)
    }

    /// Puts in empty rows from a place on, and drops as many at the end.
    pub(crate) fn insert_rows(
        &mut self,
        alloc: Global,
        place: u32,
        count: u32,
    ) -> Result<(), NoMemory>
        requires column { IsColumn self.old }
        requires edit { IsRowEdit place count }
        ensures ok { OnOk result (IsTableOf self.new
            (rows_inserted (place - 1) count Slot.Empty (slots_of self.old))) }
        ensures err { OnErr result (IsTableOf self.new (slots_of self.old)) }
    {
        self.move_rows(alloc, LAST_ROW - count, place - 1, count)
    }

    /// Takes out rows from a place on, and adds as many empty ones at the end.
    pub(crate) fn erase_rows(
        &mut self,
        alloc: Global,
        place: u32,
        count: u32,
    ) -> Result<(), NoMemory>
        requires column { IsColumn self.old }
        requires edit { IsRowEdit place count }
        ensures ok { OnOk result (IsTableOf self.new
            (rows_erased (place - 1) count Slot.Empty (slots_of self.old))) }
        ensures err { OnErr result (IsTableOf self.new (slots_of self.old)) }
    {
        self.move_rows(alloc, place - 1, LAST_ROW - count, count)
    }
}
