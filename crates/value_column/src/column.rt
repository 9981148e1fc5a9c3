ghost use Rattle.std.specs.Prelude.{◌≡◌, ◌≢◌, ◌≤◌, ◌<◌, ℕ, ◌+◌, ◌-◌, length, map, pos, take, drop, Some, IfOk, OnOk, OnErr, IsOk, slice_get, slice_index_or, slice_set, vec_len};
ghost use Rattle.calc_addr.specs.declared.cell.TheConstants.{LAST_ROW};
ghost use Rattle.run_tables.specs.Rows.{AreRows, IsRowEdit, rows_erased, rows_inserted, rows_set};
ghost use Rattle.calc_model.specs.UsedCells.{values_of};
ghost use Rattle.calc_model.specs.ValueTexts.{lent};
ghost use Rattle.calc_model.specs.declared.value.Value.TheVariants as value;
ghost use Rattle.value_column.specs.Spans.{span_first, span_kind, span_values};
ghost use Rattle.value_column.specs.Rows.{value_tag};
ghost use Rattle.value_column.specs.ValueRows.{IsRun, no_values, run_set};

use crate::item::Item;
use crate::lane::Tag;
use crate::lanes::Lanes;
use crate::span::ValueSpan;
use crate::spans::Spans;
use calc_addr::NoMemory;
use calc_model::{Piece, Seen, Value};
use std::alloc::Global;
use std::marker::Model;

/// What the rows of a column show. Contracts see the value of each row, row 1 first, and how many
/// single rows can be set or cleared before memory is asked for.
#[derive(Debug, Drop)]
pub struct ValueColumn {
    alloc: Global,
    lanes: Lanes,
}

impl Model for ValueColumn {
    ghost use Rattle.value_column.specs.Spans.{span_first, span_values};
    ghost use Rattle.value_column.specs.ValueRows.{ValueRows};

    ghost Value = { ValueRows };

    ghost use Rattle.value_column.specs.Rows.{AreLanes, column_of, spare_of};

    ghost view = { λ c. record { values = column_of c.lanes; spare = spare_of c.lanes } };

    ghost invariant = { λ c. AreLanes c.lanes };
}

impl ValueColumn {
    /// A column that shows nothing, which takes no memory.
    pub fn new(alloc: Global) -> Result<ValueColumn, NoMemory>
        ensures { IfOk result (λ c. c.values ≡ no_values) }
    {
        Ok(ValueColumn {
            alloc,
            lanes: Lanes::new(alloc),
        })
    }

    /// Makes room for the setting or clearing of n rows: as many as a sheet has, where n isn't 0.
    pub fn reserve(&mut self, n: usize) -> Result<(), NoMemory>
        ensures room { OnOk result (n ≤ self.new.spare) }
        ensures values { self.new.values ≡ self.old.values }
    {
        if n == 0 {
            return Ok(());
        }
        self.lanes.reserve()
    }

    /// Makes a row show a value. It takes constant time, but for rows that weren't reached before.
    pub fn set(&mut self, row: u32, value: Value) -> Result<(), NoMemory>
        requires { AreRows row row }
        ensures ok { OnOk result (self.new.values ≡ slice_set self.old.values (row - 1) value) }
        ensures rows { length self.old.values ≡ LAST_ROW }
        ensures err { OnErr result (self.new.values ≡ self.old.values) }
        ensures reserved { 1 ≤ self.old.spare → IsOk result }
        ensures spare { OnOk result (self.old.spare ≤ self.new.spare + 1) }
    {
        let item = Item::of(value);
        let alloc = self.alloc;
        self.lanes.put(alloc, row as usize - 1, item)
    }

    /// Makes neighbouring rows show the numbers of these raw numbers. It is linear in these.
    pub fn set_small(&mut self, first: u32, items: &[i64]) -> Result<(), NoMemory>
        requires { IsRun first (length items.now) }
        ensures ok { OnOk result (self.new.values
            ≡ run_set (first - 1) (map value.Number items.now) self.old.values) }
        ensures err { OnErr result (self.new.values ≡ self.old.values) }
    {
        let alloc = self.alloc;
        self.lanes.put_small(alloc, first as usize - 1, items)
    }

    /// Makes neighbouring rows show values. It is linear in these.
    pub fn set_run(&mut self, first: u32, values: Vec<Value>) -> Result<(), NoMemory>
        requires { IsRun first (vec_len values) }
        ensures ok { OnOk result (self.new.values
            ≡ run_set (first - 1) values.items self.old.values) }
        ensures rows { length self.old.values ≡ LAST_ROW }
        ensures err { OnErr result (self.new.values ≡ self.old.values) }
    {
        let alloc = self.alloc;
        self.lanes.put_run(alloc, first as usize - 1, values)
    }

    /// Makes neighbouring rows blank. It is linear in these, and takes no memory.
    pub fn clear(&mut self, first: u32, last: u32) -> Result<(), NoMemory>
        requires { AreRows first last }
        ensures ok { OnOk result (self.new.values
            ≡ rows_set (first - 1) (last + 1 - first) value.Blank self.old.values) }
        ensures rows { length self.old.values ≡ LAST_ROW }
        ensures err { OnErr result (self.new.values ≡ self.old.values) }
        ensures reserved { 1 ≤ self.old.spare → IsOk result }
        ensures spare { OnOk result (self.old.spare ≤ self.new.spare + 1) }
    {
        self.lanes.clear(first as usize - 1, last as usize);
        Ok(())
    }

    /// Puts in blank rows from a place on, and drops as many at the end with what they show. It is
    /// linear in the rows behind the place.
    pub fn insert_empty(&mut self, place: u32, count: u32) -> Result<(), NoMemory>
        requires { IsRowEdit place count }
        ensures ok { OnOk result (self.new.values
            ≡ rows_inserted (place - 1) count value.Blank self.old.values) }
        ensures err { OnErr result (self.new.values ≡ self.old.values) }
    {
        let alloc = self.alloc;
        self.lanes.open(alloc, place as usize - 1, count as usize)
    }

    /// Takes out rows from a place on with what they show, and adds as many blank ones at the end.
    /// It is linear in the rows behind the place, and takes no memory.
    pub fn erase(&mut self, place: u32, count: u32) -> Result<(), NoMemory>
        requires { IsRowEdit place count }
        ensures ok { OnOk result (self.new.values
            ≡ rows_erased (place - 1) count value.Blank self.old.values) }
        ensures err { OnErr result (self.new.values ≡ self.old.values) }
    {
        self.lanes.close(place as usize - 1, count as usize);
        Ok(())
    }

    /// What a row shows. It takes constant time.
    pub fn look(&self, row: u32) -> Seen<'_>
        requires { AreRows row row }
        ensures { slice_get self.now.values (row - 1) ≡ Some (lent result) }
    {
        self.lanes.look(row as usize - 1)
    }

    /// What the first of some rows show: small numbers, blank rows or one value.
    pub fn piece(&self, first: u32, last: u32) -> Piece<'_>
        requires { AreRows first last }
        ensures some { 1 ≤ length (values_of result) }
        ensures within { first + length (values_of result) ≤ last + 1 }
        ensures rows { (k : ℕ) → k < length (values_of result)
            → slice_index_or (values_of result) k value.Blank
            ≡ slice_index_or self.now.values (first - 1 + k) value.Blank }
    {
        self.lanes.piece(first as usize - 1, last as usize)
    }

    /// The first span of some rows, which lends its list. Who walks them goes on behind it.
    pub fn span(&self, first: u32, last: u32) -> ValueSpan<'_>
        requires { AreRows first last }
        ensures first { span_first result ≡ first }
        ensures some { 1 ≤ length (span_values result) }
        ensures within { first + length (span_values result) ≤ last + 1 }
        ensures rows { (k : ℕ) → k < length (span_values result)
            → slice_index_or (span_values result) k value.Blank
            ≡ slice_index_or self.now.values (first - 1 + k) value.Blank }
        ensures kinds { (k : ℕ) → k < length (span_values result)
            → value_tag (slice_index_or (span_values result) k value.Blank) ≡ span_kind result }
        ensures longest { first + length (span_values result) < last + 1
            → value_tag (slice_index_or self.now.values
            (first - 1 + length (span_values result)) value.Blank) ≢ span_kind result }
    {
        self.lanes.span(first as usize - 1, last as usize)
    }

    /// The spans of some rows, downwards. Each is as long as its kind goes on.
    pub fn spans(&self, first: u32, last: u32) -> Spans<'_>
        requires { AreRows first last }
        ensures first { result.first ≡ first }
        ensures values { result.values
            ≡ take (last + 1 - first) (drop (first - 1) self.entry.now.values) }
    {
        Spans::of(&self.lanes, first as usize - 1, last as usize)
    }

    /// A row behind which each is blank.
    pub(crate) fn reach(&self) -> u32
        ensures { (r : ℕ) → result ≤ r
            → slice_index_or self.now.values r value.Blank ≡ value.Blank }
    {
        self.lanes.tags.len() as u32
    }
}
