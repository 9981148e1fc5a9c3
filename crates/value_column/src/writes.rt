ghost use Rattle.std.specs.Prelude.{◌≡◌, ◌≢◌, ℕ, ◌≤◌, ◌<◌, ◌+◌, ◌-◌, length, pos, vec_len, OnOk, OnErr, IsOk, slice_index_or};
ghost use Rattle.calc_addr.specs.declared.cell.TheConstants.{LAST_ROW};
ghost use Rattle.calc_model.specs.declared.value.Value.TheVariants as value;
ghost use Rattle.value_column.specs.Rows.{AreLanes, AreReady, HasRoom, IsItem, IsLonger, IsOpenTo, item_value, value_at, written};

use crate::item::{Item, tag_for};
use crate::lane::{Tag, grow, make_room};
use crate::lanes::{Lanes, put_items, put_tags};
use calc_addr::NoMemory;
use calc_model::Value;
use std::alloc::Global;

impl Lanes {
    /// Makes a row show an item.
    pub(crate) fn put(&mut self, alloc: Global, row: usize, item: Item) -> Result<(), NoMemory>
        requires lanes { AreLanes self.old }
        requires row { row < LAST_ROW }
        requires item { IsItem item }
        ensures lanes { AreLanes self.new }
        ensures at { OnOk result (value_at self.new row ≡ item_value item) }
        ensures other { OnOk result ((r : ℕ) → r ≢ row
            → value_at self.new r ≡ value_at self.old r) }
        ensures err { OnErr result ((r : ℕ) → value_at self.new r ≡ value_at self.old r) }
        ensures reserved { HasRoom self.old → IsOk result }
        ensures longer { IsLonger self.old self.new }
    {
        self.ready(alloc, row, item.tag())?;
        self.write(row, item);
        Ok(())
    }

    /// Makes the lanes of small numbers reach a row, with room up to an end.
    fn ready_small(&mut self, alloc: Global, from: usize, end: usize) -> Result<(), NoMemory>
        requires lanes { AreLanes self.old }
        requires order { from ≤ end }
        requires within { end ≤ LAST_ROW }
        ensures lanes { AreLanes self.new }
        ensures same { (r : ℕ) → value_at self.new r ≡ value_at self.old r }
        ensures ok { OnOk result (IsOpenTo self.new from end) }
    {
        make_room(&mut self.tags, end)?;
        make_room(&mut self.small, end)?;
        grow(alloc, &mut self.tags, from)?;
        grow(alloc, &mut self.small, from)
    }

    /// Makes neighbouring rows show small numbers.
    pub(crate) fn put_small(
        &mut self,
        alloc: Global,
        from: usize,
        items: &[i64],
    ) -> Result<(), NoMemory>
        requires lanes { AreLanes self.old }
        requires within { from + length items.now ≤ LAST_ROW }
        ensures lanes { AreLanes self.new }
        ensures ok { OnOk result ((r : ℕ) → value_at self.new r
            ≡ written from (length items.now)
            (λ k. value.Number (slice_index_or items.now k (pos 0))) (value_at self.old) r) }
        ensures err { OnErr result ((r : ℕ) → value_at self.new r ≡ value_at self.old r) }
    {
        let end = from + items.len();
        self.ready_small(alloc, from, end)?;
        put_items(&mut self.small, from, items);
        put_tags(&mut self.tags, from, end, Tag::Small);
        Ok(())
    }

    /// Makes the lanes reach neighbouring rows that are to show values.
    fn ready_run(&mut self, alloc: Global, from: usize, values: &[Value]) -> Result<(), NoMemory>
        requires lanes { AreLanes self.old }
        requires within { from + length values.now ≤ LAST_ROW }
        ensures lanes { AreLanes self.new }
        ensures same { (r : ℕ) → value_at self.new r ≡ value_at self.old r }
        ensures ok { OnOk result (AreReady self.new from values.now (length values.now)) }
    {
        let mut row = from;
        for value in values {
            self.ready(alloc, row, tag_for(value))?;
            row += 1;
        }
        Ok(())
    }

    /// Makes neighbouring rows show values.
    pub(crate) fn put_run(
        &mut self,
        alloc: Global,
        from: usize,
        mut values: Vec<Value>,
    ) -> Result<(), NoMemory>
        requires lanes { AreLanes self.old }
        requires within { from + vec_len values ≤ LAST_ROW }
        ensures lanes { AreLanes self.new }
        ensures ok { OnOk result ((r : ℕ) → value_at self.new r
            ≡ written from (vec_len values)
            (λ k. slice_index_or values.items k value.Blank) (value_at self.old) r) }
        ensures err { OnErr result ((r : ℕ) → value_at self.new r ≡ value_at self.old r) }
    {
        self.ready_run(alloc, from, values.as_slice())?;
        while let Some(value) = values.pop() {
            self.write(from + values.len(), Item::of(value));
        }
        Ok(())
    }
}
