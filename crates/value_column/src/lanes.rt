ghost use Rattle.std.specs.Prelude.{◌≡◌, ◌≢◌, ℕ, ◌≤◌, ◌<◌, ◌+◌, ◌-◌, ◌++◌, take, drop, replicate, length, max, pos, true, ◌↔◌, IsTrue, vec_len, OnOk, OnErr, IsOk, List, slice_index_or};
ghost use Rattle.calc_addr.specs.declared.cell.TheConstants.{LAST_ROW};
ghost use Rattle.calc_model.specs.UsedCells.{values_of};
ghost use Rattle.calc_model.specs.ValueTexts.{lent};
ghost use Rattle.calc_model.specs.declared.value.Value.TheVariants as value;
ghost use Rattle.std.specs.Vec.{vec_capacity};
ghost use Rattle.value_column.specs.declared.lane.Tag.TheVariants as tag;
ghost use Rattle.value_column.specs.Lanes.{closed, opened};
ghost use Rattle.value_column.specs.Spans.{span_first, span_kind, span_values};
ghost use Rattle.value_column.specs.Rows.{AreLanes, HasRoom, IsItem, IsLonger, IsReady, cleared, is_small, item_value, tag_of, untagged, value_at, value_tag};

use crate::item::Item;
use crate::lane::{Tag, close_rows, grow, make_room, open_rows, room_to_open};
use crate::numbers::{number, small_number};
use crate::span::ValueSpan;
use calc_addr::{LAST_ROW, NoMemory};
use calc_model::{Fault, Piece, Seen, Text};
use std::alloc::Global;

/// What the rows show: a tag for each, and its item in the lane of the tag. The first row's number is
/// 0.
#[derive(Debug, Drop)]
pub(crate) struct Lanes {
    pub(crate) tags: Vec<Tag>,
    pub(crate) small: Vec<i64>,
    pub(crate) wide: Vec<i128>,
    pub(crate) words: Vec<Text>,
    pub(crate) bad: Vec<Fault>,
}

fn is_same(left: Tag, right: Tag) -> bool
    ensures { IsTrue result ↔ (left ≡ right) }
{
    left == right
}

/// Each of the raw numbers fits in 64 bits, as its type says.
fn are_small(items: &[i64]) -> bool
    ensures holds { IsTrue result }
    ensures small { (k : ℕ) → k < length items.now
        → is_small (slice_index_or items.now k (pos 0)) ≡ true }
{
    for k in 0..items.len() {
        let _raw = items[k];
    }
    true
}

/// Gives neighbouring rows a tag.
pub(crate) fn put_tags(tags: &mut Vec<Tag>, first: usize, end: usize, tag: Tag)
    requires order { first ≤ end }
    requires from { first ≤ vec_len tags.old }
    requires room { end ≤ vec_capacity tags.old }
    ensures tags { tags.new.items ≡ take first tags.old.items
        ++ (replicate (end - first) tag ++ drop end tags.old.items) }
    ensures len { vec_len tags.new ≡ max (vec_len tags.old) end }
    ensures capacity { vec_capacity tags.old ≤ vec_capacity tags.new }
{
    if end <= tags.len() {
        tags[first..end].fill(tag);
        return;
    }
    tags.truncate(first);
    match tags.resize(end, tag) {
        Ok(()) => {}
        Err(_) => unreachable!(),
    }
}

/// Puts items in the rows behind the first ones.
pub(crate) fn put_items(lane: &mut Vec<i64>, from: usize, items: &[i64])
    requires from { from ≤ vec_len lane.old }
    requires room { from + length items.now ≤ vec_capacity lane.old }
    ensures items { lane.new.items ≡ take from lane.old.items
        ++ (items.now ++ drop (from + length items.now) lane.old.items) }
    ensures len { vec_len lane.new ≡ max (vec_len lane.old) (from + length items.now) }
{
    let end = from + items.len();
    if end <= lane.len() {
        lane[from..end].copy_from_slice(items);
        return;
    }
    lane.truncate(from);
    match lane.extend_from_slice(items) {
        Ok(()) => {}
        Err(_) => unreachable!(),
    }
}

/// Makes the tags of rows blank.
fn clear_tags(tags: &mut Vec<Tag>, first: usize, end: usize)
    ensures tags { (r : ℕ) → slice_index_or tags.new.items r tag.Blank
        ≡ untagged first end (λ q. slice_index_or tags.old.items q tag.Blank) r }
    ensures len { vec_len tags.new ≡ vec_len tags.old }
    ensures capacity { vec_capacity tags.old ≤ vec_capacity tags.new }
{
    let end = end.min(tags.len());
    if first < end {
        put_tags(tags, first, end, Tag::Blank);
    }
}

impl Lanes {
    pub(crate) fn new(alloc: Global) -> Lanes
        ensures lanes { AreLanes result }
        ensures blank { (r : ℕ) → value_at result r ≡ value.Blank }
    {
        Lanes {
            tags: Vec::new(alloc),
            small: Vec::new(alloc),
            wide: Vec::new(alloc),
            words: Vec::new(alloc),
            bad: Vec::new(alloc),
        }
    }

    /// What a row shows.
    pub(crate) fn look(&self, row: usize) -> Seen<'_>
        requires { AreLanes self.now }
        ensures { lent result ≡ value_at self.now row }
    {
        if row >= self.tags.len() {
            return Seen::Blank;
        }
        match self.tags[row] {
            Tag::Blank => Seen::Blank,
            Tag::Small => Seen::Number(small_number(self.small[row])),
            Tag::Wide => Seen::Number(number(self.wide[row])),
            Tag::Words => Seen::Words(&self.words[row]),
            Tag::Bad => Seen::Bad(self.bad[row]),
        }
    }

    /// The tag of a row.
    pub(crate) fn tag(&self, row: usize) -> Tag
        ensures { result ≡ slice_index_or self.now.tags.items row tag.Blank }
    {
        if row < self.tags.len() {
            self.tags[row]
        } else {
            Tag::Blank
        }
    }

    /// The kind of what a row shows, which is its tag.
    fn kind(&self, row: usize) -> Tag
        requires { AreLanes self.now }
        ensures tag { result ≡ slice_index_or self.now.tags.items row tag.Blank }
        ensures value { result ≡ value_tag (value_at self.now row) }
    {
        let tag = self.tag(row);
        match tag {
            Tag::Small => {
                let _raw = self.small[row];
            }
            Tag::Blank | Tag::Wide | Tag::Words | Tag::Bad => {}
        }
        tag
    }

    /// The end of the rows from the first on that have its tag, at most `end`. It is linear in these.
    pub(crate) fn run_end(&self, first: usize, end: usize) -> usize
        requires { first < end }
        ensures some { first < result }
        ensures within { result ≤ end }
        ensures tags { (k : ℕ) → first ≤ k → k < result
            → slice_index_or self.now.tags.items k tag.Blank
            ≡ slice_index_or self.now.tags.items first tag.Blank }
        ensures longest { result < end → slice_index_or self.now.tags.items result tag.Blank
            ≢ slice_index_or self.now.tags.items first tag.Blank }
    {
        if first >= self.tags.len() {
            return end;
        }
        let tag = self.tags[first];
        let mut row = first + 1;
        while row < end && is_same(self.tag(row), tag) {
            row += 1;
        }
        row
    }

    /// The values of the first rows of some.
    pub(crate) fn piece(&self, first: usize, end: usize) -> Piece<'_>
        requires lanes { AreLanes self.now }
        requires some { first < end }
        requires within { end ≤ LAST_ROW }
        ensures some { 1 ≤ length (values_of result) }
        ensures within { first + length (values_of result) ≤ end }
        ensures rows { (k : ℕ) → k < length (values_of result)
            → slice_index_or (values_of result) k value.Blank ≡ value_at self.now (first + k) }
    {
        match self.tag(first) {
            Tag::Blank => Piece::Blank {
                count: (self.run_end(first, end) - first) as u32,
            },
            Tag::Small => Piece::Small {
                items: &self.small[first..self.run_end(first, end)],
            },
            Tag::Wide => Piece::One(self.look(first)),
            Tag::Words => Piece::One(self.look(first)),
            Tag::Bad => Piece::One(self.look(first)),
        }
    }

    /// The rows behind the first that have its tag, from there on, as a span.
    pub(crate) fn span(&self, first: usize, end: usize) -> ValueSpan<'_>
        requires lanes { AreLanes self.now }
        requires some { first < end }
        requires within { end ≤ LAST_ROW }
        ensures first { span_first result ≡ first + 1 }
        ensures some { 1 ≤ length (span_values result) }
        ensures within { first + length (span_values result) ≤ end }
        ensures rows { (k : ℕ) → k < length (span_values result)
            → slice_index_or (span_values result) k value.Blank ≡ value_at self.now (first + k) }
        ensures kinds { (k : ℕ) → k < length (span_values result)
            → value_tag (slice_index_or (span_values result) k value.Blank) ≡ span_kind result }
        ensures longest { first + length (span_values result) < end
            → value_tag (value_at self.now (first + length (span_values result)))
            ≢ span_kind result }
    {
        let to = self.run_end(first, end);
        prove!(to >= end || !is_same(self.kind(to), self.kind(first)));
        let row = first as u32 + 1;
        match self.kind(first) {
            Tag::Blank => ValueSpan::Blank {
                first: row,
                count: (to - first) as u32,
            },
            Tag::Small => {
                let items = &self.small[first..to];
                prove!(are_small(items));
                ValueSpan::Small { first: row, items }
            }
            Tag::Wide => ValueSpan::Wide {
                first: row,
                items: &self.wide[first..to],
            },
            Tag::Words => ValueSpan::Words {
                first: row,
                items: &self.words[first..to],
            },
            Tag::Bad => ValueSpan::Faults {
                first: row,
                items: &self.bad[first..to],
            },
        }
    }

    /// Room for all rows of a sheet in each lane.
    pub(crate) fn reserve(&mut self) -> Result<(), NoMemory>
        requires { AreLanes self.old }
        ensures lanes { AreLanes self.new }
        ensures same { (r : ℕ) → value_at self.new r ≡ value_at self.old r }
        ensures ok { OnOk result (HasRoom self.new) }
    {
        make_room(&mut self.tags, LAST_ROW as usize)?;
        make_room(&mut self.small, LAST_ROW as usize)?;
        make_room(&mut self.wide, LAST_ROW as usize)?;
        make_room(&mut self.words, LAST_ROW as usize)?;
        make_room(&mut self.bad, LAST_ROW as usize)
    }

    /// Makes the lanes reach a row that is to have a tag.
    pub(crate) fn ready(&mut self, alloc: Global, row: usize, tag: Tag) -> Result<(), NoMemory>
        requires lanes { AreLanes self.old }
        requires row { row < LAST_ROW }
        ensures lanes { AreLanes self.new }
        ensures same { (r : ℕ) → value_at self.new r ≡ value_at self.old r }
        ensures ok { OnOk result (IsReady self.new row tag) }
        ensures longer { IsLonger self.old self.new }
        ensures reserved { HasRoom self.old → IsOk result }
    {
        grow(alloc, &mut self.tags, row + 1)?;
        match tag {
            Tag::Blank => Ok(()),
            Tag::Small => grow(alloc, &mut self.small, row + 1),
            Tag::Wide => grow(alloc, &mut self.wide, row + 1),
            Tag::Words => grow(alloc, &mut self.words, row + 1),
            Tag::Bad => grow(alloc, &mut self.bad, row + 1),
        }
    }

    /// Makes a row show an item.
    pub(crate) fn write(&mut self, row: usize, item: Item)
        requires lanes { AreLanes self.old }
        requires item { IsItem item }
        requires ready { IsReady self.old row (tag_of item) }
        ensures lanes { AreLanes self.new }
        ensures at { value_at self.new row ≡ item_value item }
        ensures other { (r : ℕ) → r ≢ row → value_at self.new r ≡ value_at self.old r }
        ensures longer { IsLonger self.old self.new }
    {
        match item {
            Item::Blank => self.tags[row] = Tag::Blank,
            Item::Small(raw) => {
                self.small[row] = raw;
                self.tags[row] = Tag::Small;
            }
            Item::Wide(raw) => {
                self.wide[row] = raw;
                self.tags[row] = Tag::Wide;
            }
            Item::Words(text) => {
                self.words[row] = text;
                self.tags[row] = Tag::Words;
            }
            Item::Bad(fault) => {
                self.bad[row] = fault;
                self.tags[row] = Tag::Bad;
            }
        }
    }

    /// Makes rows blank, from the first to the one in front of the end.
    pub(crate) fn clear(&mut self, first: usize, end: usize)
        requires { AreLanes self.old }
        ensures lanes { AreLanes self.new }
        ensures rows { (r : ℕ) → value_at self.new r ≡ cleared first end (value_at self.old) r }
        ensures longer { IsLonger self.old self.new }
    {
        clear_tags(&mut self.tags, first, end);
    }

    /// Puts in blank rows, and drops those past the last row of a sheet.
    pub(crate) fn open(&mut self, alloc: Global, from: usize, count: usize) -> Result<(), NoMemory>
        requires lanes { AreLanes self.old }
        requires within { from + count ≤ LAST_ROW }
        ensures lanes { AreLanes self.new }
        ensures ok { OnOk result ((r : ℕ) → r < LAST_ROW
            → value_at self.new r ≡ opened from count value.Blank (value_at self.old) r) }
        ensures err { OnErr result ((r : ℕ) → value_at self.new r ≡ value_at self.old r) }
    {
        room_to_open(&mut self.tags, from, count)?;
        room_to_open(&mut self.small, from, count)?;
        room_to_open(&mut self.wide, from, count)?;
        room_to_open(&mut self.words, from, count)?;
        room_to_open(&mut self.bad, from, count)?;
        open_rows(alloc, &mut self.tags, from, count);
        open_rows(alloc, &mut self.small, from, count);
        open_rows(alloc, &mut self.wide, from, count);
        open_rows(alloc, &mut self.words, from, count);
        open_rows(alloc, &mut self.bad, from, count);
        Ok(())
    }

    /// Takes out rows.
    pub(crate) fn close(&mut self, from: usize, count: usize)
        requires lanes { AreLanes self.old }
        requires within { from + count ≤ LAST_ROW }
        ensures lanes { AreLanes self.new }
        ensures rows { (r : ℕ) → value_at self.new r ≡ closed from count (value_at self.old) r }
    {
        close_rows(&mut self.tags, from, count);
        close_rows(&mut self.small, from, count);
        close_rows(&mut self.wide, from, count);
        close_rows(&mut self.words, from, count);
        close_rows(&mut self.bad, from, count);
    }
}
