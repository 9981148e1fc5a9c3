ghost use Rattle.std.specs.Prelude.{◌≡◌, ℕ, ◌≤◌, ◌<◌, ◌+◌, ◌-◌, ◌++◌, take, drop, replicate, max, min, vec_len, OnOk, OnErr, IsOk, slice_index_or};
ghost use Rattle.std.specs.Vec.{vec_capacity};
ghost use Rattle.calc_addr.specs.declared.cell.TheConstants.{LAST_ROW};
ghost use Rattle.value_column.specs.Lanes.{Same, closed, opened};

use calc_addr::{LAST_ROW, NoMemory};
use calc_model::{Fault, Text};
use std::alloc::Global;

/// An item of a lane, with one that stands in rows where none was put.
pub(crate) trait Plain: Drop {
    ghost plain: { Self };

    fn plain(alloc: Global) -> Self
        ensures { result ≡ plain };
}

/// What a row shows.
#[derive(Clone, Copy, Debug, PartialEq, Eq)]
pub(crate) enum Tag {
    Blank,
    Small,
    Wide,
    Words,
    Bad,
}

impl Plain for Tag {
    ghost use Rattle.value_column.specs.declared.lane.Tag.TheVariants.{Blank};

    ghost plain = { Blank };

    fn plain(_alloc: Global) -> Tag {
        Tag::Blank
    }
}

impl Plain for i64 {
    ghost use Rattle.std.specs.Prelude.{pos};

    ghost plain = { pos 0 };

    fn plain(_alloc: Global) -> i64 {
        0
    }
}

// An item that needs more than 64 bits, as the others of its lane.
impl Plain for i128 {
    ghost use Rattle.std.specs.Prelude.{pos, ◌^◌};

    ghost plain = { pos (2 ^ 63) };

    fn plain(_alloc: Global) -> i128 {
        9_223_372_036_854_775_808
    }
}

impl Plain for Text {
    ghost use Rattle.std.specs.Prelude.{[]};

    ghost plain = { [] };

    fn plain(alloc: Global) -> Text {
        Text::new(alloc)
    }
}

impl Plain for Fault {
    ghost use Rattle.calc_model.specs.declared.fault.Fault.TheVariants.{NA};

    ghost plain = { NA };

    fn plain(_alloc: Global) -> Fault {
        Fault::NA
    }
}

/// Room for so many rows.
pub(crate) fn make_room<T>(lane: &mut Vec<T>, rows: usize) -> Result<(), NoMemory>
    ensures items { lane.new.items ≡ lane.old.items }
    ensures len { vec_len lane.new ≡ vec_len lane.old }
    ensures capacity { vec_capacity lane.old ≤ vec_capacity lane.new }
    ensures ok { OnOk result (rows ≤ vec_capacity lane.new) }
{
    lane.reserve(rows.saturating_sub(lane.len()))
}

/// Makes a lane at least so long.
pub(crate) fn grow<T: Plain>(alloc: Global, lane: &mut Vec<T>, len: usize) -> Result<(), NoMemory>
    ensures same { Same T.plain lane.old.items lane.new.items }
    ensures ok { OnOk result (len ≤ vec_len lane.new) }
    ensures longer { vec_len lane.old ≤ vec_len lane.new }
    ensures most { vec_len lane.new ≤ max (vec_len lane.old) len }
    ensures capacity { vec_capacity lane.old ≤ vec_capacity lane.new }
    ensures succeeds { len ≤ vec_capacity lane.old → IsOk result }
{
    let have = lane.len();
    if have < len {
        lane.reserve(len - have)?;
        for _ in have..len {
            lane.push_reserved(T::plain(alloc));
        }
    }
    Ok(())
}

/// Room for rows that are put in.
pub(crate) fn room_to_open<T>(lane: &mut Vec<T>, from: usize, count: usize) -> Result<(), NoMemory>
    requires { from + count ≤ LAST_ROW }
    ensures items { lane.new.items ≡ lane.old.items }
    ensures len { vec_len lane.new ≡ vec_len lane.old }
    ensures capacity { vec_capacity lane.old ≤ vec_capacity lane.new }
    ensures ok { OnOk result (from < vec_len lane.old
        → min (vec_len lane.old) (LAST_ROW - count) + count ≤ vec_capacity lane.new) }
{
    let len = lane.len();
    if from < len {
        let wanted = len.min(LAST_ROW as usize - count) + count;
        lane.reserve(wanted.saturating_sub(len))?;
    }
    Ok(())
}

/// Puts plain items in, in front of a place.
fn put_plain<T: Plain>(alloc: Global, lane: &mut Vec<T>, from: usize, count: usize)
    requires within { from ≤ vec_len lane.old }
    requires room { vec_len lane.old + count ≤ vec_capacity lane.old }
    ensures items { lane.new.items ≡ take from lane.old.items
        ++ (replicate count T.plain ++ drop from lane.old.items) }
    ensures len { vec_len lane.new ≡ vec_len lane.old + count }
    ensures capacity { vec_capacity lane.new ≡ vec_capacity lane.old }
{
    for _ in 0..count {
        lane.push_reserved(T::plain(alloc));
    }
    lane[from..].rotate_right(count);
}

/// Puts in rows with plain items, and drops those past the last row of a sheet.
pub(crate) fn open_rows<T: Plain>(alloc: Global, lane: &mut Vec<T>, from: usize, count: usize)
    requires within { from + count ≤ LAST_ROW }
    requires room { from < vec_len lane.old
        → min (vec_len lane.old) (LAST_ROW - count) + count ≤ vec_capacity lane.old }
    ensures items { (r : ℕ) → r < LAST_ROW → slice_index_or lane.new.items r T.plain
        ≡ opened from count T.plain (λ q. slice_index_or lane.old.items q T.plain) r }
    ensures most { vec_len lane.new ≤ LAST_ROW }
    ensures front { (r : ℕ) → r < from → r < vec_len lane.old → r < vec_len lane.new }
    ensures back { (r : ℕ) → r + count < LAST_ROW → from ≤ r → r < vec_len lane.old
        → r + count < vec_len lane.new }
    ensures capacity { vec_capacity lane.new ≡ vec_capacity lane.old }
{
    lane.truncate(LAST_ROW as usize - count);
    if from < lane.len() {
        put_plain(alloc, lane, from, count);
    }
}

/// Takes out rows.
pub(crate) fn close_rows<T: Plain>(lane: &mut Vec<T>, from: usize, count: usize)
    requires { from + count ≤ LAST_ROW }
    ensures items { (r : ℕ) → slice_index_or lane.new.items r T.plain
        ≡ closed from count (λ q. slice_index_or lane.old.items q T.plain) r }
    ensures len { vec_len lane.new ≡ min (vec_len lane.old) (max from (vec_len lane.old - count)) }
    ensures capacity { vec_capacity lane.new ≡ vec_capacity lane.old }
{
    let len = lane.len();
    if from < len {
        let gone = (len - from).min(count);
        lane[from..].rotate_left(gone);
        lane.truncate(len - gone);
    }
}
