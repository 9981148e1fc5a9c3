ghost use Rattle.std.specs.Prelude.{◌≡◌, [], ◌∷◌, ◌+◌, ◌≤◌, List, replicate, vec_len, ◌<◌, ◌^◌, Some, IsSome, IfOk, OnOk, OnErr, IsOk};
ghost use Rattle.block_column.specs.Kinds.{lent_slot};
ghost use Rattle.block_column.specs.Tables.{stored_slot};
ghost use Rattle.block_column.specs.Stores.{Gives, Holds, IsReplaced, CanReplace, KeepsRoom, a_code, a_fault, a_number, a_raw, a_text, item_count, store_room, IsOneRow, HasRoom};

use crate::block::Kind;
use crate::counts::Counts;
use crate::more::More;
use crate::replace::{put_many, put_one};
use crate::slot::{Slot, SlotRef};
use calc_addr::NoMemory;
use calc_model::{CodeId, Fault, Text};
use calc_num::Num;
use paged_list::PagedList;
use std::alloc::Global;

/// The items of each kind of slot, in the order of their rows.
#[derive(Debug, Drop)]
pub(crate) struct Stores {
    pub(crate) numbers: PagedList<Num>,
    pub(crate) words: PagedList<Text>,
    pub(crate) bad: PagedList<Fault>,
    pub(crate) raw: PagedList<Text>,
    pub(crate) codes: PagedList<CodeId>,
}

/// The item of a slot, by its kind.
#[derive(Drop)]
struct Item {
    number: Option<Num>,
    words: Option<Text>,
    bad: Option<Fault>,
    raw: Option<Text>,
    code: Option<CodeId>,
}

impl Item {
    fn of(slot: Slot) -> Item
        ensures number { result.number ≡ a_number slot }
        ensures words { result.words ≡ a_text slot }
        ensures bad { result.bad ≡ a_fault slot }
        ensures raw { result.raw ≡ a_raw slot }
        ensures code { result.code ≡ a_code slot }
    {
        let mut item = Item {
            number: None,
            words: None,
            bad: None,
            raw: None,
            code: None,
        };
        match slot {
            Slot::Empty => {}
            Slot::Number(number) => item.number = Some(number),
            Slot::Words(text) => item.words = Some(text),
            Slot::Bad(fault) => item.bad = Some(fault),
            Slot::Raw(text) => item.raw = Some(text),
            Slot::Formula(id) => item.code = Some(id),
        }
        item
    }
}

impl Stores {
    pub(crate) fn new(alloc: Global) -> Stores
        ensures { Holds result [] }
    {
        Stores {
            numbers: PagedList::new(alloc),
            words: PagedList::new(alloc),
            bad: PagedList::new(alloc),
            raw: PagedList::new(alloc),
            codes: PagedList::new(alloc),
        }
    }

    /// How many items there are.
    pub(crate) fn len(&self) -> u64
        requires { item_count self.now < 2 ^ 31 }
        ensures { result ≡ item_count self.now }
    {
        let texts = self.words.len() as u64 + self.raw.len() as u64;
        let others = self.bad.len() as u64 + self.codes.len() as u64;
        self.numbers.len() as u64 + texts + others
    }

    /// Room for n more items of any kind.
    pub(crate) fn reserve(&mut self, n: usize) -> Result<(), NoMemory>
        ensures room { OnOk result (n ≤ store_room self.new) }
        ensures kept { KeepsRoom self.old self.new }
        ensures succeeds { n ≤ store_room self.old → IsOk result }
    {
        self.numbers.reserve(n)?;
        self.words.reserve(n)?;
        self.bad.reserve(n)?;
        self.raw.reserve(n)?;
        self.codes.reserve(n)
    }

    /// Room for more items, kind by kind.
    pub(crate) fn make_room(&mut self, more: &More) -> Result<(), NoMemory>
        ensures room { OnOk result (HasRoom self.new more.now) }
        ensures kept { KeepsRoom self.old self.new }
        ensures succeeds { Gives more.now [] → IsOk result }
    {
        self.numbers.reserve(more.numbers.len())?;
        self.words.reserve(more.words.len())?;
        self.bad.reserve(more.bad.len())?;
        self.raw.reserve(more.raw.len())?;
        self.codes.reserve(more.codes.len())
    }

    /// Puts the item of a slot in the place of the one from the low places to the high ones.
    pub(crate) fn put(&mut self, low: Counts, high: Counts, slot: Slot)
        requires within { CanReplace self.old low high }
        requires one { IsOneRow low high }
        requires room { 1 ≤ store_room self.old }
        ensures items { IsReplaced self.old self.new low high (slot ∷ []) }
        ensures room { store_room self.old ≤ store_room self.new + 1 }
    {
        let item = Item::of(slot);
        put_one(
            &mut self.numbers,
            low.numbers as usize,
            high.numbers as usize,
            item.number,
        );
        put_one(
            &mut self.words,
            low.words as usize,
            high.words as usize,
            item.words,
        );
        put_one(&mut self.bad, low.bad as usize, high.bad as usize, item.bad);
        put_one(&mut self.raw, low.raw as usize, high.raw as usize, item.raw);
        put_one(
            &mut self.codes,
            low.codes as usize,
            high.codes as usize,
            item.code,
        );
    }

    /// Puts items in the place of those from the low places to the high ones.
    pub(crate) fn replace(&mut self, low: Counts, high: Counts, more: More)
        requires within { CanReplace self.old low high }
        requires room { HasRoom self.old more }
        ensures items { (s : List Slot) → Gives more s → IsReplaced self.old self.new low high s }
        ensures room { Gives more [] → store_room self.old ≤ store_room self.new }
    {
        put_many(
            &mut self.numbers,
            low.numbers as usize,
            high.numbers as usize,
            more.numbers,
        );
        put_many(
            &mut self.words,
            low.words as usize,
            high.words as usize,
            more.words,
        );
        put_many(&mut self.bad, low.bad as usize, high.bad as usize, more.bad);
        put_many(&mut self.raw, low.raw as usize, high.raw as usize, more.raw);
        put_many(
            &mut self.codes,
            low.codes as usize,
            high.codes as usize,
            more.codes,
        );
    }

    /// The slot of a kind with the item at a place.
    pub(crate) fn lend(&self, kind: Kind, at: Counts) -> SlotRef<'_>
        requires { IsSome (stored_slot self.now kind at) }
        ensures { stored_slot self.now kind at ≡ Some (lent_slot result) }
    {
        match kind {
            Kind::Empty => SlotRef::Empty,
            Kind::Number => SlotRef::Number(*self.numbers.get(at.numbers as usize)),
            Kind::Words => SlotRef::Words(self.words.get(at.words as usize)),
            Kind::Bad => SlotRef::Bad(*self.bad.get(at.bad as usize)),
            Kind::Raw => SlotRef::Raw(self.raw.get(at.raw as usize)),
            Kind::Formula => SlotRef::Formula(*self.codes.get(at.codes as usize)),
        }
    }
}
