ghost use Rattle.std.specs.Prelude.{◌≡◌, [], ◌∷◌, ◌++◌, ◌+◌, ◌<◌, ◌≤◌, length, insert, remove, OnOk, IsOk, slice_index_or, slice_set};

use crate::page::{PAGE, Page};
use crate::plain::Plain;
use crate::through::{insert_at, make_room, remove_at};
use std::alloc::{AllocError, Global};
use std::marker::Model;

/// A list of items in pages of 4,096, of which all are full but the last that has any. Contracts see
/// its items, and how many can be put in before memory is asked for.
#[derive(Debug, Drop)]
pub struct PagedList<T> {
    alloc: Global,
    pages: Vec<Page<T>>,
    len: usize,
    capacity: usize,
}

impl<T> Model for PagedList<T> {
    ghost use Rattle.std.specs.Prelude.{◌-◌};
    ghost use Rattle.paged_list.specs.Pages.{ArePages, Listed, flat, listed_code};

    ghost Value = { Listed T };

    ghost coded = { listed_code T.code };

    ghost view = { λ l. record { items = flat l.pages.items; room = l.capacity - l.len } };

    ghost invariant = { λ l. ArePages l.pages.items l.len l.capacity };
}

impl<T: Plain> PagedList<T> {
    /// A list without items, which takes no memory.
    pub fn new(alloc: Global) -> PagedList<T>
        ensures { result.items ≡ [] }
    {
        PagedList {
            alloc,
            pages: Vec::new(alloc),
            len: 0,
            capacity: 0,
        }
    }

    pub(crate) fn alloc(&self) -> Global {
        self.alloc
    }

    pub fn len(&self) -> usize
        ensures { result ≡ length self.now.items }
    {
        self.len
    }

    /// An item. It takes constant time.
    pub fn get(&self, at: usize) -> &T
        requires { at < length self.now.items }
        ensures { result.now ≡ slice_index_or self.now.items at result.now }
    {
        self.pages[at / PAGE].get(at % PAGE)
    }

    /// Puts an item in the place of another, which it gives. It takes constant time.
    pub fn replace(&mut self, at: usize, item: T) -> T
        requires { at < length self.old.items }
        ensures item { result ≡ slice_index_or self.old.items at result }
        ensures items { self.new.items ≡ slice_set self.old.items at item }
        ensures room { self.new.room ≡ self.old.room }
    {
        self.pages[at / PAGE].replace(at % PAGE, item)
    }

    /// Room for n more items.
    pub fn reserve(&mut self, n: usize) -> Result<(), AllocError>
        ensures items { self.new.items ≡ self.old.items }
        ensures ok { OnOk result (n ≤ self.new.room) }
        ensures room { self.old.room ≤ self.new.room }
        ensures succeeds { n ≤ self.old.room → IsOk result }
    {
        if n <= self.capacity - self.len {
            return Ok(());
        }
        let needed = self.len.checked_add(n).ok_or(AllocError)?;
        let capacity = needed.max(self.capacity.saturating_add(self.capacity.min(PAGE)));
        make_room(self.alloc, &mut self.pages, capacity)?;
        self.capacity = capacity;
        Ok(())
    }

    /// Puts an item in where there is room. It is linear in a page and in the pages behind it.
    pub fn insert(&mut self, at: usize, item: T)
        requires at { at ≤ length self.old.items }
        requires room { 1 ≤ self.old.room }
        ensures items { self.new.items ≡ insert self.old.items at item }
        ensures room { self.old.room ≤ self.new.room + 1 }
    {
        insert_at(&mut self.pages, self.len, at, item);
        self.len += 1;
    }

    /// Takes an item out. It is linear in a page and in the pages behind it.
    pub fn remove(&mut self, at: usize)
        requires at { at < length self.old.items }
        ensures items { self.new.items ≡ remove self.old.items at }
        ensures room { self.old.room ≤ self.new.room }
    {
        remove_at(&mut self.pages, self.len, at);
        self.len -= 1;
    }
}
