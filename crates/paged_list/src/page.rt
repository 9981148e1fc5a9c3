ghost use Rattle.std.specs.Prelude.{◌≡◌, [], ◌∷◌, ◌++◌, ◌<◌, ◌≤◌, length, insert, remove, OnOk, IsOk, slice_index_or, slice_set};
ghost use Rattle.paged_list.specs.Pages.{PageItems};

use std::alloc::{AllocError, Global};
use std::collections::VecDeque;
use std::marker::Model;
use std::mem::replace;

/// How many items a full page has.
pub const PAGE: usize = 4096;

/// Neighbouring items of a list, in a ring.
#[derive(Debug, Drop)]
pub(crate) struct Page<T> {
    items: VecDeque<T>,
}

impl<T> Model for Page<T> {
    ghost use Rattle.std.specs.VecDeque.{deque_capacity};
    ghost use Rattle.paged_list.specs.Pages.{PageItems, page_code};

    ghost Value = { PageItems T };

    ghost coded = { page_code T.code };

    ghost view = { λ p. record { items = p.items.items; capacity = deque_capacity p.items } };
}

impl<T: Drop> Page<T> {
    pub(crate) fn new(alloc: Global) -> Page<T>
        ensures { result.items ≡ [] }
    {
        Page {
            items: VecDeque::new(alloc),
        }
    }

    pub(crate) fn get(&self, at: usize) -> &T
        requires { at < length self.now.items }
        ensures { result.now ≡ slice_index_or self.now.items at result.now }
    {
        &self.items[at]
    }

    /// Makes it able to hold so many items.
    pub(crate) fn reserve(&mut self, places: usize) -> Result<(), AllocError>
        ensures items { self.new.items ≡ self.old.items }
        ensures capacity { self.old.capacity ≤ self.new.capacity }
        ensures ok { OnOk result (places ≤ self.new.capacity) }
        ensures succeeds { places ≤ self.old.capacity → IsOk result }
    {
        let have = self.items.len();
        self.items.reserve(places.saturating_sub(have))
    }

    /// Puts an item in the place of another, which it gives.
    pub(crate) fn replace(&mut self, at: usize, item: T) -> T
        requires { at < length self.old.items }
        ensures item { result ≡ slice_index_or self.old.items at result }
        ensures items { self.new.items ≡ slice_set self.old.items at item }
        ensures capacity { self.new.capacity ≡ self.old.capacity }
    {
        replace(&mut self.items[at], item)
    }

    /// Puts an item in. It is linear in the items.
    pub(crate) fn insert(&mut self, at: usize, item: T)
        requires at { at ≤ length self.old.items }
        requires room { length self.old.items < self.old.capacity }
        ensures items { self.new.items ≡ insert self.old.items at item }
        ensures capacity { self.old.capacity ≤ self.new.capacity }
    {
        let _ = self.items.insert(at, item);
    }

    /// Takes an item out. It is linear in the items.
    pub(crate) fn remove(&mut self, at: usize) -> T
        requires { at < length self.old.items }
        ensures item { result ≡ slice_index_or self.old.items at result }
        ensures items { self.new.items ≡ remove self.old.items at }
        ensures capacity { self.new.capacity ≡ self.old.capacity }
    {
        match self.items.remove(at) {
            Some(item) => item,
            None => unreachable!(),
        }
    }

    /// Takes the last item out.
    fn pop(&mut self) -> T
        requires { 1 ≤ length self.old.items }
        ensures items { self.new.items ++ result ∷ [] ≡ self.old.items }
        ensures capacity { self.new.capacity ≡ self.old.capacity }
    {
        match self.items.pop_back() {
            Some(item) => item,
            None => unreachable!(),
        }
    }

    /// Puts an item in and takes the last one out. It is linear in the items, but in front of all.
    pub(crate) fn squeeze(&mut self, at: usize, item: T) -> T
        requires at { at ≤ length self.old.items }
        requires some { 1 ≤ length self.old.items }
        requires room { length self.old.items ≤ self.old.capacity }
        ensures items { self.new.items ++ result ∷ [] ≡ insert self.old.items at item }
        ensures capacity { self.old.capacity ≤ self.new.capacity }
    {
        if at == self.items.len() {
            return item;
        }
        let last = self.pop();
        self.insert(at, item);
        last
    }

    /// Takes the first item out and puts one at the end. It takes constant time.
    pub(crate) fn pull(&mut self, item: T) -> T
        requires some { 1 ≤ length self.old.items }
        requires room { length self.old.items ≤ self.old.capacity }
        ensures items { result ∷ self.new.items ≡ self.old.items ++ item ∷ [] }
        ensures capacity { self.new.capacity ≡ self.old.capacity }
    {
        match self.items.pop_front() {
            Some(first) => {
                self.items.push_back_reserved(item);
                first
            }
            None => unreachable!(),
        }
    }

    /// Takes an item out and puts one at the end. It is linear in the items.
    pub(crate) fn turn(&mut self, at: usize, item: T)
        requires at { at < length self.old.items }
        requires room { length self.old.items ≤ self.old.capacity }
        ensures items { self.new.items ≡ remove self.old.items at ++ item ∷ [] }
        ensures capacity { self.old.capacity ≤ self.new.capacity }
    {
        self.remove(at);
        let end = self.items.len();
        self.insert(end, item);
    }
}
