ghost use Rattle.std.specs.Prelude.{◌≡◌, ◌∷◌, ◌++◌, ◌*◌, ◌+◌, ◌-◌, ◌<◌, ◌≤◌, ◌/◌, ℕ, length, take, drop, insert, remove, get_or, vec_len, OnOk, OnErr};
ghost use Rattle.paged_list.specs.Pages.{AreFull, HasPlace, KeepsShape, Packed, PageItems, Roomy, flat, places_for, put_behind};

use crate::page::{PAGE, Page};
use std::alloc::{AllocError, Global};

/// Puts an item in at a place of the first page and passes on the last item of each, up to the end.
/// The one that is left belongs at a place of the page behind them.
pub(crate) fn push_through<T: Drop>(
    pages: &mut [Page<T>],
    first: usize,
    end: usize,
    at: usize,
    item: T,
) -> (usize, T)
    requires order { first ≤ end }
    requires within { end ≤ length pages.old }
    requires full { AreFull pages.old first end }
    requires at { at ≤ PAGE }
    ensures items { put_behind pages.new end result.0 result.1 ≡ put_behind pages.old first at item }
    ensures shape { KeepsShape pages.old pages.new }
    ensures at { result.0 ≤ at }
    ensures turned { first < end → result.0 ≡ 0 }
{
    let mut at = at;
    let mut item = item;
    for k in first..end {
        item = pages[k].squeeze(at, item);
        at = 0;
    }
    (at, item)
}

/// Takes out the first item of the first page, and the last page's first item of all goes to the page
/// in front of it.
pub(crate) fn pull_through<T: Drop>(pages: &mut [Page<T>], first: usize, last: usize) -> T
    requires order { first ≤ last }
    requires within { last < length pages.old }
    requires full { AreFull pages.old first last }
    requires some { (d : PageItems T) → 1 ≤ length (get_or pages.old last d).items }
    ensures items { flat (take first pages.new) ++ result ∷ flat (drop first pages.new)
        ≡ flat pages.old }
    ensures front { (k : ℕ) (d : PageItems T) → k < last
        → length (get_or pages.new k d).items ≡ length (get_or pages.old k d).items }
    ensures capacities { (k : ℕ) (d : PageItems T)
        → (get_or pages.old k d).capacity ≤ (get_or pages.new k d).capacity }
    ensures pages { length pages.new ≡ length pages.old }
    ensures fewer { (n : ℕ) → Packed n pages.old → last * PAGE < n → n ≤ last * PAGE + PAGE
        → Packed (n - 1) pages.new }
    ensures roomy { (c : ℕ) → Roomy c pages.old → Roomy c pages.new }
{
    let mut item = pages[last].remove(0);
    let mut k = last;
    while k > first {
        k -= 1;
        item = pages[k].pull(item);
    }
    item
}

/// Puts an item in.
pub(crate) fn insert_at<T: Drop>(pages: &mut [Page<T>], len: usize, at: usize, item: T)
    requires at { at ≤ len }
    requires packed { Packed len pages.old }
    requires place { HasPlace pages.old len }
    ensures items { flat pages.new ≡ insert (flat pages.old) at item }
    ensures pages { length pages.new ≡ length pages.old }
    ensures packed { Packed (len + 1) pages.new }
    ensures roomy { (c : ℕ) → Roomy c pages.old → Roomy c pages.new }
{
    let last = len / PAGE;
    let (place, item) = push_through(pages, at / PAGE, last, at % PAGE, item);
    pages[last].insert(place, item);
}

/// Takes an item out.
pub(crate) fn remove_at<T: Drop>(pages: &mut [Page<T>], len: usize, at: usize)
    requires at { at < len }
    requires packed { Packed len pages.old }
    requires full { AreFull pages.old 0 ((len - 1) / PAGE) }
    ensures items { flat pages.new ≡ remove (flat pages.old) at }
    ensures pages { length pages.new ≡ length pages.old }
    ensures packed { Packed (len - 1) pages.new }
    ensures roomy { (c : ℕ) → Roomy c pages.old → Roomy c pages.new }
{
    let page = at / PAGE;
    let last = (len - 1) / PAGE;
    if page == last {
        pages[page].remove(at % PAGE);
    } else {
        let item = pull_through(pages, page + 1, last);
        pages[page].turn(at % PAGE, item);
    }
}

/// At least so many pages.
fn add_pages<T: Drop>(
    alloc: Global,
    pages: &mut Vec<Page<T>>,
    count: usize,
) -> Result<(), AllocError>
    ensures items { flat pages.new.items ≡ flat pages.old.items }
    ensures packed { (n : ℕ) → Packed n pages.old.items → Packed n pages.new.items }
    ensures roomy { (c : ℕ) → Roomy c pages.old.items → Roomy c pages.new.items }
    ensures ok { OnOk result (count ≤ vec_len pages.new) }
{
    let have = pages.len();
    if have < count {
        pages.reserve(count - have)?;
        for _ in have..count {
            pages.push_reserved(Page::new(alloc));
        }
    }
    Ok(())
}

/// The places of a page, where it and those behind it are to hold so many items.
fn places_for(items: usize) -> usize
    ensures { result ≡ places_for items }
{
    items.min(PAGE)
}

/// Makes the pages able to hold so many items.
fn widen<T: Drop>(pages: &mut [Page<T>], capacity: usize) -> Result<(), AllocError>
    requires { capacity ≤ length pages.old * PAGE }
    ensures items { flat pages.new ≡ flat pages.old }
    ensures shape { KeepsShape pages.old pages.new }
    ensures ok { OnOk result (Roomy capacity pages.new) }
{
    let mut left = capacity;
    for k in 0..pages.len() {
        pages[k].reserve(places_for(left))?;
        left = left.saturating_sub(PAGE);
    }
    Ok(())
}

/// Pages that can hold so many items.
pub(crate) fn make_room<T: Drop>(
    alloc: Global,
    pages: &mut Vec<Page<T>>,
    capacity: usize,
) -> Result<(), AllocError>
    ensures items { flat pages.new.items ≡ flat pages.old.items }
    ensures packed { (n : ℕ) → Packed n pages.old.items → Packed n pages.new.items }
    ensures roomy { (c : ℕ) → Roomy c pages.old.items → Roomy c pages.new.items }
    ensures ok { OnOk result (Roomy capacity pages.new.items) }
{
    add_pages(alloc, pages, capacity / PAGE + 1)?;
    widen(pages, capacity)
}
