ghost use Rattle.std.specs.Prelude.{◌≡◌, ◌++◌, ◌+◌, ◌≤◌, length, take, drop, vec_len};
ghost use Rattle.std.specs.Option.{option_to_list};

use paged_list::{PagedList, Plain};

/// Puts an item or none in the place of the one from `low` to `high`, or of none.
pub(crate) fn put_one<T: Plain>(store: &mut PagedList<T>, low: usize, high: usize, item: Option<T>)
    requires order { low ≤ high }
    requires one { high ≤ low + 1 }
    requires within { high ≤ length store.old.items }
    requires room { 1 ≤ store.old.room }
    ensures items { store.new.items
        ≡ take low store.old.items ++ (option_to_list item ++ drop high store.old.items) }
    ensures room { store.old.room ≤ store.new.room + 1 }
{
    match item {
        None => {
            if low < high {
                store.remove(low);
            }
        }
        Some(item) => {
            if low < high {
                store.replace(low, item);
            } else {
                store.insert(low, item);
            }
        }
    }
}

/// Puts items in the place of those from `low` to `high`.
pub(crate) fn put_many<T: Plain>(store: &mut PagedList<T>, low: usize, high: usize, more: Vec<T>)
    requires order { low ≤ high }
    requires within { high ≤ length store.old.items }
    requires room { vec_len more ≤ store.old.room }
    ensures items { store.new.items
        ≡ take low store.old.items ++ (more.items ++ drop high store.old.items) }
    ensures room { store.old.room ≤ store.new.room + vec_len more }
{
    store.cut(low, high);
    store.insert_all(low, more);
}
