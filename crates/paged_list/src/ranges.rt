ghost use Rattle.std.specs.Prelude.{◌≡◌, ◌++◌, ◌+◌, ◌-◌, ◌<◌, ◌≤◌, ℕ, length, take, drop, replicate, slice_index_or, vec_len};

use crate::list::PagedList;
use crate::plain::Plain;

/// How many items are put in or taken out one by one.
const FEW: usize = 64;

impl<T: Plain> PagedList<T> {
    /// Moves the items from `high` on to `low`. Some are left behind them.
    fn move_down(&mut self, low: usize, high: usize)
        requires order { low ≤ high }
        requires within { high ≤ length self.old.items }
        ensures len { length self.new.items ≡ length self.old.items }
        ensures items { take (length self.old.items - (high - low)) self.new.items
            ≡ take low self.old.items ++ drop high self.old.items }
        ensures room { self.new.room ≡ self.old.room }
    {
        let alloc = self.alloc();
        let count = high - low;
        for k in high..self.len() {
            let item = self.replace(k, T::plain(alloc));
            self.replace(k - count, item);
        }
    }

    /// Takes items out. It is linear in those behind them where they are many, else as `remove`.
    pub fn cut(&mut self, low: usize, high: usize)
        requires order { low ≤ high }
        requires within { high ≤ length self.old.items }
        ensures items { self.new.items ≡ take low self.old.items ++ drop high self.old.items }
        ensures room { self.old.room ≤ self.new.room }
    {
        let count = high - low;
        let mut end = high;
        if count > FEW {
            self.move_down(low, high);
            end = self.len();
        }
        for _ in 0..count {
            end -= 1;
            self.remove(end);
        }
    }

    /// Puts plain items in at the end.
    fn lengthen(&mut self, count: usize)
        requires { count ≤ self.old.room }
        ensures items { self.new.items ≡ self.old.items ++ replicate count T.plain }
        ensures room { self.old.room ≤ self.new.room + count }
    {
        let alloc = self.alloc();
        for _ in 0..count {
            self.insert(self.len(), T::plain(alloc));
        }
    }

    /// Moves the items from `low` to `end` up by so many places, in which plain items come.
    fn move_up(&mut self, low: usize, end: usize, count: usize)
        requires order { low ≤ end }
        requires within { end + count ≡ length self.old.items }
        requires plain { drop end self.old.items ≡ replicate count T.plain }
        ensures items { self.new.items ≡ take low self.old.items
            ++ (replicate count T.plain ++ drop low (take end self.old.items)) }
        ensures room { self.new.room ≡ self.old.room }
    {
        let alloc = self.alloc();
        let mut k = end;
        let mut to = self.len();
        while k > low {
            k -= 1;
            to -= 1;
            let item = self.replace(k, T::plain(alloc));
            self.replace(to, item);
        }
    }

    /// Puts plain items in. It is linear in those behind them where they are many, else as `insert`.
    pub fn spread(&mut self, at: usize, count: usize)
        requires at { at ≤ length self.old.items }
        requires room { count ≤ self.old.room }
        ensures items { self.new.items ≡ take at self.old.items
            ++ (replicate count T.plain ++ drop at self.old.items) }
        ensures room { self.old.room ≤ self.new.room + count }
    {
        let alloc = self.alloc();
        if count > FEW {
            let end = self.len();
            self.lengthen(count);
            self.move_up(at, end, count);
            return;
        }
        for _ in 0..count {
            self.insert(at, T::plain(alloc));
        }
    }

    /// Puts items in. It costs what `spread` does.
    pub fn insert_all(&mut self, at: usize, mut more: Vec<T>)
        requires at { at ≤ length self.old.items }
        requires room { vec_len more ≤ self.old.room }
        ensures items { self.new.items ≡ take at self.old.items
            ++ (more.items ++ drop at self.old.items) }
        ensures room { self.old.room ≤ self.new.room + vec_len more }
    {
        let behind = self.len() - at;
        self.spread(at, more.len());
        let mut place = self.len() - behind;
        while let Some(item) = more.pop() {
            place -= 1;
            self.replace(place, item);
        }
    }
}
