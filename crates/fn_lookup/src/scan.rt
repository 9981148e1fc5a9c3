//! Searches along the values of a line of cells, a piece at a time.
ghost use Rattle.std.specs.Prelude.{◌≡◌, ◌+◌, ◌≤◌, ◌<◌, false, fold, int_lt, length, map, position, None, IfSome};
ghost use Rattle.std.specs.List.{position_or_len};
ghost use Rattle.std.specs.Ordering.{int_cmp, is_eq};
ghost use Rattle.calc_model.specs.Meanings.{values_in};
ghost use Rattle.calc_model.specs.Search.{place_by};
ghost use Rattle.calc_model.specs.UsedCells.{values_of};
ghost use Rattle.calc_model.specs.declared.value.Value.TheVariants as value;
ghost use Rattle.fn_args.specs.Lent.{wanted_value};
ghost use Rattle.fn_args.specs.Tallies.{MOST_IN_AREA};
ghost use Rattle.fn_lookup.specs.Scans.{fits, is_past, search_of, with_order, with_run, with_value};

use calc_addr::Area;
use calc_model::{Piece, Values};
use calc_num::Num;
use fn_args::{Pieces, Wanted, lies_in_sheet, order_in_kind, small};
use std::cmp::Ordering;

/// The order in which a search takes the cells to stand.
#[derive(Clone, Copy)]
pub(crate) enum Search {
    Exact,
    Ascending,
    Descending,
}

impl Search {
    /// That of a type: exact for 0, ascending above and descending below.
    fn of(number: i64) -> Search
        ensures { result ≡ search_of number }
    {
        if number == 0 {
            Search::Exact
        } else if number > 0 {
            Search::Ascending
        } else {
            Search::Descending
        }
    }

    /// Whether a cell that compares so with the sought value can be found.
    fn fits(self, order: Ordering) -> bool
        ensures { result ≡ fits self order }
    {
        match self {
            Search::Exact => order.is_eq(),
            Search::Ascending => order.is_le(),
            Search::Descending => order.is_ge(),
        }
    }

    /// Whether no cell behind one that compares so can be found.
    fn is_past(self, order: Ordering) -> bool
        ensures { result ≡ is_past self order }
    {
        match self {
            Search::Exact => order.is_eq(),
            Search::Ascending => order.is_gt(),
            Search::Descending => order.is_lt(),
        }
    }
}

/// A search on its way: how many cells it has passed, the last place found, and whether it can find no other.
#[derive(Drop)]
pub(crate) struct Scan {
    place: usize,
    found: Option<usize>,
    ended: bool,
}

impl Scan {
    /// One that has passed no cell.
    fn new() -> Scan
        ensures { result ≡ record { place = 0; found = None; ended = false } }
    {
        Scan {
            place: 0,
            found: None,
            ended: false,
        }
    }

    /// Takes the values of a piece, up to the one that ends the search.
    fn take(&mut self, piece: &Piece<'_>, search: Search, sought: &Wanted<'_>)
        requires running { self.old.ended ≡ false }
        requires room { self.old.place + length (values_of piece.now) ≤ MOST_IN_AREA }
        ensures { self.new ≡ fold (with_value search (wanted_value sought.now)) self.old
            (values_of piece.now) }
    {
        match piece {
            Piece::Small { items } => match sought {
                Wanted::Number(number) => self.take_numbers(items, search, *number),
                Wanted::Words(_bytes) => self.pass(items.len()),
            },
            Piece::Blank { count } => self.pass(*count as usize),
            Piece::One(seen) => self.take_one(search, order_in_kind(seen, sought)),
        }
    }

    /// Takes one value, by how it compares with the sought one if it is of its kind.
    fn take_one(&mut self, search: Search, order: Option<Ordering>)
        requires running { self.old.ended ≡ false }
        requires room { self.old.place + 1 ≤ MOST_IN_AREA }
        ensures { self.new ≡ with_order search self.old order }
    {
        if let Some(order) = order {
            if search.fits(order) {
                self.found = Some(self.place);
            }
            self.ended = search.is_past(order);
        }
        self.place += 1;
    }

    /// Passes so many values that aren't of the sought kind.
    fn pass(&mut self, count: usize)
        requires room { self.old.place + count ≤ MOST_IN_AREA }
        ensures { self.new ≡ record self.old { place = self.old.place + count } }
    {
        self.place += count;
    }

    /// Takes the numbers with these raw numbers, up to the one that ends the search.
    fn take_numbers(&mut self, items: &[i64], search: Search, sought: Num)
        requires running { self.old.ended ≡ false }
        requires room { self.old.place + length items.now ≤ MOST_IN_AREA }
        ensures { self.new ≡ fold (with_value search (value.Number sought)) self.old
            (map value.Number items.now) }
    {
        let count = first_past(items, search, sought);
        self.take_run(search, count);
        if count < items.len() {
            let order = order_of(small(items[count]), sought);
            self.take_one(search, Some(order));
        }
    }

    /// Takes so many numbers that don't end the search.
    fn take_run(&mut self, search: Search, count: usize)
        requires running { self.old.ended ≡ false }
        requires room { self.old.place + count ≤ MOST_IN_AREA }
        ensures { self.new ≡ with_run search self.old count }
    {
        match search {
            Search::Exact => {}
            _ => {
                if count > 0 {
                    self.found = Some(self.place + count - 1);
                }
            }
        }
        self.place += count;
    }
}

fn order_of(number: Num, sought: Num) -> Ordering
    ensures { result ≡ int_cmp number sought }
{
    number.raw().cmp(&sought.raw())
}

/// Where the first number stands that ends a search, or how many they are.
fn first_past(items: &[i64], search: Search, sought: Num) -> usize
    ensures { result ≡ position_or_len (λ n. is_past search (int_cmp n sought)) items.now }
{
    place_past(items, search, sought).unwrap_or(items.len())
}

/// Where the first number stands that ends a search.
fn place_past(items: &[i64], search: Search, sought: Num) -> Option<usize>
    ensures { result ≡ position (λ n. is_past search (int_cmp n sought)) items.now }
{
    match i64::try_from(sought.raw()) {
        Ok(sought) => small_place_past(items, search, sought),
        Err(_) => wide_place_past(items, search, sought),
    }
}

/// The same for a sought number of 64 bits.
fn small_place_past(items: &[i64], search: Search, sought: i64) -> Option<usize>
    ensures { result ≡ position (λ n. is_past search (int_cmp n sought)) items.now }
{
    match search {
        Search::Exact => place_equal(items, sought),
        Search::Ascending => place_above(items, sought),
        Search::Descending => place_below(items, sought),
    }
}

fn place_equal(items: &[i64], sought: i64) -> Option<usize>
    ensures { result ≡ position (λ n. is_eq (int_cmp n sought)) items.now }
{
    items.iter().position(|item| item.cmp(&sought).is_eq())
}

fn place_above(items: &[i64], sought: i64) -> Option<usize>
    ensures { result ≡ position (λ n. int_lt sought n) items.now }
{
    items.iter().position(|item| *item > sought)
}

fn place_below(items: &[i64], sought: i64) -> Option<usize>
    ensures { result ≡ position (λ n. int_lt n sought) items.now }
{
    items.iter().position(|item| *item < sought)
}

/// The same for a sought number of any size.
fn wide_place_past(items: &[i64], search: Search, sought: Num) -> Option<usize>
    ensures { result ≡ position (λ n. is_past search (int_cmp n sought)) items.now }
{
    items.iter().position(|item| search.is_past(i128::from(*item).cmp(&sought.raw())))
}

/// The place in a line of cells that a search of a type finds, counted from 0.
pub(crate) fn place_in<V: Values>(
    line: Area,
    number: i64,
    sought: &Wanted<'_>,
    values: &V,
) -> Option<usize>
    ensures place { result ≡ place_by number (wanted_value sought.now)
        (values_in (V.values values.now) line) }
    ensures within { IfSome result (λ place.
        place < length (values_in (V.values values.now) line)) }
    ensures few { length (values_in (V.values values.now) line) ≤ MOST_IN_AREA }
{
    lies_in_sheet(line);
    let search = Search::of(number);
    let mut scan = Scan::new();
    for piece in Pieces::of(line, values) {
        scan.take(&piece, search, sought);
        if scan.ended {
            return scan.found;
        }
    }
    scan.found
}
