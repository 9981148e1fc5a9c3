ghost use Rattle.std.specs.Prelude.{◌≡◌, ◌≤◌, length, IsTrue, int_lt, if◌then◌else◌};
ghost use Rattle.std.specs.List.{count_by};
ghost use Rattle.std.specs.Ordering.{int_eq};
ghost use Rattle.lane_kernels.specs.declared.TheConstants.{MOST_LANES};
ghost use Rattle.lane_kernels.specs.Folds.{total, FitsLanes, least, greatest};
ghost use Rattle.lane_kernels.specs.Comparisons.{is_comparison, count_of};
ghost use Rattle.lane_kernels.specs.Choosing.{is_wanted};

use calc_model::Op;

const HALF_BITS: u32 = 32;

const LOW_HALF: i64 = 0xffff_ffff;

/// The exact sum.
pub fn sum(items: &[i64]) -> i128
    requires short { length items.now ≤ MOST_LANES }
    ensures exact { result ≡ total items.now }
    ensures range { FitsLanes (length items.now) result }
{
    // Two sums of 64 bits hold the halves of so few items, and vector code adds 64 bits.
    let mut high: i64 = 0;
    let mut low: i64 = 0;
    for item in items {
        high += *item >> HALF_BITS;
        low += *item & LOW_HALF;
    }
    i128::from(high) * (1 << HALF_BITS) + i128::from(low)
}

/// The least item. None comes exactly where there is no item.
pub fn min(items: &[i64]) -> Option<i64>
    requires short { length items.now ≤ MOST_LANES }
    ensures { result ≡ least items.now }
{
    items.iter().copied().min()
}

/// The greatest item. None comes exactly where there is no item.
pub fn max(items: &[i64]) -> Option<i64>
    requires short { length items.now ≤ MOST_LANES }
    ensures { result ≡ greatest items.now }
{
    items.iter().copied().max()
}

/// How many items, on the left, compare so with the number.
pub fn count_where(items: &[i64], op: Op, with: i64) -> usize
    requires short { length items.now ≤ MOST_LANES }
    requires comparison { IsTrue (is_comparison op) }
    ensures { result ≡ count_of op with items.now }
{
    match op {
        Op::Eq => count_equal(items, with, true),
        Op::Ne => count_equal(items, with, false),
        Op::Lt => count_less(items, with, true),
        Op::Ge => count_less(items, with, false),
        Op::Gt => count_greater(items, with, true),
        Op::Le => count_greater(items, with, false),
        _ => unreachable!(),
    }
}

/// How many items are equal to the number, or how many aren't.
fn count_equal(items: &[i64], with: i64, wanted: bool) -> usize
    ensures { result ≡ count_by (λ item. is_wanted wanted (int_eq item with)) items.now }
{
    let mut count = 0;
    for item in items {
        count += one_if(*item == with, wanted);
    }
    count
}

/// How many items are less than the number, or how many aren't.
fn count_less(items: &[i64], with: i64, wanted: bool) -> usize
    ensures { result ≡ count_by (λ item. is_wanted wanted (int_lt item with)) items.now }
{
    let mut count = 0;
    for item in items {
        count += one_if(*item < with, wanted);
    }
    count
}

/// How many items are greater than the number, or how many aren't.
fn count_greater(items: &[i64], with: i64, wanted: bool) -> usize
    ensures { result ≡ count_by (λ item. is_wanted wanted (int_lt with item)) items.now }
{
    let mut count = 0;
    for item in items {
        count += one_if(*item > with, wanted);
    }
    count
}

/// A number without a branch, so that the loops above become vector code.
fn one_if(answer: bool, wanted: bool) -> usize
    ensures { result ≡ (if is_wanted wanted answer then 1 else 0) }
{
    if answer == wanted { 1 } else { 0 }
}
