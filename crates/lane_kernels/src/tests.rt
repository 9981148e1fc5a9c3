//! The kernels as they are compiled, against plain loops: at lengths about those of vectors, with the ends of
//! i64 at each place.
ghost use Rattle.std.specs.Prelude.{◌≡◌, ◌≤◌, ◌+◌, length, IsTrue};
ghost use Rattle.lane_kernels.specs.Comparisons.{is_comparison};
ghost use Rattle.lane_kernels.specs.declared.TheConstants.{MOST_LANES};

use crate::{Crossed, Kernels, Lanes, MOST_LANES, ONE};
use calc_model::Op;
use std::alloc::{AllocError, Global};
use std::test::Fail;

const LENGTHS: [usize; 8] = [0, 1, 7, 8, 9, 255, 256, 257];

/// Small numbers of both signs, of which some are equal.
fn fill(items: &mut [i64], step: usize) {
    for place in 0..items.len() {
        items[place] = (place.wrapping_mul(step) % 5) as i64 - 2;
    }
}

/// Whether a sum or a difference is that of a plain loop.
fn combines(sign: i128, a: &[i64], b: &[i64], got: Result<(), Crossed>, out: &[i64]) -> bool
    requires paired { length b.now ≡ length a.now }
    requires room { length out.now ≡ length a.now }
{
    for lane in 0..a.len() {
        let exact = (a[lane] as i128).wrapping_add(sign.wrapping_mul(b[lane] as i128));
        if exact < i64::MIN as i128 || exact > i64::MAX as i128 {
            return got == Err(Crossed { lane });
        }
        if out[lane] as i128 != exact {
            return false;
        }
    }
    got == Ok(())
}

fn holds(op: Op, left: i64, right: i64) -> bool {
    match op {
        Op::Eq => left == right,
        Op::Ne => left != right,
        Op::Lt => left < right,
        Op::Le => left <= right,
        Op::Gt => left > right,
        Op::Ge => left >= right,
        _ => false,
    }
}

/// Whether a comparison, and the count of the items that stand so to 1, are those of a plain loop.
fn compares(lanes: &mut Lanes, a: &[i64], b: &[i64], op: Op, out: &mut [i64]) -> bool
    requires short { length a.now ≤ MOST_LANES }
    requires paired { length b.now ≡ length a.now }
    requires room { length out.old ≡ length a.now }
    requires comparison { IsTrue (is_comparison op) }
{
    let found = lanes.count_where(a, op, 1);
    lanes.compare(a, b, op, out);
    let mut count: usize = 0;
    for lane in 0..a.len() {
        if out[lane] != if holds(op, a[lane], b[lane]) { ONE } else { 0 } {
            return false;
        }
        count = count.wrapping_add(if holds(op, a[lane], 1) { 1 } else { 0 });
    }
    count == found
}

/// Whether the kernels of the lanes' slices are plain loops.
fn lanes_agree(lanes: &mut Lanes, a: &[i64], b: &[i64], out: &mut [i64]) -> bool
    requires short { length a.now ≤ MOST_LANES }
    requires paired { length b.now ≡ length a.now }
    requires room { length out.old ≡ length a.now }
{
    let added = lanes.add(a, b, out);
    let mut agree = combines(1, a, b, added, out);
    let subtracted = lanes.sub(a, b, out);
    agree &= combines(-1, a, b, subtracted, out);
    lanes.select(a, b, a, out);
    for lane in 0..a.len() {
        agree &= out[lane] == if a[lane] != 0 { b[lane] } else { a[lane] };
    }
    agree
        && compares(lanes, a, b, Op::Eq, out)
        && compares(lanes, a, b, Op::Ne, out)
        && compares(lanes, a, b, Op::Lt, out)
        && compares(lanes, a, b, Op::Le, out)
        && compares(lanes, a, b, Op::Gt, out)
        && compares(lanes, a, b, Op::Ge, out)
}

/// Whether the sums, the least and the greatest item, and the sums of the windows are those of plain loops.
fn folds_agree(lanes: &mut Lanes, items: &[i64], width: usize, windows: &mut [i128]) -> bool
    requires short { length items.now ≤ MOST_LANES }
    requires wide { 1 ≤ width }
    requires room { length windows.old + width ≡ length items.now + 1 }
{
    let mut total: i128 = 0;
    let mut least = i64::MAX;
    let mut greatest = i64::MIN;
    for item in items {
        total = total.wrapping_add(*item as i128);
        least = if *item < least { *item } else { least };
        greatest = if *item > greatest { *item } else { greatest };
    }
    let ends = if items.is_empty() {
        (None, None)
    } else {
        (Some(least), Some(greatest))
    };
    lanes.window_sums(items, width, windows);
    let mut agree = lanes.sum(items) == total && (lanes.min(items), lanes.max(items)) == ends;
    for begin in 0..windows.len() {
        let mut window: i128 = 0;
        for item in &items[begin..begin + width] {
            window = window.wrapping_add(*item as i128);
        }
        agree &= windows[begin] == window;
    }
    agree
}

/// Whether all kernels are plain loops at this length, with the ends of i64 at a place and the next one.
fn agree_at(
    lanes: &mut Lanes,
    alloc: Global,
    length: usize,
    place: usize,
) -> Result<bool, AllocError>
    requires { length ≤ MOST_LANES }
{
    let mut a = vec![in alloc; 0; length]?;
    let mut b = vec![in alloc; 0; length]?;
    let mut out = vec![in alloc; 0; length]?;
    fill(&mut a, 2);
    fill(&mut b, 3);
    let mut agree = lanes_agree(lanes, &a, &b, &mut out);
    for (left, right) in [
        (i64::MAX, 1),
        (i64::MIN, -1),
        (i64::MIN, i64::MAX),
        (i64::MIN, i64::MIN),
    ] {
        for lane in place..length.min(place.saturating_add(2)) {
            a[lane] = left;
            b[lane] = right;
        }
        agree &= lanes_agree(lanes, &a, &b, &mut out);
    }
    if length > 0 {
        let mut windows = vec![in alloc; 0; length]?;
        agree &= folds_agree(lanes, &a, 1, &mut windows);
    }
    let mut windows = vec![in alloc; 0; 1]?;
    Ok(agree && (length == 0 || folds_agree(lanes, &a, length, &mut windows)))
}

#[test]
fn kernels_are_plain_loops(rt: HostRuntime) -> Result<(), Fail> {
    let mut lanes = Lanes::new();
    for length in LENGTHS {
        for place in 0..length.max(1) {
            assert!(rt;
                agree_at(&mut lanes, rt.alloc(), length.min(MOST_LANES), place)?,
                "{length} {place}"
            );
        }
    }
    for place in [0, MOST_LANES / 2, MOST_LANES - 2, MOST_LANES - 1] {
        assert!(rt;
            agree_at(&mut lanes, rt.alloc(), MOST_LANES, place)?,
            "{place}"
        );
    }
    Ok(())
}
