ghost use Rattle.std.specs.Prelude.{◌≡◌, ◌≤◌, length, int_lt, IsTrue};
ghost use Rattle.std.specs.Ordering.{int_eq};
ghost use Rattle.lane_kernels.specs.declared.TheConstants.{MOST_LANES};
ghost use Rattle.lane_kernels.specs.Comparisons.{is_comparison, truths, selected, chosen};
ghost use Rattle.lane_kernels.specs.Choosing.{WritesTruths, truth_if};

use crate::ONE;
use calc_model::Op;

/// Compares lane by lane, and writes the raw number of 1 where the comparison holds, else 0.
pub fn compare(a: &[i64], b: &[i64], op: Op, out: &mut [i64])
    requires short { length a.now ≤ MOST_LANES }
    requires paired { length b.now ≡ length a.now }
    requires room { length out.old ≡ length a.now }
    requires comparison { IsTrue (is_comparison op) }
    ensures { out.new ≡ truths op a.now b.now }
{
    match op {
        Op::Eq => tell_equal(a, b, true, out),
        Op::Ne => tell_equal(a, b, false, out),
        Op::Lt => tell_less(a, b, true, out),
        Op::Ge => tell_less(a, b, false, out),
        Op::Gt => tell_less(b, a, true, out),
        Op::Le => tell_less(b, a, false, out),
        _ => unreachable!(),
    }
}

/// Tells of each lane whether it is so that both are equal, or that they aren't.
fn tell_equal(a: &[i64], b: &[i64], wanted: bool, out: &mut [i64])
    requires paired { length b.now ≡ length a.now }
    requires room { length out.old ≡ length a.now }
    ensures { WritesTruths int_eq wanted a.now b.now out.new }
{
    for i in 0..a.len() {
        out[i] = truth(a[i] == b[i], wanted);
    }
}

/// Tells of each lane whether it is so that the one of `a` is less, or that it isn't.
fn tell_less(a: &[i64], b: &[i64], wanted: bool, out: &mut [i64])
    requires paired { length b.now ≡ length a.now }
    requires room { length out.old ≡ length a.now }
    ensures { WritesTruths int_lt wanted a.now b.now out.new }
{
    for i in 0..a.len() {
        out[i] = truth(a[i] < b[i], wanted);
    }
}

fn truth(answer: bool, wanted: bool) -> i64
    ensures { result ≡ truth_if wanted answer }
{
    if answer == wanted { ONE } else { 0 }
}

/// Takes the lane of `a` where the mask isn't 0, else that of `b`.
pub fn select(mask: &[i64], a: &[i64], b: &[i64], out: &mut [i64])
    requires short { length mask.now ≤ MOST_LANES }
    requires a_paired { length a.now ≡ length mask.now }
    requires b_paired { length b.now ≡ length mask.now }
    requires room { length out.old ≡ length mask.now }
    ensures { out.new ≡ selected mask.now a.now b.now }
{
    for i in 0..mask.len() {
        out[i] = pick(mask[i], a[i], b[i]);
    }
}

fn pick(mask: i64, a: i64, b: i64) -> i64
    ensures { result ≡ chosen mask (a, b) }
{
    if mask == 0 { b } else { a }
}
