ghost use Rattle.std.specs.Prelude.{◌≡◌, ◌≤◌, ◌+◌, ℕ, length, OnOk, IfErr, IsTrue};
ghost use Rattle.lane_kernels.specs.declared.TheConstants.{MOST_LANES};
ghost use Rattle.lane_kernels.specs.Folds.{total, FitsLanes, least, greatest, window_totals};
ghost use Rattle.lane_kernels.specs.Comparisons.{is_comparison, count_of, truths, selected};
ghost use Rattle.lane_kernels.specs.Lanes.{sums, differences, first_crossing, named_lane, SameBelow};
ghost use Rattle.lane_kernels.specs.Counting.{raised};

use crate::arithmetic::Crossed;
use calc_model::Op;

/// The kernels, with a count of the items that they were given, up to the greatest u64. Each has the
/// contract of the call of its name.
pub trait Kernels {
    ghost items: { Self → ℕ };

    fn sum(&mut self, span: &[i64]) -> i128
        requires short { length span.now ≤ MOST_LANES }
        ensures exact { result ≡ total span.now }
        ensures range { FitsLanes (length span.now) result }
        ensures counted { items self.new ≡ raised (items self.old) (length span.now) };

    fn min(&mut self, span: &[i64]) -> Option<i64>
        requires short { length span.now ≤ MOST_LANES }
        ensures exact { result ≡ least span.now }
        ensures counted { items self.new ≡ raised (items self.old) (length span.now) };

    fn max(&mut self, span: &[i64]) -> Option<i64>
        requires short { length span.now ≤ MOST_LANES }
        ensures exact { result ≡ greatest span.now }
        ensures counted { items self.new ≡ raised (items self.old) (length span.now) };

    fn count_where(&mut self, span: &[i64], op: Op, with: i64) -> usize
        requires short { length span.now ≤ MOST_LANES }
        requires comparison { IsTrue (is_comparison op) }
        ensures exact { result ≡ count_of op with span.now }
        ensures counted { items self.new ≡ raised (items self.old) (length span.now) };

    fn add(&mut self, a: &[i64], b: &[i64], out: &mut [i64]) -> Result<(), Crossed>
        requires short { length a.now ≤ MOST_LANES }
        requires paired { length b.now ≡ length a.now }
        requires room { length out.old ≡ length a.now }
        ensures crossed { named_lane result ≡ first_crossing (sums a.now b.now) }
        ensures ok { OnOk result (out.new ≡ sums a.now b.now) }
        ensures before { IfErr result (λ e. SameBelow e.lane out.new (sums a.now b.now)) }
        ensures counted { items self.new ≡ raised (items self.old) (length a.now) };

    fn sub(&mut self, a: &[i64], b: &[i64], out: &mut [i64]) -> Result<(), Crossed>
        requires short { length a.now ≤ MOST_LANES }
        requires paired { length b.now ≡ length a.now }
        requires room { length out.old ≡ length a.now }
        ensures crossed { named_lane result ≡ first_crossing (differences a.now b.now) }
        ensures ok { OnOk result (out.new ≡ differences a.now b.now) }
        ensures before { IfErr result (λ e. SameBelow e.lane out.new (differences a.now b.now)) }
        ensures counted { items self.new ≡ raised (items self.old) (length a.now) };

    fn compare(&mut self, a: &[i64], b: &[i64], op: Op, out: &mut [i64])
        requires short { length a.now ≤ MOST_LANES }
        requires paired { length b.now ≡ length a.now }
        requires room { length out.old ≡ length a.now }
        requires comparison { IsTrue (is_comparison op) }
        ensures exact { out.new ≡ truths op a.now b.now }
        ensures counted { items self.new ≡ raised (items self.old) (length a.now) };

    fn select(&mut self, mask: &[i64], a: &[i64], b: &[i64], out: &mut [i64])
        requires short { length mask.now ≤ MOST_LANES }
        requires a_paired { length a.now ≡ length mask.now }
        requires b_paired { length b.now ≡ length mask.now }
        requires room { length out.old ≡ length mask.now }
        ensures exact { out.new ≡ selected mask.now a.now b.now }
        ensures counted { items self.new ≡ raised (items self.old) (length mask.now) };

    fn window_sums(&mut self, span: &[i64], width: usize, out: &mut [i128])
        requires short { length span.now ≤ MOST_LANES }
        requires wide { 1 ≤ width }
        requires room { length out.old + width ≡ length span.now + 1 }
        ensures exact { out.new ≡ window_totals span.now width }
        ensures counted { items self.new ≡ raised (items self.old) (length span.now) };
}
