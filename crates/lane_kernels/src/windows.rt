ghost use Rattle.std.specs.Prelude.{◌≡◌, ◌≤◌, ◌+◌, length};
ghost use Rattle.lane_kernels.specs.declared.TheConstants.{MOST_LANES};
ghost use Rattle.lane_kernels.specs.Folds.{window_totals};

use crate::folds::sum;

/// The exact sum of each window of the width, by the place where it begins. It takes one addition and one
/// subtraction a window.
pub fn window_sums(items: &[i64], width: usize, out: &mut [i128])
    requires short { length items.now ≤ MOST_LANES }
    requires wide { 1 ≤ width }
    requires room { length out.old + width ≡ length items.now + 1 }
    ensures { out.new ≡ window_totals items.now width }
{
    // All of the next window but its last item.
    let mut running = sum(&items[..width - 1]);
    for place in 0..out.len() {
        running += i128::from(items[place + width - 1]);
        out[place] = running;
        running -= i128::from(items[place]);
    }
}
