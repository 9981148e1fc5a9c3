ghost use Rattle.std.specs.Prelude.{◌≡◌, ◌≤◌, length, OnOk, IfErr};
ghost use Rattle.lane_kernels.specs.declared.TheConstants.{MOST_LANES};
ghost use Rattle.lane_kernels.specs.Lanes.{sums, differences, first_crossing, named_lane, SameBelow};
ghost use Rattle.lane_kernels.specs.Signs.{signed, WritesSigned};

/// A lane whose exact result is no number of 64 bits.
#[derive(Clone, Copy, Debug, PartialEq, Eq)]
pub struct Crossed {
    pub lane: usize,
}

/// Adds lane by lane. After `Crossed` nothing is said of `out` from the named lane on.
pub fn add(a: &[i64], b: &[i64], out: &mut [i64]) -> Result<(), Crossed>
    requires short { length a.now ≤ MOST_LANES }
    requires paired { length b.now ≡ length a.now }
    requires room { length out.old ≡ length a.now }
    ensures crossed { named_lane result ≡ first_crossing (sums a.now b.now) }
    ensures ok { OnOk result (out.new ≡ sums a.now b.now) }
    ensures before { IfErr result (λ e. SameBelow e.lane out.new (sums a.now b.now)) }
{
    combine(a, b, Sign::Plus, out)
}

/// Subtracts lane by lane, `b` from `a`. After `Crossed` nothing is said of `out` from the named lane on.
pub fn sub(a: &[i64], b: &[i64], out: &mut [i64]) -> Result<(), Crossed>
    requires short { length a.now ≤ MOST_LANES }
    requires paired { length b.now ≡ length a.now }
    requires room { length out.old ≡ length a.now }
    ensures crossed { named_lane result ≡ first_crossing (differences a.now b.now) }
    ensures ok { OnOk result (out.new ≡ differences a.now b.now) }
    ensures before { IfErr result (λ e. SameBelow e.lane out.new (differences a.now b.now)) }
{
    combine(a, b, Sign::Minus, out)
}

/// The operator between two lanes.
#[derive(Clone, Copy)]
enum Sign {
    Plus,
    Minus,
}

impl Sign {
    /// The result of 64 bits, and whether the exact one is another.
    fn apply(self, left: i64, right: i64) -> (i64, bool)
        ensures { WritesSigned self left right result }
    {
        match self {
            Sign::Plus => left.overflowing_add(right),
            Sign::Minus => left.overflowing_sub(right),
        }
    }
}

fn combine(a: &[i64], b: &[i64], sign: Sign, out: &mut [i64]) -> Result<(), Crossed>
    requires paired { length b.now ≡ length a.now }
    requires room { length out.old ≡ length a.now }
    ensures crossed { named_lane result ≡ first_crossing (signed sign a.now b.now) }
    ensures ok { OnOk result (out.new ≡ signed sign a.now b.now) }
    ensures before { IfErr result (λ e. SameBelow e.lane out.new (signed sign a.now b.now)) }
{
    let mut crossed = false;
    for i in 0..a.len() {
        let (lane_result, over) = sign.apply(a[i], b[i]);
        out[i] = lane_result;
        crossed |= over;
    }
    if crossed {
        first_crossed(a, b, sign)
    } else {
        Ok(())
    }
}

/// The first lane whose exact result is no number of 64 bits.
fn first_crossed(a: &[i64], b: &[i64], sign: Sign) -> Result<(), Crossed>
    requires paired { length b.now ≡ length a.now }
    ensures { named_lane result ≡ first_crossing (signed sign a.now b.now) }
{
    for lane in 0..a.len() {
        let (_, over) = sign.apply(a[lane], b[lane]);
        if over {
            return Err(Crossed { lane });
        }
    }
    Ok(())
}
