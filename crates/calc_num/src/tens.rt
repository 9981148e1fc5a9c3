//! Powers of ten.
ghost use Rattle.std.specs.Prelude.{◌≡◌, ◌*◌, ◌^◌, ◌<◌, ◌≤◌};

/// The last place of the table.
const LAST: usize = 18;

/// Ten to the powers 0 to 18.
static POWERS: [u64; LAST + 1] = [
    1,
    10,
    100,
    1_000,
    10_000,
    100_000,
    1_000_000,
    10_000_000,
    100_000_000,
    1_000_000_000,
    10_000_000_000,
    100_000_000_000,
    1_000_000_000_000,
    10_000_000_000_000,
    100_000_000_000_000,
    1_000_000_000_000_000,
    10_000_000_000_000_000,
    100_000_000_000_000_000,
    1_000_000_000_000_000_000,
];

/// A number of less than 19 digits with so many zeros behind it.
#[tactic(auto, using(crate::proofs::ReadNumbers::Scale::powers_of_ten))]
pub(crate) fn with_zeros(number: u64, zeros: usize) -> u128
    requires number { number ≤ 10 ^ 18 }
    requires zeros { zeros ≤ 18 }
    ensures value { result ≡ number * 10 ^ zeros }
    ensures small { result ≤ 10 ^ 36 }
{
    number as u128 * POWERS[zeros] as u128
}

/// Ten to the power of so many places.
pub(crate) fn power_of_ten(places: usize) -> u128
    requires { places ≤ 28 }
    ensures value { result ≡ 10 ^ places }
    ensures bounds { (0 < result) × (result ≤ 10 ^ 28) }
{
    let zeros = places.min(LAST);
    with_zeros(POWERS[places - zeros], zeros)
}
