ghost use Rattle.std.specs.Prelude.{◌≡◌};
ghost use Rattle.calc_num.specs.Decimals.{IsRaw};

use calc_num::Num;

/// The number of a raw number that is in range.
pub(crate) fn number(raw: i128) -> Num
    requires { IsRaw raw }
    ensures { result ≡ raw }
{
    match Num::from_raw(raw) {
        Some(number) => number,
        None => unreachable!(),
    }
}

/// The number of a small raw number.
pub(crate) fn small_number(raw: i64) -> Num
    ensures { result ≡ raw }
{
    number(i128::from(raw))
}
