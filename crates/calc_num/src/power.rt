//! Powers with a whole exponent.
ghost use Rattle.std.specs.Prelude.{◌≡◌};
ghost use Rattle.calc_num.specs.Decimals.{pow, repeated_product};

use crate::num::{Num, NumFault, ONE};
use crate::split::split;

/// The greatest size of an exponent.
const MOST_FACTORS: u64 = 1_024;

/// One, multiplied by the base so many times. It stops where a further step changes nothing.
fn repeated(base: Num, count: u32) -> Result<Num, NumFault>
    ensures { result ≡ repeated_product base count }
{
    let mut product = Num::from_size(false, ONE as u128);
    for _step in 0..count {
        let next = product.mul(base)?;
        if next == product {
            return Ok(product);
        }
        product = next;
    }
    Ok(product)
}

impl Num {
    /// The power: one, multiplied by the number as often as the exponent says, each product rounded
    /// and tested, and for a negative exponent one divided by that, where a product of zero is
    /// `DivZero`. An exponent that isn't a whole number from -1,024 to 1,024 is `NotNum`. There are
    /// at most 1,024 products.
    pub fn pow(self, exponent: Num) -> Result<Num, NumFault>
        ensures { result ≡ pow self exponent }
    {
        let (count, rest) = split(exponent.size());
        if rest != 0 || count > MOST_FACTORS {
            return Err(NumFault::NotNum);
        }
        let product = repeated(self, count as u32)?;
        if exponent.is_negative() {
            Num::from_size(false, ONE as u128).div(product)
        } else {
            Ok(product)
        }
    }
}
