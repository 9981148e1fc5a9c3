//! The parameters of functions that take one or two of them.
ghost use Rattle.std.specs.Prelude.{◌≡◌};
ghost use Rattle.calc_model.specs.Arguments.{meanings_of};
ghost use Rattle.fn_math.specs.Operands.{only_number, only_numbers};

use calc_addr::Cell;
use calc_model::{Arg, Fault, Values};
use calc_num::Num;
use fn_args::number;

/// The number of the only parameter.
pub(crate) fn only_number<V: Values>(args: &[Arg], home: Cell, values: &V) -> Result<Num, Fault>
    ensures { result ≡ only_number (meanings_of home (V.values values.now) args.now) }
{
    match args {
        [x] => number(x, home, values),
        _ => Err(Fault::BadValue),
    }
}

/// The numbers of the only two parameters.
pub(crate) fn only_numbers<V: Values>(
    args: &[Arg],
    home: Cell,
    values: &V,
) -> Result<(Num, Num), Fault>
    ensures { result ≡ only_numbers (meanings_of home (V.values values.now) args.now) }
{
    match args {
        [x, y] => {
            let first = number(x, home, values)?;
            let second = number(y, home, values)?;
            Ok((first, second))
        }
        _ => Err(Fault::BadValue),
    }
}
