ghost use Rattle.calc_model.specs.NamedAreas.{name_cmp};
ghost use Rattle.calc_names.specs.Kept.{GoesTo, StandsAt};
ghost use Rattle.std.specs.FinMap.Entries.{is_sorted};
ghost use Rattle.std.specs.Prelude.{IfErr, IfOk, true, ◌≡◌};
ghost use Rattle.std.specs.Str.{str_to_ascii_uppercase};

use crate::capitals::compare_with_capitals;
use calc_model::{Looked, Text};

/// Where the name stands among these, in capitals or not, or where it is to be put. Logarithmic in
/// them.
pub(crate) fn place_of(entries: &[(Text, Looked)], name: &[u8]) -> Result<usize, usize>
    requires { is_sorted name_cmp entries.now ≡ true }
    ensures found { IfOk result (StandsAt entries.now (str_to_ascii_uppercase name.now)) }
    ensures absent { IfErr result (GoesTo entries.now (str_to_ascii_uppercase name.now)) }
{
    entries.binary_search_by(|entry| compare_with_capitals(&entry.0, name))
}
