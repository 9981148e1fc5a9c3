ghost use Rattle.std.specs.Cmp.Lexicographic.{slice_cmp};
ghost use Rattle.std.specs.Ordering.{nat_cmp};
ghost use Rattle.std.specs.Prelude.{IfOk, ◌≡◌};
ghost use Rattle.std.specs.Str.{str_to_ascii_uppercase};

use calc_addr::NoMemory;
use calc_model::Text;
use std::alloc::Global;
use std::cmp::Ordering;

/// How a key compares with a name that is put in ASCII capitals.
pub(crate) fn compare_with_capitals(key: &Text, name: &[u8]) -> Ordering
    ensures { result ≡ slice_cmp nat_cmp key.now (str_to_ascii_uppercase name.now) }
{
    key.bytes()
        .iter()
        .copied()
        .cmp(name.iter().map(|byte| byte.to_ascii_uppercase()))
}

/// The name in ASCII capitals.
pub(crate) fn in_capitals(alloc: Global, name: &Text) -> Result<Text, NoMemory>
    ensures { IfOk result (λ text. text ≡ str_to_ascii_uppercase name.now) }
{
    let mut text = String::from_str(alloc, name.as_str())?;
    text.make_ascii_uppercase();
    Ok(Text::of(text))
}
