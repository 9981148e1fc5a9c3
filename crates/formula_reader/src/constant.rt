ghost use Rattle.calc_model.specs.Contents.{is_error_constant};
ghost use Rattle.calc_model.specs.Field.{constant_of, error_of};
ghost use Rattle.calc_model.specs.declared.content.Content.TheVariants as contents;
ghost use Rattle.calc_num.specs.Spelling.{reading};
ghost use Rattle.std.specs.Prelude.{IfOk, IfSome, true, ◌≡◌};
ghost use Rattle.std.specs.Str.{IsUtf8};

use calc_addr::NoMemory;
use calc_model::{Constant, Fault, Text, Value};
use calc_num::{Num, Reading};
use std::alloc::Global;
use std::str;

/// The faults that have a constant.
pub(crate) const ERROR_CONSTANTS: [Fault; 8] = [
    Fault::NA,
    Fault::DivZero,
    Fault::BadValue,
    Fault::BadRef,
    Fault::BadName,
    Fault::BadNum,
    Fault::Null,
    Fault::Over,
];

/// The constant of a field that is too long, or of a number that is too large.
pub(crate) fn over() -> Constant
    ensures { result ≡ Value.Bad Fault.Over }
{
    Constant::of(Value::Bad(Fault::Over))
}

/// The constant that a text is: a number, an error constant, or the text itself.
pub(crate) fn read_constant(alloc: Global, text: &[u8]) -> Result<Constant, NoMemory>
    requires { IsUtf8 text.now }
    ensures { IfOk result (λ constant.
        contents.Constant constant ≡ constant_of (reading text.now) text.now) }
{
    match Num::read(text) {
        Reading::Number(number) => Ok(Constant::of(Value::Number(number))),
        Reading::TooLarge => Ok(over()),
        Reading::NotNumber => match error_constant(text) {
            Some(fault) => Ok(Constant::of(Value::Bad(fault))),
            None => Ok(Constant::of(Value::Words(to_text(alloc, text)?))),
        },
    }
}

/// The error constant that a text is, if it is one.
fn error_constant(text: &[u8]) -> Option<Fault>
    ensures value { result ≡ error_of text.now }
    ensures constant { IfSome result (λ fault. is_error_constant fault ≡ true) }
{
    ERROR_CONSTANTS
        .iter()
        .copied()
        .find(|fault| text == fault.text().as_bytes())
}

/// A text of these bytes.
pub(crate) fn to_text(alloc: Global, text: &[u8]) -> Result<Text, NoMemory>
    requires { IsUtf8 text.now }
    ensures { IfOk result (λ copied. copied ≡ text.now) }
{
    let text = unsafe { str::from_utf8_unchecked(text) };
    Ok(Text::of(String::from_str(alloc, text)?))
}
