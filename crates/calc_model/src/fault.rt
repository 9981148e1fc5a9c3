ghost use Rattle.std.specs.Prelude.{◌≡◌, ◌++◌, OnOk, OnErr};
ghost use Rattle.calc_model.specs.ValueTexts.{fault_text};

use calc_addr::NoMemory;

/// An error value.
#[derive(Clone, Copy, Debug, PartialEq, Eq)]
pub enum Fault {
    /// A value isn't there.
    NA,
    /// A division by zero.
    DivZero,
    /// An operand of the wrong kind.
    BadValue,
    /// A reference to deleted cells.
    BadRef,
    /// A name that isn't defined, or a function that isn't there.
    BadName,
    /// A number for which there is no result.
    BadNum,
    /// An empty intersection; only a constant gives it.
    Null,
    /// A number out of range, or a text that is too long.
    Over,
    /// The value of a formula that the grammar doesn't spell.
    Syntax,
    /// The value of a cell that reaches a circle of reading.
    Circular,
}

impl Fault {
    /// Appends the printed text. Where memory is refused, `out` is as before.
    pub fn show(self, out: &mut Vec<u8>) -> Result<(), NoMemory>
        ensures ok { OnOk result (out.new.items ≡ out.old.items ++ fault_text self) }
        ensures err { OnErr result (out.new.items ≡ out.old.items) }
    {
        out.extend_from_slice(self.text().as_bytes())
    }

    /// The printed text, as `#N/A`. The first eight are the error constants of a formula.
    pub fn text(self) -> &'static str
        ensures { result.now ≡ fault_text self }
    {
        match self {
            Fault::NA => "#N/A",
            Fault::DivZero => "#DIV/0!",
            Fault::BadValue => "#VALUE!",
            Fault::BadRef => "#REF!",
            Fault::BadName => "#NAME?",
            Fault::BadNum => "#NUM!",
            Fault::Null => "#NULL!",
            Fault::Over => "#OVER!",
            Fault::Syntax => "#SYNTAX!",
            Fault::Circular => "Err:522",
        }
    }
}
