ghost use Rattle.calc_num.specs.Numbers.{printed};
ghost use Rattle.std.specs.Prelude.{◌≡◌, [], ◌++◌, IfOk, OnOk, OnErr, string_bytes};

use calc_addr::NoMemory;
use calc_num::Num;
use std::alloc::Global;
use std::marker::Model;
use std::str;

/// A text in UTF-8, which contracts see as its bytes.
#[derive(Debug, Drop)]
pub struct Text {
    text: String,
}

impl Model for Text {
    ghost use Rattle.std.specs.Prelude.{List, ℕ, string_bytes};

    ghost Value = { List ℕ };

    ghost view = { λ t. string_bytes t.text };
}

impl Text {
    /// The text of a `String`, which takes no memory.
    pub fn of(text: String) -> Text
        ensures { result ≡ string_bytes text }
    {
        Text { text }
    }

    /// The empty text.
    pub fn new(alloc: Global) -> Text
        ensures { result ≡ [] }
    {
        Text {
            text: String::new(alloc),
        }
    }

    /// The printed text of a number.
    pub fn of_number(alloc: Global, number: Num) -> Result<Text, NoMemory>
        ensures { IfOk result (λ t. t ≡ printed number) }
    {
        let mut text = Text::new(alloc);
        text.push_number(number)?;
        Ok(text)
    }

    /// Appends a text. Where memory is refused, this one is as before.
    pub fn push_str(&mut self, more: &str) -> Result<(), NoMemory>
        ensures ok { OnOk result (self.new ≡ self.old ++ more.now) }
        ensures err { OnErr result (self.new ≡ self.old) }
    {
        self.text.push_str(more)
    }

    /// Appends the printed text of a number. Where memory is refused, this one is as before.
    #[tactic(auto, using(crate::proofs::PrintedAscii::printed_text))]
    pub fn push_number(&mut self, number: Num) -> Result<(), NoMemory>
        ensures ok { OnOk result (self.new ≡ self.old ++ printed number) }
        ensures err { OnErr result (self.new ≡ self.old) }
    {
        match str::from_utf8(number.write().bytes()) {
            Ok(text) => self.push_str(text),
            Err(_) => unreachable!(),
        }
    }

    pub fn as_str(&self) -> &str
        ensures { result.now ≡ self.now }
    {
        self.text.as_str()
    }

    /// The text's bytes, in UTF-8.
    pub fn bytes(&self) -> &[u8]
        ensures { result.now ≡ self.now }
    {
        self.text.as_bytes()
    }

    /// An equal text.
    pub fn copy(&self, alloc: Global) -> Result<Text, NoMemory>
        ensures { IfOk result (λ t. t ≡ self.now) }
    {
        Ok(Text {
            text: String::from_str(alloc, self.as_str())?,
        })
    }
}
