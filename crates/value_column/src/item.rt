ghost use Rattle.std.specs.Prelude.{◌≡◌};
ghost use Rattle.value_column.specs.Rows.{IsItem, item_value, tag_of, value_tag};

use crate::lane::Tag;
use calc_model::{Fault, Text, Value};

/// What a row shows, by the lane that keeps it.
#[derive(Debug, Drop)]
pub(crate) enum Item {
    Blank,
    /// A number whose raw number fits in 64 bits.
    Small(i64),
    /// Any other number.
    Wide(i128),
    Words(Text),
    Bad(Fault),
}

impl Item {
    /// The lane that keeps it.
    pub(crate) fn tag(&self) -> Tag
        ensures { result ≡ tag_of self.now }
    {
        match self {
            Item::Blank => Tag::Blank,
            Item::Small(_raw) => Tag::Small,
            Item::Wide(_raw) => Tag::Wide,
            Item::Words(_text) => Tag::Words,
            Item::Bad(_fault) => Tag::Bad,
        }
    }

    pub(crate) fn of(value: Value) -> Item
        ensures value { item_value result ≡ value }
        ensures kind { IsItem result }
        ensures tag { tag_of result ≡ value_tag value }
    {
        match value {
            Value::Number(number) => match i64::try_from(number.raw()) {
                Ok(raw) => Item::Small(raw),
                Err(_) => Item::Wide(number.raw()),
            },
            Value::Words(text) => Item::Words(text),
            Value::Bad(fault) => Item::Bad(fault),
            Value::Blank => Item::Blank,
        }
    }
}

/// The lane that keeps a value.
pub(crate) fn tag_for(value: &Value) -> Tag
    ensures { result ≡ value_tag value.now }
{
    match value {
        Value::Number(number) => match i64::try_from(number.raw()) {
            Ok(_) => Tag::Small,
            Err(_) => Tag::Wide,
        },
        Value::Words(_text) => Tag::Words,
        Value::Bad(_fault) => Tag::Bad,
        Value::Blank => Tag::Blank,
    }
}
