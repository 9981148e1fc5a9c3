use calc_model::{CodeId, Fault, Text};
use calc_num::Num;

/// What a row of a column holds.
#[derive(Debug, Drop)]
pub enum Slot {
    Empty,
    Number(Num),
    Words(Text),
    Bad(Fault),
    /// A field that spells no formula.
    Raw(Text),
    Formula(CodeId),
}

/// A slot that is lent.
#[derive(Clone, Copy, Debug)]
pub enum SlotRef<'a> {
    Empty,
    Number(Num),
    Words(&'a Text),
    Bad(Fault),
    Raw(&'a Text),
    Formula(CodeId),
}
