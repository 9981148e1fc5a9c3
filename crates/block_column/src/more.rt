ghost use Rattle.std.specs.Prelude.{◌≡◌, [], replicate, IfOk, IsOk};
ghost use Rattle.block_column.specs.Stores.{Gives};

use crate::slot::Slot;
use calc_addr::NoMemory;
use calc_model::{CodeId, Fault, Text};
use calc_num::Num;
use std::alloc::Global;

/// Items that are to come into the stores.
#[derive(Drop)]
pub(crate) struct More {
    pub(crate) numbers: Vec<Num>,
    pub(crate) words: Vec<Text>,
    pub(crate) bad: Vec<Fault>,
    pub(crate) raw: Vec<Text>,
    pub(crate) codes: Vec<CodeId>,
}

/// So many copies of a text.
fn texts(alloc: Global, count: usize, text: &Text) -> Result<Vec<Text>, NoMemory>
    ensures { IfOk result (λ texts. texts.items ≡ replicate count text.now) }
{
    let mut texts = Vec::new(alloc);
    texts.reserve(count)?;
    for _ in 0..count {
        texts.push(text.copy(alloc)?)?;
    }
    Ok(texts)
}

impl More {
    fn none(alloc: Global) -> More
        ensures { Gives result [] }
    {
        More {
            numbers: Vec::new(alloc),
            words: Vec::new(alloc),
            bad: Vec::new(alloc),
            raw: Vec::new(alloc),
            codes: Vec::new(alloc),
        }
    }

    /// The items of so many rows that hold a slot.
    #[tactic(auto, using(crate::proofs::Filtered::filter_rows))]
    pub(crate) fn of_rows(alloc: Global, rows: usize, slot: &Slot) -> Result<More, NoMemory>
        ensures items { IfOk result (λ more. Gives more (replicate rows slot.now)) }
        ensures empty { slot.now ≡ Slot.Empty → IsOk result }
    {
        let none = More::none(alloc);
        match slot {
            Slot::Empty => Ok(none),
            Slot::Number(number) => Ok(More {
                numbers: vec![in alloc; *number; rows]?,
                ..none
            }),
            Slot::Words(text) => Ok(More {
                words: texts(alloc, rows, text)?,
                ..none
            }),
            Slot::Bad(fault) => Ok(More {
                bad: vec![in alloc; *fault; rows]?,
                ..none
            }),
            Slot::Raw(text) => Ok(More {
                raw: texts(alloc, rows, text)?,
                ..none
            }),
            Slot::Formula(id) => Ok(More {
                codes: vec![in alloc; *id; rows]?,
                ..none
            }),
        }
    }
}
