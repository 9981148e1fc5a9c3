// A mark board and its passes.
ghost use Rattle.std.specs.Prelude.{◌≡◌, ◌*◌, ◌<◌, ◌≤◌, []};

use crate::pass_view::PassView;
use crate::rules::MarkRule;
use atomic_table::{Seat, Table};
use std::alloc::Global;

/// A board of bits that are numbered from 0. Each bit has one first marker at most.
#[derive(Drop)]
pub struct MarkBoard {
    pub(crate) table: Table<u8, PassView, u64, MarkRule, Global>,
    pub(crate) bits: u64,
    pub ghost room: { bits ≤ 64 * table.shared.table_id.words },
    pub ghost some: { 0 < table.shared.table_id.words },
    pub ghost no_slots: { table.shared.table_id.slots ≡ 0 },
    pub ghost told: { table.shared.key ≡ bits },
}

/// A worker's right to mark bits of the board that it came from. It takes no memory.
#[derive(Drop)]
pub struct MarkPass {
    pub(crate) seat: Seat<u8, PassView>,
    pub ghost unspent: { 0 < seat.me.0.passes },
    pub ghost bare: { seat.me.1 ≡ [] },
}
