// A draw board and its passes.
ghost use Rattle.std.specs.Prelude.{◌≡◌, ◌<◌, []};

use crate::pass_view::PassView;
use crate::rules::DrawRule;
use atomic_table::{Seat, Table};
use std::alloc::Global;

/// A board of units that are numbered from 0. Each is drawn once, by whichever worker comes first.
#[derive(Drop)]
pub struct DrawBoard {
    pub(crate) table: Table<u8, PassView, u64, DrawRule, Global>,
    pub(crate) units: u64,
    pub ghost word: { table.shared.table_id.words ≡ 1 },
    pub ghost no_slots: { table.shared.table_id.slots ≡ 0 },
    pub ghost told: { table.shared.key ≡ units },
}

/// A worker's right to draw from the board that it came from. It takes no memory.
#[derive(Drop)]
pub struct DrawPass {
    pub(crate) seat: Seat<u8, PassView>,
    pub ghost unspent: { 0 < seat.me.0.passes },
    pub ghost bare: { seat.me.1 ≡ [] },
}
