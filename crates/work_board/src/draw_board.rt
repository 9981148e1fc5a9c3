// The calls of a draw board.
ghost use Rattle.std.specs.Prelude.{◌≡◌, ℕ, ◌+◌, ◌^◌, ◌<◌, ◌≤◌, length, IfOk, IfSome, IfNone, IsOkAnd};
ghost use Rattle.work_board.specs.Views.{first_view, new_view, with_listed, with_none, nones, one_right_less, both, IsDrawEnd, GathersAll};
ghost use Rattle.work_board.specs.Passes.{view_of, IsPassOf, IsDraw};

use crate::NoMemory;
use crate::draw_pass::{DrawBoard, DrawPass};
use crate::pass_view::{Joins, Splits};
use crate::rules::Draws;
use atomic_table::Table;
use std::alloc::Global;

impl DrawBoard {
    /// A board of this many units, with its first pass, from which 64 more can be split off.
    pub fn open(alloc: Global, units: u64) -> Result<(DrawBoard, DrawPass), NoMemory>
        requires { units < 2 ^ 32 }
        ensures units { IfOk result (λ made. made.0.units ≡ units) }
        ensures own { IfOk result (λ made. IsPassOf made.0 made.1) }
        ensures first { IfOk result (λ made. view_of made.1 ≡ first_view units) }
    {
        let (table, seat) = Table::of_words(alloc, &[0], &units)?;
        Ok((DrawBoard { table, units }, DrawPass { seat }))
    }

    /// Draws the next unit, or None where all are drawn. It is one atomic step.
    ///
    /// An answer of None closes the pass. No clause says which of several workers comes first.
    pub fn draw(&self, pass: &mut DrawPass) -> Option<u64>
        requires own { IsPassOf self.now pass.old }
        requires open_ { nones (view_of pass.old) ≡ 0 }
        ensures own { IsPassOf self.now pass.new }
        ensures event { IsDraw self.now.units (view_of pass.old) result (view_of pass.new) }
        ensures drawn { IfSome result (λ n. view_of pass.new ≡ with_listed n (view_of pass.old)) }
        ensures below { IfSome result (λ n. n < self.now.units) }
        ensures shorter { IfSome result (λ n. length (view_of pass.old).listed ≤ n) }
        ensures none { IfNone result (view_of pass.new ≡ with_none (view_of pass.old)) }
    {
        let next = self.table.shared.fetch_add::<Draws>(&mut pass.seat, 0, 1);
        if next < self.units { Some(next) } else { None }
    }

    /// Splits off a pass that has drawn nothing and isn't closed. It takes one of the rights of
    /// the given pass, and hands on none. It takes no memory, and so is never answered `NoMemory`.
    pub fn split(&self, pass: &mut DrawPass) -> Result<DrawPass, NoMemory>
        requires own { IsPassOf self.now pass.old }
        requires right { 0 < (view_of pass.old).rights }
        ensures own { IsPassOf self.now pass.new }
        ensures left { view_of pass.new ≡ one_right_less (view_of pass.old) }
        ensures new_own { IsOkAnd result (λ new. IsPassOf self.now new) }
        ensures new { IsOkAnd result (λ new. view_of new ≡ new_view self.now.units) }
    {
        let seat = self.table.shared.split_seat::<Splits>(&mut pass.seat);
        Ok(DrawPass { seat })
    }

    /// Joins one pass into another, whose list goes on with that of the first. A used right to split
    /// doesn't come back.
    pub fn join(&self, into: &mut DrawPass, other: DrawPass)
        requires own { IsPassOf self.now into.old }
        requires other_own { IsPassOf self.now other }
        ensures own { IsPassOf self.now into.new }
        ensures both { view_of into.new ≡ both (view_of into.old) (view_of other) }
    {
        let DrawPass { seat } = other;
        self.table.shared.join_seat::<Joins>(&mut into.seat, seat);
    }

    /// Ends the board, once every pass that was split off is joined.
    pub fn close(self, pass: DrawPass)
        requires own { IsPassOf self pass }
        requires joined { (view_of pass).passes + (view_of pass).rights ≡ 65 }
        ensures drawn { IsDrawEnd self.units (view_of pass) }
        ensures gathered { GathersAll self.units (view_of pass) }
    {
        let DrawBoard { table, units: _ } = self;
        let DrawPass { seat } = pass;
        table.close_with(seat).free();
    }
}
