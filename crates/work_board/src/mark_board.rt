// The calls of a mark board.
ghost use Rattle.std.specs.Prelude.{◌≡◌, ℕ, ◌+◌, ◌^◌, ◌<◌, ◌≤◌, length, true, false, IfOk, IsOkAnd};
ghost use Rattle.work_board.specs.Views.{first_view, new_view, with_listed, with_missed, one_right_less, both, IsMarkEnd};
ghost use Rattle.work_board.specs.Passes.{mark_view, IsMarkPassOf, IsMark};

use crate::NoMemory;
use crate::mark_pass::{MarkBoard, MarkPass};
use crate::pass_view::{Joins, Splits};
use crate::rules::Marks;
use atomic_table::Table;
use std::alloc::Global;

/// How many bits a word of the board holds.
const WORD_BITS: u64 = 64;

impl MarkBoard {
    /// A board of this many bits, none of them set, with its first pass, from which 64 more can be
    /// split off. It takes a word for every 64 bits, and one more.
    pub fn open(alloc: Global, bits: u64) -> Result<(MarkBoard, MarkPass), NoMemory>
        requires { bits < 2 ^ 32 }
        ensures bits { IfOk result (λ made. made.0.bits ≡ bits) }
        ensures own { IfOk result (λ made. IsMarkPassOf made.0 made.1) }
        ensures first { IfOk result (λ made. mark_view made.1 ≡ first_view bits) }
    {
        let words = vec![in alloc; 0; (bits / WORD_BITS + 1) as usize]?;
        let (table, seat) = Table::of_words(alloc, words.as_slice(), &bits)?;
        Ok((MarkBoard { table, bits }, MarkPass { seat }))
    }

    /// Sets a bit, and says whether this pass is its first marker. It is one atomic step.
    ///
    /// No clause says which of several workers comes first.
    pub fn mark(&self, pass: &mut MarkPass, bit: u64) -> bool
        requires own { IsMarkPassOf self.now pass.old }
        requires inside { bit < self.now.bits }
        ensures own { IsMarkPassOf self.now pass.new }
        ensures event { IsMark bit (mark_view pass.old) result (mark_view pass.new) }
        ensures first { result ≡ true → mark_view pass.new ≡ with_listed bit (mark_view pass.old) }
        ensures met { result ≡ false → mark_view pass.new ≡ with_missed bit (mark_view pass.old) }
        ensures room { length (mark_view pass.new).listed ≤ self.now.bits }
    {
        let mask = 1 << (bit % WORD_BITS);
        let word = (bit / WORD_BITS) as usize;
        let found = self
            .table
            .shared
            .fetch_or::<Marks>(&mut pass.seat, word, mask);
        found & mask == 0
    }

    /// Splits off a pass whose lists are empty. It takes one of the rights of the given pass, and
    /// hands on none. It takes no memory, and so is never answered `NoMemory`.
    pub fn split(&self, pass: &mut MarkPass) -> Result<MarkPass, NoMemory>
        requires own { IsMarkPassOf self.now pass.old }
        requires right { 0 < (mark_view pass.old).rights }
        ensures own { IsMarkPassOf self.now pass.new }
        ensures left { mark_view pass.new ≡ one_right_less (mark_view pass.old) }
        ensures new_own { IsOkAnd result (λ new. IsMarkPassOf self.now new) }
        ensures new { IsOkAnd result (λ new. mark_view new ≡ new_view self.now.bits) }
    {
        let seat = self.table.shared.split_seat::<Splits>(&mut pass.seat);
        Ok(MarkPass { seat })
    }

    /// Joins one pass into another, whose lists go on with those of the first. A used right to
    /// split doesn't come back.
    pub fn join(&self, into: &mut MarkPass, other: MarkPass)
        requires own { IsMarkPassOf self.now into.old }
        requires other_own { IsMarkPassOf self.now other }
        ensures own { IsMarkPassOf self.now into.new }
        ensures both { mark_view into.new ≡ both (mark_view into.old) (mark_view other) }
    {
        let MarkPass { seat } = other;
        self.table.shared.join_seat::<Joins>(&mut into.seat, seat);
    }

    /// Ends the board, once every pass that was split off is joined.
    pub fn close(self, pass: MarkPass)
        requires own { IsMarkPassOf self pass }
        requires joined { (mark_view pass).passes + (mark_view pass).rights ≡ 65 }
        ensures marked { IsMarkEnd self.bits (mark_view pass) }
    {
        let MarkBoard { table, bits: _ } = self;
        let MarkPass { seat } = pass;
        table.close_with(seat).free();
    }
}
