// The rules of the boards' words, and the steps that keep them.
use crate::pass_view::PassView;
use atomic_table::{Play, TableRule};

pub struct DrawRule;

pub struct Draws;

pub struct MarkRule;

pub struct Marks;

impl TableRule<u8, PassView, u64> for DrawRule {
    ghost use Rattle.work_board.specs.Rules.{IsDrawBoard};
    ghost use Rattle.work_board.specs.Views.{first_view};

    ghost holds = { λ units s. IsDrawBoard units s.words s.views };

    ghost first = { λ units. first_view units };
}

impl Play<u8, PassView> for Draws {
    ghost use Rattle.work_board.specs.Rules.{DrawTells};

    ghost then = { DrawTells };
}

impl TableRule<u8, PassView, u64> for MarkRule {
    ghost use Rattle.work_board.specs.Rules.{IsMarkBoard};
    ghost use Rattle.work_board.specs.Views.{first_view};

    ghost holds = { λ bits s. IsMarkBoard bits s.words s.views };

    ghost first = { λ bits. first_view bits };
}

impl Play<u8, PassView> for Marks {
    ghost use Rattle.work_board.specs.Rules.{MarkTells};

    ghost then = { MarkTells };
}
