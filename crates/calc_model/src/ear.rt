use calc_addr::Area;
use std::marker::Model;

/// What a run of formulas with one relative form reads by one of its references: the area that the first
/// row reads, and which of its ends go with the row.
#[derive(Clone, Copy, Debug, PartialEq, Eq)]
pub struct Ear {
    pub area: Area,
    pub first_moves: bool,
    pub last_moves: bool,
}

impl Model for Ear {
    ghost use Rattle.calc_model.specs.Ears.{ReadArea};

    ghost Value = { ReadArea };

    ghost view = { λ ear.
        record {
          area = ear.area;
          first_moves = ear.first_moves;
          last_moves = ear.last_moves;
        } };

    ghost inverse = { λ r.
        record {
          area = r.area;
          first_moves = r.first_moves;
          last_moves = r.last_moves;
        } };
}
