ghost use Rattle.std.specs.Prelude.{◌≡◌, ◌++◌, true, IfOk, OnOk, OnErr};
ghost use Rattle.calc_addr.specs.Places.{Rectangle, Rows};
ghost use Rattle.calc_model.specs.Listeners.{AreReaders, AreReached, ArePartsOf, Gets, listed};

use crate::ear::Ear;
use calc_addr::{Area, Cell, NoMemory, Run};

/// A part of a run, whose rows read the areas that the ears from `from` up to, not with, `to` say.
#[derive(Clone, Copy, Debug, PartialEq, Eq)]
pub struct Part {
    pub run: Run,
    pub from: usize,
    pub to: usize,
}

/// Which formula cells there are and what each of them reads. Contracts see the list of areas that each
/// formula cell reads, and whether the object is ready to be asked.
pub trait Dependents {
    ghost use Rattle.calc_model.specs.Listeners.{ReadAreas};
    ghost use Rattle.std.specs.Prelude.{Bool};

    ghost areas: { Self → ReadAreas };

    ghost ready: { Self → Bool };

    /// Appends each formula cell that reads a cell of the area, once, in the order of cells.
    fn readers(&self, area: Area, out: &mut Vec<Cell>) -> Result<(), NoMemory>
        requires { ready self.now ≡ true }
        ensures ok { OnOk result (Gets out.old.items out.new.items
            (AreReaders (areas self.now) area)) }
        ensures err { OnErr result (out.new.items ≡ out.old.items) };

    /// Appends the areas that the cell reads, in the order in which its formula writes them.
    fn reads(&self, cell: Cell, out: &mut Vec<Area>) -> Result<(), NoMemory>
        requires { ready self.now ≡ true }
        ensures ok { OnOk result (out.new.items ≡ out.old.items ++ listed (areas self.now cell)) }
        ensures err { OnErr result (out.new.items ≡ out.old.items) };

    /// Appends runs among whose cells are all that read a cell of the area, and none that doesn't reach one.
    fn reached(&self, area: Area, out: &mut Vec<Run>) -> Result<(), NoMemory>
        requires { ready self.now ≡ true }
        ensures ok { OnOk result (Gets out.old.items out.new.items
            (AreReached (areas self.now) area)) }
        ensures err { OnErr result (out.new.items ≡ out.old.items) };

    /// Appends the parts of the run, with what the rows of each of them read.
    fn parts(&self, run: Run, parts: &mut Vec<Part>, ears: &mut Vec<Ear>) -> Result<(), NoMemory>
        requires { ready self.now ≡ true }
        ensures ok { OnOk result (Gets parts.old.items parts.new.items
            (ArePartsOf (areas self.now) run ears.new.items)) }
        ensures ears { OnOk result (Gets ears.old.items ears.new.items (λ _. Unit {0})) }
        ensures err_parts { OnErr result (parts.new.items ≡ parts.old.items) }
        ensures err_ears { OnErr result (ears.new.items ≡ ears.old.items) };
}
