ghost use Rattle.std.specs.Prelude.{◌≡◌, IfOk};
ghost use Rattle.calc_model.specs.Books.{entry_named};
ghost use Rattle.calc_model.specs.Eval.{meaning_of_name};
ghost use Rattle.calc_addr.specs.Places.{Place};
ghost use Rattle.calc_model.specs.Scalars.{CellValues};
ghost use Rattle.cell_interpreter.specs.Machine.{IsPassedAs, meaning_of};
ghost use Rattle.cell_interpreter.specs.Operands.{value_of};

use crate::scalar::Scalar;
use calc_addr::{Area, Cell, NoMemory};
use calc_model::{Arg, Fault, Looked, NameTable, Text, Values, scalar_at};
use std::alloc::Global;

/// What lies on the stack: a value, or a reference, whose area goes on to whoever takes one.
#[derive(Drop)]
pub(crate) enum Operand<'a> {
    Scalar(Scalar<'a>),
    Area(Area),
}

impl<'a> Operand<'a> {
    /// What a name stands for.
    pub(crate) fn of_name<N: NameTable>(name: &Text, names: &N) -> Operand<'a>
        ensures { (home : Place) (values : CellValues) → meaning_of home values result
            ≡ meaning_of_name home (entry_named (N.entries names.now)) values
            (entry_named (N.entries names.now) name.now) }
    {
        match names.lookup(name.bytes()) {
            Looked::Absent => Operand::Scalar(Scalar::Bad(Fault::BadName)),
            Looked::Gone => Operand::Scalar(Scalar::Bad(Fault::BadRef)),
            Looked::At(area) => Operand::Area(area),
        }
    }

    /// The operand in a place that takes one value.
    #[inline(always)]
    pub(crate) fn into_scalar<V: Values>(self, home: Cell, values: &'a V) -> Scalar<'a>
        ensures { value_of result
            ≡ (meaning_of home (V.values values.entry.now) self.entry).scalar }
    {
        match self {
            Operand::Scalar(scalar) => scalar,
            Operand::Area(area) => Scalar::of(scalar_at(area, home, values)),
        }
    }

    /// The operand as a parameter of a call.
    pub(crate) fn into_arg(self, alloc: Global) -> Result<Arg, NoMemory>
        ensures { IfOk result (λ arg. IsPassedAs self.entry arg) }
    {
        match self {
            Operand::Scalar(scalar) => Ok(Arg::Scalar(scalar.into_value(alloc)?)),
            Operand::Area(area) => Ok(Arg::Area(area)),
        }
    }
}

impl Default for Operand<'_> {
    fn default() -> Self {
        Operand::Scalar(Scalar::Blank)
    }
}
