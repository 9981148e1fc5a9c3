//! The numbers of a list as logical values.
ghost use Rattle.std.specs.Prelude.{◌≡◌, ◌&&◌, ◌||◌, true, false};
ghost use Rattle.fn_math.specs.Truths.{if_some, with_truth};

use calc_model::{Fault, Value};
use calc_num::Num;
use fn_args::{Tally, truth};

/// Whether there was a number, whether all were true, and whether one was.
#[derive(Drop)]
pub(crate) struct Truths {
    pub some: bool,
    pub all: bool,
    pub any: bool,
}

impl Truths {
    /// Those of no number.
    pub(crate) fn new() -> Truths
        ensures { result ≡ record { some = false; all = true; any = false } }
    {
        Truths {
            some: false,
            all: true,
            any: false,
        }
    }

    fn count(&mut self, holds: bool)
        ensures { self.new ≡ record {
          some = true;
          all = self.old.all && holds;
          any = self.old.any || holds;
        } }
    {
        self.some = true;
        self.all = self.all && holds;
        self.any = self.any || holds;
    }
}

/// A test of a list, if it has a number.
pub(crate) fn if_some(some: bool, holds: bool) -> Value
    ensures { result ≡ if_some some holds }
{
    if some {
        truth(holds)
    } else {
        Value::Bad(Fault::BadValue)
    }
}

impl Tally for Truths {
    ghost step = { with_truth };

    ghost room = { λ s k. Unit {0} };

    fn take(&mut self, number: Num) {
        self.count(number.raw() != 0);
    }

    ghost room_behind = { λ s j k h. tt };
}
