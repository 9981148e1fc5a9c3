ghost use Rattle.std.specs.Prelude.{◌≡◌};
ghost use Rattle.calc_addr.specs.Places.{IsRows};

use calc_addr::Run;
use smallvec::SmallVec;
use std::marker::Model;

/// Runs, of which eight take no memory of their own.
pub type Runs = SmallVec<Entry, 8>;

/// A run in a list, which contracts see as that run. A place that isn't taken has the first cell of all.
#[derive(Clone, Copy, Debug)]
pub struct Entry {
    run: Run,
}

impl Model for Entry {
    ghost use Rattle.calc_addr.specs.Places.{Rows};

    ghost Value = { Rows };

    ghost view = { λ e. e.run };

    ghost inverse = { λ r. record { run = r } };
}

impl Entry {
    pub fn of(run: Run) -> Entry
        ensures { result ≡ run }
    {
        Entry { run }
    }

    /// The run.
    pub(crate) fn run(&self) -> &Run
        ensures run { result.now ≡ self.now }
        ensures rows { IsRows self.now }
    {
        let _ = &self.run.first;
        &self.run
    }
}

impl Default for Entry {
    fn default() -> Entry {
        Entry {
            run: Run {
                sheet: 0,
                col: 1,
                first: 1,
                last: 1,
            },
        }
    }
}
