ghost use Rattle.std.specs.Prelude.{IfOk, ◌≡◌};

use calc_addr::{Cell, NoMemory};
use calc_model::Text;
use std::alloc::Global;

/// What a cell came to show.
#[derive(Debug, Drop)]
pub struct Report {
    pub cell: Cell,
    pub shown: Text,
}

impl Report {
    /// An equal report.
    pub(crate) fn copy(&self, alloc: Global) -> Result<Report, NoMemory>
        ensures { IfOk result (λ report. report ≡ self.now) }
    {
        Ok(Report {
            cell: self.cell,
            shown: self.shown.copy(alloc)?,
        })
    }
}
