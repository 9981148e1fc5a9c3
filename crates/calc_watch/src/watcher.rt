ghost use Rattle.calc_watch.specs.Reports.{described};
ghost use Rattle.std.specs.Prelude.{OnErr, OnOk, [], ◌++◌, ◌∷◌, ◌≡◌};

use crate::report::Report;
use calc_addr::NoMemory;

/// Who is told of changes. Contracts see all that it was told.
pub trait Watcher: Drop {
    ghost use Rattle.calc_watch.specs.declared.report.Report.{Report as Told};
    ghost use Rattle.std.specs.Prelude.{List};

    ghost told: { Self → List Told };

    /// Takes the report in. Where memory is refused, the watcher was told nothing.
    fn tell(&mut self, report: &Report) -> Result<(), NoMemory>
        ensures ok { OnOk result (told self.new ≡ told self.old ++ report.now ∷ []) }
        ensures err { OnErr result (told self.new ≡ told self.old) };

    /// Appends a line for each report: a record of the cell's address and the text that it shows.
    fn describe(&self, out: &mut Vec<u8>) -> Result<(), NoMemory>
        ensures ok { OnOk result (out.new.items ≡ out.old.items ++ described (told self.now)) }
        ensures err { OnErr result (out.new.items ≡ out.old.items) };
}
