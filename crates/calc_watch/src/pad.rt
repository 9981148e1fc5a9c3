ghost use Rattle.calc_addr.specs.Addresses.{address};
ghost use Rattle.calc_watch.specs.Reports.{described};
ghost use Rattle.csv.specs.Records.{fields_of};
ghost use Rattle.std.specs.List.{All};
ghost use Rattle.std.specs.Prelude.{IfOk, OnOk, [], length, ◌∷◌, ◌≡◌};

use crate::report::Report;
use crate::watcher::Watcher;
use calc_addr::{NoMemory, write_cell};
use csv::ByteRecord;
use csv_records::{write_record, writer_to, written_by};
use std::alloc::Global;
use std::marker::Model;

/// A watcher that keeps what it is told. Contracts see its reports.
#[derive(Drop)]
pub struct Pad {
    alloc: Global,
    reports: Vec<Report>,
}

impl Model for Pad {
    ghost use Rattle.calc_watch.specs.declared.report.Report.{Report as Told};
    ghost use Rattle.std.specs.Prelude.{List};

    ghost Value = { List Told };

    ghost view = { λ pad. pad.reports.items };
}

impl Pad {
    /// It was told nothing.
    pub fn new(alloc: Global) -> Pad
        ensures { result ≡ [] }
    {
        Pad {
            alloc,
            reports: Vec::new(alloc),
        }
    }
}

/// So many pads that were told nothing.
pub fn pads(alloc: Global, count: usize) -> Result<Vec<Pad>, NoMemory>
    ensures told { IfOk result (λ pads. All (λ pad. pad ≡ []) pads.items) }
    ensures count { IfOk result (λ pads. length pads.items ≡ count) }
{
    let mut pads = Vec::new(alloc);
    for _ in 0..count {
        pads.push(Pad::new(alloc))?;
    }
    Ok(pads)
}

impl Watcher for Pad {
    ghost told = { λ pad. pad };

    fn tell(&mut self, report: &Report) -> Result<(), NoMemory> {
        let report = report.copy(self.alloc)?;
        self.reports.push(report)?;
        Ok(())
    }

    fn describe(&self, out: &mut Vec<u8>) -> Result<(), NoMemory> {
        let lines = lines_of(self.alloc, &self.reports)?;
        out.extend_from_slice(&lines)
    }
}

/// A line for each report.
#[tactic(auto, unfolding(crate::specs::Reports::described))]
fn lines_of(alloc: Global, reports: &[Report]) -> Result<Vec<u8>, NoMemory>
    ensures { IfOk result (λ lines. lines.items ≡ described reports.now) }
{
    let mut writer = writer_to(Vec::new(alloc));
    let mut record = ByteRecord::new(alloc);
    for report in reports {
        fill_record(report, &mut record)?;
        write_record(&mut writer, &record)?;
    }
    written_by(writer)
}

/// Puts a report into a record.
fn fill_record(report: &Report, fields: &mut ByteRecord) -> Result<(), NoMemory>
    ensures { OnOk result (fields_of fields.new
        ≡ address report.now.cell ∷ report.now.shown ∷ []) }
{
    fields.clear();
    fields.push_field(write_cell(report.cell).bytes())?;
    fields.push_field(report.shown.bytes())?;
    Ok(())
}
