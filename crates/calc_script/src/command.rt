ghost use Rattle.std.specs.Prelude.{◌≡◌};
ghost use Rattle.calc_script.specs.Commands.{cause_word, edit_cause_word};

use calc_addr::Area;
use calc_model::{Edit, EditCause};

/// What a line of a script does.
#[derive(Drop)]
pub enum Line {
    Nothing,
    Do(Command),
    Refused(Cause),
}

#[derive(Drop)]
pub enum Command {
    Edit(Edit),
    /// Recalculates, and prints how many formulas were stale.
    Calc,
    /// Recalculates, and prints what the area's cells show, a record for each row.
    Print(Area),
    /// Prints the contents of the area's cells, a record for each row.
    Formulas(Area),
    /// Prints the formula groups of the column, a line for each, downwards.
    Groups { sheet: u8, col: u16 },
    /// Prints the runs of the column's rows that hold one kind of content, a line for each, downwards.
    Blocks { sheet: u8, col: u16 },
    /// Recalculates, and attaches a watcher of the area.
    Watch(Area),
    /// Prints what the attached watchers were told.
    Told,
    /// Drops the watcher that was attached last.
    Unwatch,
}

/// Why a line is refused.
#[derive(Clone, Copy, Debug, PartialEq, Eq)]
pub enum Cause {
    /// The line isn't of the form of a command.
    BadCommand,
    /// The area has more cells than a line may print or watch, or the book to be made starts too
    /// high or has too many rows.
    TooLarge,
    /// No watcher is left, or none is attached.
    NoWatcher,
    /// As the line's edit is refused; `OffSheet` also where an address of any line lies outside the
    /// sheets.
    Edit(EditCause),
}

impl Cause {
    /// The word that is printed for the cause.
    pub fn word(self) -> &'static str
        ensures { result.now ≡ cause_word self }
    {
        match self {
            Cause::BadCommand => "command",
            Cause::TooLarge => "too-large",
            Cause::NoWatcher => "no-watcher",
            Cause::Edit(cause) => edit_cause_word(cause),
        }
    }
}

fn edit_cause_word(cause: EditCause) -> &'static str
    ensures { result.now ≡ edit_cause_word cause }
{
    match cause {
        EditCause::OffSheet => "off-sheet",
        EditCause::BadName => "bad-name",
        EditCause::NoName => "no-name",
        EditCause::NamesFull => "names-full",
        EditCause::RowsFull => "rows-full",
        EditCause::CellsFull => "cells-full",
    }
}
