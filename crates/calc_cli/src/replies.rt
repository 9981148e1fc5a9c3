//! What lines of a script do to a workbook, and what they write.
ghost use Rattle.std.specs.Prelude.{◌≡◌, IfOk, false, true};
ghost use Rattle.calc_model.specs.Step.{is_makeable, step};
ghost use Rattle.calc_script.specs.Commands.{is_makeable_command, is_makeable_line};
ghost use Rattle.cell_columns.specs.ColumnRuns.{IsSheetColumn};
ghost use Rattle.calc_cli.specs.ColumnLines.{blocks_text, groups_text};
ghost use Rattle.calc_cli.specs.Output.{accepted, answer, done, edit_text, edited, recalculated, recalculation, refusal_text};
ghost use Rattle.calc_cli.specs.Records.{held_texts, printed_area, shown_texts};
ghost use Rattle.calc_cli.specs.Sessions.{Replies, session_of};
ghost use Rattle.calc_model.specs.Val.{val};

use crate::cell_texts::{Held, Shown};
use crate::column_lines::{block_lines, group_lines};
use crate::records::print_area;
use crate::session::Session;
use calc_addr::{Area, NoMemory};
use calc_model::Edit;
use calc_script::{Cause, Command, Line};
use calc_watch::Watcher;
use itoa::Buffer;
use std::alloc::{AllocError, Global};
use workbook::{EditFault, Workbook};

/// What a line writes, and whether it is refused.
#[derive(Drop)]
pub(crate) struct Reply {
    pub(crate) text: Vec<u8>,
    pub(crate) refused: bool,
}

/// Does what a line says.
#[tactic(auto, unfolding(crate::specs::Output::answer))]
pub(crate) fn answer_line<W: Watcher>(
    alloc: Global,
    session: &mut Session<W>,
    number: usize,
    line: &Line,
) -> Result<Reply, NoMemory>
    requires { is_makeable_line line.now ≡ true }
    ensures { Replies result (session_of session.new)
        (answer (session_of session.old) number line.now) }
{
    match line {
        Line::Nothing => Ok(accept(Vec::new(alloc))),
        Line::Do(command) => do_command(alloc, session, number, command),
        Line::Refused(cause) => refuse(alloc, number, *cause),
    }
}

fn do_command<W: Watcher>(
    alloc: Global,
    session: &mut Session<W>,
    number: usize,
    command: &Command,
) -> Result<Reply, NoMemory>
    requires { is_makeable_command command.now ≡ true }
    ensures { Replies result (session_of session.new)
        (done (session_of session.old) number command.now) }
{
    match command {
        Command::Edit(edit) => make_edit(alloc, session, number, edit),
        Command::Calc => recalculate(alloc, session),
        Command::Print(area) => print_shown(alloc, session, *area),
        Command::Formulas(area) => print_held(alloc, session, *area),
        Command::Watch(area) => watch(alloc, session, number, *area),
        Command::Told => tell(alloc, session, number),
        Command::Unwatch => unwatch(alloc, session, number),
        Command::Groups { sheet, col } => list_groups(alloc, session, *sheet, *col),
        Command::Blocks { sheet, col } => list_blocks(alloc, session, *sheet, *col),
    }
}

fn make_edit<W: Watcher>(
    alloc: Global,
    session: &mut Session<W>,
    number: usize,
    edit: &Edit,
) -> Result<Reply, NoMemory>
    requires { is_makeable edit.now ≡ true }
    ensures { Replies result (session_of session.new) (edited (session_of session.old) number
        edit.now (step (session_of session.old).book edit.now)) }
{
    match session.workbook.edit(alloc, edit) {
        Ok(()) => Ok(accept(edit_text(alloc, &session.workbook, edit)?)),
        Err(EditFault::Refused(cause)) => refuse(alloc, number, Cause::Edit(cause)),
        // A workbook is dead after want of memory alone.
        Err(EditFault::Dead | EditFault::NoMemory) => Err(AllocError),
    }
}

/// What an edit writes that gave the workbook this book.
fn edit_text(alloc: Global, workbook: &Workbook, edit: &Edit) -> Result<Vec<u8>, NoMemory>
    ensures { IfOk result (λ text. text.items ≡ edit_text edit.now workbook.now.book) }
{
    let mut text = Vec::new(alloc);
    if let Edit::Make { .. } = edit {
        text.extend_from_slice(b"made ")?;
        text.extend_from_slice(Buffer::new().format(workbook.cell_count()).as_bytes())?;
        text.extend_from_slice(b" cells, ")?;
        text.extend_from_slice(Buffer::new().format(workbook.formula_count()).as_bytes())?;
        text.extend_from_slice(b" formulas\n")?;
    }
    Ok(text)
}

fn recalculate<W: Watcher>(alloc: Global, session: &mut Session<W>) -> Result<Reply, NoMemory>
    ensures { Replies result (session_of session.new) (accepted
        (recalculated (session_of session.old)) (recalculation (session_of session.old))) }
{
    let done = session.recalculate(alloc)?;
    let mut text = Vec::new(alloc);
    text.extend_from_slice(b"recalculated ")?;
    text.extend_from_slice(Buffer::new().format(done.stale).as_bytes())?;
    text.push(b'\n')?;
    Ok(accept(text))
}

fn print_shown<W: Watcher>(
    alloc: Global,
    session: &mut Session<W>,
    area: Area,
) -> Result<Reply, NoMemory>
    ensures { Replies result (session_of session.new) (accepted
        (recalculated (session_of session.old))
        (printed_area (shown_texts (val (session_of session.old).book)) area)) }
{
    session.recalculate(alloc)?;
    let shown = Shown {
        workbook: &session.workbook,
    };
    Ok(accept(print_area(alloc, &shown, area)?))
}

fn print_held<W: Watcher>(
    alloc: Global,
    session: &Session<W>,
    area: Area,
) -> Result<Reply, NoMemory>
    ensures { Replies result (session_of session.now) (accepted (session_of session.now)
        (printed_area (held_texts (session_of session.now).book) area)) }
{
    let held = Held {
        workbook: &session.workbook,
    };
    Ok(accept(print_area(alloc, &held, area)?))
}

fn list_groups<W: Watcher>(
    alloc: Global,
    session: &Session<W>,
    sheet: u8,
    col: u16,
) -> Result<Reply, NoMemory>
    requires { IsSheetColumn sheet col }
    ensures { Replies result (session_of session.now) (accepted (session_of session.now)
        (groups_text (session_of session.now).book sheet col)) }
{
    Ok(accept(group_lines(alloc, &session.workbook, sheet, col)?))
}

fn list_blocks<W: Watcher>(
    alloc: Global,
    session: &Session<W>,
    sheet: u8,
    col: u16,
) -> Result<Reply, NoMemory>
    requires { IsSheetColumn sheet col }
    ensures { Replies result (session_of session.now) (accepted (session_of session.now)
        (blocks_text (session_of session.now).book sheet col)) }
{
    Ok(accept(block_lines(alloc, &session.workbook, sheet, col)?))
}

fn watch<W: Watcher>(
    alloc: Global,
    session: &mut Session<W>,
    number: usize,
    area: Area,
) -> Result<Reply, NoMemory>
    ensures { Replies result (session_of session.new)
        (done (session_of session.old) number (Command.Watch area)) }
{
    if session.watch(alloc, area)? {
        Ok(accept(Vec::new(alloc)))
    } else {
        refuse(alloc, number, Cause::NoWatcher)
    }
}

fn tell<W: Watcher>(alloc: Global, session: &Session<W>, number: usize) -> Result<Reply, NoMemory>
    ensures { Replies result (session_of session.now)
        (done (session_of session.now) number Command.Told) }
{
    let mut text = Vec::new(alloc);
    if session.describe(&mut text)? {
        Ok(accept(text))
    } else {
        refuse(alloc, number, Cause::NoWatcher)
    }
}

fn unwatch<W: Watcher>(
    alloc: Global,
    session: &mut Session<W>,
    number: usize,
) -> Result<Reply, NoMemory>
    ensures { Replies result (session_of session.new)
        (done (session_of session.old) number Command.Unwatch) }
{
    if session.unwatch() {
        Ok(accept(Vec::new(alloc)))
    } else {
        refuse(alloc, number, Cause::NoWatcher)
    }
}

fn accept(text: Vec<u8>) -> Reply
    ensures text { result.text.items ≡ text.items }
    ensures refused { result.refused ≡ false }
{
    Reply {
        text,
        refused: false,
    }
}

/// What a refused line writes.
fn refuse(alloc: Global, number: usize, cause: Cause) -> Result<Reply, NoMemory>
    ensures text { IfOk result (λ reply. reply.text.items ≡ refusal_text number cause) }
    ensures refused { IfOk result (λ reply. reply.refused ≡ true) }
{
    let mut text = Vec::new(alloc);
    text.extend_from_slice(b"line ")?;
    text.extend_from_slice(Buffer::new().format(number).as_bytes())?;
    text.extend_from_slice(b" refused: ")?;
    text.extend_from_slice(cause.word().as_bytes())?;
    text.push(b'\n')?;
    Ok(Reply {
        text,
        refused: true,
    })
}
