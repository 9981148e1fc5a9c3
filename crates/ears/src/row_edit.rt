ghost use Rattle.std.specs.Option.{ForSome};
ghost use Rattle.std.specs.Prelude.{◌==◌, ◌≡◌, ◌≤◌, ◌+◌, ◌-◌, min};
ghost use Rattle.calc_addr.specs.Shifts.{is_deleted};
ghost use Rattle.ears.specs.Limits.{limit, second_border, whole_of_run, whole_on_sheet};
ghost use Rattle.ears.specs.RowEdits.{GoTogether, IsRowEdit, RowsGoTogether, area_by, ear_after, first_goes, last_goes, row_by, run_after};
ghost use Rattle.ears.specs.RunAreas.{LieInSheet};

use calc_addr::{Area, LAST_ROW, Run, delete_row_area, insert_row_area};
use calc_model::Ear;

/// Whether rows are inserted or deleted.
#[derive(Clone, Copy, Debug, PartialEq, Eq)]
pub enum Change {
    Insertion,
    Deletion,
}

/// Rows of a sheet that are inserted or deleted: `count` rows from the row `place` on.
#[derive(Clone, Copy, Debug, PartialEq, Eq)]
pub struct RowEdit {
    pub change: Change,
    pub sheet: u8,
    pub place: u32,
    pub count: u32,
}

/// An area on the edited sheet.
fn area_by(edit: &RowEdit, area: Area) -> Option<Area>
    requires { IsRowEdit edit.now }
    ensures { result ≡ area_by edit.now.change edit.now.place edit.now.count area }
{
    match edit.change {
        Change::Insertion => insert_row_area(area, edit.place, edit.count),
        Change::Deletion => delete_row_area(area, edit.place, edit.count),
    }
}

fn is_deleted(edit: &RowEdit, row: u32) -> bool
    requires { IsRowEdit edit.now }
    ensures { result ≡ is_deleted edit.now.place edit.now.count row }
{
    edit.place <= row && row < edit.place + edit.count
}

fn first_goes(edit: &RowEdit, row: u32) -> bool
    requires { IsRowEdit edit.now }
    ensures { result ≡ first_goes edit.now.change edit.now.place edit.now.count row }
{
    match edit.change {
        Change::Insertion => true,
        Change::Deletion => !is_deleted(edit, row),
    }
}

fn last_goes(edit: &RowEdit, row: u32) -> bool
    requires edit { IsRowEdit edit.now }
    requires row { row ≤ LAST_ROW }
    ensures { result ≡ last_goes edit.now.change edit.now.place edit.now.count row }
{
    match edit.change {
        Change::Insertion => row < edit.place || row + edit.count <= LAST_ROW,
        Change::Deletion => !is_deleted(edit, row),
    }
}

/// What becomes of the ear of rows whose areas all go as the first one does, if they aren't deleted.
pub fn ear_after(edit: &RowEdit, ear: &Ear) -> Option<Ear>
    requires { IsRowEdit edit.now }
    ensures { result ≡ ear_after edit.now ear.now }
{
    let area = ear.area;
    if area.sheet != edit.sheet {
        return Some(Ear {
            area,
            first_moves: ear.first_moves,
            last_moves: ear.last_moves,
        });
    }
    let first_moves = ear.first_moves && first_goes(edit, area.first_row);
    let last_moves = ear.last_moves && last_goes(edit, area.last_row);
    Some(Ear {
        area: area_by(edit, area)?,
        first_moves,
        last_moves,
    })
}

/// Whether the ear's areas lie on the edited sheet.
fn is_on_sheet(edit: &RowEdit, ear: &Ear) -> bool
    ensures { result ≡ (ear.now.area.sheet == edit.now.sheet) }
{
    ear.area.sheet == edit.sheet
}

/// How many of so many rows the end is before the border in, if it is before it in the first one.
fn limit(moves: bool, row: u32, border: u32, steps: u32) -> u32
    ensures { result ≡ limit moves row border steps }
{
    if moves && row < border {
        steps.min(border - 1 - row)
    } else {
        steps
    }
}

/// Where the rows begin that an insertion pushes out, or that stay behind deleted ones.
fn second_border(edit: &RowEdit) -> u32
    requires { IsRowEdit edit.now }
    ensures { result ≡ second_border edit.now.change edit.now.place edit.now.count }
{
    match edit.change {
        Change::Insertion => LAST_ROW + 1 - edit.count,
        Change::Deletion => edit.place + edit.count,
    }
}

/// How far down the ends of an area of the edited sheet stay on their sides of all borders.
fn whole_on_sheet(edit: &RowEdit, ear: &Ear, steps: u32) -> u32
    requires { IsRowEdit edit.now }
    ensures { result ≡ whole_on_sheet edit.now ear.now steps }
{
    let area = &ear.area;
    let border = second_border(edit);
    let whole = limit(ear.first_moves, area.first_row, 2, steps);
    let whole = limit(ear.first_moves, area.first_row, edit.place, whole);
    let whole = limit(ear.first_moves, area.first_row, border, whole);
    let whole = limit(ear.last_moves, area.last_row, edit.place, whole);
    let whole = limit(ear.last_moves, area.last_row, border, whole);
    limit(ear.last_moves, area.last_row, LAST_ROW, whole)
}

/// How far down, to the row `steps` rows below the first one of a run, the areas of its rows go as that of
/// the first one does.
pub fn whole_steps(edit: &RowEdit, ear: &Ear, steps: u32) -> u32
    requires edit { IsRowEdit edit.now }
    requires run { LieInSheet steps ear.now }
    ensures within { result ≤ steps }
    ensures together { GoTogether edit.now ear.now result }
{
    let here = is_on_sheet(edit, ear);
    if here {
        whole_on_sheet(edit, ear, steps)
    } else {
        steps
    }
}

/// How far down the rows of a run stay on their sides of both borders.
fn whole_of_run(edit: &RowEdit, run: &Run) -> u32
    requires { IsRowEdit edit.now }
    ensures { result ≡ whole_of_run edit.now run.now }
{
    let whole = limit(true, run.first, edit.place, run.last - run.first);
    limit(true, run.first, second_border(edit), whole)
}

/// How far down the rows of a run go as the first one does.
pub fn whole_rows(edit: &RowEdit, run: &Run) -> u32
    requires { IsRowEdit edit.now }
    ensures within { result ≤ run.now.last - run.now.first }
    ensures together { RowsGoTogether edit.now run.now result }
{
    let here = run.sheet == edit.sheet;
    if here {
        whole_of_run(edit, run)
    } else {
        run.last - run.first
    }
}

/// Where a row of the edited sheet goes, if it isn't deleted.
fn row_by(edit: &RowEdit, row: u32) -> Option<u32>
    requires edit { IsRowEdit edit.now }
    requires row { row ≤ LAST_ROW }
    ensures { result ≡ row_by edit.now.change edit.now.place edit.now.count row }
{
    if row < edit.place {
        return Some(row);
    }
    match edit.change {
        Change::Insertion => Some(row + edit.count),
        Change::Deletion if row < edit.place + edit.count => None,
        Change::Deletion => Some(row - edit.count),
    }
}

/// What becomes of a run whose rows go as the first one does, if they aren't deleted.
pub fn run_after(edit: &RowEdit, run: &Run) -> Option<Run>
    requires edit { IsRowEdit edit.now }
    requires stays { ForSome (run_after edit.now run.now) (λ r. r.last ≤ LAST_ROW) }
    ensures { result ≡ run_after edit.now run.now }
{
    let here = run.sheet == edit.sheet;
    if !here {
        return Some(*run);
    }
    let steps = run.last - run.first;
    let first = row_by(edit, run.first)?;
    Some(Run {
        sheet: run.sheet,
        col: run.col,
        first,
        last: first + steps,
    })
}
