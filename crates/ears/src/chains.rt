ghost use Rattle.std.specs.Prelude.{◌≡◌};
ghost use Rattle.ears.specs.Chains.{is_across, reads_above, reads_below};

use calc_addr::{Area, Run};
use calc_model::Ear;

/// Whether the run lies in a column of the area.
fn is_across(run: &Run, area: &Area) -> bool
    ensures { result ≡ is_across run.now area.now }
{
    run.sheet == area.sheet && (area.first_col <= run.col && run.col <= area.last_col)
}

/// Whether each row of a run but the first one reads the cell above it by that reference.
pub fn reads_above(run: &Run, ear: &Ear) -> bool
    ensures { result ≡ reads_above run.now ear.now }
{
    let area = &ear.area;
    let first = area.first_row + u32::from(ear.first_moves);
    let last = if ear.last_moves { run.first } else { run.last };
    is_across(run, area) && first <= run.first && last <= area.last_row + 1
}

/// Whether each row of a run but the last one reads the cell below it by that reference.
pub fn reads_below(run: &Run, ear: &Ear) -> bool
    ensures { result ≡ reads_below run.now ear.now }
{
    let area = &ear.area;
    let last = if ear.last_moves {
        run.first + 1
    } else {
        run.last
    };
    is_across(run, area) && area.first_row <= run.first + 1 && last <= area.last_row
}
