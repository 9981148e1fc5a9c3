ghost use Rattle.std.specs.Prelude.{◌≡◌, ◌&&◌, ◌||◌, ◌≤◌, ◌-◌, ◌==◌, not, OnOk};
ghost use Rattle.std.specs.List.{All};
ghost use Rattle.calc_addr.specs.Places.{IsRows};
ghost use Rattle.ears.specs.RunAreas.{LieInSheet};
ghost use Rattle.area_listeners.specs.Pairs.{holds};
ghost use Rattle.registration_slab.specs.Slab.{area_of, is_heard, steps_of};

use area_listeners::{AreaListeners, Listener};
use calc_addr::{Area, NoMemory, Run};
use calc_model::Ear;
use ears::hull;

/// The area of a run.
pub fn area_of(run: &Run) -> Area
    ensures { result ≡ area_of run.now }
{
    Area {
        sheet: run.sheet,
        first_col: run.col,
        last_col: run.col,
        first_row: run.first,
        last_row: run.last,
    }
}

/// How far the last row of a run lies below its first one.
pub fn steps_of(run: &Run) -> u32
    ensures steps { result ≡ steps_of run.now }
    ensures rows { IsRows run.now }
{
    run.last - run.first
}

/// How far a row lies below the first one of a run.
pub fn steps_before(run: &Run, row: u32) -> u32
    requires { run.now.first ≤ row }
    ensures { result ≡ row - run.now.first }
{
    row - run.first
}

/// Listens, by that id, to what the rows of a run read.
pub(crate) fn listen(
    listeners: &mut AreaListeners,
    ears: &[Ear],
    steps: u32,
    id: usize,
) -> Result<(), NoMemory>
    requires { All (LieInSheet steps) ears.now }
    ensures { OnOk result ((l : Listener) → holds listeners.new l
        ≡ (holds listeners.old l || ((l.id == id) && is_heard ears.now steps l.area))) }
{
    for ear in ears {
        let area = hull(ear, steps);
        listeners.add(&Listener { area, id })?;
    }
    Ok(())
}

/// Listens no more, by that id, to what the rows of a run read.
pub(crate) fn listen_no_more(listeners: &mut AreaListeners, ears: &[Ear], steps: u32, id: usize)
    requires { All (LieInSheet steps) ears.now }
    ensures { (l : Listener) → holds listeners.new l
        ≡ (holds listeners.old l && not ((l.id == id) && is_heard ears.now steps l.area)) }
{
    for ear in ears {
        let area = hull(ear, steps);
        listeners.remove(&Listener { area, id });
    }
}
