ghost use Rattle.std.specs.Prelude.{◌≡◌, ◌≤◌, ◌<◌, ◌&&◌, ◌||◌, ℕ, length, OnOk};
ghost use Rattle.std.specs.List.{All, list_any};
ghost use Rattle.area_listeners.specs.Pairs.{has_id};
ghost use Rattle.area_listeners.specs.Spots.{IsInUse, IsPlaced, corner, is_between, is_met, is_met_in, window_of};

use crate::spot::{CLASSES, Spot, height, meets};
use calc_addr::{Area, LAST_COL, NoMemory};
use smallvec::SmallVec;
use std::collections::BTreeSet;

/// Listeners by where they stand.
pub(crate) type Spots = BTreeSet<Spot>;

/// Ids of listeners, of which eight take no memory of their own.
pub type Ids = SmallVec<usize, 8>;

/// To look for the first listener of a column costs about as much as to go over so many.
const COLUMN_COST: usize = 16;

/// Where the areas of a class can stand that have a cell of an area: in the columns from `left` to
/// `right`, and there in the rows from `first` to before `end`.
#[derive(Clone, Copy, Debug)]
struct Window {
    class: u32,
    sheet: u8,
    left: u16,
    right: u16,
    first: u32,
    end: u32,
}

fn window_of(class: u32, area: &Area) -> Window
    requires { class < CLASSES }
    ensures window { result ≡ window_of class area.now }
    ensures columns { result.left ≤ result.right }
    ensures rows { result.first ≤ result.end }
    ensures right { result.right ≤ LAST_COL }
{
    let first = (area.first_row + 1).saturating_sub(height(class / 2));
    let end = area.last_row + 1;
    let (left, right) = if class % 2 == 0 {
        (area.first_col, area.last_col)
    } else {
        (0, 0)
    };
    Window {
        class,
        sheet: area.sheet,
        left,
        right,
        first,
        end,
    }
}

/// In front of all listeners that stand in a row of a column.
fn corner(window: &Window, column: u16, row: u32) -> Spot
    ensures { result ≡ corner window.now column row }
{
    Spot {
        class: window.class,
        sheet: window.sheet,
        column,
        first_row: row,
        last_row: 0,
        first_col: 0,
        last_col: 0,
        id: 0,
    }
}

/// Appends the id of a listener if its area has a cell of an area.
fn push_met(spot: &Spot, area: &Area, out: &mut Ids) -> Result<(), NoMemory>
    ensures { OnOk result ((i : ℕ) → has_id out.new.items i
        ≡ (has_id out.old.items i || is_met area.now i spot.now)) }
{
    if meets(spot, area) {
        out.push(spot.id)?;
    }
    Ok(())
}

/// Appends the ids of the listeners in the columns from `left` to `right` whose areas have a cell of an
/// area, some of them more than once.
fn push_columns(
    spots: &Spots,
    window: &Window,
    left: u16,
    right: u16,
    area: &Area,
    out: &mut Ids,
) -> Result<(), NoMemory>
    requires columns { left ≤ right }
    requires rows { window.now.first ≤ window.now.end }
    ensures { OnOk result ((i : ℕ) → has_id out.new.items i ≡ (has_id out.old.items i
        || list_any (λ s. is_between window.now left right s && is_met area.now i s) spots.now.keys)) }
{
    let low = corner(window, left, window.first);
    let high = corner(window, right, window.end);
    for spot in spots.range(low..high) {
        push_met(spot, area, out)?;
    }
    Ok(())
}

/// The same of all columns of a window, one after the other.
fn push_each_column(
    spots: &Spots,
    window: &Window,
    area: &Area,
    out: &mut Ids,
) -> Result<(), NoMemory>
    requires placed { All IsPlaced spots.now.keys }
    requires window { window.now ≡ window_of window.now.class area.now }
    requires rows { window.now.first ≤ window.now.end }
    requires columns { window.now.left ≤ window.now.right }
    requires right { window.now.right ≤ LAST_COL }
    ensures { OnOk result ((i : ℕ) → has_id out.new.items i ≡ (has_id out.old.items i
        || list_any (is_met_in window.now.class area.now i) spots.now.keys)) }
{
    for column in window.left..window.right + 1 {
        push_columns(spots, window, column, column, area, out)?;
    }
    Ok(())
}

/// The same at one go.
fn push_window(spots: &Spots, window: &Window, area: &Area, out: &mut Ids) -> Result<(), NoMemory>
    requires placed { All IsPlaced spots.now.keys }
    requires window { window.now ≡ window_of window.now.class area.now }
    requires rows { window.now.first ≤ window.now.end }
    requires columns { window.now.left ≤ window.now.right }
    ensures { OnOk result ((i : ℕ) → has_id out.new.items i ≡ (has_id out.old.items i
        || list_any (is_met_in window.now.class area.now i) spots.now.keys)) }
{
    push_columns(spots, window, window.left, window.right, area, out)?;
    Ok(())
}

/// Appends the ids of the listeners of a class whose areas have a cell of an area, some of them more than
/// once.
fn push_class(spots: &Spots, class: u32, area: &Area, out: &mut Ids) -> Result<(), NoMemory>
    requires placed { All IsPlaced spots.now.keys }
    requires class { class < CLASSES }
    ensures { OnOk result ((i : ℕ) → has_id out.new.items i ≡ (has_id out.old.items i
        || list_any (is_met_in class area.now i) spots.now.keys)) }
{
    let window = window_of(class, area);
    let more = usize::from(window.right - window.left);
    if more == 0 || more >= spots.len() / COLUMN_COST {
        push_window(spots, &window, area, out)
    } else {
        push_each_column(spots, &window, area, out)
    }
}

/// The same of a class that may not be in use.
fn push_if_used(
    spots: &Spots,
    used: &[bool],
    class: usize,
    area: &Area,
    out: &mut Ids,
) -> Result<(), NoMemory>
    requires placed { All IsPlaced spots.now.keys }
    requires in_use { All (IsInUse used.now) spots.now.keys }
    requires classes { length used.now ≡ CLASSES }
    requires class { class < CLASSES }
    ensures { OnOk result ((i : ℕ) → has_id out.new.items i ≡ (has_id out.old.items i
        || list_any (is_met_in class area.now i) spots.now.keys)) }
{
    if used[class] {
        push_class(spots, class as u32, area, out)?;
    }
    Ok(())
}

/// Appends the ids of all listeners whose areas have a cell of an area, some of them more than once.
pub(crate) fn push_all(
    spots: &Spots,
    used: &[bool],
    area: &Area,
    out: &mut Ids,
) -> Result<(), NoMemory>
    requires placed { All IsPlaced spots.now.keys }
    requires in_use { All (IsInUse used.now) spots.now.keys }
    requires classes { length used.now ≡ CLASSES }
    ensures { OnOk result ((i : ℕ) → has_id out.new.items i ≡ (has_id out.old.items i
        || list_any (is_met area.now i) spots.now.keys)) }
{
    for class in 0..CLASSES {
        push_if_used(spots, used, class, area, out)?;
    }
    Ok(())
}
