ghost use Rattle.std.specs.Prelude.{◌≡◌, ◌≤◌, ◌+◌, ◌-◌, ◌<◌};
ghost use Rattle.calc_addr.specs.Places.{IsRectangle};
ghost use Rattle.ears.specs.RunAreas.{meets};
ghost use Rattle.area_listeners.specs.Spots.{area_of, class_of, height, is_narrow, level_of, spot_of};

use crate::listener::Listener;
use calc_addr::{Area, LAST_ROW};

/// The most rows of an area grow by this factor from a level to the next one.
const GROWTH: u32 = 4;

/// The level of areas with up to all rows of a sheet.
const LAST_LEVEL: u32 = 10;

/// A level has a class of areas in one column, and one of areas in several.
pub(crate) const CLASSES: usize = 22;

/// A listener where it stands: in its class by column, and there by first row. Areas in several columns
/// stand in column 0.
#[derive(Clone, Copy, Debug, PartialEq, Eq, PartialOrd, Ord)]
pub(crate) struct Spot {
    pub class: u32,
    pub sheet: u8,
    pub column: u16,
    pub first_row: u32,
    pub last_row: u32,
    pub first_col: u16,
    pub last_col: u16,
    pub id: usize,
}

/// How many rows an area of a level has at most.
pub(crate) fn height(level: u32) -> u32
    requires { level ≤ LAST_LEVEL }
    ensures rows { result ≡ height level }
    ensures within { result ≤ LAST_ROW }
{
    GROWTH.pow(level)
}

/// The first level that has areas of so many rows.
fn level_of(rows: u32) -> u32
    ensures level { result ≡ level_of rows }
    ensures within { result ≤ LAST_LEVEL }
{
    let mut level = 0;
    while level < LAST_LEVEL && height(level) < rows {
        level += 1;
    }
    level
}

fn is_narrow(area: &Area) -> bool
    ensures { result ≡ is_narrow area.now }
{
    area.first_col == area.last_col
}

/// The class of an area.
fn class_of(area: &Area) -> u32
    ensures class { result ≡ class_of area.now }
    ensures within { result < CLASSES }
{
    let level = level_of(area.last_row + 1 - area.first_row);
    let wide = u32::from(!is_narrow(area));
    2 * level + wide
}

/// Where a listener stands.
pub(crate) fn spot_of(listener: &Listener) -> Spot
    ensures spot { result ≡ spot_of listener.now }
    ensures class { result.class < CLASSES }
    ensures valid { IsRectangle (area_of result) }
{
    let area = &listener.area;
    Spot {
        class: class_of(area),
        sheet: area.sheet,
        column: if is_narrow(area) { area.first_col } else { 0 },
        first_row: area.first_row,
        last_row: area.last_row,
        first_col: area.first_col,
        last_col: area.last_col,
        id: listener.id,
    }
}

/// Whether the area of a listener has a cell of another one.
pub(crate) fn meets(spot: &Spot, area: &Area) -> bool
    ensures { result ≡ meets (area_of spot.now) area.now }
{
    spot.sheet == area.sheet
        && (spot.first_col <= area.last_col && area.first_col <= spot.last_col)
        && (spot.first_row <= area.last_row && area.first_row <= spot.last_row)
}
