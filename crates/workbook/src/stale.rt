//! Which formulas are stale: those that are touched or reach a touched cell by reading.
ghost use Rattle.std.specs.Prelude.{◌≡◌, ◌≤◌, ◌&&◌, ◌||◌, false, true, IfOk, OnOk};
ghost use Rattle.std.specs.List.{AllPairs, list_any};
ghost use Rattle.std.specs.Ordering.{eq_by_cmp};
ghost use Rattle.calc_addr.specs.Places.{IsBefore, Place, covers, place_cmp};
ghost use Rattle.calc_model.specs.Books.{content_at};
ghost use Rattle.calc_model.specs.Stale.{count_in, is_formula_cell};
ghost use Rattle.dirty_spread.specs.Waves.{has};
ghost use Rattle.formula_listeners.specs.Held.{HoldsReads};
ghost use Rattle.listener_hub.specs.Hubs.{areas_read};
ghost use Rattle.workbook.specs.Touched.{is_stale, is_touched, uses_any};

use crate::names::NameSet;
use crate::touched::{Touched, area_of};
use book_parts::BookParts;
use calc_addr::{Area, Cell, NoMemory};
use cell_runs::CellRuns;
use dirty_spread::spread;
use listener_hub::Hub;
use std::alloc::Global;

/// The formulas of a book that are touched or reach a touched cell by reading, in the order of cells. It
/// asks the hub for the readers of each stale cell, in whole runs where they read alike, and is linear in
/// the groups of the book. Where names are touched it goes over all formulas. `workers` is how many threads
/// may search.
pub(crate) fn stale_cells(
    alloc: Global,
    workers: u32,
    parts: &BookParts,
    hub: &Hub,
    touched: &Touched,
) -> Result<CellRuns, NoMemory>
    requires holds { HoldsReads (areas_read hub.now) parts.now }
    requires ready { hub.now.spent ≡ false }
    requires some { 1 ≤ workers }
    requires few { workers ≤ 64 }
    ensures in_order { IfOk result (λ cells. AllPairs IsBefore cells) }
    ensures cells { IfOk result (λ cells. (q : Place) → has cells q
        ≡ is_stale parts.now touched.now q) }
{
    parts.are_book();
    let formulas = parts.formula_cells(alloc)?;
    if touched.is_all() {
        return Ok(formulas);
    }
    let areas = touched_areas(alloc, parts, &formulas, touched)?;
    spread(alloc, workers, &areas, &formulas, hub)
}

/// How many formulas of a book are touched or reach a touched cell by reading.
pub(crate) fn count_stale(
    alloc: Global,
    parts: &BookParts,
    hub: &Hub,
    touched: &Touched,
) -> Result<usize, NoMemory>
    requires holds { HoldsReads (areas_read hub.now) parts.now }
    requires ready { hub.now.spent ≡ false }
    ensures { IfOk result (λ count. count
        ≡ count_in parts.now (is_stale parts.now touched.now)) }
{
    parts.are_book();
    let stale = stale_cells(alloc, 1, parts, hub, touched)?;
    Ok(stale.len())
}

/// Areas of the touched cells, where these aren't all.
fn touched_areas(
    alloc: Global,
    parts: &BookParts,
    formulas: &CellRuns,
    touched: &Touched,
) -> Result<Vec<Area>, NoMemory>
    requires some { touched.now.all ≡ false }
    requires formulas { (q : Place) → has formulas.now q ≡ is_formula_cell parts.now q }
    ensures { IfOk result (λ areas. (q : Place) → list_any (λ area. covers area q) areas.items
        ≡ is_touched parts.now touched.now q) }
{
    let mut areas = touched.areas(alloc)?;
    push_users(alloc, parts, formulas, touched.names(), &mut areas)?;
    Ok(areas)
}

/// Appends the area of each of the formulas that uses one of the names. Linear in the formulas, and the
/// logarithm of the names for each name in them; where there is no name it takes no time.
fn push_users(
    alloc: Global,
    parts: &BookParts,
    formulas: &CellRuns,
    names: &NameSet,
    areas: &mut Vec<Area>,
) -> Result<(), NoMemory>
    requires { (q : Place) → has formulas.now q ≡ is_formula_cell parts.now q }
    ensures { OnOk result ((q : Place) → list_any (λ area. covers area q) areas.new.items
        ≡ (list_any (λ area. covers area q) areas.old.items
        || uses_any names.now (content_at parts.now q))) }
{
    if names.is_empty() {
        return Ok(());
    }
    let mut key = String::new(alloc);
    for place in 0..formulas.len() {
        if let Some(cell) = formulas.cell(place) {
            push_user(alloc, parts, cell, names, &mut key, areas)?;
        }
    }
    Ok(())
}

/// Appends the area of the cell where its formula uses one of the names.
fn push_user(
    alloc: Global,
    parts: &BookParts,
    cell: Cell,
    names: &NameSet,
    key: &mut String,
    areas: &mut Vec<Area>,
) -> Result<(), NoMemory>
    ensures { OnOk result ((q : Place) → list_any (λ area. covers area q) areas.new.items
        ≡ (list_any (λ area. covers area q) areas.old.items
        || (eq_by_cmp place_cmp q cell && uses_any names.now (content_at parts.now q)))) }
{
    let content = parts.content(alloc, cell)?;
    if names.is_used_by(&content, key)? {
        areas.push(area_of(cell))?;
    }
    Ok(())
}
