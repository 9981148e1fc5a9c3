//! The cells that edits touched since the last recalculation.
ghost use Rattle.std.specs.Prelude.{ℕ, ◌≡◌, ◌||◌, ◌++◌, ◌∷◌, [], List, true, false, not, IfOk, IfSome, OnOk, OnErr};
ghost use Rattle.std.specs.BTreeMap.{is_at};
ghost use Rattle.std.specs.BTreeSet.{insert_key};
ghost use Rattle.std.specs.Set.{remove_key};
ghost use Rattle.std.specs.List.{list_any};
ghost use Rattle.std.specs.Ordering.{eq_by_cmp};
ghost use Rattle.calc_addr.specs.Places.{Place, Rectangle, covers, place_cmp};
ghost use Rattle.calc_model.specs.UsedNames.{is_same_name};
ghost use Rattle.workbook.specs.Touched.{contains_cell, has_name, lies_in};

use crate::names::NameSet;
use calc_addr::{Area, Cell, NoMemory};
use calc_model::Text;
use std::alloc::Global;
use std::collections::BTreeSet;
use std::marker::Model;

/// Some cells of all sheets: every one, or single cells, the cells of areas, and those whose formulas use
/// some names. Contracts see its parts; `lies_in` says which cells it has by another way than by a name.
#[derive(Drop)]
pub(crate) struct Touched {
    /// It has every cell.
    all: bool,
    cells: BTreeSet<Cell>,
    areas: Vec<Area>,
    names: NameSet,
}

impl Model for Touched {
    ghost use Rattle.workbook.specs.Touched.{Parts};

    ghost Value = { Parts };

    ghost view = { λ t. record {
      all = t.all;
      cells = t.cells.keys;
      areas = t.areas.items;
      names = t.names;
    } };
}

#[tactic(auto, unfolding(crate::specs::Touched::lies_in), using(crate::proofs::Sets::more))]
impl Touched {
    /// Every cell.
    pub(crate) fn all(alloc: Global) -> Touched
        ensures cells { (q : Place) → lies_in result q ≡ true }
        ensures names { result.names ≡ [] }
    {
        Touched {
            all: true,
            cells: BTreeSet::new(alloc),
            areas: Vec::new(alloc),
            names: NameSet::new(alloc),
        }
    }

    /// No cell.
    pub(crate) fn none(alloc: Global) -> Touched
        ensures cells { (q : Place) → lies_in result q ≡ false }
        ensures names { result.names ≡ [] }
    {
        Touched {
            all: false,
            cells: BTreeSet::new(alloc),
            areas: Vec::new(alloc),
            names: NameSet::new(alloc),
        }
    }

    /// Adds the cell, and answers whether it wasn't among the single cells.
    pub(crate) fn add_cell(&mut self, cell: Cell) -> Result<bool, NoMemory>
        ensures touched { OnOk result ((q : Place) →
            lies_in self.new q ≡ (lies_in self.old q || eq_by_cmp place_cmp cell q)) }
        ensures parts { OnOk result
            (self.new ≡ record self.old { cells = insert_key place_cmp self.old.cells cell }) }
        ensures added { IfOk result (λ added. added ≡ not (contains_cell self.old.cells cell)) }
        ensures there { IfOk result (λ added. added ≡ false → self.new ≡ self.old) }
        ensures err { OnErr result (self.new ≡ self.old) }
    {
        let added = self.cells.insert(cell)?;
        Ok(added)
    }

    /// Takes the cell out of the single cells.
    pub(crate) fn remove_cell(&mut self, cell: Cell)
        ensures { self.new
            ≡ record self.old { cells = remove_key (is_at (place_cmp cell)) self.old.cells } }
    {
        self.cells.remove(&cell);
    }

    /// Adds the cells of the area: a single cell among these, and else the area.
    pub(crate) fn add_area(&mut self, area: Area) -> Result<(), NoMemory>
        ensures touched { OnOk result ((q : Place) →
            lies_in self.new q ≡ (lies_in self.old q || covers area q)) }
        ensures names { self.new.names ≡ self.old.names }
        ensures err { OnErr result (self.new ≡ self.old) }
    {
        match only_cell(area) {
            Some(cell) => {
                self.add_cell(cell)?;
            }
            None => self.areas.push(area)?,
        }
        Ok(())
    }

    /// Adds the cells of an area as an area.
    pub(crate) fn push_area(&mut self, area: Area) -> Result<(), NoMemory>
        ensures touched { OnOk result ((q : Place) →
            lies_in self.new q ≡ (lies_in self.old q || covers area q)) }
        ensures parts { OnOk result
            (self.new ≡ record self.old { areas = self.old.areas ++ area ∷ [] }) }
        ensures err { OnErr result (self.new ≡ self.old) }
    {
        self.areas.push(area)?;
        Ok(())
    }

    /// Takes away the area that was added last.
    pub(crate) fn pop_area(&mut self)
        ensures { (areas : List Rectangle) (last : Rectangle) → self.old.areas ≡ areas ++ last ∷ []
            → self.new ≡ record self.old { areas = areas } }
    {
        self.areas.pop();
    }

    /// Adds the cells whose formulas use the name.
    pub(crate) fn add_name(&mut self, alloc: Global, name: &Text) -> Result<(), NoMemory>
        ensures cells { (q : Place) → lies_in self.new q ≡ lies_in self.old q }
        ensures names { OnOk result ((other : List ℕ) → has_name self.new.names other
            ≡ (has_name self.old.names other || is_same_name name.now other)) }
    {
        self.names.insert(alloc, name)
    }

    /// The names whose users it has.
    pub(crate) fn names(&self) -> &NameSet
        ensures { result.now ≡ self.now.names }
    {
        &self.names
    }

    /// Whether it has every cell.
    pub(crate) fn is_all(&self) -> bool
        ensures { result ≡ self.now.all }
    {
        self.all
    }

    /// Its areas, and those of its single cells, where it hasn't every cell.
    pub(crate) fn areas(&self, alloc: Global) -> Result<Vec<Area>, NoMemory>
        requires { self.now.all ≡ false }
        ensures { IfOk result (λ areas. (q : Place) → list_any (λ area. covers area q) areas.items
            ≡ lies_in self.now q) }
    {
        let mut areas = Vec::new(alloc);
        areas.extend_from_slice(&self.areas)?;
        for cell in &self.cells {
            areas.push(area_of(*cell))?;
        }
        Ok(areas)
    }
}

/// The area of a cell alone.
pub(crate) fn area_of(cell: Cell) -> Area
    ensures { (q : Place) → covers result q ≡ eq_by_cmp place_cmp q cell }
{
    Area {
        sheet: cell.sheet,
        first_col: cell.col,
        last_col: cell.col,
        first_row: cell.row,
        last_row: cell.row,
    }
}

/// The cell of an area that has one.
fn only_cell(area: Area) -> Option<Cell>
    ensures { IfSome result (λ cell. (q : Place) → covers area q ≡ eq_by_cmp place_cmp cell q) }
{
    if area.first_col == area.last_col && area.first_row == area.last_row {
        Some(area.corner())
    } else {
        None
    }
}
