ghost use Rattle.std.specs.Prelude.{◌≡◌, ◌≤◌, ◌<◌, ◌+◌, ◌-◌, true, ℕ};
ghost use Rattle.std.specs.List.{list_any};
ghost use Rattle.calc_addr.specs.Places.{IsRectangle, Place, Rectangle, Rows, covers, places};
ghost use Rattle.calc_model.specs.Ears.{ReadArea, area_at};
ghost use Rattle.ears.specs.Chains.{ReadsRow, reads_above, reads_below};
ghost use Rattle.ears.specs.RunAreas.{LieInSheet, hull, meets};

/// Two areas meet exactly where one of them has a cell of the other.
pub fn areas_meet_in_a_cell()
    ensures { (a b : Rectangle) → IsRectangle a → IsRectangle b
        → list_any (covers a) (places b) ≡ meets a b }
{}

/// The hull of a run has the area of each row, which lies in the sheet.
pub fn hulls_hold_the_areas()
    ensures inside { (ear : ReadArea) (steps step : ℕ) → LieInSheet steps ear → step ≤ steps
        → IsRectangle (area_at ear step) }
    ensures held { (ear : ReadArea) (steps step : ℕ) (p : Place) → step ≤ steps
        → covers (area_at ear step) p ≡ true → covers (hull ear steps) p ≡ true }
{}

/// In a run whose rows read the ones above, or below, them each row does.
pub fn chains_go_on()
    ensures above { (run : Rows) (ear : ReadArea) (step : ℕ) → reads_above run ear ≡ true
        → run.first + step < run.last → ReadsRow run ear (step + 1) (run.first + step) }
    ensures below { (run : Rows) (ear : ReadArea) (step : ℕ) → reads_below run ear ≡ true
        → run.first + step < run.last → ReadsRow run ear step (run.first + (step + 1)) }
{}
