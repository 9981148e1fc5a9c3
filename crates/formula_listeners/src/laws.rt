//! How what formulas read goes with edits of their book.
ghost use Rattle.std.specs.Prelude.{◌≡◌, ℕ, List, false, true};
ghost use Rattle.std.specs.List.{list_any};
ghost use Rattle.calc_addr.specs.Places.{Place, Rectangle, covers};
ghost use Rattle.calc_model.specs.Books.{Book, NameEntries, content_at, is_formula};
ghost use Rattle.calc_model.specs.Listeners.{ReadAreas};
ghost use Rattle.calc_model.specs.NamedAreas.{names_after_deletion, names_after_insertion, with_name, without_name};
ghost use Rattle.calc_model.specs.RowEdits.{cells_after_deletion, cells_after_insertion, is_pushed_out};
ghost use Rattle.calc_model.specs.UsedNames.{uses_name};
ghost use Rattle.listener_hub.specs.Moves.{IsMoved, KeepsAll, deletion, insertion};
ghost use Rattle.formula_listeners.specs.Held.{HoldsOutside, HoldsReads};
ghost use Rattle.formula_listeners.specs.Renamed.{AgreeElsewhere};

/// An edit of an area's cells changes what these read, and nothing else. Where no formula is left in the
/// area, all is held that is held outside it.
pub fn reads_go_with_cells()
    ensures outside { (book after : Book) (area : Rectangle) (read : ReadAreas)
        → after.names ≡ book.names
        → ((q : Place) → covers area q ≡ false → content_at after q ≡ content_at book q)
        → HoldsOutside area read book → HoldsOutside area read after }
    ensures none { (book : Book) (area : Rectangle) (read : ReadAreas)
        → ((q : Place) → covers area q ≡ true → is_formula (content_at book q) ≡ false)
        → HoldsOutside area read book → HoldsReads read book }
{}

/// Inserted and deleted rows of a hub do to what it holds what they do to what the formulas of a book
/// read, as long as no cell is pushed past the last row.
pub fn reads_go_with_rows()
    ensures inserted { (book after : Book) (sheet place count : ℕ) (read now : ReadAreas)
        → after.cells ≡ cells_after_insertion sheet place count book.cells
        → after.names ≡ names_after_insertion sheet place count book.names
        → IsMoved (insertion sheet place count) read now
        → HoldsReads read book → HoldsReads now after }
    ensures deleted { (book after : Book) (sheet place count : ℕ) (read now : ReadAreas)
        → after.cells ≡ cells_after_deletion sheet place count book.cells
        → after.names ≡ names_after_deletion sheet place count book.names
        → IsMoved (deletion sheet place count) read now
        → HoldsReads read book → HoldsReads now after }
    ensures kept { (book : Book) (sheet place count : ℕ) (read : ReadAreas)
        → is_pushed_out sheet place count book.cells ≡ false
        → HoldsReads read book → KeepsAll (insertion sheet place count) read }
{}

/// A name that no formula uses may get an area, or go: the formulas read what they did.
pub fn reads_go_with_names()
    ensures named { (book after : Book) (name : List ℕ) (area : Rectangle) (read : ReadAreas)
        → after.cells ≡ book.cells → after.names ≡ with_name book.names name area
        → ((q : Place) → uses_name name (content_at book q) ≡ false)
        → HoldsReads read book → HoldsReads read after }
    ensures unnamed { (book after : Book) (name : List ℕ) (read : ReadAreas)
        → after.cells ≡ book.cells → after.names ≡ without_name book.names name
        → ((q : Place) → uses_name name (content_at book q) ≡ false)
        → HoldsReads read book → HoldsReads read after }
{}

/// A name that gets an area, or goes, leaves what other names stand for, whatever the case of their ASCII
/// letters.
pub fn names_agree_elsewhere()
    ensures named { (entries : NameEntries) (name : List ℕ) (area : Rectangle)
        → AgreeElsewhere name entries (with_name entries name area) }
    ensures unnamed { (entries : NameEntries) (name : List ℕ)
        → AgreeElsewhere name entries (without_name entries name) }
{}
