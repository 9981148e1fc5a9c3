ghost use Rattle.std.specs.Prelude.{ℕ, ℤ, ◌≡◌, ◌≤◌, false, true, List};
ghost use Rattle.std.specs.List.{list_any};
ghost use Rattle.calc_addr.specs.Places.{Place, Rectangle};
ghost use Rattle.calc_model.specs.declared.tree.Tree.{Tree};
ghost use Rattle.calc_model.specs.Books.{NameEntries, entry_named};
ghost use Rattle.calc_model.specs.Formed.{is_formed};
ghost use Rattle.calc_model.specs.NamedAreas.{names_after_deletion, names_after_insertion, with_name, without_name};
ghost use Rattle.calc_model.specs.UsedNames.{is_same_name, names_in};
ghost use Rattle.calc_model.specs.Reads.{Names, areas};
ghost use Rattle.calc_model.specs.RowEdits.{is_changed_by_deletion, is_changed_by_insertion};
ghost use Rattle.calc_model.specs.TreeShifts.{moved_tree, tree_after_deletion, tree_after_insertion};
ghost use Rattle.calc_model.specs.FixedPoint.{ShowsItsValue, ShowsItsCircle};
ghost use Rattle.calc_model.specs.Stale.{ReachesAtAll, ReachesIndeed};
ghost use Rattle.calc_model.specs.Step.{KeepsBooks};

/// What cells show is a fixed point: a formula that reaches no circle shows its value over what the
/// cells that it reads show. One that reaches a circle shows that.
pub fn fixed_point()
    ensures value { ShowsItsValue }
    ensures circle { ShowsItsCircle }
{}

/// A cell reaches one of some cells by reading exactly where the rounds of the definition find it.
pub fn rounds_reach_all()
    ensures all { ReachesAtAll }
    ensures only { ReachesIndeed }
{}

/// A book stays one under every edit: its entries stay in order, and its cells, contents and names stay
/// what they can be.
pub fn edits_keep_books()
    ensures { KeepsBooks }
{}

/// A formula stays one when it moves, and when rows are inserted or deleted.
pub fn formulas_stay_formed()
    ensures moved { (cols rows : ℤ) (tree : Tree) → is_formed tree ≡ true
        → is_formed (moved_tree cols rows tree) ≡ true }
    ensures inserted { (home : Place) (sheet place count : ℕ) (tree : Tree) → is_formed tree ≡ true
        → is_formed (tree_after_insertion home sheet place count tree) ≡ true }
    ensures deleted { (home : Place) (sheet place count : ℕ) (tree : Tree)
        → 1 ≤ place → is_formed tree ≡ true
        → is_formed (tree_after_deletion home sheet place count tree) ≡ true }
{}

/// A name that gets an area, or goes, changes what those formulas read that use it, and no others.
pub fn names_change_their_users()
    ensures named { (home : Place) (entries : NameEntries) (name : List ℕ) (area : Rectangle)
        → (tree : Tree) → list_any (is_same_name name) (names_in tree) ≡ false
        → areas home (entry_named (with_name entries name area)) tree
        ≡ areas home (entry_named entries) tree }
    ensures unnamed { (home : Place) (entries : NameEntries) (name : List ℕ) (tree : Tree)
        → list_any (is_same_name name) (names_in tree) ≡ false
        → areas home (entry_named (without_name entries name)) tree
        ≡ areas home (entry_named entries) tree }
{}

/// Inserted and deleted rows change only formulas that read an area of their sheet that they change, and
/// what those formulas read that read such an area by a name.
pub fn rows_change_their_readers()
    ensures inserted { (home : Place) (names : Names) (sheet place count : ℕ) (tree : Tree)
        → list_any (is_changed_by_insertion sheet place count) (areas home names tree) ≡ false
        → tree_after_insertion home sheet place count tree ≡ tree }
    ensures deleted { (home : Place) (names : Names) (sheet place count : ℕ) (tree : Tree)
        → list_any (is_changed_by_deletion sheet place count) (areas home names tree) ≡ false
        → tree_after_deletion home sheet place count tree ≡ tree }
    ensures names_inserted { (home : Place) (entries : NameEntries) (sheet place count : ℕ)
        → (tree : Tree)
        → list_any (is_changed_by_insertion sheet place count)
        (areas home (entry_named entries) tree) ≡ false
        → areas home (entry_named (names_after_insertion sheet place count entries)) tree
        ≡ areas home (entry_named entries) tree }
    ensures names_deleted { (home : Place) (entries : NameEntries) (sheet place count : ℕ)
        → (tree : Tree)
        → list_any (is_changed_by_deletion sheet place count)
        (areas home (entry_named entries) tree) ≡ false
        → areas home (entry_named (names_after_deletion sheet place count entries)) tree
        ≡ areas home (entry_named entries) tree }
{}
