ghost use Rattle.std.specs.Prelude.{◌≡◌, ◌<◌, ◌+◌, ◌^◌, Option, ℕ, map};
ghost use Rattle.calc_addr.specs.Places.{IsPlace, Place};
ghost use Rattle.calc_model.specs.Books.{NameEntries, entry_named};
ghost use Rattle.calc_model.specs.Ears.{area_at};
ghost use Rattle.calc_model.specs.Reads.{areas};
ghost use Rattle.calc_model.specs.declared.tree.Tree.{Tree};
ghost use Rattle.formula_code.specs.Codes.{AreUsed, Changes, Code, Codes, HasRoom, IsCodeAt, IsSame, form_at, slot_uses, total_uses, tree_at, uses_at};
ghost use Rattle.formula_code.specs.Ears.{ears};
ghost use Rattle.formula_code.specs.Nodes.{postfix};
ghost use Rattle.formula_code.specs.Relative.{absolute, relative};
ghost use Rattle.formula_code.specs.Homes.{rows_below};

/// The ears of a run's first formula give what each formula of the run reads, so many rows below.
#[tactic(auto, using(crate::proofs::RunReads::ears_give_reads))]
pub fn ears_give_reads()
    ensures { (codes : Codes) (id distance : ℕ) (home : Place) (names : NameEntries)
        → IsCodeAt codes id home
        → map (λ ear. area_at ear distance) (ears home names (tree_at codes id home))
        ≡ areas (rows_below home distance) (entry_named names)
        (tree_at codes id (rows_below home distance)) }
{}

/// The uses of all codes change with those of one, and while they are few there is room.
pub fn uses_add_up()
    ensures changed { (old new : Codes) (id : ℕ) (code : Option Code) → Changes old new id code
        → total_uses new + uses_at old id ≡ total_uses old + slot_uses code }
    ensures same { (old new : Codes) → IsSame old new → total_uses new ≡ total_uses old }
    ensures room { (codes : Codes) → AreUsed codes → total_uses codes < 2 ^ 24 → HasRoom codes }
{}

/// A relative form at its cell is the tree, a code's form is that of its tree, and no other tree has the same
/// nodes.
pub fn forms_are_trees()
    ensures back { (home : Place) (tree : Tree) → IsPlace home
        → absolute home (relative home tree) ≡ tree }
    ensures form { (codes : Codes) (id : ℕ) (home : Place) → IsCodeAt codes id home
        → relative home (tree_at codes id home) ≡ form_at codes id }
    ensures one { (x y : Tree) → postfix x ≡ postfix y → x ≡ y }
{}
