ghost use Rattle.std.specs.Prelude.{codes, true, ◌++◌, ◌≡◌};
ghost use Rattle.calc_model.specs.Formed.{is_well_formed};
ghost use Rattle.calc_model.specs.Grammar.{Spells};
ghost use Rattle.calc_model.specs.Printed.{printed_tree};
ghost use Rattle.calc_model.specs.declared.tree.Tree.{Tree};

/// The printed text of a formula spells that formula, for each tree that a formula can be. The limits of
/// reading are aside: a printed formula may be too long to be read.
pub fn printed_formulas_spell_their_tree()
    ensures spelled { (tree : Tree) → is_well_formed tree ≡ true
        → Spells (codes "=" ++ printed_tree tree) tree }
{}
