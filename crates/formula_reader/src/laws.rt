ghost use Rattle.calc_model.specs.Field.{IsField, ReadsFields};
ghost use Rattle.calc_model.specs.Formed.{is_well_formed};
ghost use Rattle.calc_model.specs.Grammar.{Spells};
ghost use Rattle.calc_model.specs.declared.content.Content.{Content};
ghost use Rattle.calc_model.specs.declared.tree.Tree.{Tree};
ghost use Rattle.std.specs.Prelude.{List, true, ℕ, ◌≡◌};

/// A text spells at most one tree, whatever its length, and each node of that tree stands where the
/// grammar allows it.
pub fn a_text_spells_one_tree()
    ensures one { (text : List ℕ) → (first second : Tree) → Spells text first → Spells text second
        → first ≡ second }
    ensures formed { (text : List ℕ) → (tree : Tree) → Spells text tree
        → is_well_formed tree ≡ true }
{}

/// A field has exactly one content, and so there is exactly one meaning of fields.
pub fn fields_have_one_meaning()
    ensures some { (field : List ℕ → Content) × ReadsFields field }
    ensures one { (first second : List ℕ → Content) → ReadsFields first → ReadsFields second
        → (text : List ℕ) → first text ≡ second text }
    ensures content { (text : List ℕ) → (first second : Content) → IsField text first
        → IsField text second → first ≡ second }
{}
