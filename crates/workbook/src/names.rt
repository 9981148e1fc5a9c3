//! Names that edits changed, and the formulas that use one of them.
ghost use Rattle.std.specs.Prelude.{ℕ, ◌≡◌, ◌||◌, ◌↔◌, [], List, IfOk, IsTrue, OnOk, OnErr};
ghost use Rattle.std.specs.List.{list_any};
ghost use Rattle.std.specs.Ordering.{eq_by_cmp};
ghost use Rattle.std.specs.Str.{str_to_ascii_uppercase};
ghost use Rattle.calc_model.specs.NamedAreas.{name_cmp};
ghost use Rattle.calc_model.specs.UsedNames.{is_same_name, names_in};
ghost use Rattle.workbook.specs.Touched.{has_name, uses_any};

use calc_addr::NoMemory;
use calc_model::{Content, Text, Tree};
use std::alloc::Global;
use std::collections::BTreeSet;
use std::marker::Model;

/// Some names in ASCII capitals. Contracts see the list of them.
#[derive(Drop)]
pub(crate) struct NameSet {
    names: BTreeSet<String>,
}

impl Model for NameSet {
    ghost use Rattle.std.specs.Prelude.{ℕ, List, map, string_bytes};

    ghost Value = { List (List ℕ) };

    ghost view = { λ s. map (λ name. string_bytes name) s.names.keys };
}

impl NameSet {
    /// No name.
    pub(crate) fn new(alloc: Global) -> NameSet
        ensures { result ≡ [] }
    {
        NameSet {
            names: BTreeSet::new(alloc),
        }
    }

    pub(crate) fn is_empty(&self) -> bool
        ensures { IsTrue result ↔ (self.now ≡ []) }
    {
        self.names.is_empty()
    }

    /// Adds the name. It takes the logarithm of the names.
    pub(crate) fn insert(&mut self, alloc: Global, name: &Text) -> Result<(), NoMemory>
        ensures ok { OnOk result ((other : List ℕ) → has_name self.new other
            ≡ (has_name self.old other || is_same_name name.now other)) }
        ensures err { OnErr result (self.new ≡ self.old) }
    {
        let mut key = String::from_str(alloc, name.as_str())?;
        key.make_ascii_uppercase();
        self.names.insert(key)?;
        Ok(())
    }

    /// Whether it has a name that stands in capitals.
    fn contains(&self, key: &str) -> bool
        ensures { result ≡ list_any (eq_by_cmp name_cmp key.now) self.now }
    {
        self.names.contains(key)
    }

    /// Whether it has the name, in capitals or not. The key is where the capitals are put.
    fn has(&self, name: &Text, key: &mut String) -> Result<bool, NoMemory>
        ensures { IfOk result (λ has. has ≡ has_name self.now name.now) }
    {
        key.clear();
        key.push_str(name.as_str())?;
        key.make_ascii_uppercase();
        Ok(self.contains(key.as_str()))
    }

    /// Whether the content is a formula that uses one of the names. Linear in the formula, and the
    /// logarithm of the names for each name in it.
    pub(crate) fn is_used_by(&self, content: &Content, key: &mut String) -> Result<bool, NoMemory>
        ensures { IfOk result (λ uses. uses ≡ uses_any self.now content.now) }
    {
        match content {
            Content::Formula(formula) => is_any_used(self, formula.tree(), key),
            _ => Ok(false),
        }
    }
}

/// Whether the tree uses one of the names.
#[cycle(using_names)]
#[tactic(auto, using(crate::proofs::NamesIn::used_names))]
fn is_any_used(names: &NameSet, tree: &Tree, key: &mut String) -> Result<bool, NoMemory>
    ensures { IfOk result (λ uses. uses ≡ list_any (has_name names.now) (names_in tree.now)) }
{
    match tree {
        Tree::Name(name) => names.has(name, key),
        Tree::Call { args, .. } => is_any_used_in(names, args.as_slice(), key),
        Tree::Paren(child) | Tree::Plus(child) | Tree::Minus(child) | Tree::Percent(child) => {
            is_any_used(names, child.get(), key)
        }
        Tree::Binary { left, right, .. } => {
            if is_any_used(names, left.get(), key)? {
                return Ok(true);
            }
            is_any_used(names, right.get(), key)
        }
        Tree::Number(_) | Tree::Words(_) | Tree::Bad(_) | Tree::Ref(_) => Ok(false),
    }
}

/// Whether one of the trees does.
#[cycle(using_names)]
fn is_any_used_in(names: &NameSet, trees: &[Tree], key: &mut String) -> Result<bool, NoMemory>
    ensures { IfOk result (λ uses. uses
        ≡ list_any (λ tree. list_any (has_name names.now) (names_in tree)) trees.now) }
{
    for tree in trees {
        if is_any_used(names, tree, key)? {
            return Ok(true);
        }
    }
    Ok(false)
}
