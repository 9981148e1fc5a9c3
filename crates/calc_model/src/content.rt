ghost use Rattle.std.specs.Prelude.{◌≡◌, true, IfOk};
ghost use Rattle.calc_model.specs.Contents.{IsConstant};
ghost use Rattle.calc_model.specs.Changes.{IsChange, changed};
ghost use Rattle.calc_model.specs.Formed.{is_formed};
ghost use Rattle.calc_model.specs.TreeShifts.{replaced};

use crate::change::Change;
use crate::text::Text;
use crate::tree::Tree;
use crate::value::Value;
use calc_addr::{Cell, NoMemory};
use std::alloc::Global;
use std::marker::Model;

/// What a cell holds.
#[derive(Drop)]
pub enum Content {
    Empty,
    Constant(Constant),
    Formula(Formula),
    /// The text of a field that begins as a formula and isn't one of the grammar.
    Raw(Text),
}

/// A value that a field can hold: a number, a text, or one of the eight error constants. Contracts see
/// it as that value.
#[derive(Drop)]
pub struct Constant {
    value: Value,
}

impl Model for Constant {
    ghost use Rattle.calc_model.specs.declared.value.Value.{Value as CellValue};

    ghost Value = { CellValue };

    ghost use Rattle.calc_model.specs.Contents.{IsConstant};

    ghost view = { λ c. c.value };

    ghost invariant = { λ c. IsConstant c.value };
}

/// A formula that a field can hold: its tree is one that the grammar spells within the limits of
/// reading. Contracts see it as its tree.
#[derive(Drop)]
pub struct Formula {
    tree: Tree,
}

impl Model for Formula {
    ghost use Rattle.calc_model.specs.declared.tree.Tree.{Tree};
    ghost use Rattle.calc_model.specs.contracts.tree.Tree as coded_tree;

    ghost Value = { Tree };

    ghost coded = { coded_tree.the_row.coded };

    ghost use Rattle.std.specs.Prelude.{◌≡◌, true};
    ghost use Rattle.calc_model.specs.Formed.{is_formed};

    ghost view = { λ f. f.tree };

    ghost invariant = { λ f. is_formed f.tree ≡ true };
}

impl Constant {
    pub fn of(value: Value) -> Constant
        requires { IsConstant value }
        ensures { result ≡ value }
    {
        Constant { value }
    }

    pub fn value(&self) -> &Value
        ensures value { result.now ≡ self.now }
        ensures kind { IsConstant result.now }
    {
        &self.value
    }

    /// An equal constant.
    pub fn copy(&self, alloc: Global) -> Result<Constant, NoMemory>
        ensures { IfOk result (λ c. c ≡ self.now) }
    {
        Ok(Constant {
            value: self.value.copy(alloc)?,
        })
    }
}

impl Formula {
    pub fn of(tree: Tree) -> Formula
        requires { is_formed tree ≡ true }
        ensures { result ≡ tree }
    {
        Formula { tree }
    }

    pub fn tree(&self) -> &Tree
        ensures value { result.now ≡ self.now }
        ensures formed { is_formed self.now ≡ true }
    {
        &self.tree
    }

    /// An equal formula.
    pub fn copy(&self, alloc: Global) -> Result<Formula, NoMemory>
        ensures { IfOk result (λ f. f ≡ self.now) }
    {
        Ok(Formula {
            tree: self.tree.copy(alloc)?,
        })
    }

    /// The formula of the cell `home` with a change of its references.
    #[tactic(auto, using(crate::proofs::FormedShifts::changed_is_formed))]
    pub fn changed(&self, alloc: Global, change: Change, home: Cell) -> Result<Formula, NoMemory>
        requires { IsChange change }
        ensures { IfOk result (λ f. f ≡ replaced (changed change home) self.now) }
    {
        Ok(Formula {
            tree: self.tree.changed(alloc, change, home)?,
        })
    }
}

impl Content {
    ghost use Rattle.calc_model.specs.Books.{is_held};
    ghost use Rattle.calc_model.specs.CellEdits.{moved_content, with_tree};

    /// Whether it is the content of a cell that isn't empty.
    pub fn is_held(&self) -> bool
        ensures { result ≡ is_held self.now }
    {
        !matches!(self, Content::Empty)
    }

    /// An equal content.
    pub fn copy(&self, alloc: Global) -> Result<Content, NoMemory>
        ensures { IfOk result (λ c. c ≡ self.now) }
    {
        match self {
            Content::Empty => Ok(Content::Empty),
            Content::Constant(constant) => Ok(Content::Constant(constant.copy(alloc)?)),
            Content::Formula(formula) => Ok(Content::Formula(formula.copy(alloc)?)),
            Content::Raw(text) => Ok(Content::Raw(text.copy(alloc)?)),
        }
    }

    /// The content of the cell `home`, with a change of its references where it is a formula.
    pub fn changed(&self, alloc: Global, change: Change, home: Cell) -> Result<Content, NoMemory>
        requires { IsChange change }
        ensures { IfOk result (λ c. c ≡ with_tree (replaced (changed change home)) self.now) }
    {
        match self {
            Content::Empty => Ok(Content::Empty),
            Content::Constant(constant) => Ok(Content::Constant(constant.copy(alloc)?)),
            Content::Formula(formula) => {
                Ok(Content::Formula(formula.changed(alloc, change, home)?))
            }
            Content::Raw(text) => Ok(Content::Raw(text.copy(alloc)?)),
        }
    }

    /// The content of one cell, moved to another.
    pub fn moved(&self, alloc: Global, from: Cell, to: Cell) -> Result<Content, NoMemory>
        ensures { IfOk result (λ c. c ≡ moved_content from to self.now) }
    {
        let cols = i32::from(to.col) - i32::from(from.col);
        let rows = to.row as i32 - from.row as i32;
        self.changed(alloc, Change::Moves { cols, rows }, from)
    }
}
