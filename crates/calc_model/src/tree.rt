ghost use Rattle.std.specs.Prelude.{◌≡◌, IfOk, map};
ghost use Rattle.calc_model.specs.Changes.{IsChange, changed};
ghost use Rattle.calc_model.specs.TreeShifts.{replaced};

use crate::change::Change;
use crate::fault::Fault;
use crate::text::Text;
use calc_addr::{Cell, NoMemory, Ref};
use calc_num::Num;
use sqlite_items::{Boxed, Items};
use std::alloc::Global;

/// An infix operator.
#[derive(Clone, Copy, Debug, PartialEq, Eq)]
pub enum Op {
    Pow,
    Mul,
    Div,
    Add,
    Sub,
    /// Joins two texts.
    Cat,
    Eq,
    Ne,
    Lt,
    Le,
    Gt,
    Ge,
}

/// A formula, with a node for each part that does something. References have absolute targets.
#[derive(Drop)]
pub enum Tree {
    Number(Num),
    Words(Text),
    Bad(Fault),
    Ref(Ref),
    Name(Text),
    Call {
        name: Text,
        args: Items<Tree>,
    },
    Paren(Boxed<Tree>),
    Plus(Boxed<Tree>),
    Minus(Boxed<Tree>),
    Percent(Boxed<Tree>),
    Binary {
        op: Op,
        left: Boxed<Tree>,
        right: Boxed<Tree>,
    },
}

impl Tree {
    /// An equal tree. Linear in its nodes and the bytes of its texts.
    #[cycle(copying)]
    pub fn copy(&self, alloc: Global) -> Result<Tree, NoMemory>
        ensures { IfOk result (λ t. t ≡ self.now) }
    {
        match self {
            Tree::Number(number) => Ok(Tree::Number(*number)),
            Tree::Words(text) => Ok(Tree::Words(text.copy(alloc)?)),
            Tree::Bad(fault) => Ok(Tree::Bad(*fault)),
            Tree::Ref(reference) => Ok(Tree::Ref(*reference)),
            Tree::Name(name) => Ok(Tree::Name(name.copy(alloc)?)),
            Tree::Call { name, args } => Ok(Tree::Call {
                name: name.copy(alloc)?,
                args: copy_all(args.as_slice(), alloc)?,
            }),
            Tree::Paren(child) => Ok(Tree::Paren(copy_child(child, alloc)?)),
            Tree::Plus(child) => Ok(Tree::Plus(copy_child(child, alloc)?)),
            Tree::Minus(child) => Ok(Tree::Minus(copy_child(child, alloc)?)),
            Tree::Percent(child) => Ok(Tree::Percent(copy_child(child, alloc)?)),
            Tree::Binary { op, left, right } => Ok(Tree::Binary {
                op: *op,
                left: copy_child(left, alloc)?,
                right: copy_child(right, alloc)?,
            }),
        }
    }

    /// The formula at `home` with a change of its references. Linear in its nodes and the bytes of its
    /// texts.
    #[cycle(changing)]
    #[tactic(auto, using(crate::proofs::Replaced::replacing))]
    pub fn changed(&self, alloc: Global, change: Change, home: Cell) -> Result<Tree, NoMemory>
        requires { IsChange change }
        ensures { IfOk result (λ t. t ≡ replaced (changed change home) self.now) }
    {
        match self {
            Tree::Number(number) => Ok(Tree::Number(*number)),
            Tree::Words(text) => Ok(Tree::Words(text.copy(alloc)?)),
            Tree::Bad(fault) => Ok(Tree::Bad(*fault)),
            Tree::Ref(reference) => Ok(change.node(home, *reference)),
            Tree::Name(name) => Ok(Tree::Name(name.copy(alloc)?)),
            Tree::Call { name, args } => Ok(Tree::Call {
                name: name.copy(alloc)?,
                args: change_all(args.as_slice(), alloc, change, home)?,
            }),
            Tree::Paren(child) => Ok(Tree::Paren(change_child(child, alloc, change, home)?)),
            Tree::Plus(child) => Ok(Tree::Plus(change_child(child, alloc, change, home)?)),
            Tree::Minus(child) => Ok(Tree::Minus(change_child(child, alloc, change, home)?)),
            Tree::Percent(child) => Ok(Tree::Percent(change_child(child, alloc, change, home)?)),
            Tree::Binary { op, left, right } => Ok(Tree::Binary {
                op: *op,
                left: change_child(left, alloc, change, home)?,
                right: change_child(right, alloc, change, home)?,
            }),
        }
    }
}

#[cycle(copying)]
fn copy_child(child: &Boxed<Tree>, alloc: Global) -> Result<Boxed<Tree>, NoMemory>
    ensures { IfOk result (λ t. t ≡ child.now) }
{
    Boxed::new(alloc, child.get().copy(alloc)?)
}

#[cycle(copying)]
fn copy_all(trees: &[Tree], alloc: Global) -> Result<Items<Tree>, NoMemory>
    ensures { IfOk result (λ copied. copied ≡ trees.now) }
{
    let mut copied = Items::new(alloc);
    for tree in trees {
        copied.push(tree.copy(alloc)?)?;
    }
    Ok(copied)
}

#[cycle(changing)]
fn change_child(
    child: &Boxed<Tree>,
    alloc: Global,
    change: Change,
    home: Cell,
) -> Result<Boxed<Tree>, NoMemory>
    requires { IsChange change }
    ensures { IfOk result (λ t. t ≡ replaced (changed change home) child.now) }
{
    Boxed::new(alloc, child.get().changed(alloc, change, home)?)
}

#[cycle(changing)]
fn change_all(
    trees: &[Tree],
    alloc: Global,
    change: Change,
    home: Cell,
) -> Result<Items<Tree>, NoMemory>
    requires { IsChange change }
    ensures { IfOk result (λ all. all ≡ map (replaced (changed change home)) trees.now) }
{
    let mut all = Items::new(alloc);
    for tree in trees {
        all.push(tree.changed(alloc, change, home)?)?;
    }
    Ok(all)
}
