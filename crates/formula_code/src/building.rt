ghost use Rattle.std.specs.Prelude.{◌≡◌, ◌<◌, ◌≤◌, ◌++◌, ◌∷◌, [], IfOk, IsSome, Some, length, reverse, vec_len};
ghost use Rattle.calc_model.specs.declared.tree.Tree.{Tree};
ghost use Rattle.formula_code.specs.Building.{Builds, built_on};
ghost use Rattle.calc_model.specs.Changes.{IsChange, changed};
ghost use Rattle.formula_code.specs.Lent.{lent};

use crate::token::{Token, Tokens};
use calc_addr::{Cell, NoMemory};
use calc_model::{Change, Tree};
use sqlite_items::{Boxed, Items};
use std::alloc::Global;

/// The tree of these nodes of the formula at `home`, with a change of its references. Linear in the
/// nodes and the bytes of their texts.
pub(crate) fn build(
    alloc: Global,
    mut tokens: Tokens<'_>,
    change: Change,
    home: Cell,
) -> Result<Tree, NoMemory>
    requires change { IsChange change }
    requires whole { (tree : Tree) × Builds (changed change home) tokens tree }
    ensures { IfOk result (Builds (changed change home) tokens.entry) }
{
    let mut trees = Vec::new(alloc);
    while let Some(token) = tokens.next() {
        let tree = tree_of(alloc, &token, change, home, &mut trees)?;
        trees.push(tree)?;
    }
    match trees.pop() {
        Some(tree) => Ok(tree),
        None => unreachable!(),
    }
}

/// The tree of a node, which takes its children from a stack of trees.
fn tree_of(
    alloc: Global,
    token: &Token<'_>,
    change: Change,
    home: Cell,
    trees: &mut Vec<Tree>,
) -> Result<Tree, NoMemory>
    requires change { IsChange change }
    requires children { IsSome (built_on (changed change home) (lent token.now)
        (reverse trees.old.items)) }
    ensures { IfOk result (λ tree. built_on (changed change home) (lent token.now)
        (reverse trees.old.items) ≡ Some (tree ∷ reverse trees.new.items)) }
{
    match token {
        Token::Number(number) => Ok(Tree::Number(*number)),
        Token::Words(text) => Ok(Tree::Words(text.copy(alloc)?)),
        Token::Bad(fault) => Ok(Tree::Bad(*fault)),
        Token::Ref(reference) => Ok(change.node(home, *reference)),
        Token::Name(name) => Ok(Tree::Name(name.copy(alloc)?)),
        Token::Call { name, args } => Ok(Tree::Call {
            name: name.copy(alloc)?,
            args: take_args(trees, *args)?,
        }),
        Token::Paren => Ok(Tree::Paren(take_child(alloc, trees)?)),
        Token::Plus => Ok(Tree::Plus(take_child(alloc, trees)?)),
        Token::Minus => Ok(Tree::Minus(take_child(alloc, trees)?)),
        Token::Percent => Ok(Tree::Percent(take_child(alloc, trees)?)),
        Token::Binary(op) => {
            let right = take_child(alloc, trees)?;
            let left = take_child(alloc, trees)?;
            Ok(Tree::Binary {
                op: *op,
                left,
                right,
            })
        }
    }
}

fn take_child(alloc: Global, trees: &mut Vec<Tree>) -> Result<Boxed<Tree>, NoMemory>
    requires { 0 < vec_len trees.old }
    ensures { IfOk result (λ child. reverse trees.old.items ≡ child ∷ reverse trees.new.items) }
{
    match trees.pop() {
        Some(tree) => Boxed::new(alloc, tree),
        None => unreachable!(),
    }
}

fn take_args(trees: &mut Vec<Tree>, count: u8) -> Result<Items<Tree>, NoMemory>
    requires { count ≤ vec_len trees.old }
    ensures taken { IfOk result (λ args. reverse trees.old.items
        ≡ reverse args ++ reverse trees.new.items) }
    ensures count { IfOk result (λ args. length args ≡ count) }
{
    let args = trees.split_off(trees.len() - usize::from(count))?;
    Ok(Items::from_vec(args))
}
