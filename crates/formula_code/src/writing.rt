ghost use Rattle.std.specs.Prelude.{◌≡◌, ◌++◌, OnOk, map};
ghost use Rattle.std.specs.List.{flat_map};
ghost use Rattle.formula_code.specs.Building.{relative_nodes};

use crate::node::Node;
use crate::relative::RelativeRef;
use calc_addr::{Cell, NoMemory};
use calc_model::Tree;
use std::alloc::Global;

/// Appends the nodes of the tree's relative form at `home`. Linear in its nodes and the bytes of its
/// texts.
#[cycle(writing)]
pub(crate) fn write_nodes(
    tree: &Tree,
    home: Cell,
    alloc: Global,
    out: &mut Vec<Node>,
) -> Result<(), NoMemory>
    ensures { OnOk result (out.new.items ≡ out.old.items ++ relative_nodes home tree.now) }
{
    let node = match tree {
        Tree::Number(number) => Node::Number(*number),
        Tree::Words(text) => Node::Words(text.copy(alloc)?),
        Tree::Bad(fault) => Node::Bad(*fault),
        Tree::Ref(reference) => Node::Ref(RelativeRef::of(*reference, home)),
        Tree::Name(name) => Node::Name(name.copy(alloc)?),
        Tree::Call { name, args } => {
            write_all(args.as_slice(), home, alloc, out)?;
            Node::Call {
                name: name.copy(alloc)?,
                args: args.len(),
            }
        }
        Tree::Paren(child) => {
            write_nodes(child.get(), home, alloc, out)?;
            Node::Paren
        }
        Tree::Plus(child) => {
            write_nodes(child.get(), home, alloc, out)?;
            Node::Plus
        }
        Tree::Minus(child) => {
            write_nodes(child.get(), home, alloc, out)?;
            Node::Minus
        }
        Tree::Percent(child) => {
            write_nodes(child.get(), home, alloc, out)?;
            Node::Percent
        }
        Tree::Binary { op, left, right } => {
            write_nodes(left.get(), home, alloc, out)?;
            write_nodes(right.get(), home, alloc, out)?;
            Node::Binary(*op)
        }
    };
    out.push(node)?;
    Ok(())
}

#[cycle(writing)]
fn write_all(trees: &[Tree], home: Cell, alloc: Global, out: &mut Vec<Node>) -> Result<(), NoMemory>
    ensures { OnOk result (out.new.items
        ≡ out.old.items ++ flat_map (λ nodes. nodes) (map (relative_nodes home) trees.now)) }
{
    for tree in trees {
        write_nodes(tree, home, alloc, out)?;
    }
    Ok(())
}
