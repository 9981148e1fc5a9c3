ghost use Rattle.std.specs.Prelude.{◌≡◌, [], ◌∷◌, ◌++◌, List, IsTrue, ◌↔◌, map, option_copied};
ghost use Rattle.std.specs.List.{flat_map};
ghost use Rattle.formula_code.specs.Building.{relative_nodes};
ghost use Rattle.formula_code.specs.declared.node.Node.{Node};
ghost use Rattle.formula_code.specs.Stripping.{Strips};
ghost use Rattle.formula_code.specs.Wanted.{kept};

use crate::node::Node;
use crate::relative::RelativeRef;
use calc_addr::Cell;
use calc_model::{Fault, Op, Text, Tree};
use calc_num::Num;

/// A node that isn't kept yet, its texts lent.
#[derive(Drop)]
pub(crate) enum Wanted<'a> {
    Number(Num),
    Words(&'a Text),
    Bad(Fault),
    Ref(RelativeRef),
    Name(&'a Text),
    Call { name: &'a Text, args: usize },
    Paren,
    Plus,
    Minus,
    Percent,
    Binary(Op),
}

/// The nodes behind those of the tree's relative form at `home`, or None where they don't begin with
/// these. Linear in the nodes of the form.
#[cycle(matching)]
pub(crate) fn strip<'n>(tree: &Tree, home: Cell, nodes: &'n [Node]) -> Option<&'n [Node]>
    ensures { Strips (relative_nodes home tree.now) nodes.entry.now (option_copied result) }
{
    match tree {
        Tree::Number(number) => strip_node(nodes, &Wanted::Number(*number)),
        Tree::Words(text) => strip_node(nodes, &Wanted::Words(text)),
        Tree::Bad(fault) => strip_node(nodes, &Wanted::Bad(*fault)),
        Tree::Ref(reference) => {
            strip_node(nodes, &Wanted::Ref(RelativeRef::of(*reference, home)))
        }
        Tree::Name(name) => strip_node(nodes, &Wanted::Name(name)),
        Tree::Call { name, args } => {
            let args = args.as_slice();
            let wanted = Wanted::Call {
                name,
                args: args.len(),
            };
            strip_behind(strip_all(args, home, nodes), &wanted)
        }
        Tree::Paren(child) => strip_behind(strip(child.get(), home, nodes), &Wanted::Paren),
        Tree::Plus(child) => strip_behind(strip(child.get(), home, nodes), &Wanted::Plus),
        Tree::Minus(child) => strip_behind(strip(child.get(), home, nodes), &Wanted::Minus),
        Tree::Percent(child) => strip_behind(strip(child.get(), home, nodes), &Wanted::Percent),
        Tree::Binary { op, left, right } => {
            let rest = match strip(left.get(), home, nodes) {
                Some(rest) => strip(right.get(), home, rest),
                None => None,
            };
            strip_behind(rest, &Wanted::Binary(*op))
        }
    }
}

#[cycle(matching)]
fn strip_all<'n>(trees: &[Tree], home: Cell, nodes: &'n [Node]) -> Option<&'n [Node]>
    ensures { Strips (flat_map (λ nodes. nodes) (map (relative_nodes home) trees.now)) nodes.entry.now (option_copied result) }
{
    let mut rest = nodes;
    for tree in trees {
        match strip(tree, home, rest) {
            Some(after) => rest = after,
            None => return None,
        }
    }
    Some(rest)
}

/// The nodes behind one that comes next, if it does.
fn strip_behind<'n>(rest: Option<&'n [Node]>, wanted: &Wanted<'_>) -> Option<&'n [Node]>
    ensures { (form nodes : List Node) → Strips form nodes (option_copied rest.entry)
        → Strips (form ++ kept wanted.now ∷ []) nodes (option_copied result) }
{
    match rest {
        Some(rest) => strip_node(rest, wanted),
        None => None,
    }
}

/// The nodes behind the first, if it is that one.
fn strip_node<'n>(nodes: &'n [Node], wanted: &Wanted<'_>) -> Option<&'n [Node]>
    ensures { Strips (kept wanted.now ∷ []) nodes.entry.now (option_copied result) }
{
    match nodes.split_first() {
        Some((first, rest)) if is_wanted(first, wanted) => Some(rest),
        _ => None,
    }
}

fn is_wanted(node: &Node, wanted: &Wanted<'_>) -> bool
    ensures { IsTrue result ↔ (node.now ≡ kept wanted.now) }
{
    match (node, wanted) {
        (Node::Number(number), Wanted::Number(other)) => number == other,
        (Node::Words(text), Wanted::Words(other)) => text.as_str() == other.as_str(),
        (Node::Bad(fault), Wanted::Bad(other)) => fault == other,
        (Node::Ref(reference), Wanted::Ref(other)) => reference.is_same(*other),
        (Node::Name(name), Wanted::Name(other)) => name.as_str() == other.as_str(),
        (
            Node::Call { name, args },
            Wanted::Call {
                name: other,
                args: count,
            },
        ) => { args == count && name.as_str() == other.as_str() }
        (Node::Paren, Wanted::Paren)
        | (Node::Plus, Wanted::Plus)
        | (Node::Minus, Wanted::Minus)
        | (Node::Percent, Wanted::Percent) => true,
        (Node::Binary(op), Wanted::Binary(other)) => op == other,
        _ => false,
    }
}
