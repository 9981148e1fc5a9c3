ghost use Rattle.std.specs.Prelude.{◌≡◌, true, length, IsTrue, ◌↔◌, []};
ghost use Rattle.formula_code.specs.Lent.{lent};
ghost use Rattle.formula_code.specs.Tokens.{absolute_node, is_token};

use crate::node::Node;
use calc_addr::{Cell, Ref};
use calc_model::{Fault, Op, Text};
use calc_num::Num;
use std::marker::Model;

/// A node that is lent, with an absolute reference.
#[derive(Clone, Copy)]
pub enum Token<'a> {
    Number(Num),
    Words(&'a Text),
    Bad(Fault),
    Ref(Ref),
    Name(&'a Text),
    /// A call with so many parameters.
    Call { name: &'a Text, args: u8 },
    Paren,
    Plus,
    Minus,
    Percent,
    Binary(Op),
}

impl Node {
    /// The node of a formula at `home`, lent.
    #[inline(always)]
    fn lent_at(&self, home: Cell) -> Token<'_>
        requires { is_token (absolute_node home self.now) ≡ true }
        ensures { lent result ≡ absolute_node home self.now }
    {
        match self {
            Node::Number(number) => Token::Number(*number),
            Node::Words(text) => Token::Words(text),
            Node::Bad(fault) => Token::Bad(*fault),
            Node::Ref(reference) => Token::Ref(reference.at(home)),
            Node::Name(name) => Token::Name(name),
            Node::Call { name, args } => Token::Call {
                name,
                args: *args as u8,
            },
            Node::Paren => Token::Paren,
            Node::Plus => Token::Plus,
            Node::Minus => Token::Minus,
            Node::Percent => Token::Percent,
            Node::Binary(op) => Token::Binary(*op),
        }
    }
}

/// The nodes of a formula in postfix order, each after its children. Contracts see those that are left.
#[derive(Drop)]
pub struct Tokens<'a> {
    nodes: &'a [Node],
    home: Cell,
}

impl<'a> Model for Tokens<'a> {
    ghost use Rattle.std.specs.Prelude.{◌≡◌, List, true};
    ghost use Rattle.formula_code.specs.declared.node.Node.{Node};
    ghost use Rattle.formula_code.specs.Tokens.{are_tokens, nodes_at};

    ghost Value = { List Node };

    ghost view = { λ t. nodes_at t.home t.nodes.now };

    ghost invariant = { λ t. are_tokens (nodes_at t.home t.nodes.now) ≡ true };
}

impl<'a> Tokens<'a> {
    ghost use Rattle.formula_code.specs.Tokens.{are_tokens, nodes_at};

    /// The nodes of a formula at `home`.
    pub(crate) fn of(nodes: &'a [Node], home: Cell) -> Tokens<'a>
        requires { are_tokens (nodes_at home nodes.now) ≡ true }
        ensures { result ≡ nodes_at home nodes.entry.now }
    {
        Tokens { nodes, home }
    }
}

impl Tokens<'_> {
    /// How many are left.
    pub fn len(&self) -> usize
        ensures { result ≡ length self.now }
    {
        self.nodes.len()
    }

    pub fn is_empty(&self) -> bool
        ensures { IsTrue result ↔ (self.now ≡ []) }
    {
        self.nodes.is_empty()
    }
}

impl<'a> Iterator for Tokens<'a> {
    ghost use Rattle.std.specs.Iterator.{YieldsFirstBy, item_count};

    type Item = Token<'a>;

    ghost next_gives = { YieldsFirstBy lent (λ nodes. nodes) };

    ghost remaining = { item_count (λ nodes. nodes) };

    #[inline(always)]
    fn next(&mut self) -> Option<Token<'a>> {
        let (first, rest) = self.nodes.split_first()?;
        self.nodes = rest;
        Some(first.lent_at(self.home))
    }
}
