ghost use Rattle.std.specs.Prelude.{◌≡◌, ◌↔◌, IfOk, IsTrue, length, ◌≤◌, true};
ghost use Rattle.calc_model.specs.Formed.{is_formed};
ghost use Rattle.calc_model.specs.TreeShifts.{replaced};
ghost use Rattle.calc_model.specs.Changes.{IsChange, changed};
ghost use Rattle.formula_code.specs.Codes.{has_valid_references};
ghost use Rattle.formula_code.specs.Digests.{digest_at, form_digest};
ghost use Rattle.formula_code.specs.Names.{UsesName};
ghost use Rattle.formula_code.specs.Nodes.{postfix};
ghost use Rattle.formula_code.specs.Relative.{absolute, relative};

use crate::matching::strip;
use crate::node::Node;
use crate::token::Tokens;
use crate::writing::write_nodes;
use calc_addr::{Cell, NoMemory};
use calc_model::{Change, MOST_TOKENS, Tree};
use std::alloc::Global;
use std::marker::Model;

/// A form and its uses. Contracts see it as its code.
#[derive(Drop)]
pub(crate) struct Kept {
    nodes: Vec<Node>,
    digest: u64,
    uses: u32,
}

impl Model for Kept {
    ghost use Rattle.formula_code.specs.Codes.{Code, code_of_code};

    ghost Value = { Code };

    ghost coded = { code_of_code };

    ghost use Rattle.formula_code.specs.Building.{tree_of};
    ghost use Rattle.formula_code.specs.Kept.{IsKept};

    ghost view = { λ k. record { form = tree_of k.nodes.items; uses = k.uses } };

    ghost invariant = { λ k. IsKept k.nodes.items k.digest };
}

impl Kept {
    /// The form of a tree at `home`, used once. Linear in the nodes and the bytes of texts.
    pub(crate) fn of(alloc: Global, tree: &Tree, home: Cell, digest: u64) -> Result<Kept, NoMemory>
        requires formed { is_formed tree.now ≡ true }
        requires digest { digest ≡ digest_at home tree.now }
        ensures { IfOk result (λ k. k ≡ record { form = relative home tree.now; uses = 1 }) }
    {
        let mut nodes = Vec::new(alloc);
        write_nodes(tree, home, alloc, &mut nodes)?;
        Ok(Kept {
            nodes,
            digest,
            uses: 1,
        })
    }

    /// Whether it is the form of the tree at `home`. Linear in the form's nodes.
    pub(crate) fn has_form(&self, tree: &Tree, home: Cell) -> bool
        ensures { IsTrue result ↔ (self.now.form ≡ relative home tree.now) }
    {
        match strip(tree, home, self.nodes.as_slice()) {
            Some(rest) => rest.is_empty(),
            None => false,
        }
    }

    pub(crate) fn digest(&self) -> u64
        ensures { result ≡ form_digest self.now.form }
    {
        self.digest
    }

    pub(crate) fn uses(&self) -> u32
        ensures { result ≡ self.now.uses }
    {
        self.uses
    }

    pub(crate) fn set_uses(&mut self, uses: u32)
        ensures { self.new ≡ record self.old { uses = uses } }
    {
        self.uses = uses;
    }

    /// The nodes of the tree at `home`.
    pub(crate) fn tokens(&self, home: Cell) -> Tokens<'_>
        requires { has_valid_references (absolute home self.now.form) ≡ true }
        ensures nodes { result ≡ postfix (absolute home self.now.form) }
        ensures few { length result ≤ MOST_TOKENS }
        ensures formed { is_formed (absolute home self.now.form) ≡ true }
    {
        Tokens::of(self.nodes.as_slice(), home)
    }

    /// Whether a node has that name, whatever the case of its ASCII letters.
    pub(crate) fn uses_name(&self, name: &[u8]) -> bool
        ensures { IsTrue result ↔ UsesName self.now.form name.now }
    {
        self.nodes.iter().any(|node| node.is_named(name))
    }

    /// Whether the form stays as it is where the formula at `home` changes and goes to `to`. False says
    /// nothing. Linear in the nodes.
    pub(crate) fn stays(&self, home: Cell, change: Change, to: Cell) -> bool
        requires valid { has_valid_references (absolute home self.now.form) ≡ true }
        requires change { IsChange change }
        ensures { IsTrue result
            → relative to (replaced (changed change home) (absolute home self.now.form))
            ≡ self.now.form }
    {
        for node in self.nodes.as_slice() {
            if !node.stays(home, change, to) {
                return false;
            }
        }
        true
    }
}
