ghost use Rattle.std.specs.Prelude.{◌≡◌, ◌↔◌, IsTrue, true};
ghost use Rattle.std.specs.Str.{str_to_ascii_uppercase};

use crate::relative::RelativeRef;
use calc_addr::Cell;
use calc_model::{Change, Fault, Op, Text};
use calc_num::Num;

/// A node of a formula without its children.
#[derive(Drop)]
pub enum Node {
    Number(Num),
    Words(Text),
    Bad(Fault),
    Ref(RelativeRef),
    Name(Text),
    /// A call with so many parameters.
    Call { name: Text, args: usize },
    Paren,
    Plus,
    Minus,
    Percent,
    Binary(Op),
}

impl Node {
    ghost use Rattle.calc_model.specs.Changes.{IsChange};
    ghost use Rattle.formula_code.specs.Names.{IsNamed};
    ghost use Rattle.formula_code.specs.Staying.{StaysAfter};
    ghost use Rattle.formula_code.specs.Tokens.{absolute_node, is_valid_node};

    /// Whether the node of a form stays as it is where the formula at `home` changes and goes to `to`.
    pub(crate) fn stays(&self, home: Cell, change: Change, to: Cell) -> bool
        requires valid { is_valid_node (absolute_node home self.now) ≡ true }
        requires change { IsChange change }
        ensures { IsTrue result → StaysAfter change home to self.now }
    {
        let Node::Ref(reference) = self else {
            return true;
        };
        match change.reference(home, reference.at(home)) {
            Some(changed) => RelativeRef::of(changed, to).is_same(*reference),
            None => false,
        }
    }

    /// Whether it is that name, whatever the case of its ASCII letters.
    pub(crate) fn is_named(&self, name: &[u8]) -> bool
        ensures { IsTrue result ↔ IsNamed name.now self.now }
    {
        match self {
            Node::Name(other) => is_same_name(other.as_str().as_bytes(), name),
            _ => false,
        }
    }
}

fn is_same_name(name: &[u8], other: &[u8]) -> bool
    ensures { IsTrue result
        ↔ (str_to_ascii_uppercase name.now ≡ str_to_ascii_uppercase other.now) }
{
    name.eq_ignore_ascii_case(other)
}
