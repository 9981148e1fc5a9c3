ghost use Rattle.std.specs.Prelude.{OnErr, OnOk, codes, ◌++◌, ◌≡◌};
ghost use Rattle.calc_model.specs.Printed.{printed_content, printed_tree};
ghost use Rattle.formula_printer.specs.Growth.{BeginsWith};

use crate::tree::print_tree;
use calc_addr::NoMemory;
use calc_model::{Content, Tree};

/// Appends the printed text of a content. Where memory is refused, `out` is as before. It allocates
/// nothing but in `out`, and is linear in the printed text; it recurses as deep as a formula's tree.
pub fn print_content(content: &Content, out: &mut Vec<u8>) -> Result<(), NoMemory>
    ensures ok { OnOk result (out.new.items ≡ out.old.items ++ printed_content content.now) }
    ensures err { OnErr result (out.new.items ≡ out.old.items) }
{
    match content {
        Content::Empty => Ok(()),
        Content::Constant(constant) => constant.value().show(out),
        Content::Formula(formula) => print_formula(formula.tree(), out),
        Content::Raw(text) => out.extend_from_slice(text.as_str().as_bytes()),
    }
}

fn print_formula(tree: &Tree, out: &mut Vec<u8>) -> Result<(), NoMemory>
    ensures ok { OnOk result (out.new.items
        ≡ out.old.items ++ (codes "=" ++ printed_tree tree.now)) }
    ensures err { OnErr result (out.new.items ≡ out.old.items) }
{
    let before = out.len();
    match print_begun(tree, out) {
        Ok(()) => Ok(()),
        Err(refused) => {
            out.truncate(before);
            Err(refused)
        }
    }
}

/// Appends the printed text of a formula. Where memory is refused, `out` has gained a part of it.
fn print_begun(tree: &Tree, out: &mut Vec<u8>) -> Result<(), NoMemory>
    ensures ok { OnOk result (out.new.items
        ≡ out.old.items ++ (codes "=" ++ printed_tree tree.now)) }
    ensures kept { OnErr result (BeginsWith out.old.items out.new.items) }
{
    out.extend_from_slice(b"=")?;
    print_tree(tree, out)
}
