ghost use Rattle.std.specs.Prelude.{OnErr, OnOk, [], codes, if◌then◌else◌, map, ◌++◌, ◌==◌, ◌≡◌};
ghost use Rattle.std.specs.List.{join_with_byte};
ghost use Rattle.calc_addr.specs.Bracketed.{printed_reference};
ghost use Rattle.calc_model.specs.Grammar.{op_text};
ghost use Rattle.calc_model.specs.Printed.{printed_tree};
ghost use Rattle.formula_printer.specs.Growth.{BeginsWith};

use crate::quote::print_quoted;
use calc_addr::{NoMemory, Ref, write_ref};
use calc_model::{Op, Tree};

/// Appends the printed text of a tree. Where memory is refused, `out` has gained a part of it.
#[cycle(printing)]
#[tactic(auto, unfolding(calc_model::specs::Printed::printed_tree))]
pub fn print_tree(tree: &Tree, out: &mut Vec<u8>) -> Result<(), NoMemory>
    ensures ok { OnOk result (out.new.items ≡ out.old.items ++ printed_tree tree.now) }
    ensures kept { OnErr result (BeginsWith out.old.items out.new.items) }
{
    match tree {
        Tree::Number(number) => out.extend_from_slice(number.write().bytes()),
        Tree::Words(text) => print_quoted(text.as_str().as_bytes(), out),
        Tree::Bad(fault) => fault.show(out),
        Tree::Ref(reference) => print_reference(*reference, out),
        Tree::Name(name) => out.extend_from_slice(name.as_str().as_bytes()),
        Tree::Call { name, args } => print_call(name.as_str().as_bytes(), args.as_slice(), out),
        Tree::Paren(child) => print_parenthesis(child.get(), out),
        Tree::Plus(child) => print_prefixed(b"+", child.get(), out),
        Tree::Minus(child) => print_prefixed(b"-", child.get(), out),
        Tree::Percent(child) => print_percent(child.get(), out),
        Tree::Binary { op, left, right } => {
            print_tree(left.get(), out)?;
            print_prefixed(text_of(*op).as_bytes(), right.get(), out)
        }
    }
}

fn print_reference(reference: Ref, out: &mut Vec<u8>) -> Result<(), NoMemory>
    ensures ok { OnOk result (out.new.items
        ≡ out.old.items ++ (codes "[" ++ printed_reference reference ++ codes "]")) }
    ensures kept { OnErr result (BeginsWith out.old.items out.new.items) }
{
    out.extend_from_slice(b"[")?;
    out.extend_from_slice(write_ref(reference).bytes())?;
    out.extend_from_slice(b"]")
}

#[cycle(printing)]
fn print_parenthesis(child: &Tree, out: &mut Vec<u8>) -> Result<(), NoMemory>
    ensures ok { OnOk result (out.new.items
        ≡ out.old.items ++ (codes "(" ++ printed_tree child.now ++ codes ")")) }
    ensures kept { OnErr result (BeginsWith out.old.items out.new.items) }
{
    print_prefixed(b"(", child, out)?;
    out.extend_from_slice(b")")
}

#[cycle(printing)]
fn print_prefixed(operator: &[u8], child: &Tree, out: &mut Vec<u8>) -> Result<(), NoMemory>
    ensures ok { OnOk result (out.new.items
        ≡ out.old.items ++ (operator.now ++ printed_tree child.now)) }
    ensures kept { OnErr result (BeginsWith out.old.items out.new.items) }
{
    out.extend_from_slice(operator)?;
    print_tree(child, out)
}

#[cycle(printing)]
fn print_percent(child: &Tree, out: &mut Vec<u8>) -> Result<(), NoMemory>
    ensures ok { OnOk result (out.new.items
        ≡ out.old.items ++ (printed_tree child.now ++ codes "%")) }
    ensures kept { OnErr result (BeginsWith out.old.items out.new.items) }
{
    print_tree(child, out)?;
    out.extend_from_slice(b"%")
}

#[cycle(printing)]
fn print_call(name: &[u8], args: &[Tree], out: &mut Vec<u8>) -> Result<(), NoMemory>
    ensures ok { OnOk result (out.new.items
        ≡ out.old.items ++ (name.now ++ codes "("
        ++ join_with_byte 59 (map printed_tree args.now) ++ codes ")")) }
    ensures kept { OnErr result (BeginsWith out.old.items out.new.items) }
{
    out.extend_from_slice(name)?;
    out.extend_from_slice(b"(")?;
    print_args(args, out)?;
    out.extend_from_slice(b")")
}

/// Appends parameters with semicolons between them.
#[cycle(printing)]
fn print_args(args: &[Tree], out: &mut Vec<u8>) -> Result<(), NoMemory>
    ensures ok { OnOk result (out.new.items
        ≡ out.old.items ++ join_with_byte 59 (map printed_tree args.now)) }
    ensures kept { OnErr result (BeginsWith out.old.items out.new.items) }
{
    for (at, arg) in args.iter().enumerate() {
        print_prefixed(separator_before(at), arg, out)?;
    }
    Ok(())
}

/// What stands before a parameter: a semicolon, but before the first nothing.
fn separator_before(at: usize) -> &'static [u8]
    ensures { result.now ≡ (if at == 0 then [] else codes ";") }
{
    if at == 0 { b"" } else { b";" }
}

/// How an infix operator is written.
fn text_of(op: Op) -> &'static str
    ensures { result.now ≡ op_text op }
{
    match op {
        Op::Pow => "^",
        Op::Mul => "*",
        Op::Div => "/",
        Op::Add => "+",
        Op::Sub => "-",
        Op::Cat => "&",
        Op::Eq => "=",
        Op::Ne => "<>",
        Op::Lt => "<",
        Op::Le => "<=",
        Op::Gt => ">",
        Op::Ge => ">=",
    }
}
