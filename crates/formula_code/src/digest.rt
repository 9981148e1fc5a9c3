ghost use Rattle.std.specs.Prelude.{◌≡◌, fold, map};
ghost use Rattle.formula_code.specs.Digests.{digest_at, mixed, op_number, reference_digest, text_digest};

use crate::relative::RelativeRef;
use calc_addr::Cell;
use calc_model::{Op, Text, Tree};

/// An odd number near 2^64 by the golden ratio.
const FACTOR: u64 = 0x9E37_79B9_7F4A_7C15;

/// How many numbers a digest can be.
const DIGESTS: u128 = 1 << 64;

/// The digest of the tree's relative form at `home`. Linear in its nodes and the bytes of its texts.
#[cycle(digesting)]
pub(crate) fn digest(tree: &Tree, home: Cell) -> u64
    ensures { result ≡ digest_at home tree.now }
{
    match tree {
        Tree::Number(number) => mix(1, (number.raw().unsigned_abs() % DIGESTS) as u64),
        Tree::Words(text) => text_digest(2, text),
        Tree::Bad(_) => 3,
        Tree::Ref(reference) => RelativeRef::of(*reference, home).digest(),
        Tree::Name(name) => text_digest(5, name),
        Tree::Call { name, args } => digest_all(text_digest(6, name), args.as_slice(), home),
        Tree::Paren(child) => mix(7, digest(child.get(), home)),
        Tree::Plus(child) => mix(8, digest(child.get(), home)),
        Tree::Minus(child) => mix(9, digest(child.get(), home)),
        Tree::Percent(child) => mix(10, digest(child.get(), home)),
        Tree::Binary { op, left, right } => {
            let first = mix(op_number(*op), digest(left.get(), home));
            mix(first, digest(right.get(), home))
        }
    }
}

#[cycle(digesting)]
fn digest_all(before: u64, trees: &[Tree], home: Cell) -> u64
    ensures { result ≡ fold mixed before (map (digest_at home) trees.now) }
{
    let mut all = before;
    for tree in trees {
        all = mix(all, digest(tree, home));
    }
    all
}

fn text_digest(kind: u64, text: &Text) -> u64
    ensures { result ≡ text_digest kind text.now }
{
    let mut all = kind;
    for byte in text.as_str().as_bytes() {
        all = mix(all, u64::from(*byte));
    }
    all
}

/// The digest with one more number.
pub(crate) fn mix(digest: u64, part: u64) -> u64
    ensures { result ≡ mixed digest part }
{
    digest.wrapping_mul(FACTOR).wrapping_add(part)
}

fn op_number(op: Op) -> u64
    ensures { result ≡ op_number op }
{
    match op {
        Op::Pow => 11,
        Op::Mul => 12,
        Op::Div => 13,
        Op::Add => 14,
        Op::Sub => 15,
        Op::Cat => 16,
        Op::Eq => 17,
        Op::Ne => 18,
        Op::Lt => 19,
        Op::Le => 20,
        Op::Gt => 21,
        Op::Ge => 22,
    }
}
