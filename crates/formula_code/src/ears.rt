ghost use Rattle.std.specs.Prelude.{◌≡◌, ◌++◌, OnErr, OnOk, length, option_to_list, take};
ghost use Rattle.formula_code.specs.Ears.{ear_of, ears_of, node_ears};
ghost use Rattle.formula_code.specs.Lent.{lent};

use crate::relative::has_rows;
use crate::token::{Token, Tokens};
use calc_addr::{Cell, NoMemory, Ref};
use calc_model::{Ear, Looked, NameTable};

/// Appends the ears of these nodes of the formula at `home`. Where memory is refused, `out` begins as
/// before. Linear in the nodes, with a lookup for each name.
pub(crate) fn push_ears<N: NameTable>(
    mut tokens: Tokens<'_>,
    home: Cell,
    names: &N,
    out: &mut Vec<Ear>,
) -> Result<(), NoMemory>
    ensures ok { OnOk result (out.new.items
        ≡ out.old.items ++ ears_of home (N.entries names.now) tokens.entry) }
    ensures err { OnErr result (take (length out.old.items) out.new.items ≡ out.old.items) }
{
    while let Some(token) = tokens.next() {
        if let Some(ear) = ear_of_token(&token, home, names) {
            out.push(ear)?;
        }
    }
    Ok(())
}

fn ear_of_token<N: NameTable>(token: &Token<'_>, home: Cell, names: &N) -> Option<Ear>
    ensures { option_to_list result ≡ node_ears home (N.entries names.now) (lent token.now) }
{
    match token {
        Token::Ref(reference) => Some(ear_of(*reference, home)),
        Token::Name(name) => match names.lookup(name.as_str().as_bytes()) {
            Looked::At(area) => Some(Ear {
                area,
                first_moves: false,
                last_moves: false,
            }),
            Looked::Gone | Looked::Absent => None,
        },
        _ => None,
    }
}

fn ear_of(reference: Ref, home: Cell) -> Ear
    ensures { result ≡ ear_of home reference }
{
    let rows = has_rows(reference.span);
    Ear {
        area: reference.here(home),
        first_moves: rows && !reference.marks.first_row,
        last_moves: rows && !reference.marks.last_row,
    }
}
