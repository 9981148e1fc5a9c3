ghost use Rattle.calc_script.specs.Verbs.{verb_named};
ghost use Rattle.std.specs.Prelude.{map, ◌≡◌};

/// What a line does, by the word at its start.
#[derive(Clone, Copy)]
pub(crate) enum Verb {
    Set,
    Clear,
    Copy,
    Fill,
    Insert,
    Delete,
    Name,
    Unname,
    Make,
    Calc,
    Print,
    Formulas,
    Groups,
    Blocks,
    Watch,
    Told,
    Unwatch,
}

/// The words that begin lines.
const VERBS: [(&[u8], Verb); 17] = [
    (b"set", Verb::Set),
    (b"clear", Verb::Clear),
    (b"copy", Verb::Copy),
    (b"fill", Verb::Fill),
    (b"insert", Verb::Insert),
    (b"delete", Verb::Delete),
    (b"name", Verb::Name),
    (b"unname", Verb::Unname),
    (b"make", Verb::Make),
    (b"calc", Verb::Calc),
    (b"print", Verb::Print),
    (b"formulas", Verb::Formulas),
    (b"groups", Verb::Groups),
    (b"blocks", Verb::Blocks),
    (b"watch", Verb::Watch),
    (b"told", Verb::Told),
    (b"unwatch", Verb::Unwatch),
];

/// What the lines do that begin with the word, if there are any.
pub(crate) fn verb_of(word: &[u8]) -> Option<Verb>
    ensures { result ≡ verb_named (map (λ row. (row.0.now, row.1)) VERBS) word.now }
{
    verb_in(&VERBS, word)
}

fn verb_in(mut rows: &[(&[u8], Verb)], word: &[u8]) -> Option<Verb>
    ensures { result ≡ verb_named (map (λ row. (row.0.now, row.1)) rows.entry.now) word.now }
{
    while let [(name, verb), rest @ ..] = rows {
        if word == *name {
            return Some(*verb);
        }
        rows = rest;
    }
    None
}
