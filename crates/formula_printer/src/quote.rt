ghost use Rattle.std.specs.Prelude.{OnErr, OnOk, ◌++◌, ◌==◌, ◌≡◌};
ghost use Rattle.std.specs.List.{flat_map, position};
ghost use Rattle.calc_model.specs.Tokens.{doubled, quoted};
ghost use Rattle.formula_printer.specs.Growth.{BeginsWith};

use calc_addr::NoMemory;

/// Appends a text in quotes, where each quote of the text is doubled.
pub fn print_quoted(text: &[u8], out: &mut Vec<u8>) -> Result<(), NoMemory>
    ensures ok { OnOk result (out.new.items ≡ out.old.items ++ quoted text.now) }
    ensures kept { OnErr result (BeginsWith out.old.items out.new.items) }
{
    out.extend_from_slice(b"\"")?;
    print_doubled(text, out)?;
    out.extend_from_slice(b"\"")
}

/// Appends a text with its quotes doubled, run by run up to each quote.
fn print_doubled(text: &[u8], out: &mut Vec<u8>) -> Result<(), NoMemory>
    ensures ok { OnOk result (out.new.items ≡ out.old.items ++ flat_map doubled text.now) }
    ensures kept { OnErr result (BeginsWith out.old.items out.new.items) }
{
    let mut rest = text;
    while let Some(at) = next_quote(rest) {
        out.extend_from_slice(&rest[..at])?;
        out.extend_from_slice(b"\"\"")?;
        rest = &rest[at + 1..];
    }
    out.extend_from_slice(rest)
}

fn next_quote(text: &[u8]) -> Option<usize>
    ensures { result ≡ position (λ byte. byte == 34) text.now }
{
    text.iter().position(|byte| *byte == b'"')
}
