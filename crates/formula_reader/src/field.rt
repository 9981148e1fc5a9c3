ghost use Rattle.calc_model.specs.Field.{IsField, begins_formula, content_by, formula_or_raw};
ghost use Rattle.calc_model.specs.declared.content.Content.{Content};
ghost use Rattle.formula_reader.specs.Reading.{formula_of};
ghost use Rattle.std.specs.Prelude.{IfOk, ◌≡◌};
ghost use Rattle.std.specs.Str.{IsUtf8};

use crate::constant::{over, read_constant, to_text};
use crate::cursor::Stop;
use crate::formula::read_formula;
use calc_addr::NoMemory;
use calc_model::{Content, Formula, MOST_FIELD_BYTES};
use std::alloc::{AllocError, Global};

/// What a cell holds whose field is this text. It fails only where memory is refused, and takes none
/// but for texts and formulas. Linear in the text.
pub fn read_field(alloc: Global, field: &[u8]) -> Result<Content, NoMemory>
    requires { IsUtf8 field.now }
    ensures spelled { IfOk result (λ content. IsField field.now content) }
    ensures only { (content : Content) → IsField field.now content
        → IfOk result (λ read. read ≡ content) }
{
    read_content(alloc, field)
}

/// What a cell holds, by the first case that holds of its field.
fn read_content(alloc: Global, field: &[u8]) -> Result<Content, NoMemory>
    requires { IsUtf8 field.now }
    ensures { IfOk result (λ content. content ≡ content_by (formula_of field.now) field.now) }
{
    if field.is_empty() {
        Ok(Content::Empty)
    } else if field.len() > MOST_FIELD_BYTES {
        Ok(Content::Constant(over()))
    } else if begins_formula(field) {
        read_begun(alloc, field)
    } else {
        Ok(Content::Constant(read_constant(alloc, field)?))
    }
}

/// Whether a text begins as a formula does.
fn begins_formula(text: &[u8]) -> bool
    ensures { result ≡ begins_formula text.now }
{
    text.starts_with(b"=") || text.starts_with(b"of:=")
}

/// What a cell holds whose field begins as a formula does.
fn read_begun(alloc: Global, text: &[u8]) -> Result<Content, NoMemory>
    requires { IsUtf8 text.now }
    ensures { IfOk result (λ content. content ≡ formula_or_raw (formula_of text.now) text.now) }
{
    match read_formula(alloc, text) {
        Ok(tree) => Ok(Content::Formula(Formula::of(tree.into_inner()))),
        Err(Stop::Unspelled) => Ok(Content::Raw(to_text(alloc, text)?)),
        Err(Stop::NoMemory) => Err(AllocError),
    }
}
