ghost use Rattle.calc_model.specs.OverFields.{ReadsOver};
ghost use Rattle.calc_script.specs.Commands.{area_for, area_of, clear_of, copy_of, delete_of, fill_of, insert_of, make_of, name_line, name_of, set_line, set_of, tested, unname_line, unname_of};
ghost use Rattle.std.specs.Prelude.{IfOk, ◌∷◌, ◌≡◌};
ghost use Rattle.std.specs.Str.{IsUtf8};

use crate::addresses::{read_copied, read_filled, read_only_area, read_rows, read_sizes};
use crate::command::{Cause, Command, Line};
use crate::words::{LineWords, cut_word, first_word, without_spaces, words};
use calc_addr::{Area, NoMemory, Spelled, read_cell};
use calc_model::{Edit, EditCause, Text, is_name};
use formula_reader::read_field;
use std::alloc::Global;
use std::str;

#[tactic(auto, unfolding(crate::specs::Commands::set_of))]
pub(crate) fn set(alloc: Global, rest: &[u8]) -> Result<Line, NoMemory>
    requires { IsUtf8 rest.now }
    ensures { ReadsOver result (λ field. set_of field rest.now) }
{
    let (address, field) = cut_word(without_spaces(rest));
    set_cell(alloc, address, field)
}

fn set_cell(alloc: Global, address: &[u8], field: &[u8]) -> Result<Line, NoMemory>
    requires { IsUtf8 field.now }
    ensures { ReadsOver result (λ meaning. set_line meaning address.now field.now) }
{
    if field.is_empty() {
        return Ok(Line::Refused(Cause::BadCommand));
    }
    match read_cell(address) {
        Spelled::Is(cell) => {
            let content = read_field(alloc, field)?;
            Ok(Line::Do(Command::Edit(Edit::Set { cell, content })))
        }
        Spelled::Outside => Ok(Line::Refused(Cause::Edit(EditCause::OffSheet))),
        Spelled::Not => Ok(Line::Refused(Cause::BadCommand)),
    }
}

#[tactic(auto, unfolding(crate::specs::Commands::clear_of))]
pub(crate) fn clear(rest: &[u8]) -> Line
    ensures { result ≡ clear_of rest.now }
{
    match read_only_area(words(rest)) {
        Ok(area) => Line::Do(Command::Edit(Edit::Clear { area })),
        Err(cause) => Line::Refused(cause),
    }
}

#[tactic(auto, unfolding(crate::specs::Commands::copy_of))]
pub(crate) fn copy(rest: &[u8]) -> Line
    ensures { result ≡ copy_of rest.now }
{
    match read_copied(words(rest)) {
        Ok((area, to)) => Line::Do(Command::Edit(Edit::Copy { area, to })),
        Err(cause) => Line::Refused(cause),
    }
}

#[tactic(auto, unfolding(crate::specs::Commands::fill_of))]
pub(crate) fn fill(rest: &[u8]) -> Line
    ensures { result ≡ fill_of rest.now }
{
    match read_filled(words(rest)) {
        Ok((from, area)) => Line::Do(Command::Edit(Edit::Fill { from, area })),
        Err(cause) => Line::Refused(cause),
    }
}

#[tactic(auto, unfolding(crate::specs::Commands::insert_of))]
pub(crate) fn insert(rest: &[u8]) -> Line
    ensures { result ≡ insert_of rest.now }
{
    match read_rows(words(rest)) {
        Ok(((sheet, place), count)) => Line::Do(Command::Edit(Edit::InsertRows {
            sheet,
            place,
            count,
        })),
        Err(cause) => Line::Refused(cause),
    }
}

#[tactic(auto, unfolding(crate::specs::Commands::delete_of))]
pub(crate) fn delete(rest: &[u8]) -> Line
    ensures { result ≡ delete_of rest.now }
{
    match read_rows(words(rest)) {
        Ok(((sheet, place), count)) => Line::Do(Command::Edit(Edit::DeleteRows {
            sheet,
            place,
            count,
        })),
        Err(cause) => Line::Refused(cause),
    }
}

#[tactic(auto, unfolding(crate::specs::Commands::name_line))]
pub(crate) fn name(alloc: Global, rest: &[u8]) -> Result<Line, NoMemory>
    requires { IsUtf8 rest.now }
    ensures { IfOk result (λ line. line ≡ name_of rest.now) }
{
    match first_word(rest) {
        Some((name, rest)) => name_area(alloc, name, words(rest)),
        None => Ok(Line::Refused(Cause::BadCommand)),
    }
}

#[tactic(auto, unfolding(crate::specs::Commands::name_line))]
fn name_area(alloc: Global, name: &[u8], words: LineWords<'_>) -> Result<Line, NoMemory>
    requires { IsUtf8 name.now }
    ensures { IfOk result (λ line. line ≡ name_line (name.now ∷ words.entry)) }
{
    match read_area_for(name, words) {
        Ok(area) => {
            let name = text_of(alloc, name)?;
            Ok(Line::Do(Command::Edit(Edit::Name { name, area })))
        }
        Err(cause) => Ok(Line::Refused(cause)),
    }
}

/// The area that a name is given by words that are one area.
fn read_area_for(name: &[u8], words: LineWords<'_>) -> Result<Area, Cause>
    ensures { result ≡ tested (area_for name.now) (area_of words.entry) }
{
    let area = read_only_area(words)?;
    if is_name(name) {
        Ok(area)
    } else {
        Err(Cause::Edit(EditCause::BadName))
    }
}

#[tactic(auto, unfolding(crate::specs::Commands::unname_line))]
pub(crate) fn unname(alloc: Global, rest: &[u8]) -> Result<Line, NoMemory>
    requires { IsUtf8 rest.now }
    ensures { IfOk result (λ line. line ≡ unname_of rest.now) }
{
    match first_word(rest) {
        Some((name, rest)) => unname_alone(alloc, name, words(rest)),
        None => Ok(Line::Refused(Cause::BadCommand)),
    }
}

/// A name goes where no words follow it.
#[tactic(auto, unfolding(crate::specs::Commands::unname_line))]
fn unname_alone(alloc: Global, name: &[u8], mut words: LineWords<'_>) -> Result<Line, NoMemory>
    requires { IsUtf8 name.now }
    ensures { IfOk result (λ line. line ≡ unname_line (name.now ∷ words.entry)) }
{
    match words.next() {
        Some(_) => Ok(Line::Refused(Cause::BadCommand)),
        None => {
            let name = text_of(alloc, name)?;
            Ok(Line::Do(Command::Edit(Edit::Unname { name })))
        }
    }
}

#[tactic(auto, unfolding(crate::specs::Commands::make_of))]
pub(crate) fn make(rest: &[u8]) -> Line
    ensures { result ≡ make_of rest.now }
{
    match read_sizes(words(rest)) {
        Ok((start, rows)) => Line::Do(Command::Edit(Edit::Make { start, rows })),
        Err(cause) => Line::Refused(cause),
    }
}

/// The text of a word.
fn text_of(alloc: Global, word: &[u8]) -> Result<Text, NoMemory>
    requires { IsUtf8 word.now }
    ensures { IfOk result (λ text. text ≡ word.now) }
{
    match str::from_utf8(word) {
        Ok(text) => Ok(Text::of(String::from_str(alloc, text)?)),
        Err(_) => unreachable!(),
    }
}
