ghost use Rattle.calc_model.specs.OverFields.{ReadsOver};
ghost use Rattle.calc_script.specs.Commands.{bare_line, blocks_of, calc_of, command_of, formulas_of, groups_of, line_of, print_of, text_line, told_of, unwatch_of, watch_of};
ghost use Rattle.calc_script.specs.Verbs.{verb_line};
ghost use Rattle.calc_script.specs.Words.{behind_space, up_to_space, words_of};
ghost use Rattle.std.specs.Prelude.{◌≡◌};
ghost use Rattle.std.specs.Str.{IsUtf8};

use crate::addresses::{read_few_cells, read_only_col};
use crate::command::{Cause, Command, Line};
use crate::edits::{clear, copy, delete, fill, insert, make, name, set, unname};
use crate::limits::{MOST_PRINTED, MOST_WATCHED};
use crate::verbs::{Verb, verb_of};
use crate::words::{cut_word, is_idle, without_return, words};
use calc_addr::NoMemory;
use std::alloc::Global;

/// What a line does, or why it is refused. It fails only where memory is refused, and takes none
/// but for texts and formulas. Linear in the line.
pub fn read_line(alloc: Global, line: &[u8]) -> Result<Line, NoMemory>
    ensures { ReadsOver result (λ field. line_of field line.now) }
{
    read_text(alloc, without_return(line))
}

#[tactic(auto, using(crate::proofs::TextCuts::text_passes, crate::proofs::TextCuts::other_bytes_fail), unfolding(crate::specs::Commands::text_line))]
fn read_text(alloc: Global, text: &[u8]) -> Result<Line, NoMemory>
    ensures { ReadsOver result (λ field. text_line field text.now) }
{
    if is_idle(text) {
        return Ok(Line::Nothing);
    }
    match str::from_utf8(text) {
        Ok(text) => read_command(alloc, text.as_bytes()),
        Err(_) => Ok(Line::Refused(Cause::BadCommand)),
    }
}

fn read_command(alloc: Global, text: &[u8]) -> Result<Line, NoMemory>
    requires { IsUtf8 text.now }
    ensures { ReadsOver result (λ field.
        command_of field (up_to_space text.now) (behind_space text.now)) }
{
    let (word, rest) = cut_word(text);
    match verb_of(word) {
        Some(verb) => read_verb(alloc, verb, rest),
        None => Ok(Line::Refused(Cause::BadCommand)),
    }
}

fn read_verb(alloc: Global, verb: Verb, rest: &[u8]) -> Result<Line, NoMemory>
    requires { IsUtf8 rest.now }
    ensures { ReadsOver result (λ field. verb_line field verb rest.now) }
{
    match verb {
        Verb::Set => set(alloc, rest),
        Verb::Clear => Ok(clear(rest)),
        Verb::Copy => Ok(copy(rest)),
        Verb::Fill => Ok(fill(rest)),
        Verb::Insert => Ok(insert(rest)),
        Verb::Delete => Ok(delete(rest)),
        Verb::Name => name(alloc, rest),
        Verb::Unname => unname(alloc, rest),
        Verb::Make => Ok(make(rest)),
        Verb::Calc => Ok(calc(rest)),
        Verb::Print => Ok(print(rest)),
        Verb::Formulas => Ok(formulas(rest)),
        Verb::Groups => Ok(groups(rest)),
        Verb::Blocks => Ok(blocks(rest)),
        Verb::Watch => Ok(watch(rest)),
        Verb::Told => Ok(told(rest)),
        Verb::Unwatch => Ok(unwatch(rest)),
    }
}

#[tactic(auto, unfolding(crate::specs::Commands::calc_of))]
fn calc(rest: &[u8]) -> Line
    ensures { result ≡ calc_of rest.now }
{
    bare(rest, Command::Calc)
}

#[tactic(auto, unfolding(crate::specs::Commands::print_of))]
fn print(rest: &[u8]) -> Line
    ensures { result ≡ print_of rest.now }
{
    match read_few_cells(words(rest), MOST_PRINTED) {
        Ok(area) => Line::Do(Command::Print(area)),
        Err(cause) => Line::Refused(cause),
    }
}

#[tactic(auto, unfolding(crate::specs::Commands::formulas_of))]
fn formulas(rest: &[u8]) -> Line
    ensures { result ≡ formulas_of rest.now }
{
    match read_few_cells(words(rest), MOST_PRINTED) {
        Ok(area) => Line::Do(Command::Formulas(area)),
        Err(cause) => Line::Refused(cause),
    }
}

#[tactic(auto, unfolding(crate::specs::Commands::groups_of))]
fn groups(rest: &[u8]) -> Line
    ensures { result ≡ groups_of rest.now }
{
    match read_only_col(words(rest)) {
        Ok((sheet, col)) => Line::Do(Command::Groups { sheet, col }),
        Err(cause) => Line::Refused(cause),
    }
}

#[tactic(auto, unfolding(crate::specs::Commands::blocks_of))]
fn blocks(rest: &[u8]) -> Line
    ensures { result ≡ blocks_of rest.now }
{
    match read_only_col(words(rest)) {
        Ok((sheet, col)) => Line::Do(Command::Blocks { sheet, col }),
        Err(cause) => Line::Refused(cause),
    }
}

#[tactic(auto, unfolding(crate::specs::Commands::watch_of))]
fn watch(rest: &[u8]) -> Line
    ensures { result ≡ watch_of rest.now }
{
    match read_few_cells(words(rest), MOST_WATCHED) {
        Ok(area) => Line::Do(Command::Watch(area)),
        Err(cause) => Line::Refused(cause),
    }
}

#[tactic(auto, unfolding(crate::specs::Commands::told_of))]
fn told(rest: &[u8]) -> Line
    ensures { result ≡ told_of rest.now }
{
    bare(rest, Command::Told)
}

#[tactic(auto, unfolding(crate::specs::Commands::unwatch_of))]
fn unwatch(rest: &[u8]) -> Line
    ensures { result ≡ unwatch_of rest.now }
{
    bare(rest, Command::Unwatch)
}

/// The command, where no words follow it.
fn bare(rest: &[u8], command: Command) -> Line
    ensures { result ≡ bare_line command (words_of rest.now) }
{
    match words(rest).next() {
        None => Line::Do(command),
        Some(_) => Line::Refused(Cause::BadCommand),
    }
}
