//! The words of the command `calc [--workers N] BOOK`.
#![tactic(auto)]

mod help;

ghost use Rattle.calc_words.specs.Words.{calc_app, words_in, words_of};
ghost use Rattle.calc_words.specs.Args.{HasArgs, HasValues};
ghost use Rattle.clap.specs.Words.{app_of, fault_of, found_of, matches_of, rows_of};
ghost use Rattle.std.specs.Prelude.{[], IfOk, IfSome, IsNone, Some, map, ◌≡◌, ◌≢◌, ◌≤◌, ◌↔◌};

use calc_addr::NoMemory;
use calc_model::Text;
use clap::error::ErrorKind;
use clap::{Arg, ArgAction, ArgMatches, Command, value_parser};
pub use help::{HELP, VERSION, answer};
use std::alloc::{AllocError, Global};
use std::marker::Model;

/// What the words of the command say.
#[derive(Drop)]
pub struct Words {
    /// How many workers there are to be, from 1 to 64.
    pub workers: u32,
    /// The name of the book.
    pub book: Text,
}

impl Model for Words {
    ghost use Rattle.calc_words.specs.Words.{CommandWords};

    ghost Value = { CommandWords };

    ghost view = { λ said. record { workers = said.workers; book = said.book } };
}

/// The command that the words are read by.
fn command<'a>(alloc: Global) -> Result<Command<'a>, AllocError>
    ensures app { IfOk result (λ command. app_of command ≡ calc_app) }
    ensures args { IfOk result HasArgs }
{
    let workers = Arg::new(alloc, "workers")
        .long("workers")
        .action(ArgAction::Set)
        .value_parser(value_parser!(u32).range(1..=64))
        .default_value("4");
    let book = Arg::new(alloc, "book")
        .action(ArgAction::Set)
        .required(true);
    Command::new(alloc, "calc")
        .no_binary_name(true)
        .disable_help_flag(true)
        .arg(workers)?
        .arg(book)
}

/// What the command finds in the words, where it doesn't refuse them.
fn matches_in<'a>(alloc: Global, words: &'a [&'a str]) -> Result<Option<ArgMatches<'a>>, AllocError>
    ensures refused { IfOk result (λ found.
        IsNone found ↔ fault_of calc_app (map (λ w. w.now) words.entry.now) ≢ []) }
    ensures rows { IfOk result (λ found. IfSome found (λ m.
        rows_of (found_of m) ≡ matches_of calc_app (map (λ w. w.now) words.entry.now))) }
    ensures values { IfOk result (λ found. IfSome found HasValues) }
{
    match command(alloc)?.try_get_matches_from(words) {
        Ok(matches) => Ok(Some(matches)),
        Err(error) if error.kind() == ErrorKind::OutOfMemory => Err(AllocError),
        Err(_) => Ok(None),
    }
}

/// What these matches say.
fn said_by(alloc: Global, matches: &ArgMatches<'_>) -> Result<Words, AllocError>
    requires values { HasValues matches.now }
    ensures said { IfOk result (λ said. words_in (rows_of (found_of matches.now)) ≡ Some said) }
    ensures bounds { IfOk result (λ said. (1 ≤ said.workers) × (said.workers ≤ 64)) }
{
    match (matches.get_one::<u32>("workers"), matches.get_str("book")) {
        (Some(workers), Some(book)) => {
            let book = Text::of(String::from_str(alloc, book)?);
            Ok(Words { workers, book })
        }
        _ => unreachable!(),
    }
}

/// The words as clap takes them.
fn lent<'a>(alloc: Global, words: &'a [Text]) -> Result<Vec<&'a str>, AllocError>
    ensures { IfOk result (λ lent. map (λ w. w.now) lent.items ≡ words.entry.now) }
{
    let mut lent = Vec::new(alloc);
    for word in words {
        lent.push(word.as_str())?;
    }
    Ok(lent)
}

/// What the words say, where they are of the command; linear in the words.
///
/// They are refused where clap refuses them for another cause than memory: where the book is missing or a
/// second one is given, an option is unknown or given twice, or the number of workers is missing or outside
/// 1 to 64. `--workers=N` is read as `--workers N`, and after the word `--` the book's name may begin with
/// `-`.
pub fn read_words(alloc: Global, words: &[Text]) -> Result<Option<Words>, NoMemory>
    ensures said { IfOk result (λ said. said ≡ words_of words.now) }
    ensures refused { IfOk result (λ said. IsNone said ↔ fault_of calc_app words.now ≢ []) }
    ensures bounds { IfOk result (λ said.
        IfSome said (λ said. (1 ≤ said.workers) × (said.workers ≤ 64))) }
{
    let lent = lent(alloc, words)?;
    match matches_in(alloc, lent.as_slice())? {
        Some(matches) => Ok(Some(said_by(alloc, &matches)?)),
        None => Ok(None),
    }
}
