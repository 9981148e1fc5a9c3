//! `calc [--workers N] BOOK` calculates a book's cells by the script on standard input.
#![tactic(auto)]

mod diagnosis;

use crate::diagnosis::explain;
use calc_cli::{BAD_WORDS, DONE, NO_MEMORY, SINK_FAILED, run};
use calc_io::{PipeDesk, PipeSink};
use calc_model::Text;
use calc_watch::pads;
use calc_words::answer;
use std::env;
use std::io::{self, ErrorKind, Input, Print};
use std::process::ExitCode;
use std::rt::{Env, Files};
use std::thread::Threads;

/// How many watchers a script may attach.
const WATCHERS: usize = 8;

/// The words after the program's name.
fn words_of<R: Env + AllocGlobal>(rt: &R) -> io::Result<Vec<Text>> {
    let mut words = Vec::new(rt.alloc());
    for word in env::args(rt)?.skip(1) {
        words.push(Text::of(word))?;
    }
    Ok(words)
}

/// Runs the command of the words over the book's file, standard input and standard output.
fn calculate<R: Files + Input + Print + AllocGlobal + Threads + Sync>(
    rt: &R,
    words: &[Text],
) -> u8 {
    match pads(rt.alloc(), WATCHERS) {
        Ok(stock) => {
            let mut desk = PipeDesk::new(rt, rt.reader());
            let mut sink = PipeSink::new(io::writer(rt));
            run(rt, rt.alloc(), words, &mut desk, &mut sink, stock)
        }
        Err(_) => NO_MEMORY,
    }
}

/// Answers what the words ask for, or runs their command.
fn status_of<R: Files + Input + Print + AllocGlobal + Threads + Sync>(
    rt: &R,
    words: &[Text],
) -> u8 {
    match answer(words) {
        Some(text) => match print!(rt; "{text}") {
            Ok(()) => DONE,
            Err(_) => SINK_FAILED,
        },
        None => calculate(rt, words),
    }
}

fn main(rt: HostRuntime) -> ExitCode {
    match words_of(&rt) {
        Ok(words) => {
            let status = status_of(&rt, &words);
            explain(&rt, &words, status);
            ExitCode::from(status)
        }
        Err(error) => {
            let status = match error.kind() {
                ErrorKind::OutOfMemory => NO_MEMORY,
                _ => BAD_WORDS,
            };
            explain(&rt, &[], status);
            ExitCode::from(status)
        }
    }
}
