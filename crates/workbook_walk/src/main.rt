//! A walk of random edits of a workbook. After each it compares what the workbook tells with a
//! plain list of cells to which it makes the same edit by code of its own.
#![tactic(auto)]

mod asked;
mod book;
mod change;
mod changes;
mod contents;
mod drawn;
mod edits;
mod generated;
mod moves;
mod numbers;
mod pieces;
mod places;
mod rows;
mod walk;

use crate::walk::{Outcome, walk};
use std::process::ExitCode;

/// How many edits it makes.
const EDITS: u32 = 2_000;

fn main(rt: HostRuntime) -> Result<ExitCode, anyhow::Error> {
    let Outcome {
        edits,
        refused,
        failure,
    } = walk(rt.alloc(), EDITS)?;
    if let Some((change, difference)) = failure {
        println!(rt; "edit {edits}: {change:?} leaves a difference in {difference:?}")?;
        return Ok(ExitCode::FAILURE);
    }
    println!(rt; "{edits} edits agree")?;
    println!(rt; "{refused} of them are refused")?;
    Ok(ExitCode::SUCCESS)
}
