//! Runs tables of books and scripts, which stand in the files that its words name, and says whether every
//! row prints what it says.
#![tactic(auto)]

mod table;

use crate::table::run_rows;
use std::process::ExitCode;
use std::{env, fs, str};

fn main(rt: HostRuntime) -> Result<ExitCode, anyhow::Error> {
    let mut all_hold = true;
    for name in env::args(&rt)?.skip(1) {
        let table = fs::read(&rt, &name)?;
        let outcome = run_rows(&rt, rt.alloc(), &table)?;
        if outcome.failed == 0 {
            println!(rt; "{name}: {} rows hold", outcome.rows)?;
        } else {
            all_hold = false;
            let printed = str::from_utf8(&outcome.printed).unwrap_or("no text");
            println!(rt; "{name}: {} rows don't hold", outcome.failed)?;
            println!(rt; "row {} prints\n{printed}", outcome.first_failed)?;
        }
    }
    Ok(if all_hold {
        ExitCode::SUCCESS
    } else {
        ExitCode::FAILURE
    })
}
