//! The commands `match` and `hours` of the dispatch offices, as a program of their own, which is
//! proved and built without desks, books, scripts and offices.
#![tactic(auto)]

use gi_table_commands::{dispatch_tables, given_words, reported};
use std::process::ExitCode;

fn main(rt: HostRuntime) -> ExitCode {
    let (mut input, mut output, mut errors) = (rt.stdin(), rt.stdout(), rt.stderr());
    let done = match given_words(&rt) {
        Ok(words) => dispatch_tables(
            &rt,
            rt.alloc(),
            words.as_slice(),
            &mut input,
            &mut output,
            &mut errors,
        ),
        Err(fault) => reported(rt.alloc(), Err(fault), &mut errors),
    };
    match done {
        Ok(()) => ExitCode::SUCCESS,
        Err(fault) => ExitCode::from(fault.status()),
    }
}
