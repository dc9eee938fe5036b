//! The dispatch offices of two adjacent gas transmission operators, as a program of commands: what
//! `gi_service::dispatch` does of the words, and its exit status.
#![tactic(auto)]

use gi_places::{Remembered, take_verbose};
use gi_refusals::Counted;
use gi_service::{ProgramFault, Progress, dispatch};
use gi_store::FileSource;
use gi_table_commands::{given_words, reported};
use std::process::ExitCode;

fn main(rt: HostRuntime) -> ExitCode {
    let (mut input, mut errors) = (Remembered::over(rt.stdin()), rt.stderr());
    let output = rt.stdout();
    let mut progress = Progress::new(rt.stderr(), &output);
    let mut output = Counted::over(output);
    let done = match given_words(&rt) {
        Ok(mut words) => dispatch(
            &rt,
            &rt,
            &mut progress,
            &FileSource::new(&rt),
            take_verbose(&mut words),
            words.as_slice(),
            &mut input,
            &mut output,
            &mut errors,
        ),
        Err(fault) => reported(rt.alloc(), Err(ProgramFault::from(fault)), &mut errors),
    };
    match done {
        Ok(()) => ExitCode::SUCCESS,
        Err(fault) => ExitCode::from(fault.status()),
    }
}
