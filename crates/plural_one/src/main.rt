//! Evaluates the script on standard input, or one that is made from a number, and prints its text.
#![tactic(auto)]

mod run;

use plural_io::{StdSink, StdSource};
use program_run::words_of;
use run::run_one;
use std::process::ExitCode;

fn main(rt: HostRuntime) -> ExitCode {
    let status = match words_of(&rt) {
        Ok(words) => {
            let mut source = StdSource::new(rt.stdin());
            let mut sink = StdSink::new(rt.stdout());
            run_one(rt.alloc(), &words, &mut source, &mut sink)
        }
        Err(fault) => fault.status(),
    };
    ExitCode::from(status)
}
