//! Evaluates the script on standard input, or one that is made from a number, with workers in threads of their own, and
//! prints its text.
#![tactic(auto)]

mod running;

use crew::NoGate;
use plural_io::{StdSink, StdSource};
use program_run::words_of;
use running::run;
use std::process::ExitCode;

fn main(rt: HostRuntime) -> ExitCode {
    let status = match words_of(&rt) {
        Ok(words) => {
            let mut source = StdSource::new(rt.stdin());
            let mut sink = StdSink::new(rt.stdout());
            run(&rt, rt.alloc(), &words, &mut source, &mut sink, &NoGate)
        }
        Err(fault) => fault.status(),
    };
    ExitCode::from(status)
}
