//! `papaya-bench`: times the maps at several workloads, or checks that their results are the same.
#![tactic(auto)]

use papaya_bench_measure::run::{PROGRAM, run_on};
use papaya_run_shell::start::words;
use std::process::ExitCode;

fn main(rt: HostRuntime) -> ExitCode {
    let mut errors = rt.stderr();
    let status = match words(&rt) {
        Ok(words) => run_on(
            &rt,
            rt.alloc(),
            words.as_slice(),
            &mut rt.stdout(),
            &mut errors,
        ),
        Err(failure) => failure.report(PROGRAM, &mut errors),
    };
    ExitCode::from(status)
}
