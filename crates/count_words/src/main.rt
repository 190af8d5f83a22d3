//! `count-words`: reads a text, and prints its ten commonest words with their counts.
#![tactic(auto)]

use papaya_examples::count_words::{PROGRAM, run};
use papaya_run_shell::failure::ended;
use std::process::ExitCode;

fn main(rt: HostRuntime) -> ExitCode {
    let status = run(&rt, rt.alloc(), rt.stdin());
    ExitCode::from(ended(status, PROGRAM, &mut rt.stderr()))
}
