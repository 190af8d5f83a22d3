//! `unique-lines`: reads lines, and prints each different one once, in the order of their bytes.
#![tactic(auto)]

use papaya_examples::unique_lines::{PROGRAM, run};
use papaya_run_shell::failure::ended;
use std::process::ExitCode;

fn main(rt: HostRuntime) -> ExitCode {
    let status = run(&rt, rt.alloc(), rt.stdin());
    ExitCode::from(ended(status, PROGRAM, &mut rt.stderr()))
}
