//! The memory of the process.
use papaya_run_shell::failure::Failure;
use std::fs::File;
use std::io::Read;
use std::rt::Files;

/// The bytes of a page.
const PAGE: u64 = 4096;

/// Returns the resident bytes of the process, by Linux: whole pages.
pub(crate) fn resident<R: Files>(rt: &R) -> Result<u64, Failure> {
    let mut text = [0u8; 64];
    let mut file = File::open(rt, "/proc/self/statm").map_err(|_| Failure::Input)?;
    let length = file.read(&mut text).map_err(|_| Failure::Input)?;
    pages_in(text.get(..length).unwrap_or(&[]))
        .map(|pages| pages.saturating_mul(PAGE))
        .ok_or(Failure::Input)
}

/// Returns the second number of a line: how many of a process's pages are in memory.
fn pages_in(line: &[u8]) -> Option<u64> {
    std::str::from_utf8(line)
        .ok()?
        .split(' ')
        .nth(1)?
        .parse()
        .ok()
}
