//! `unique-lines`: reads lines, and prints each different one once, in the order of their bytes.
//! Four threads insert the lines into one set.
use papaya::{HashSet, Refused, TextKey};
use papaya_run_shell::failure::Failure;
use std::alloc::Global;
use std::hash::{BuildHasherDefault, FoldHasher};
use std::io;
use std::io::Read;
use std::sync::Wait;
use std::thread::{Threads, map_chunks};

/// The program's name, as its failures print it.
pub const PROGRAM: &str = "unique-lines";

/// The lines that were read.
type Lines = HashSet<String, BuildHasherDefault<FoldHasher>>;

/// Inserts some lines, by one thread. A line that is present is not copied.
fn bring(rt: &impl Wait, alloc: Global, lines: &Lines, part: &[&str]) -> Result<(), Refused> {
    for line in part {
        if !lines.pin().contains(&TextKey(line)) {
            let line = line.to_string(alloc)?;
            lines.pin().insert(rt, line)?;
        }
    }
    Ok(())
}

/// Inserts all lines by four threads.
fn bring_all(
    rt: &(impl Threads + Wait + Sync),
    alloc: Global,
    lines: &Lines,
    all: &[&str],
) -> Result<(), Failure> {
    let size = all.len().div_ceil(4).max(1);
    let parts = map_chunks(
        rt,
        alloc,
        all,
        size,
        &|_, part| bring(rt, alloc, lines, part),
    )?;
    for part in parts {
        part?;
    }
    Ok(())
}

/// Returns the lines of the set in the order of their bytes.
fn in_order<'a>(rt: &impl Wait, alloc: Global, lines: &'a Lines) -> Result<Vec<&'a str>, Failure> {
    let mut found = Vec::new(alloc);
    for line in lines.pin().iter(rt)? {
        found.push(line.as_str())?;
    }
    found.sort_unstable();
    Ok(found)
}

/// Prints the lines of the set in the order of their bytes.
fn print_in_order<R: Wait + Print>(rt: &R, alloc: Global, lines: &Lines) -> Result<(), Failure> {
    for line in in_order(rt, alloc, lines)?.iter() {
        println!(rt; "{line}").map_err(|_| Failure::Output)?;
    }
    Ok(())
}

/// Inserts the lines into a new set, and prints each once.
fn bring_and_print<R: Threads + Wait + Sync + Print>(
    rt: &R,
    alloc: Global,
    all: &[&str],
) -> Result<(), Failure> {
    let lines: Lines = Lines::new(rt, alloc)?;
    bring_all(rt, alloc, &lines, all)?;
    print_in_order(rt, alloc, &lines)
}

/// Runs the whole program, over any reader.
pub fn run<R: Threads + Wait + Sync + Print, I: Read + Drop>(
    rt: &R,
    alloc: Global,
    input: I,
) -> Result<(), Failure> {
    let text = io::read_to_string(alloc, input).map_err(|_| Failure::Input)?;
    let mut all = Vec::new(alloc);
    for line in text.as_str().lines() {
        all.push(line)?;
    }
    bring_and_print(rt, alloc, all.as_slice())
}
