//! The start of a program.
use crate::failure::Failure;
use papaya_words::refused::Refused;
use std::env;
use std::env::Env;
use std::io::ErrorKind;

/// Returns the words behind the program's name.
pub fn words<R: Env + AllocGlobal>(rt: &R) -> Result<Vec<String>, Failure> {
    let mut words = Vec::new(rt.alloc());
    let args = env::args(rt).map_err(|error| match error.kind() {
        // All arguments of good form are ASCII.
        ErrorKind::InvalidData => Failure::Arguments,
        _ => Failure::Refused(Refused::Memory),
    })?;
    for word in args.skip(1) {
        words.push(word)?;
    }
    Ok(words)
}
