//! The functions of the example programs `count-words` and `unique-lines`, over any reader.
//! It uses `papaya`, and `papaya_run_shell` for the failures of a program.
//! `count_words` and `unique_lines` build on it: each is a `main` that calls its module's `run`.
#![tactic(auto)]

pub mod count_words;
pub mod unique_lines;
