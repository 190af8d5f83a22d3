//! `count-words`: reads a text, and prints its ten commonest words with their counts. Four threads
//! count on one map, in which each word has an atomic counter of its own.
use papaya::{HashMap, Refused, Session, TextKey};
use papaya_run_shell::failure::Failure;
use std::alloc::Global;
use std::cmp::Reverse;
use std::hash::{BuildHasherDefault, FoldHasher};
use std::io;
use std::io::Read;
use std::sync::Wait;
use std::sync::atomic::{AtomicU64, Ordering};
use std::thread::{Threads, map_chunks};

/// The program's name, as its failures print it.
pub const PROGRAM: &str = "count-words";

/// The number of words that are printed.
const SHOWN: usize = 10;

/// The words, each with its counter.
type Counts = HashMap<String, AtomicU64, BuildHasherDefault<FoldHasher>>;

/// Adds one to the counter of a word, which begins at 0. A word that has a counter is not copied.
fn add_one(
    rt: &impl Wait,
    alloc: Global,
    session: &mut Session<'_, String, AtomicU64>,
    word: &str,
) -> Result<(), Refused> {
    if let Some(counter) = session.get(&TextKey(word)) {
        counter.fetch_add(1, Ordering::SeqCst);
        return Ok(());
    }
    let word = word.to_string(alloc)?;
    let counter = session.get_or_insert_with(rt, word, || AtomicU64::new(0))?;
    counter.fetch_add(1, Ordering::SeqCst);
    Ok(())
}

/// Counts some words, by one thread.
fn count(rt: &impl Wait, alloc: Global, counts: &Counts, words: &[&str]) -> Result<(), Refused> {
    let mut session = Session::new(counts);
    for word in words {
        add_one(rt, alloc, &mut session, word)?;
    }
    Ok(())
}

/// Counts all words by four threads.
fn count_all(
    rt: &(impl Threads + Wait + Sync),
    alloc: Global,
    counts: &Counts,
    words: &[&str],
) -> Result<(), Failure> {
    let size = words.len().div_ceil(4).max(1);
    let parts = map_chunks(
        rt,
        alloc,
        words,
        size,
        &|_, part| count(rt, alloc, counts, part),
    )?;
    for part in parts {
        part?;
    }
    Ok(())
}

/// Returns the words of the map with their counts, the commonest first. Words that are equally
/// common are in alphabetical order.
fn by_count<'a>(
    rt: &impl Wait,
    alloc: Global,
    counts: &'a Counts,
) -> Result<Vec<(Reverse<u64>, &'a str)>, Failure> {
    let mut found = Vec::new(alloc);
    for (word, count) in counts.pin().iter(rt)? {
        found.push((Reverse(count.load(Ordering::SeqCst)), word.as_str()))?;
    }
    found.sort_unstable();
    Ok(found)
}

/// Prints the commonest words of the map with their counts.
fn print_commonest<R: Wait + Print>(rt: &R, alloc: Global, counts: &Counts) -> Result<(), Failure> {
    for (count, word) in by_count(rt, alloc, counts)?.iter().take(SHOWN) {
        println!(rt; "{} {word}", count.0).map_err(|_| Failure::Output)?;
    }
    Ok(())
}

/// Counts the words on a new map, and prints the commonest.
fn count_and_print<R: Threads + Wait + Sync + Print>(
    rt: &R,
    alloc: Global,
    words: &[&str],
) -> Result<(), Failure> {
    let counts: Counts = Counts::new(rt, alloc)?;
    count_all(rt, alloc, &counts, words)?;
    print_commonest(rt, alloc, &counts)
}

/// Runs the whole program, over any reader.
pub fn run<R: Threads + Wait + Sync + Print, I: Read + Drop>(
    rt: &R,
    alloc: Global,
    input: I,
) -> Result<(), Failure> {
    let text = io::read_to_string(alloc, input).map_err(|_| Failure::Input)?;
    let mut words = Vec::new(alloc);
    for word in text.as_str().split_whitespace() {
        words.push(word)?;
    }
    count_and_print(rt, alloc, words.as_slice())
}
