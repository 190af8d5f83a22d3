//! Readers, writers and words for the tests of programs.
use std::alloc::{AllocError, Global};
use std::io;
use std::io::{Read, Write};

/// A reader that returns a few bytes at a time, and may fail after all of them.
#[derive(Drop)]
pub struct Source<'a> {
    pub text: &'a [u8],
    /// The most bytes that it returns at a time.
    pub step: usize,
    pub fails: bool,
}

impl Read for Source<'_> {
    fn read(&mut self, buf: &mut [u8]) -> io::Result<usize> {
        if self.fails && self.text.is_empty() {
            return Err(io::Error::from(io::ErrorKind::TimedOut));
        }
        let count = self.text.len().min(buf.len()).min(self.step);
        buf[..count].copy_from_slice(&self.text[..count]);
        self.text = &self.text[count..];
        Ok(count)
    }
}

/// A writer that fails after it has taken this many bytes.
#[derive(Drop)]
pub struct Sink {
    pub text: Vec<u8>,
    pub room: usize,
}

impl Write for Sink {
    fn write(&mut self, buf: &[u8]) -> io::Result<usize> {
        let count = buf.len().min(self.room);
        if count == 0 && !buf.is_empty() {
            return Err(io::Error::from(io::ErrorKind::StorageFull));
        }
        self.text.extend_from_slice(&buf[..count])?;
        self.room -= count;
        Ok(count)
    }

    fn flush(&mut self) -> io::Result<()> {
        Ok(())
    }
}

/// Returns the words of a text, which are separated by one space.
pub fn words(alloc: Global, text: &str) -> Result<Vec<String>, AllocError> {
    let mut words = Vec::new(alloc);
    for word in text.split(' ') {
        words.push(String::from_str(alloc, word)?)?;
    }
    Ok(words)
}
