//! Words that open no file: those that ask for nothing, and those that generate commands.

use crate::sessions::{Ended, Plan, SMOOTH, end_of, status_over};
use pma_engine::{Job, read_words};
use station::MemStation;
use std::alloc::{AllocError, Global};

// The first read of a script would fail.
const NO_SCRIPT: Plan<'static> = Plan {
    broken: &[0],
    ..SMOOTH
};

// The words of a command line.
fn words_of(alloc: Global, line: &[&str]) -> Result<Vec<String>, AllocError> {
    let mut words = Vec::new(alloc);
    for word in line {
        words.push(String::from_str(alloc, word)?)?;
    }
    Ok(words)
}

/// The status of words that ask for nothing, over a station and a source whose first calls would fail; None for other words.
pub fn asked_nothing(alloc: Global, line: &[&str]) -> Result<Option<u8>, AllocError> {
    let words = words_of(alloc, line)?;
    if read_words(&words).is_some() {
        return Ok(None);
    }
    let mut station = MemStation::new(alloc, b"", 64, 64, &[], Some(0))?;
    let status = status_over(alloc, &words, b"", NO_SCRIPT, &mut station)?;
    Ok(Some(status))
}

/// Says the summary of generated commands; None where these words generate none.
pub fn generated(alloc: Global, count: &str, seed: &str) -> Result<Option<Ended>, AllocError> {
    let words = words_of(alloc, &["gen", count, seed])?;
    let Some(Job::Gen { .. }) = read_words(&words) else {
        return Ok(None);
    };
    let mut station = MemStation::new(alloc, b"", 0, 200, &[], None)?;
    let status = status_over(alloc, &words, b"", NO_SCRIPT, &mut station)?;
    Ok(Some(end_of(alloc, status, &station)?))
}
