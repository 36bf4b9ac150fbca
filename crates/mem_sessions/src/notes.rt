//! Sessions over a station that notes its calls, and what a crash behind each of them leaves.

use crate::sessions::{LONGEST, Plan, SMOOTH, Verb, status_over, words_to};
use station::{CrashStation, MemStation, Pick, Station};
use std::alloc::{AllocError, Global};

/// The most calls that are noted: more than any session of these tests makes, so that each is noted.
pub const CALLS: u32 = 120;

/// A session whose calls were noted.
#[derive(Drop)]
pub struct NotedSession {
    /// The status.
    pub status: u8,
    station: CrashStation,
}

/// Does what a verb says on a file of these bytes, with a script, over a station that notes its calls.
pub fn noted_by(
    alloc: Global,
    verb: Verb,
    bytes: &[u8],
    script: &[u8],
    plan: Plan<'_>,
) -> Result<NotedSession, AllocError> {
    let bytes = &bytes[..bytes.len().min(LONGEST)];
    let inner = MemStation::new(alloc, bytes, LONGEST, 1024, &[], None)?;
    let mut station = CrashStation::new(alloc, inner, CALLS, 1 << 20)?;
    let words = words_to(alloc, verb)?;
    let status = status_over(alloc, &words, script, plan, &mut station)?;
    Ok(NotedSession { status, station })
}

/// Answers a script so.
pub fn noted(alloc: Global, bytes: &[u8], script: &[u8]) -> Result<NotedSession, AllocError> {
    noted_by(alloc, Verb::Run, bytes, script, SMOOTH)
}

impl NotedSession {
    /// How many calls were noted.
    pub fn calls(&self) -> u32 {
        self.station.noted().min(CALLS as usize) as u32
    }

    /// What a crash behind that many calls leaves, with what is pending left as picked; no byte where fewer were noted.
    pub fn image(&self, alloc: Global, calls: u32, pick: Pick) -> Result<Vec<u8>, AllocError> {
        if calls as usize > self.station.noted() {
            return Ok(Vec::new(alloc));
        }
        self.station.crash_image(alloc, calls, pick)
    }

    /// How many bytes had been said behind that many calls; 0 where fewer were noted.
    pub fn said_after(&self, calls: u32) -> usize {
        if calls as usize > self.station.noted() {
            return 0;
        }
        self.station.said_after(calls)
    }

    /// The bytes that were said in the end.
    pub fn said(&self) -> &[u8] {
        self.station.inner().said()
    }

    /// How many bytes were written.
    pub fn written(&self) -> u64 {
        self.station.travel().written
    }
}
