//! Files of stores: those that a script leaves, and copies with other bytes.

use crate::scripts::{Part, script_of};
use crate::sessions::{Plan, SMOOTH, Verb, created_by, session, session_by};
use std::alloc::{AllocError, Global};
use thiserror::Error;

/// Why there is no such file.
#[derive(Clone, Copy, Debug, Error)]
pub enum Unmet {
    /// There is not enough memory.
    #[error("out of memory")]
    Memory,
    /// The file would be longer than the longest of these sessions.
    #[error("the file would be longer")]
    Long,
    /// A session ended with another status.
    #[error("the status is {0}")]
    Status(u8),
    /// It ended well, and said something else.
    #[error("the replies are others")]
    Replies,
}

impl From<AllocError> for Unmet {
    fn from(_error: AllocError) -> Unmet {
        Unmet::Memory
    }
}

/// The file that a script on a new store of this height limit leaves.
pub fn answered(
    alloc: Global,
    height: &str,
    journal: Option<&str>,
    parts: &[Part],
) -> Result<Vec<u8>, Unmet> {
    answered_by(alloc, "create", height, journal, parts)
}

/// The same on a new store that this command makes.
pub fn answered_by(
    alloc: Global,
    command: &str,
    height: &str,
    journal: Option<&str>,
    parts: &[Part],
) -> Result<Vec<u8>, Unmet> {
    let Some(made) = created_by(alloc, command, b"", height, journal)? else {
        return Err(Unmet::Long);
    };
    if made.status != 0 {
        return Err(Unmet::Status(made.status));
    }
    answered_on(alloc, &made.file, parts)
}

/// The file that a script on a file of these bytes leaves. It is an error if the script is answered otherwise than its parts say.
pub fn answered_on(alloc: Global, file: &[u8], parts: &[Part]) -> Result<Vec<u8>, Unmet> {
    let (script, want) = script_of(alloc, parts)?;
    let ended = session(alloc, file, &script, SMOOTH)?;
    if ended.status != 0 {
        return Err(Unmet::Status(ended.status));
    }
    if ended.said.as_slice() != want.as_slice() {
        return Err(Unmet::Replies);
    }
    Ok(ended.file)
}

/// The file that its upgrade leaves, which says nothing. The first read of a script would fail.
pub fn upgraded(alloc: Global, file: &[u8]) -> Result<Vec<u8>, Unmet> {
    let plan = Plan {
        broken: &[0],
        ..SMOOTH
    };
    let ended = session_by(alloc, Verb::Upgrade, file, b"", plan)?;
    if ended.status != 0 {
        return Err(Unmet::Status(ended.status));
    }
    if !ended.said.is_empty() {
        return Err(Unmet::Replies);
    }
    Ok(ended.file)
}

// Changes bytes, as far as there are places.
fn change(file: &mut Vec<u8>, changes: &[(usize, u8)]) {
    for (place, byte) in changes {
        if let Some(old) = file.get_mut(*place) {
            *old = *byte;
        }
    }
}

/// A copy of a file with some bytes changed.
pub fn with_bytes(
    alloc: Global,
    file: &[u8],
    changes: &[(usize, u8)],
) -> Result<Vec<u8>, AllocError> {
    let mut copy = Vec::from_slice(alloc, file)?;
    change(&mut copy, changes);
    Ok(copy)
}
