//! Sessions of the program over a station in memory.

ghost use Rattle.std.specs.Prelude.{◌≡◌, ◌≤◌, ℕ, None, IfOk, IsTrue, Some, codes, map, string_bytes, [], ◌∷◌};
ghost use Rattle.station.specs.View.{NamedBy, Told};
ghost use Rattle.header_gate.specs.Places.{file_length};
ghost use Rattle.header_gate.specs.declared.layout.Layout.{Layout};
ghost use Rattle.index_file.specs.Clean.{IsClean};
ghost use Rattle.pma_engine.specs.declared.words.Job.TheVariants.{Quick};
ghost use Rattle.pma_engine.specs.CommandLines.{IsOnFile, job_of, file_of, made_by};

use line_source::MemSource;
use pma_engine::{Job, read_words, run_words};
use station::{MemStation, Station, Travel};
use std::alloc::{AllocError, Global};

/// The longest file of these sessions, in bytes: two journals of sixteen segments, as many in each region, and an index.
pub const LONGEST: usize = 278528;

/// How a session goes.
#[derive(Clone, Copy)]
pub struct Plan<'a> {
    /// The room for replies, in bytes.
    pub room: usize,
    /// The calls of the station that fail.
    pub fail: &'a [u32],
    /// The first call from which on each fails.
    pub stop: Option<u32>,
    /// The calls of the source that fail.
    pub broken: &'a [u32],
    /// The most bytes of a script.
    pub most: u64,
}

/// Nothing fails.
pub const SMOOTH: Plan<'static> = Plan {
    room: 8192,
    fail: &[],
    stop: None,
    broken: &[],
    most: 1 << 20,
};

/// What is done with the file of a store.
#[derive(Clone, Copy)]
pub enum Verb {
    /// A script is answered.
    Run,
    /// A load text is read into it.
    Load,
    /// The updates of a merge text are made in it.
    Merge,
    /// Its records are said.
    Dump,
    /// It goes over to slot format 2.
    Upgrade,
}

impl Verb {
    // The word of it.
    fn word(self) -> &'static str
        ensures made { made_by (job_of (result.now ∷ codes "f" ∷ [])) ≡ None }
        ensures quick { job_of (result.now ∷ codes "f" ∷ []) ≡ Some Quick → ⊥ }
    {
        match self {
            Verb::Run => "run",
            Verb::Load => "load",
            Verb::Merge => "merge",
            Verb::Dump => "dump",
            Verb::Upgrade => "upgrade",
        }
    }
}

/// How a session ended.
#[derive(Drop)]
pub struct Ended {
    /// The status.
    pub status: u8,
    /// The bytes that were said.
    pub said: Vec<u8>,
    /// The file that it leaves.
    pub file: Vec<u8>,
    /// What the station counted of its reads and writes.
    pub travel: Travel,
}

// What a station holds and said behind a session of this status.
pub(crate) fn end_of(alloc: Global, status: u8, station: &MemStation) -> Result<Ended, AllocError> {
    Ok(Ended {
        status,
        said: Vec::from_slice(alloc, station.said())?,
        file: Vec::from_slice(alloc, station.held())?,
        travel: station.travel(),
    })
}

// A command line that makes a store in `f`, by this command.
fn words_to_create(
    alloc: Global,
    command: &str,
    height: &str,
    journal: Option<&str>,
) -> Result<Vec<String>, AllocError>
    ensures { IfOk result (λ w. file_of (map string_bytes w.items) ≡ codes "f") }
{
    let mut words = Vec::new(alloc);
    words.push(String::from_str(alloc, command)?)?;
    words.push(String::from_str(alloc, "f")?)?;
    words.push(String::from_str(alloc, height)?)?;
    if let Some(journal) = journal {
        words.push(String::from_str(alloc, journal)?)?;
    }
    Ok(words)
}

// The command line of this command on the file `f`.
pub(crate) fn words_on_file(alloc: Global, command: &str) -> Result<Vec<String>, AllocError>
    ensures { IfOk result (λ w. map string_bytes w.items ≡ command.now ∷ codes "f" ∷ []) }
{
    let mut words = Vec::new(alloc);
    words.push(String::from_str(alloc, command)?)?;
    words.push(String::from_str(alloc, "f")?)?;
    Ok(words)
}

// The command line of a verb on the file `f`.
pub(crate) fn words_to(alloc: Global, verb: Verb) -> Result<Vec<String>, AllocError>
    ensures named { IfOk result (λ w. file_of (map string_bytes w.items) ≡ codes "f") }
    ensures made { IfOk result (λ w. made_by (job_of (map string_bytes w.items)) ≡ None) }
    ensures quick { IfOk result (λ w. job_of (map string_bytes w.items) ≡ Some Quick → ⊥) }
{
    words_on_file(alloc, verb.word())
}

// Whether a command line makes no longer file than the longest of these sessions, and opens none by its index.
fn is_small(words: &[String]) -> bool
    ensures no_quick { IsTrue result → job_of (map string_bytes words.now) ≡ Some Quick → ⊥ }
    ensures short { IsTrue result → (l : Layout) → made_by (job_of (map string_bytes words.now)) ≡ Some l →
        file_length l ≤ LONGEST }
{
    match read_words(words) {
        Some(
            Job::Create {
                height,
                journal,
                ..
            },
        ) => height <= 4 && journal <= 16,
        Some(Job::Quick) => false,
        _ => true,
    }
}

// The status of words over a station, with a script in pieces of seven bytes.
pub(crate) fn status_over<S: Station>(
    alloc: Global,
    words: &[String],
    script: &[u8],
    plan: Plan<'_>,
    station: &mut S,
) -> Result<u8, AllocError>
    requires first { (S.view station.old).attached ≡ None }
    requires named { IsOnFile (job_of (map string_bytes words.now)) →
        NamedBy (file_of (map string_bytes words.now)) (S.view station.old).fixed.name }
    requires reach { (l : Layout) → made_by (job_of (map string_bytes words.now)) ≡ Some l →
        file_length l ≤ (S.view station.old).fixed.reach }
    requires clean { job_of (map string_bytes words.now) ≡ Some Quick → Told (S.view station.old) →
        IsClean (S.view station.old).held }
{
    let mut source = MemSource::new(alloc, script, 7, plan.broken)?;
    Ok(run_words(alloc, words, &mut source, station, plan.most))
}

/// Makes a store in a file of these bytes, by this command, with this height limit and journal: None where the file would be
/// longer than the longest of these sessions.
pub fn created_by(
    alloc: Global,
    command: &str,
    bytes: &[u8],
    height: &str,
    journal: Option<&str>,
) -> Result<Option<Ended>, AllocError> {
    let bytes = &bytes[..bytes.len().min(LONGEST)];
    let mut station = MemStation::new(alloc, bytes, LONGEST, 64, &[], None)?;
    let words = words_to_create(alloc, command, height, journal)?;
    if !is_small(&words) {
        return Ok(None);
    }
    let status = status_over(alloc, &words, b"", SMOOTH, &mut station)?;
    Ok(Some(end_of(alloc, status, &station)?))
}

/// Does what a verb says on a file of these bytes, with a script.
pub fn session_by(
    alloc: Global,
    verb: Verb,
    bytes: &[u8],
    script: &[u8],
    plan: Plan<'_>,
) -> Result<Ended, AllocError> {
    let bytes = &bytes[..bytes.len().min(LONGEST)];
    let mut station = MemStation::new(alloc, bytes, bytes.len(), plan.room, plan.fail, plan.stop)?;
    let words = words_to(alloc, verb)?;
    let status = status_over(alloc, &words, script, plan, &mut station)?;
    end_of(alloc, status, &station)
}

/// Answers a script on a file of these bytes.
pub fn session(
    alloc: Global,
    bytes: &[u8],
    script: &[u8],
    plan: Plan<'_>,
) -> Result<Ended, AllocError> {
    session_by(alloc, Verb::Run, bytes, script, plan)
}
