//! A station that tells nothing: its file may change behind the program's back, and its calls may fail.

ghost use Rattle.std.specs.Prelude.{◌≡◌, ◌+◌, ◌-◌, ◌^◌, ◌≤◌, min, None, IsErr, IfOk, codes, [], ◌∷◌};
ghost use Rattle.pma_engine.specs.CommandLines.{job_of, made_by};

use crate::sessions::{SMOOTH, status_over, words_on_file};
use station::{Failed, SayFailed, Station, Travel};
use std::alloc::{AllocError, Global};

// The longest file that it serves, in bytes: the most that any station's reach may be.
const REACH: usize = 1 << 40;

/// A call, a place, and the byte that stands at the place from the call on.
pub type Change = (u64, usize, u8);

/// A station that tells nothing of its bytes.
#[derive(Drop)]
pub struct UntoldStation {
    /// The file.
    pub file: Vec<u8>,
    /// What was settled of it last.
    pub settled: Vec<u8>,
    /// The file with another byte at each pending place.
    pub filled: Vec<u8>,
    /// The bytes that were said.
    pub said: Vec<u8>,
    /// The byte that changes.
    pub change: Change,
    /// The calls that fail.
    pub faults: Faults,
    /// Whether and how it was attached.
    pub attached: Option<bool>,
    /// How many calls were made.
    pub calls: u64,
    /// How many calls of the disk failed.
    pub disk_faults: u64,
    /// How many replies could not be said.
    pub say_faults: u64,
    /// What it counted of its reads and writes.
    pub travel: Travel,
}

/// Which calls of the disk fail.
#[derive(Clone, Copy)]
pub struct Faults {
    /// One by its number, from 0 on.
    pub one: u64,
    /// All from this one on.
    pub from: u64,
}

/// No call fails.
pub const NO_FAULTS: Faults = Faults {
    one: u64::MAX,
    from: u64::MAX,
};

/// No byte changes.
pub const NO_CHANGE: Change = (u64::MAX, 0, 0);

// Writes bytes at an offset, as far as there are bytes.
fn write_into(file: &mut Vec<u8>, offset: usize, bytes: &[u8]) {
    for (i, byte) in bytes.iter().enumerate() {
        if let Some(old) = file.get_mut(offset.saturating_add(i)) {
            *old = *byte;
        }
    }
}

// Writes that many bytes from an offset on, as far as there are bytes.
fn fill(file: &mut Vec<u8>, offset: usize, count: usize) {
    for i in 0..count {
        if let Some(old) = file.get_mut(offset.saturating_add(i)) {
            *old = 0xA5;
        }
    }
}

impl UntoldStation {
    // Whether the next call of the disk fails.
    fn fails(&self) -> bool {
        self.calls == self.faults.one || self.faults.from <= self.calls
    }

    // Counts a fault of the disk, and answers it.
    fn disk_fault<T>(&mut self) -> Result<T, Failed>
        ensures later { self.old.disk_faults ≤ self.new.disk_faults }
        ensures counted { self.new ≡ record self.old { disk_faults = min (self.old.disk_faults + 1) (2 ^ 64 - 1) } }
        ensures failed { IsErr result }
    {
        self.disk_faults = self.disk_faults.saturating_add(1);
        Err(Failed)
    }

    // The byte at an offset; zero past the end.
    fn byte(&self, offset: u64) -> u8 {
        let (call, changed, byte) = self.change;
        if call <= self.calls && offset == changed as u64 {
            return byte;
        }
        self.file.get(offset as usize).copied().unwrap_or(0)
    }
}

impl Station for UntoldStation {
    ghost use Rattle.mem_sessions.specs.Untold.{untold_station, untold_lawful};

    ghost view = { λ s. untold_station s.attached s.calls s.disk_faults s.say_faults s.travel };

    ghost lawful = { λ s. untold_lawful s.attached s.calls s.disk_faults s.say_faults s.travel };

    fn attach(&mut self, _name: &str, make: bool) -> Result<(), Failed> {
        let fails = self.fails();
        self.calls = self.calls.saturating_add(1);
        self.attached = Some(make);
        if fails {
            return self.disk_fault();
        }
        Ok(())
    }

    fn len(&mut self) -> Result<u64, Failed> {
        let fails = self.fails();
        self.calls = self.calls.saturating_add(1);
        if fails {
            return self.disk_fault();
        }
        Ok(self.file.len().min(REACH) as u64)
    }

    fn set_len(&mut self, _n: u64) -> Result<(), Failed> {
        self.calls = self.calls.saturating_add(1);
        self.disk_fault()
    }

    fn read_at(&mut self, pos: u64, buf: &mut [u8]) -> Result<(), Failed> {
        self.travel.add_read(pos, buf.len() as u64);
        for (k, byte) in buf.iter_mut().enumerate() {
            *byte = self.byte(pos + k as u64);
        }
        let fails = self.fails();
        self.calls = self.calls.saturating_add(1);
        if fails {
            return self.disk_fault();
        }
        Ok(())
    }

    fn write_at(&mut self, pos: u64, bytes: &[u8]) -> Result<(), Failed> {
        let fails = self.fails();
        self.calls = self.calls.saturating_add(1);
        self.travel.add_write(bytes.len() as u64);
        write_into(&mut self.file, pos as usize, bytes);
        fill(&mut self.filled, pos as usize, bytes.len());
        if fails {
            return self.disk_fault();
        }
        Ok(())
    }

    fn sync(&mut self) -> Result<(), Failed> {
        let fails = self.fails();
        self.calls = self.calls.saturating_add(1);
        if fails {
            return self.disk_fault();
        }
        write_into(&mut self.settled, 0, &self.file);
        write_into(&mut self.filled, 0, &self.file);
        Ok(())
    }

    fn say(&mut self, bytes: &[u8]) -> Result<usize, SayFailed> {
        self.calls = self.calls.saturating_add(1);
        match self.said.extend_from_slice(bytes) {
            Ok(()) => Ok(bytes.len()),
            Err(_) => {
                self.say_faults = self.say_faults.saturating_add(1);
                Err(SayFailed)
            }
        }
    }

    fn travel(&self) -> Travel {
        self.travel
    }
}

/// A station that holds a file which changes so, and whose calls fail so.
pub fn untold(
    alloc: Global,
    file: &[u8],
    change: Change,
    faults: Faults,
) -> Result<UntoldStation, AllocError>
    // It isn't attached.
    ensures { IfOk result (λ s. s.attached ≡ None) }
{
    Ok(UntoldStation {
        file: Vec::from_slice(alloc, file)?,
        settled: Vec::from_slice(alloc, file)?,
        filled: Vec::from_slice(alloc, file)?,
        said: Vec::new(alloc),
        change,
        faults,
        attached: None,
        calls: 0,
        disk_faults: 0,
        say_faults: 0,
        travel: Travel::START,
    })
}

// Answers a script by `run` or `quick` over a file that changes so, while calls fail so.
fn untold_session(
    alloc: Global,
    command: &str,
    file: &[u8],
    change: Change,
    faults: Faults,
    script: &[u8],
) -> Result<(u8, UntoldStation), AllocError>
    requires { made_by (job_of (command.now ∷ codes "f" ∷ [])) ≡ None }
{
    let mut station = untold(alloc, file, change, faults)?;
    let words = words_on_file(alloc, command)?;
    let status = status_over(alloc, &words, script, SMOOTH, &mut station)?;
    Ok((status, station))
}

/// Answers a script by `quick` over a file, while calls fail so.
pub fn quick_session(
    alloc: Global,
    file: &[u8],
    script: &[u8],
    faults: Faults,
) -> Result<(u8, UntoldStation), AllocError> {
    untold_session(alloc, "quick", file, NO_CHANGE, faults, script)
}

/// Answers a script by `run` over a file that changes so.
pub fn changed_session(
    alloc: Global,
    file: &[u8],
    change: Change,
    script: &[u8],
) -> Result<(u8, UntoldStation), AllocError> {
    untold_session(alloc, "run", file, change, NO_FAULTS, script)
}
