//! A station that tells nothing of another one, to which it hands each call.

use crate::files::noting;
use station::{CrashStation, Failed, MemStation, SayFailed, Station, Travel};
use std::alloc::Global;
use std::process::Abort;

/// A station in memory of which nothing is told, as of the operating system's.
#[derive(Drop)]
pub struct UntoldStation {
    /// The station that does what is asked.
    pub inner: CrashStation,
}

impl Station for UntoldStation {
    ghost use Rattle.station.specs.CrashStation.{crash_view, crash_lawful};
    ghost use Rattle.array_tests.specs.UntoldStation.{untell, untold_lawful};

    ghost view = { λ s. untell (crash_view s.inner) };

    ghost lawful = { λ s. untold_lawful (crash_view s.inner) (crash_lawful s.inner) };

    fn attach(&mut self, name: &str, make: bool) -> Result<(), Failed> {
        self.inner.attach(name, make)
    }

    fn len(&mut self) -> Result<u64, Failed> {
        self.inner.len()
    }

    fn set_len(&mut self, n: u64) -> Result<(), Failed> {
        self.inner.set_len(n)
    }

    fn read_at(&mut self, pos: u64, buf: &mut [u8]) -> Result<(), Failed> {
        self.inner.read_at(pos, buf)
    }

    fn write_at(&mut self, pos: u64, bytes: &[u8]) -> Result<(), Failed> {
        self.inner.write_at(pos, bytes)
    }

    fn sync(&mut self) -> Result<(), Failed> {
        self.inner.sync()
    }

    fn say(&mut self, bytes: &[u8]) -> Result<usize, SayFailed> {
        self.inner.say(bytes)
    }

    fn travel(&self) -> Travel {
        self.inner.travel()
    }
}

/// A station that holds a file, of which nothing is told.
pub fn untold(rt: &impl Abort, alloc: Global, file: &[u8]) -> UntoldStation {
    UntoldStation {
        inner: noting(rt, alloc, file),
    }
}

/// One of which besides the call with this number fails, or from it on every call.
pub fn failing(
    rt: &impl Abort,
    alloc: Global,
    file: &[u8],
    call: u32,
    is_last: bool,
) -> UntoldStation {
    assert!(rt; file.len() < 1000000);
    let inner = if is_last {
        MemStation::new(alloc, file, file.len(), 0, &[], Some(call)).expect(rt, "memory")
    } else {
        MemStation::new(alloc, file, file.len(), 0, &[call], None).expect(rt, "memory")
    };
    UntoldStation {
        inner: CrashStation::new(alloc, inner, 400, 1000000).expect(rt, "memory"),
    }
}
