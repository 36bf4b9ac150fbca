//! A source in memory.

ghost use Rattle.std.specs.Prelude.{◌≡◌, ◌<◌, ◌≤◌, ◌++◌, ◌↔◌, ◌+◌, [], length, take, drop, min, true, IfOk, OnErr, IsErr};
ghost use Rattle.std.specs.List.{Contains};
ghost use Rattle.line_source.specs.SourceView.{SourceTold, Went, SourceRose, one_fault_more};
ghost use Rattle.line_source.specs.MemView.{MemView, as_source};

use super::source::{ReadFailed, Source};
use std::alloc::{AllocError, Global};
use std::marker::Model;

/// A script in memory, which comes in pieces, and whose calls fail by a plan.
#[derive(Drop)]
pub struct MemSource {
    bytes: Vec<u8>,
    at: usize,
    piece: usize,
    fail: Vec<u32>,
    calls: u64,
    faults: u64,
}

impl Model for MemSource {
    ghost use Rattle.std.specs.Prelude.{◌≤◌, length, drop};
    ghost use Rattle.line_source.specs.MemView.{MemView};

    ghost Value = { MemView };

    ghost view = { λ m. record {
      left = drop m.at m.bytes.items;
      piece = m.piece;
      fail = m.fail.items;
      calls = m.calls;
      faults = m.faults;
    } };

    ghost invariant = { λ m. (m.at ≤ length m.bytes.items) × (1 ≤ m.piece) };
}

impl MemSource {
    /// A source of these bytes, which gives at most `piece` of them a call.
    ///
    /// Call number n, from 0, fails exactly if n is in `fail`. It takes memory for both lists, and `AllocError` is want
    /// of memory.
    pub fn new(
        alloc: Global,
        bytes: &[u8],
        piece: usize,
        fail: &[u32],
    ) -> Result<MemSource, AllocError>
        requires { 1 ≤ piece }
        // On Ok all the bytes are left, of which a call gives at most `piece`; no call and no fault is counted, and the numbers
        // in `fail` are those of the calls that are to fail.
        ensures { IfOk result (λ m. m ≡ record {
          left = bytes.now;
          piece = piece;
          fail = fail.now;
          calls = 0;
          faults = 0;
        }) }
    {
        Ok(MemSource {
            bytes: Vec::from_slice(alloc, bytes)?,
            at: 0,
            piece,
            fail: Vec::from_slice(alloc, fail)?,
            calls: 0,
            faults: 0,
        })
    }

    // Whether this call is to fail.
    fn is_failing(&self) -> bool
        ensures { result ≡ true ↔ Contains self.now.fail self.now.calls }
    {
        let fail = self.fail.as_slice();
        match u32::try_from(self.calls) {
            Ok(call) => fail.contains(&call),
            Err(_) => false,
        }
    }
}

impl Source for MemSource {
    ghost view = { as_source };

    fn take(&mut self, buf: &mut [u8]) -> Result<usize, ReadFailed>
        ensures within { IfOk result (λ n. n ≤ length buf.old) }
        ensures taken { IfOk result (λ n. SourceTold (as_source self.old)
            → self.old.left ≡ take n buf.new ++ self.new.left) }
        ensures end { IfOk result (λ n. n ≡ 0 → 0 < length buf.old → SourceTold (as_source self.old)
            → self.old.left ≡ []) }
        ensures none { OnErr result (SourceTold (as_source self.old) → self.new.left ≡ self.old.left) }
        ensures cause { OnErr result (SourceRose (as_source self.old) (as_source self.new)) }
        ensures went { Went (as_source self.old) (as_source self.new) }

        // Fails exactly if the number of the call is listed.
        ensures fails { IsErr result ↔ Contains self.old.fail self.old.calls }
        // On Ok it gives as many bytes as are left, but at most a piece, and at most what `buf` has room for; it counts the call,
        // and nothing else changes.
        ensures size { IfOk result (λ n. n ≡ min (length buf.old) (min self.old.piece (length self.old.left))) }
        ensures gone { IfOk result (λ n. self.new ≡ record self.old {
          left = drop n self.old.left;
          calls = one_fault_more self.old.calls;
        }) }
        // On a failure it counts the call and the fault, and nothing else changes.
        ensures failed { OnErr result (self.new ≡ record self.old {
          calls = one_fault_more self.old.calls;
          faults = one_fault_more self.old.faults;
        }) }
        // The bytes of `buf` behind those given stay, and on a failure all of them.
        ensures behind { IfOk result (λ n. drop n buf.new ≡ drop n buf.old) }
        ensures kept { OnErr result (buf.new ≡ buf.old) }
    {
        let failing = self.is_failing();
        self.calls = self.calls.saturating_add(1);
        if failing {
            self.faults = self.faults.saturating_add(1);
            return Err(ReadFailed);
        }
        let left = self.bytes.len() - self.at;
        let len = buf.len().min(self.piece.min(left));
        buf[..len].copy_from_slice(&self.bytes[self.at..self.at + len]);
        self.at += len;
        Ok(len)
    }
}
