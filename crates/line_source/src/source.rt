//! Where a script comes from.

ghost use Rattle.std.specs.Prelude.{◌≡◌, ◌<◌, ◌≤◌, ◌++◌, [], length, take, IfOk, OnErr};
ghost use Rattle.line_source.specs.SourceView.{SourceView, SourceTold, Went, SourceRose};

/// The source couldn't be read.
#[derive(Clone, Copy)]
pub struct ReadFailed;

/// A script, from which bytes are taken from the front.
///
/// A source may tell what it has left. It always counts the reads that failed, up to the last value of a `u64`.
pub trait Source {
    ghost view: { Self → SourceView };

    /// Moves the first bytes of what is left into the front of `buf`, and answers how many.
    ///
    /// For a `buf` that isn't empty, 0 is the end of the script. `ReadFailed` comes only if the count of failed
    /// reads rose; nothing was taken then.
    fn take(&mut self, buf: &mut [u8]) -> Result<usize, ReadFailed>
        // On Ok as many bytes as it answers, the first that were left, stand at the front of `buf`, and the others are left.
        ensures within { IfOk result (λ n. n ≤ length buf.old) }
        ensures taken { IfOk result (λ n. SourceTold (view self.old) → (view self.old).left ≡ take n buf.new ++ (view self.new).left) }
        // An answer of 0 for a `buf` that isn't empty comes only if nothing was left.
        ensures end { IfOk result (λ n. n ≡ 0 → 0 < length buf.old → SourceTold (view self.old) → (view self.old).left ≡ []) }
        // A read that fails takes nothing, and comes only if the count of failed reads rose.
        ensures none { OnErr result (SourceTold (view self.old) → (view self.new).left ≡ (view self.old).left) }
        ensures cause { OnErr result (SourceRose (view self.old) (view self.new)) }
        // The source goes on telling what it has left, or not telling it; its count of failed reads never falls.
        ensures went { Went (view self.old) (view self.new) };
}
