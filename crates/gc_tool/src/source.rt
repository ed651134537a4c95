//! Where the input comes from.

ghost use Rattle.std.specs.Prelude.{◌≡◌, ◌≤◌, ℕ, List, Option, length, IfOk, OnOk, OnErr};
ghost use Rattle.std.specs.Io.KnownBytes.{ReadConsumes};
ghost use Rattle.gc_tool.specs.Outside.{Rose};

/// A call of a source failed.
#[derive(Clone, Copy, Debug, PartialEq, Eq)]
pub struct SourceFailed;

/// Gives bytes, a piece at a time. Its count of faults rises by one in each call that fails, and in no other; it is a
/// number of 64 bits, and stays at the last one.
pub trait Source {
    /// The bytes that it has left, where it tells them.
    ghost left: { Self → Option (List ℕ) };

    /// Its count of faults.
    ghost faults: { Self → ℕ };

    /// Puts bytes at the beginning of the buffer and says how many; what stands after them is of no meaning.
    /// No byte for a buffer that has room is the end. A call that fails leaves what is left as it was.
    fn take(&mut self, buffer: &mut [u8]) -> Result<usize, SourceFailed>
        ensures fits { IfOk result (λ count. count ≤ length buffer.new) }

        // These bytes were the first of what was left; at the end nothing is left; a failure keeps all.
        ensures bytes { ReadConsumes (left self.old) (left self.new) result buffer.new }
        ensures went_well { OnOk result (faults self.new ≡ faults self.old) }
        ensures failed { OnErr result (Rose (faults self.old) (faults self.new)) };
}
