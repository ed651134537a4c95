//! Where the output goes.

ghost use Rattle.std.specs.Prelude.{◌≡◌, ◌<◌, ◌≤◌, ℕ, List, Option, length, IfOk, OnOk, OnErr};
ghost use Rattle.std.specs.Io.KnownBytes.{WriteAppends};
ghost use Rattle.gc_tool.specs.Outside.{Rose};

/// A call of a sink failed.
#[derive(Clone, Copy, Debug, PartialEq, Eq)]
pub struct SinkFailed;

/// Takes bytes, a piece at a time. Its count of faults rises by one in each call that fails, and in no other; it is a
/// number of 64 bits, and stays at the last one.
pub trait Sink {
    /// The bytes that it holds, where it tells them.
    ghost holds: { Self → Option (List ℕ) };

    /// Its count of faults.
    ghost faults: { Self → ℕ };

    /// Takes the first bytes of the piece and says how many, at least one of a piece that has any.
    /// They stand after all that it held. A call that fails leaves what it holds as it was.
    fn give(&mut self, piece: &[u8]) -> Result<usize, SinkFailed>
        ensures fits { IfOk result (λ count. count ≤ length piece.now) }
        ensures moves { IfOk result (λ count. 0 < length piece.now → 0 < count) }
        ensures bytes { WriteAppends (holds self.old) (holds self.new) result piece.now }
        ensures went_well { OnOk result (faults self.new ≡ faults self.old) }
        ensures failed { OnErr result (Rose (faults self.old) (faults self.new)) };
}
