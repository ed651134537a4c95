//! What a pass knows of the collector.

ghost use Rattle.std.specs.Prelude.{◌≡◌, IsSome};
ghost use Rattle.handshakes.specs.PhaseWords.{phase_word_of, phase_word_at};
ghost use Rattle.handshakes.specs.Retires.{retired_view};

use crate::follow::phase_at;
use crate::phase_word::{Phase, RETIRED};

/// The number of a pass, the phase word that it has acknowledged, and its mark, 0 for none.
#[derive(Clone, Copy, Debug, PartialEq, Eq)]
pub struct PassView {
    pub pass: u32,
    pub acked: u64,
    pub mark: u64,
}

impl PassView {
    /// The phase that the pass has acknowledged.
    pub fn phase(&self) -> Phase
        requires { IsSome (phase_word_of self.now.acked) }
        ensures { result ≡ (phase_word_at self.now.acked).phase }
    {
        phase_at(self.acked).phase
    }

    /// What the pass knows once it has retired: Retired is acknowledged, and it has no mark.
    pub fn retired(&self) -> PassView
        ensures { result ≡ retired_view self.now.pass }
    {
        PassView {
            pass: self.pass,
            acked: RETIRED,
            mark: 0,
        }
    }
}
