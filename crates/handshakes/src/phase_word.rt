//! What a phase word says, and the word that it is packed into.

ghost use Rattle.std.specs.Prelude.{◌≡◌, ◌<◌, ◌^◌, ◌↔◌, IsNone, IfSome};
ghost use Rattle.handshakes.specs.Phases.{code_of, phase_of};
ghost use Rattle.handshakes.specs.PhaseWords.{names_phase};

/// What the collector is doing, or that a pass has ended.
#[derive(Clone, Copy, Debug, PartialEq, Eq)]
pub enum Phase {
    /// Between two cycles.
    Free,
    /// Objects are being marked.
    Mark,
    /// Nothing grey was counted, and the passes confirm it.
    Confirm,
    /// Objects are being copied.
    Copy,
    /// Links to old places are being replaced.
    Fix,
    /// A pass has ended. Only an acknowledgement says so.
    Retired,
}

/// A phase of a cycle, as it is announced and acknowledged.
#[derive(Clone, Copy, Debug, PartialEq, Eq)]
pub struct PhaseWord {
    pub phase: Phase,
    /// The number of the cycle, and 0 with `Retired`.
    pub cycle: u32,
    /// Tells apart announcements of one phase in one cycle: below 2^24, and 0 with `Retired`.
    pub round: u32,
}

/// The word of `Retired`.
pub(crate) const RETIRED: u64 = 5;

/// The code of a phase, in bits 0 to 2.
fn phase_code(phase: Phase) -> u64
    ensures code { result ≡ code_of phase }
    ensures small { result < 6 }
{
    match phase {
        Phase::Free => 0,
        Phase::Mark => 1,
        Phase::Confirm => 2,
        Phase::Copy => 3,
        Phase::Fix => 4,
        Phase::Retired => 5,
    }
}

/// The phase of a code.
#[tactic(auto, unfolding(crate::specs::Phases::phase_of))]
fn phase_from(code: u64) -> Phase
    requires { code < 6 }
    ensures { result ≡ phase_of code }
{
    match code {
        0 => Phase::Free,
        1 => Phase::Mark,
        2 => Phase::Confirm,
        3 => Phase::Copy,
        4 => Phase::Fix,
        _ => Phase::Retired,
    }
}

/// Whether a word is that of a phase.
#[tactic(auto, unfolding(crate::specs::PhaseWords::names_phase))]
fn names_phase(word: u64) -> bool
    ensures { result ≡ names_phase word }
{
    if word % (1 << 3) == 5 {
        return word == 5;
    }
    word % (1 << 3) < 5 && word / (1 << 59) == 0
}

impl PhaseWord {
    ghost use Rattle.handshakes.specs.PhaseWords.{IsPhaseWord, word_of_phase, phase_word_of, HoldsNoPhase};

    /// The word of a phase, from which [`PhaseWord::unpack`] gives it again.
    pub fn pack(&self) -> u64
        requires { IsPhaseWord self.now }
        ensures word { result ≡ word_of_phase self.now }
        ensures packed { result < 2 ^ 59 }
        ensures unpacks { phase_word_of result ≡ Some self.now }
    {
        phase_code(self.phase) + (u64::from(self.cycle) << 3) + (u64::from(self.round) << 35)
    }

    /// The phase of a word, or `None` where the word is that of no phase.
    pub fn unpack(word: u64) -> Option<PhaseWord>
        ensures value { result ≡ phase_word_of word }
        ensures none { IsNone result ↔ HoldsNoPhase word }
        ensures fits { IfSome result IsPhaseWord }
        ensures packs { IfSome result (λ p. word_of_phase p ≡ word) }
    {
        if !names_phase(word) {
            return None;
        }
        Some(PhaseWord {
            phase: phase_from(word % (1 << 3)),
            cycle: (word / (1 << 3) % (1 << 32)) as u32,
            round: (word / (1 << 35) % (1 << 24)) as u32,
        })
    }
}

#[cfg(test)]
mod tests {
    use super::*;

    #[test]
    fn packs_and_unpacks(rt: HostRuntime) {
        for (phase, cycle, word) in [
            (Phase::Free, 0, 0),
            (Phase::Free, 1, 8),
            (Phase::Mark, 1, 9),
            (Phase::Copy, 1, 11),
            (Phase::Fix, 1, 12),
            (Phase::Retired, 0, 5),
        ] {
            let want = PhaseWord {
                phase,
                cycle,
                round: 0,
            };
            assert_eq!(rt; PhaseWord::unpack(word), Some(want), "at {word}");
        }
        let confirm = PhaseWord {
            phase: Phase::Confirm,
            cycle: 1,
            round: 1,
        };
        assert_eq!(rt; confirm.pack(), 0x8_0000_000a);
    }

    #[test]
    fn refuses_words_of_no_phase(rt: HostRuntime) {
        for word in [
            6,
            7,
            13,
            0x8_0000_0005,
            0x0800_0000_0000_0009,
            0x8000_0000_0000_0000,
        ] {
            assert_eq!(rt; PhaseWord::unpack(word), None, "at {word}");
        }
    }
}
