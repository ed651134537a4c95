//! What a pass does with a field word that it has loaded.

ghost use Rattle.std.specs.Prelude.{◌≡◌, ◌↔◌, ◌≤◌, IsSome};
ghost use Rattle.heap_words.specs.FieldWords.{IsFieldWord};
ghost use Rattle.object_headers.specs.Headers.{header_at};
ghost use Rattle.handshakes.specs.PhaseWords.{phase_word_at};
ghost use Rattle.handshakes.specs.Follows.{place_by};

use crate::phase_word::{Phase, PhaseWord};
use call_steps::{CallMachine, Machine, Step};
use heap_words::{FieldWord, Layout};
use object_headers::{Header, State};

/// The field word with which the pass goes on, and whether this machine shaded an object.
#[derive(Clone, Copy, Debug, PartialEq, Eq)]
pub struct FollowEnd {
    pub word: FieldWord,
    pub shaded: bool,
}

/// Under Fix loads the header at a link's address; where that object is now its copy, the link goes to
/// the copy. A number, and a link in another phase, takes no step.
#[derive(Clone, Copy, Debug, PartialEq, Eq)]
pub enum FollowMachine {
    Header { birth: u32, at: u32 },
    Ended(FollowEnd),
}

/// Where an object is whose header this word is and which was at `at`.
#[tactic(auto, unfolding(object_headers::specs::Headers::header_at))]
pub(crate) fn place_by(word: u64, at: u32) -> u32
    ensures { result ≡ place_by (header_at word) at }
{
    match Header::unpack(word) {
        Some(
            Header {
                state: State::Forward,
                target,
                ..
            },
        ) => target,
        _ => at,
    }
}

/// The phase of a word; a word of no phase counts as Free, and is never announced.
#[tactic(auto, unfolding(crate::specs::PhaseWords::phase_word_at))]
pub(crate) fn phase_at(word: u64) -> PhaseWord
    ensures { result ≡ phase_word_at word }
{
    PhaseWord::unpack(word).unwrap_or(PhaseWord {
        phase: Phase::Free,
        cycle: 0,
        round: 0,
    })
}

impl FollowMachine {
    ghost use Rattle.call_steps.specs.declared.step.Step.TheVariants.{Ended};
    ghost use Rattle.handshakes.specs.PhaseWords.{phase_word_of};
    ghost use Rattle.handshakes.specs.Follows.{follow_of, asks_of, left_of, end_of};

    /// The work on a word that was loaded by a pass which has acknowledged a phase.
    pub fn new(_layout: &Layout, acked: u64, word: FieldWord) -> FollowMachine
        requires acked { IsSome (phase_word_of acked) }
        requires word { IsFieldWord word }
        ensures machine { result ≡ follow_of (phase_word_at acked).phase word }
        ensures steps { left_of result ≤ 4 }
    {
        FollowMachine::in_phase(phase_at(acked).phase, word)
    }

    /// The work on a word that was loaded by a pass which has acknowledged this phase.
    pub fn in_phase(phase: Phase, word: FieldWord) -> FollowMachine
        ensures machine { result ≡ follow_of phase word }
        ensures steps { left_of result ≤ 4 }
    {
        match (phase, word) {
            (Phase::Fix, FieldWord::Link { birth, at }) => FollowMachine::Header { birth, at },
            _ => FollowMachine::Ended(FollowEnd {
                word,
                shaded: false,
            }),
        }
    }

    /// How it ended, or `None` while it asks for a step.
    pub fn end(&self) -> Option<FollowEnd>
        ensures value { result ≡ end_of self.now }
        ensures ended { IsSome result ↔ (asks_of self.now ≡ Ended) }
    {
        match *self {
            FollowMachine::Header { .. } => None,
            FollowMachine::Ended(end) => Some(end),
        }
    }
}

impl Machine for FollowMachine {
    ghost use Rattle.handshakes.specs.Follows.{asks_of, fed_of, blind_of};

    ghost asks = { asks_of };

    ghost fed = { fed_of };

    ghost blind = { blind_of };

    fn ask(&self) -> Step {
        match *self {
            FollowMachine::Header { at, .. } => Step::Load { at },
            FollowMachine::Ended(_) => Step::Ended,
        }
    }

    fn feed(&mut self, found: u64) {
        *self = match *self {
            FollowMachine::Header { birth, at } => FollowMachine::Ended(FollowEnd {
                word: FieldWord::Link {
                    birth,
                    at: place_by(found, at),
                },
                shaded: false,
            }),
            FollowMachine::Ended(end) => FollowMachine::Ended(end),
        };
    }
}

impl CallMachine for FollowMachine {
    ghost use Rattle.handshakes.specs.Follows.{left_of, none_left_of, some_left_of, falls_of};

    ghost steps_left = { left_of };

    ghost none_left = { none_left_of };

    ghost some_left = { some_left_of };

    ghost falls = { falls_of };

    fn left(&self) -> u32
        ensures bound { result ≡ left_of self.now }
        ensures few { result ≤ 4 }
    {
        match self {
            FollowMachine::Header { .. } => 1,
            FollowMachine::Ended(_) => 0,
        }
    }
}
