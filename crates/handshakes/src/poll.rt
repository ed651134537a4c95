//! How a pass looks at the phase word, and answers a phase.

ghost use Rattle.std.specs.Prelude.{◌≡◌, ◌↔◌, ◌≤◌, ◌+◌, All, IsSome, drop, length, slice_set};
ghost use Rattle.heap_words.specs.FieldWords.{IsFieldWord};
ghost use Rattle.heap_words.specs.Layouts.{IsPass};
ghost use Rattle.object_headers.specs.Headers.{header_at};
ghost use Rattle.handshakes.specs.PhaseWords.{phase_word_of, phase_word_at};
ghost use Rattle.handshakes.specs.Follows.{place_by};

use crate::follow::{phase_at, place_by};
use crate::pass_view::PassView;
use crate::phase_word::Phase;
use call_steps::{CallMachine, Machine, Step};
use heap_words::{FieldWord, Layout, REGISTERS};

/// What a poll works on: the addresses of its words, and what the pass knows and holds.
#[derive(Clone, Copy, Debug, PartialEq, Eq)]
pub struct Poll {
    pub phase_at: u32,
    pub mark_at: u32,
    pub ack_at: u32,
    pub view: PassView,
    /// The registers `a` to `h`.
    pub registers: [FieldWord; REGISTERS],
}

/// What the pass knows and holds after a poll.
#[derive(Clone, Copy, Debug, PartialEq, Eq)]
pub struct PollEnd {
    pub view: PassView,
    pub registers: [FieldWord; REGISTERS],
}

/// Loads the phase word, and ends where it is the acknowledged one. Otherwise it does the phase's work:
/// with Fix it follows the links in the registers, in order; with Copy in a round other than 0 it loads
/// the mark word, which becomes the pass's mark; with Free the pass ceases to have a mark. At last it
/// stores the phase word in the acknowledgement, and only then the pass has its new mark.
#[derive(Clone, Copy, Debug, PartialEq, Eq)]
pub enum PollMachine {
    /// Loads the phase word.
    Phase(Poll),
    /// Loads the mark word, for the phase word `word`.
    Mark {
        poll: Poll,
        word: u64,
    },
    /// Loads the header to which the link in a register leads.
    Follow {
        poll: Poll,
        word: u64,
        register: u32,
        birth: u32,
        at: u32,
    },
    /// Stores the phase word; the pass then has this mark.
    Acknowledge {
        poll: Poll,
        word: u64,
        mark: u64,
    },
    Ended(PollEnd),
}

impl Poll {
    ghost use Rattle.std.specs.Prelude.{◌-◌};
    ghost use Rattle.handshakes.specs.Polls.{follow_from, followed, rest_after, begin_by, ended};

    /// Follows the first link of the registers from this one on, or goes on to the acknowledgement.
    fn follow_from(&self, word: u64, first: usize) -> PollMachine
        ensures { result ≡ follow_from self.now word first (drop first self.now.registers) }
    {
        for register in first..REGISTERS {
            if let FieldWord::Link { birth, at } = self.registers[register] {
                return PollMachine::Follow {
                    poll: *self,
                    word,
                    register: register as u32,
                    birth,
                    at,
                };
            }
        }
        self.acknowledge(word, self.view.mark)
    }

    /// The poll with the link in a register going to this address.
    fn followed(&self, register: u32, birth: u32, at: u32) -> Poll
        ensures { result ≡ followed self.now register birth at }
    {
        let mut next = *self;
        if (register as usize) < REGISTERS {
            next.registers[register as usize] = FieldWord::Link { birth, at };
        }
        next
    }

    /// Goes on after a register.
    fn follow_after(&self, word: u64, register: u32) -> PollMachine
        ensures { result ≡ follow_from self.now word (register + 1) (rest_after self.now register) }
    {
        self.follow_from(word, register as usize + 1)
    }

    fn acknowledge(&self, word: u64, mark: u64) -> PollMachine
        ensures { result ≡ PollMachine.Acknowledge self.now word mark }
    {
        PollMachine::Acknowledge {
            poll: *self,
            word,
            mark,
        }
    }

    /// Ends with this view and the registers as they are.
    fn ended(&self, view: PassView) -> PollMachine
        ensures { result ≡ ended view self.now.registers }
    {
        let registers = self.registers;
        PollMachine::Ended(PollEnd { view, registers })
    }

    /// A bound on the steps that are left with the registers from this one on.
    fn left_from(&self, first: u32) -> u32
        ensures value { result ≡ length self.now.registers - first + 2 }
        ensures small { result ≤ 10 }
    {
        (REGISTERS as u32).saturating_sub(first) + 2
    }

    /// The same with those after a register.
    fn left_after(&self, register: u32) -> u32
        ensures { result ≡ length self.now.registers - (register + 1) + 2 }
    {
        self.left_from(register.saturating_add(1))
    }

    /// Begins the work of the phase that this word announces.
    fn begin(&self, word: u64) -> PollMachine
        ensures { result ≡ begin_by (phase_word_at word).phase (phase_word_at word).round self.now word }
    {
        let announced = phase_at(word);
        match announced.phase {
            Phase::Free => self.acknowledge(word, 0),
            Phase::Copy if announced.round != 0 => PollMachine::Mark { poll: *self, word },
            Phase::Fix => self.follow_from(word, 0),
            Phase::Mark | Phase::Confirm | Phase::Copy | Phase::Retired => {
                self.acknowledge(word, self.view.mark)
            }
        }
    }
}

impl PollMachine {
    ghost use Rattle.call_steps.specs.declared.step.Step.TheVariants.{Ended};
    ghost use Rattle.handshakes.specs.Polls.{poll_of, asks_of, left_of, end_of};

    /// The poll of a pass that holds these words in its registers.
    pub fn new(layout: &Layout, view: PassView, registers: [FieldWord; REGISTERS]) -> PollMachine
        requires pass { IsPass layout.now view.pass }
        requires acked { IsSome (phase_word_of view.acked) }
        requires registers { All IsFieldWord registers }
        ensures machine { result ≡ PollMachine.Phase (poll_of view registers) }
        ensures steps { left_of result ≤ 34 }
    {
        PollMachine::Phase(Poll {
            phase_at: layout.phase_at(),
            mark_at: layout.mark_at(),
            ack_at: layout.ack_at(view.pass),
            view,
            registers,
        })
    }

    /// How it ended, or `None` while it asks for a step.
    pub fn end(&self) -> Option<PollEnd>
        ensures value { result ≡ end_of self.now }
        ensures ended { IsSome result ↔ (asks_of self.now ≡ Ended) }
    {
        match *self {
            PollMachine::Ended(end) => Some(end),
            _ => None,
        }
    }
}

impl Machine for PollMachine {
    ghost use Rattle.handshakes.specs.Polls.{asks_of, fed_of, blind_of};

    ghost asks = { asks_of };

    ghost fed = { fed_of };

    ghost blind = { blind_of };

    fn ask(&self) -> Step {
        match *self {
            PollMachine::Phase(poll) => Step::Load { at: poll.phase_at },
            PollMachine::Mark { poll, .. } => Step::Load { at: poll.mark_at },
            PollMachine::Follow { at, .. } => Step::Load { at },
            PollMachine::Acknowledge { poll, word, .. } => Step::Store {
                at: poll.ack_at,
                put: word,
            },
            PollMachine::Ended(_) => Step::Ended,
        }
    }

    fn feed(&mut self, found: u64) {
        *self = match *self {
            PollMachine::Phase(poll) if found == poll.view.acked => poll.ended(poll.view),
            PollMachine::Phase(poll) => poll.begin(found),
            PollMachine::Mark { poll, word } => poll.acknowledge(word, found),
            PollMachine::Follow {
                poll,
                word,
                register,
                birth,
                at,
            } => poll
                .followed(register, birth, place_by(found, at))
                .follow_after(word, register),
            PollMachine::Acknowledge { poll, word, mark } => poll.ended(PassView {
                pass: poll.view.pass,
                acked: word,
                mark,
            }),
            PollMachine::Ended(end) => PollMachine::Ended(end),
        };
    }
}

impl CallMachine for PollMachine {
    ghost use Rattle.handshakes.specs.Polls.{left_of, none_left_of, some_left_of, falls_of};

    ghost steps_left = { left_of };

    ghost none_left = { none_left_of };

    ghost some_left = { some_left_of };

    ghost falls = { falls_of };

    fn left(&self) -> u32 {
        match *self {
            PollMachine::Phase(poll) => poll.left_from(0) + 1,
            PollMachine::Mark { .. } => 2,
            PollMachine::Follow { poll, register, .. } => poll.left_after(register),
            PollMachine::Acknowledge { .. } => 1,
            PollMachine::Ended(_) => 0,
        }
    }
}
