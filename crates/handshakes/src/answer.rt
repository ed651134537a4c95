//! How the collector awaits the answer of a pass.

ghost use Rattle.std.specs.Prelude.{◌≡◌, ◌≢◌, ◌↔◌, ◌≤◌, IsSome};
ghost use Rattle.heap_words.specs.Layouts.{IsPass, ack_at};
ghost use Rattle.handshakes.specs.PhaseWords.{retired_word};

use crate::phase_word::RETIRED;
use call_steps::{CallMachine, Machine, Step};
use heap_words::Layout;

/// What the acknowledgement of a pass says to an announced phase word.
#[derive(Clone, Copy, Debug, PartialEq, Eq)]
pub enum AwaitEnd {
    /// It is the announced word.
    Answered,
    /// It is the word of Retired.
    Retired,
    /// It is another word, which was found at this pass.
    NotYet { pass: u32, found: u64 },
}

/// Loads the acknowledgement of a pass, once.
#[derive(Clone, Copy, Debug, PartialEq, Eq)]
pub enum AwaitMachine {
    Acknowledgement { at: u32, pass: u32, announced: u64 },
    Ended(AwaitEnd),
}

impl AwaitMachine {
    ghost use Rattle.call_steps.specs.declared.step.Step.TheVariants.{Ended};
    ghost use Rattle.handshakes.specs.Awaits.{asks_of, left_of, end_of};

    /// The look at the acknowledgement of a pass, after this word was announced.
    pub fn new(layout: &Layout, pass: u32, announced: u64) -> AwaitMachine
        requires pass { IsPass layout.now pass }
        requires announced { announced ≢ retired_word }
        ensures machine { result ≡ AwaitMachine.Acknowledgement (ack_at pass) pass announced }
        ensures steps { left_of result ≤ 1 }
    {
        AwaitMachine::Acknowledgement {
            at: layout.ack_at(pass),
            pass,
            announced,
        }
    }

    /// What the acknowledgement said, or `None` before it was loaded.
    pub fn end(&self) -> Option<AwaitEnd>
        ensures value { result ≡ end_of self.now }
        ensures ended { IsSome result ↔ (asks_of self.now ≡ Ended) }
    {
        match *self {
            AwaitMachine::Acknowledgement { .. } => None,
            AwaitMachine::Ended(end) => Some(end),
        }
    }
}

impl Machine for AwaitMachine {
    ghost use Rattle.handshakes.specs.Awaits.{asks_of, fed_of, blind_of};

    ghost asks = { asks_of };

    ghost fed = { fed_of };

    ghost blind = { blind_of };

    fn ask(&self) -> Step {
        match *self {
            AwaitMachine::Acknowledgement { at, .. } => Step::Load { at },
            AwaitMachine::Ended(_) => Step::Ended,
        }
    }

    fn feed(&mut self, found: u64) {
        *self = match *self {
            AwaitMachine::Acknowledgement { announced, .. } if found == announced => {
                AwaitMachine::Ended(AwaitEnd::Answered)
            }
            AwaitMachine::Acknowledgement { .. } if found == RETIRED => {
                AwaitMachine::Ended(AwaitEnd::Retired)
            }
            AwaitMachine::Acknowledgement { pass, .. } => {
                AwaitMachine::Ended(AwaitEnd::NotYet { pass, found })
            }
            AwaitMachine::Ended(end) => AwaitMachine::Ended(end),
        };
    }
}

impl CallMachine for AwaitMachine {
    ghost use Rattle.handshakes.specs.Awaits.{left_of, none_left_of, some_left_of, falls_of};

    ghost steps_left = { left_of };

    ghost none_left = { none_left_of };

    ghost some_left = { some_left_of };

    ghost falls = { falls_of };

    fn left(&self) -> u32 {
        match self {
            AwaitMachine::Acknowledgement { .. } => 1,
            AwaitMachine::Ended(_) => 0,
        }
    }
}
