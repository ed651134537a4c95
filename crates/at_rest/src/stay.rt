//! A move that leaves the object where it is.

ghost use Rattle.std.specs.Prelude.{◌≡◌, ◌↔◌, IsSome};
ghost use Rattle.call_steps.specs.declared.step.Step.TheVariants.{Ended as StepEnded};
ghost use Rattle.at_rest.specs.Stays.{asks_of, end_of};

use barriers::MoveEnd;
use call_steps::{Machine, Step};
use space_reclaim::MoveJob;

/// Loads the object's header, and leaves the object where it is. One step.
#[derive(Clone, Copy, Debug, PartialEq, Eq)]
pub enum StayMachine {
    /// Loads the header.
    Header(MoveJob),
    /// It has ended: the object's header has this word.
    Ended { header: u64 },
}

impl StayMachine {
    /// What the move ended with, and `None` before its end. It answers Kept alone.
    pub fn end(&self) -> Option<MoveEnd>
        ensures value { result ≡ end_of self.now }
        ensures ended { IsSome result ↔ (asks_of self.now ≡ StepEnded) }
    {
        match *self {
            StayMachine::Header(_) => None,
            StayMachine::Ended { header } => Some(MoveEnd::Kept { header }),
        }
    }
}

impl Machine for StayMachine {
    ghost use Rattle.at_rest.specs.Stays.{asks_of, fed_of, blind_of};

    ghost asks = { asks_of };

    ghost fed = { fed_of };

    ghost blind = { blind_of };

    fn ask(&self) -> Step {
        match *self {
            StayMachine::Header(job) => Step::Load { at: job.from },
            StayMachine::Ended { .. } => Step::Ended,
        }
    }

    fn feed(&mut self, found: u64) {
        *self = match *self {
            StayMachine::Header(_) => StayMachine::Ended { header: found },
            StayMachine::Ended { header } => StayMachine::Ended { header },
        };
    }
}
