//! A read of a field.

ghost use Rattle.std.specs.Prelude.{◌≡◌, ◌<◌, ◌↔◌, IsSome};
ghost use Rattle.heap_words.specs.declared.limits.TheConstants.{ADDRESS_LIMIT};
ghost use Rattle.call_steps.specs.declared.step.Step.TheVariants.{Ended as StepEnded};
ghost use Rattle.call_steps.specs.Ending.{EndsOnlyFor};
ghost use Rattle.handshakes.specs.PhaseWords.{phase_word_of, phase_word_at};
ghost use Rattle.barriers.specs.Spots.{spot_of};
ghost use Rattle.chicken_tags.specs.ReadCauses.{ReadEnds};
ghost use Rattle.chicken_tags.specs.ChickenReads as reads;

use barriers::{Front, ReadEnd, ReadMachine, Spot, Watched};
use call_steps::{CallMachine, Machine, Step};
use handshakes::{PassView, Phase};
use heap_words::Layout;
use tagged_calls::{Location, Placed, read_in};

/// Loads the header, and then reads the field as that of an object at rest: in the copy where the header
/// is `Forward`, and else in the original. At most 2 steps, and at most 4 to follow.
#[derive(Clone, Copy, Debug, PartialEq, Eq)]
pub enum ChickenRead {
    /// Loads the header.
    Header { spot: Spot, phase: Phase },
    /// Reads the field. It has ended where this has.
    Field(Placed<ReadMachine>),
}

impl ChickenRead {
    /// The read of a field of the object `birth`, to which a link leads at `at`, by this pass. The field
    /// number may be any.
    pub fn new(_layout: &Layout, view: PassView, birth: u32, at: u32, field: u32) -> ChickenRead
        requires near { at < ADDRESS_LIMIT }
        requires acked { IsSome (phase_word_of view.acked) }
        ensures machine { result ≡ reads.begun view birth at field }

        // Whatever others do: it ends without a value only where its first step loaded a header whose len,
        // which the end tells, is not above the field. It gives what a read of an object at rest gives, in the
        // original, or in the copy that a `Forward` header told: by a load of the field there, and a follow.
        ensures cause { EndsOnlyFor reads.asks_of reads.fed_of reads.end_of
            (ReadEnds (spot_of birth at field) (phase_word_at view.acked).phase) result }
    {
        ChickenRead::Header {
            spot: Spot::new(birth, at, field),
            phase: view.phase(),
        }
    }

    /// What the read ended with, and `None` before its end.
    pub fn end(&self) -> Option<ReadEnd>
        ensures value { result ≡ reads.end_of self.now }
        ensures ended { IsSome result ↔ (reads.asks_of self.now ≡ StepEnded) }
    {
        match *self {
            ChickenRead::Header { .. } => None,
            ChickenRead::Field(Placed::Original(machine)) => machine.end(),
            ChickenRead::Field(Placed::Copy { machine, .. }) => machine.end(),
        }
    }
}

impl Machine for ChickenRead {
    ghost asks = { reads.asks_of };

    ghost fed = { reads.fed_of };

    ghost blind = { reads.blind_of };

    fn ask(&self) -> Step {
        match self {
            ChickenRead::Header { spot, .. } => Step::Load { at: spot.at },
            ChickenRead::Field(machine) => machine.ask(),
        }
    }

    fn feed(&mut self, found: u64) {
        *self = match *self {
            ChickenRead::Header { spot, phase } => {
                let location = Location::in_header(spot, found);
                ChickenRead::Field(read_in(location, spot, phase, found))
            }
            ChickenRead::Field(mut machine) => {
                machine.feed(found);
                ChickenRead::Field(machine)
            }
        };
    }
}

impl CallMachine for ChickenRead {
    ghost steps_left = { reads.left_of };

    ghost none_left = { reads.none_left_of };

    ghost some_left = { reads.some_left_of };

    ghost falls = { reads.falls_of };

    fn left(&self) -> u32 {
        match self {
            ChickenRead::Header { .. } => 6,
            ChickenRead::Field(machine) => machine.left(),
        }
    }
}

impl Watched for ChickenRead {
    ghost front = { reads.front };

    fn front(&self, found: u64) -> Front {
        match self {
            ChickenRead::Header { .. } => Front::Stays,
            ChickenRead::Field(machine) => machine.front(found),
        }
    }
}
