//! A read of a field.

ghost use Rattle.std.specs.Prelude.{◌≡◌, ◌<◌, ◌≤◌, ◌^◌, ◌↔◌, IsSome};
ghost use Rattle.heap_words.specs.declared.limits.TheConstants.{ADDRESS_LIMIT};
ghost use Rattle.call_steps.specs.declared.step.Step.TheVariants.{Ended as StepEnded};
ghost use Rattle.call_steps.specs.Ending.{EndsOnlyFor};
ghost use Rattle.handshakes.specs.PhaseWords.{phase_word_of, phase_word_at};
ghost use Rattle.barriers.specs.declared.read.ReadMachine.TheVariants.{Header};
ghost use Rattle.barriers.specs.Spots.{spot_of};
ghost use Rattle.barriers.specs.Reads.{asks_of, fed_of, end_of};
ghost use Rattle.barriers.specs.Causes.{ReadEndsFor};

use crate::ends::ReadEnd;
use crate::front::Front;
use crate::packed::{held_by, len_in};
use crate::spot::Spot;
use crate::watched::Watched;
use call_steps::{CallMachine, Machine, Step};
use handshakes::{FollowMachine, PassView, Phase};
use heap_words::Layout;

/// Loads the header, and then the field, and follows what the field held as the phase asks that the pass
/// has acknowledged. At most 2 steps, and at most 4 to follow.
///
/// The object is taken to be at rest, where its link says: its header is `Plain` or `Kept`. Any other
/// state is read as these are.
#[derive(Clone, Copy, Debug, PartialEq, Eq)]
pub enum ReadMachine {
    /// Loads the header.
    Header { spot: Spot, phase: Phase },
    /// Loads the field.
    Field { spot: Spot, phase: Phase },
    /// Follows what the field held. It has ended where this has.
    Follow { spot: Spot, machine: FollowMachine },
    /// It has ended: the field is at or past `len`, the object's number of fields.
    NoField { spot: Spot, len: u32 },
}

impl ReadMachine {
    /// The read of a field of the object `birth`, which stands at `at`, by this pass. The field number may
    /// be any.
    pub fn new(_layout: &Layout, view: PassView, birth: u32, at: u32, field: u32) -> ReadMachine
        requires near { at < ADDRESS_LIMIT }
        requires acked { IsSome (phase_word_of view.acked) }
        ensures machine { result ≡ Header (spot_of birth at field) (phase_word_at view.acked).phase }

        // Whatever others do: it gives what the load of the field found, where that is its last step; or,
        // under Fix, the link that the load of the field found just before, going where the header at the
        // link's address, which its last step loaded, says that the object is now. It ends without a value
        // only where its first step loaded a header whose len, which the end tells, is not above the field.
        ensures cause { EndsOnlyFor asks_of fed_of end_of
            (ReadEndsFor (spot_of birth at field) (phase_word_at view.acked).phase) result }
    {
        ReadMachine::Header {
            spot: Spot::new(birth, at, field),
            phase: view.phase(),
        }
    }

    /// What the read ended with, and `None` before its end.
    pub fn end(&self) -> Option<ReadEnd>
        ensures value { result ≡ end_of self.now }
        ensures ended { IsSome result ↔ (asks_of self.now ≡ StepEnded) }
    {
        match *self {
            ReadMachine::Header { .. } | ReadMachine::Field { .. } => None,
            ReadMachine::Follow { machine, .. } => Some(ReadEnd::Got(machine.end()?.word)),
            ReadMachine::NoField { len, .. } => Some(ReadEnd::NoField { len }),
        }
    }
}

impl Machine for ReadMachine {
    ghost use Rattle.barriers.specs.Reads.{asks_of, fed_of, blind_of};

    ghost asks = { asks_of };

    ghost fed = { fed_of };

    ghost blind = { blind_of };

    fn ask(&self) -> Step {
        match *self {
            ReadMachine::Header { spot, .. } => Step::Load { at: spot.at },
            ReadMachine::Field { spot, .. } => Step::Load { at: spot.place },
            ReadMachine::Follow { machine, .. } => machine.ask(),
            ReadMachine::NoField { .. } => Step::Ended,
        }
    }

    fn feed(&mut self, found: u64) {
        *self = match *self {
            ReadMachine::Header { spot, phase } => {
                let len = len_in(found);
                if spot.field < len {
                    ReadMachine::Field { spot, phase }
                } else {
                    ReadMachine::NoField { spot, len }
                }
            }
            ReadMachine::Field { spot, phase } => {
                let machine = FollowMachine::in_phase(phase, held_by(found));
                ReadMachine::Follow { spot, machine }
            }
            ReadMachine::Follow { spot, mut machine } => {
                machine.feed(found);
                ReadMachine::Follow { spot, machine }
            }
            ReadMachine::NoField { spot, len } => ReadMachine::NoField { spot, len },
        };
    }
}

impl CallMachine for ReadMachine {
    ghost use Rattle.barriers.specs.Reads.{left_of, none_left_of, some_left_of, falls_of};

    ghost steps_left = { left_of };

    ghost none_left = { none_left_of };

    ghost some_left = { some_left_of };

    ghost falls = { falls_of };

    fn left(&self) -> u32
        ensures bound { result ≡ left_of self.now }
        ensures few { result ≤ 6 }
    {
        match self {
            ReadMachine::Header { .. } => 6,
            ReadMachine::Field { .. } => 5,
            ReadMachine::Follow { machine, .. } => machine.left(),
            ReadMachine::NoField { .. } => 0,
        }
    }
}

impl Watched for ReadMachine {
    ghost use Rattle.barriers.specs.Reads as reads;

    ghost front = { reads.front };

    fn front(&self, _found: u64) -> Front {
        match self {
            ReadMachine::Field { .. } => Front::SealedOrNow,
            _ => Front::Stays,
        }
    }
}
