//! A read of a field.

ghost use Rattle.std.specs.Prelude.{◌≡◌, ◌<◌, ◌↔◌, IsSome};
ghost use Rattle.heap_words.specs.declared.limits.TheConstants.{ADDRESS_LIMIT};
ghost use Rattle.call_steps.specs.declared.step.Step.TheVariants.{Ended as StepEnded};
ghost use Rattle.call_steps.specs.Ending.{EndsOnlyFor};
ghost use Rattle.handshakes.specs.PhaseWords.{phase_word_of, phase_word_at};
ghost use Rattle.barriers.specs.Spots.{spot_of};
ghost use Rattle.tagged_calls.specs.Locations.{location_in};
ghost use Rattle.wide_objects.specs.WideWords.{wide_word_at};
ghost use Rattle.stopless_copy.specs.ReadCauses.{ReadEnds};
ghost use Rattle.stopless_copy.specs.StoplessReads as reads;

use crate::packed::{address_in, wide_front, wide_in};
use barriers::{Front, ReadEnd, ReadMachine, Spot, Watched, held_by, len_in};
use call_steps::{CallMachine, Machine, Step};
use handshakes::{FollowMachine, PassView, Phase};
use heap_words::Layout;
use tagged_calls::{Location, Placed, read_in};
use wide_objects::{Status2, WideWord};

/// The read of a field of a wide object, whose word there is at `wide`.
#[derive(Clone, Copy, Debug, PartialEq, Eq)]
pub struct WideRead {
    pub spot: Spot,
    pub wide: Spot,
    pub phase: Phase,
}

/// Loads the header, and then reads the field as that of an object at rest: in the copy where the header
/// is `Forward`, and in the original where it is not `Wide`. Where it is, loads the wide word, which has
/// the value, or says that it is in the original, or in the copy, whose address the wide object has. At
/// most 4 steps, and at most 4 to follow.
#[derive(Clone, Copy, Debug, PartialEq, Eq)]
pub enum StoplessRead {
    /// Loads the header.
    Header { spot: Spot, phase: Phase },
    /// Reads the field, or follows what it found. It has ended where this has.
    Field(Placed<ReadMachine>),
    /// Loads the wide word.
    Wide(WideRead),
    /// Loads the word in the original, where the wide word said that the value is.
    Original(WideRead),
    /// Loads the copy's address.
    Address(WideRead),
}

// With the header's word at hand.
fn placed(spot: Spot, phase: Phase, header: u64) -> StoplessRead
    ensures { result ≡ reads.placed spot phase header (location_in spot header) }
{
    match Location::in_header(spot, header) {
        Location::Wide(wide) if spot.field < len_in(header) => {
            StoplessRead::Wide(WideRead { spot, wide, phase })
        }
        location => StoplessRead::Field(read_in(location, spot, phase, header)),
    }
}

// With the field's word at hand.
fn given(spot: Spot, phase: Phase, word: u64) -> StoplessRead
    ensures { result ≡ reads.given spot phase word }
{
    let machine = FollowMachine::in_phase(phase, held_by(word));
    StoplessRead::Field(Placed::Original(ReadMachine::Follow { spot, machine }))
}

// With the wide word at hand.
fn looked(read: WideRead, found: u64) -> StoplessRead
    ensures { result ≡ reads.looked read (wide_word_at found) }
{
    match wide_in(found) {
        WideWord {
            status: Status2::InOriginal,
            ..
        } => StoplessRead::Original(read),
        WideWord {
            status: Status2::InWide,
            word,
        } => given(read.spot, read.phase, word),
        WideWord {
            status: Status2::InCopy,
            ..
        } => StoplessRead::Address(read),
    }
}

// With the word that has the copy's address at hand.
fn addressed(read: WideRead, found: u64) -> StoplessRead
    ensures { result ≡ reads.addressed read found }
{
    let WideRead { spot, phase, .. } = read;
    let copy = Spot::new(spot.birth, address_in(found), spot.field);
    let machine = ReadMachine::Field { spot: copy, phase };
    StoplessRead::Field(Placed::Copy { spot, machine })
}

impl StoplessRead {
    /// The read of a field of the object `birth`, to which a link leads at `at`, by this pass. The field
    /// number may be any.
    pub fn new(_layout: &Layout, view: PassView, birth: u32, at: u32, field: u32) -> StoplessRead
        requires near { at < ADDRESS_LIMIT }
        requires acked { IsSome (phase_word_of view.acked) }
        ensures machine { result ≡ reads.begun view birth at field }

        // Whatever others do: it ends without a value only where its first step loaded a header whose len,
        // which the end tells, is not above the field. What it gives was found, and followed as the phase
        // asks, by a load of the field in the original, or in the copy that a `Forward` header or the wide
        // object told; or by the load of the wide word that the header told, which had the value, or, where
        // that word said that the value is in the original, by the load there directly after it.
        ensures cause { EndsOnlyFor reads.asks_of reads.fed_of reads.end_of
            (ReadEnds (spot_of birth at field) (phase_word_at view.acked).phase) result }
    {
        StoplessRead::Header {
            spot: Spot::new(birth, at, field),
            phase: view.phase(),
        }
    }

    /// What the read ended with, and `None` before its end.
    pub fn end(&self) -> Option<ReadEnd>
        ensures value { result ≡ reads.end_of self.now }
        ensures ended { IsSome result ↔ (reads.asks_of self.now ≡ StepEnded) }
    {
        match *self {
            StoplessRead::Header { .. }
            | StoplessRead::Wide(_)
            | StoplessRead::Original(_)
            | StoplessRead::Address(_) => None,
            StoplessRead::Field(Placed::Original(machine)) => machine.end(),
            StoplessRead::Field(Placed::Copy { machine, .. }) => machine.end(),
        }
    }
}

impl Machine for StoplessRead {
    ghost asks = { reads.asks_of };

    ghost fed = { reads.fed_of };

    ghost blind = { reads.blind_of };

    fn ask(&self) -> Step {
        match self {
            StoplessRead::Header { spot, .. } => Step::Load { at: spot.at },
            StoplessRead::Field(machine) => machine.ask(),
            StoplessRead::Wide(read) => Step::Load {
                at: read.wide.place,
            },
            StoplessRead::Original(read) => Step::Load {
                at: read.spot.place,
            },
            StoplessRead::Address(read) => Step::Load { at: read.wide.at },
        }
    }

    fn feed(&mut self, found: u64) {
        *self = match *self {
            StoplessRead::Header { spot, phase } => placed(spot, phase, found),
            StoplessRead::Field(mut machine) => {
                machine.feed(found);
                StoplessRead::Field(machine)
            }
            StoplessRead::Wide(read) => looked(read, found),
            StoplessRead::Original(read) => given(read.spot, read.phase, found),
            StoplessRead::Address(read) => addressed(read, found),
        };
    }
}

impl CallMachine for StoplessRead {
    ghost steps_left = { reads.left_of };

    ghost none_left = { reads.none_left_of };

    ghost some_left = { reads.some_left_of };

    ghost falls = { reads.falls_of };

    fn left(&self) -> u32 {
        match self {
            StoplessRead::Header { .. } => 8,
            StoplessRead::Field(machine) => machine.left(),
            StoplessRead::Wide(_) => 7,
            StoplessRead::Original(_) => 5,
            StoplessRead::Address(_) => 6,
        }
    }
}

impl Watched for StoplessRead {
    ghost front = { reads.front };

    fn front(&self, found: u64) -> Front {
        match self {
            StoplessRead::Field(machine) => machine.front(found),
            StoplessRead::Wide(_) => wide_front(found),
            _ => Front::Stays,
        }
    }
}
