//! A write of a field.

ghost use Rattle.std.specs.Prelude.{◌≡◌, ◌<◌, ◌^◌, ◌↔◌, IsSome};
ghost use Rattle.heap_words.specs.FieldWords.{field_of};
ghost use Rattle.heap_words.specs.declared.limits.TheConstants.{ADDRESS_LIMIT};
ghost use Rattle.call_steps.specs.declared.step.Step.TheVariants.{Ended as StepEnded};
ghost use Rattle.call_steps.specs.Ending.{EndsOnlyFor};
ghost use Rattle.handshakes.specs.PhaseWords.{phase_word_of};
ghost use Rattle.barriers.specs.Spots.{spot_of};
ghost use Rattle.tagged_calls.specs.Locations.{location_in};
ghost use Rattle.wide_objects.specs.WideWords.{wide_word_at};
ghost use Rattle.stopless_copy.specs.WriteCauses.{WriteEnds};
ghost use Rattle.stopless_copy.specs.StoplessWrites as writes;

use crate::packed::{address_in, in_wide, wide_front, wide_in};
use barriers::{Front, Spot, TriesLeft, TryRefusal, Watched, WriteEnd, WriteMachine, len_in};
use call_steps::{CallMachine, Machine, Step};
use handshakes::PassView;
use heap_words::Layout;
use tagged_calls::{Keep, Location, Placed, write_in};
use wide_objects::Status2;

/// The write of a field of a wide object, whose word there is at `wide`.
#[derive(Clone, Copy, Debug, PartialEq, Eq)]
pub struct WideWrite {
    pub spot: Spot,
    pub wide: Spot,
    pub word: u64,
}

/// Loads the header, exchanges it for `Kept` where it is `Tagged`, and then writes the field as that of an
/// object at rest: in the copy where the header found last is `Forward`, and in the original where it is
/// not `Wide`. Where it is, loads the wide word and exchanges it for one that has the new value, until
/// the wide word says that the value is in the copy, whose address the wide object has. At most 8 steps.
#[derive(Clone, Copy, Debug, PartialEq, Eq)]
pub enum StoplessWrite {
    /// Loads the header.
    Header {
        spot: Spot,
        word: u64,
    },
    /// Exchanges the header.
    Keep {
        spot: Spot,
        word: u64,
        keep: Keep,
    },
    /// Writes the field. It has ended where this has.
    Field(Placed<WriteMachine>),
    /// Loads the wide word.
    Wide(WideWrite),
    /// Exchanges `wanted`, which was found there.
    Try {
        write: WideWrite,
        wanted: u64,
        tries: TriesLeft,
    },
    /// Loads the copy's address.
    Address(WideWrite),
}

// At the word of its field, by the word of a header.
fn placed(spot: Spot, word: u64, header: u64, location: Location) -> StoplessWrite
    ensures { result ≡ writes.placed spot word header location }
{
    match location {
        Location::Wide(wide) if spot.field < len_in(header) => {
            StoplessWrite::Wide(WideWrite { spot, wide, word })
        }
        location => StoplessWrite::Field(write_in(location, spot, word, header)),
    }
}

// With the header's word at hand.
fn turned(spot: Spot, word: u64, header: u64) -> StoplessWrite
    ensures { result ≡ writes.turned spot word header (location_in spot header) }
{
    match Location::in_header(spot, header) {
        Location::Tagged(keep) if spot.field < len_in(header) => StoplessWrite::Keep {
            spot,
            word,
            keep,
        },
        location => placed(spot, word, header, location),
    }
}

// It has ended so.
fn over(spot: Spot, word: u64, end: WriteEnd) -> StoplessWrite
    ensures { result ≡ writes.over spot word end }
{
    StoplessWrite::Field(Placed::Original(WriteMachine::Ended { spot, word, end }))
}

// With the wide word at hand.
fn looked(write: WideWrite, found: u64) -> StoplessWrite
    ensures { result ≡ writes.looked write found (wide_word_at found) }
{
    match wide_in(found).status {
        Status2::InOriginal | Status2::InWide => StoplessWrite::Try {
            write,
            wanted: found,
            tries: TriesLeft::Two,
        },
        Status2::InCopy => StoplessWrite::Address(write),
    }
}

// Its exchange wanted the one wide word and found the other.
fn raced(write: WideWrite, loaded: u64, found: u64) -> StoplessWrite
    ensures { result ≡ writes.raced write loaded found }
{
    let refusal = TryRefusal::Raced { loaded, found };
    over(write.spot, write.word, WriteEnd::Refused(refusal))
}

// After an exchange that wanted another wide word than it found, whose value is in the wide object too.
fn again(write: WideWrite, wanted: u64, tries: TriesLeft, found: u64) -> StoplessWrite
    ensures { result ≡ writes.again write wanted tries found }
{
    let tries = match tries {
        TriesLeft::Two => TriesLeft::One,
        TriesLeft::One => TriesLeft::Zero,
        TriesLeft::Zero => return raced(write, wanted, found),
    };
    StoplessWrite::Try {
        write,
        wanted: found,
        tries,
    }
}

// After an exchange that wanted another wide word than it found. No value comes back into the original.
fn lost(write: WideWrite, wanted: u64, tries: TriesLeft, found: u64) -> StoplessWrite
    ensures { result ≡ writes.lost write wanted tries found (wide_word_at found) }
{
    match wide_in(found).status {
        Status2::InOriginal => raced(write, wanted, found),
        Status2::InWide => again(write, wanted, tries, found),
        Status2::InCopy => StoplessWrite::Address(write),
    }
}

// With the word that has the copy's address at hand.
fn addressed(write: WideWrite, found: u64) -> StoplessWrite
    ensures { result ≡ writes.addressed write found }
{
    let WideWrite { spot, word, .. } = write;
    let copy = Spot::new(spot.birth, address_in(found), spot.field);
    let machine = WriteMachine::Field { spot: copy, word };
    StoplessWrite::Field(Placed::Copy { spot, machine })
}

// The steps that are left at most, with the exchange that these tries would follow.
fn left_with(tries: TriesLeft) -> u32
    ensures { result ≡ writes.left_with tries }
{
    match tries {
        TriesLeft::Two => 5,
        TriesLeft::One => 4,
        TriesLeft::Zero => 3,
    }
}

impl StoplessWrite {
    /// The write of a field of the object `birth`, to which a link leads at `at`, by this pass. The field
    /// number may be any; the word is to be the packed word of a number or a link.
    pub fn new(
        _layout: &Layout,
        _view: PassView,
        birth: u32,
        at: u32,
        field: u32,
        word: u64,
    ) -> StoplessWrite
        requires near { at < ADDRESS_LIMIT }
        requires acked { IsSome (phase_word_of _view.acked) }
        requires packed { word < 2 ^ 62 }
        requires value { IsSome (field_of word) }
        ensures machine { result ≡ writes.begun birth at field word }

        // Whatever others do: it is refused for want of the field only where its first step loaded a header
        // whose len, which the end tells, is not above the field. It has written where its last step stored
        // the word in the field, in the original, or in the copy that a `Forward` header or the wide object
        // told, or exchanged the wide word that the header told, whose value was not in the copy, for one
        // that has the new value. It is raced only by the third exchange of the wide word, which wanted the
        // one word of the race and found the other, and the values of both were in the wide object; or where
        // an exchange of the wide word lost to one that says that the value is in the original, which none
        // comes to say again.
        ensures cause { EndsOnlyFor writes.asks_of writes.fed_of writes.end_of
            (WriteEnds (spot_of birth at field) word) result }
    {
        StoplessWrite::Header {
            spot: Spot::new(birth, at, field),
            word,
        }
    }

    /// What this try of the write ended with, and `None` before its end.
    pub fn end(&self) -> Option<WriteEnd>
        ensures value { result ≡ writes.end_of self.now }
        ensures ended { IsSome result ↔ (writes.asks_of self.now ≡ StepEnded) }
    {
        match *self {
            StoplessWrite::Header { .. }
            | StoplessWrite::Keep { .. }
            | StoplessWrite::Wide(_)
            | StoplessWrite::Try { .. }
            | StoplessWrite::Address(_) => None,
            StoplessWrite::Field(Placed::Original(machine)) => machine.end(),
            StoplessWrite::Field(Placed::Copy { machine, .. }) => machine.end(),
        }
    }
}

impl Machine for StoplessWrite {
    ghost asks = { writes.asks_of };

    ghost fed = { writes.fed_of };

    ghost blind = { writes.blind_of };

    fn ask(&self) -> Step {
        match self {
            StoplessWrite::Header { spot, .. } => Step::Load { at: spot.at },
            StoplessWrite::Keep { spot, keep, .. } => Step::Exchange {
                at: spot.at,
                want: keep.tagged,
                put: keep.kept,
            },
            StoplessWrite::Field(machine) => machine.ask(),
            StoplessWrite::Wide(write) => Step::Load {
                at: write.wide.place,
            },
            StoplessWrite::Try { write, wanted, .. } => Step::Exchange {
                at: write.wide.place,
                want: *wanted,
                put: in_wide(write.word),
            },
            StoplessWrite::Address(write) => Step::Load { at: write.wide.at },
        }
    }

    fn feed(&mut self, found: u64) {
        *self = match *self {
            StoplessWrite::Header { spot, word } => turned(spot, word, found),
            StoplessWrite::Keep { spot, word, keep } => {
                placed(spot, word, keep.tagged, Location::in_header(spot, found))
            }
            StoplessWrite::Field(mut machine) => {
                machine.feed(found);
                StoplessWrite::Field(machine)
            }
            StoplessWrite::Wide(write) => looked(write, found),
            StoplessWrite::Try { write, wanted, .. } if found == wanted => {
                over(write.spot, write.word, WriteEnd::Wrote)
            }
            StoplessWrite::Try {
                write,
                wanted,
                tries,
            } => lost(write, wanted, tries, found),
            StoplessWrite::Address(write) => addressed(write, found),
        };
    }
}

impl CallMachine for StoplessWrite {
    ghost steps_left = { writes.left_of };

    ghost none_left = { writes.none_left_of };

    ghost some_left = { writes.some_left_of };

    ghost falls = { writes.falls_of };

    fn left(&self) -> u32 {
        match self {
            StoplessWrite::Header { .. } => 8,
            StoplessWrite::Keep { .. } => 7,
            StoplessWrite::Field(machine) => machine.left(),
            StoplessWrite::Wide(_) => 6,
            StoplessWrite::Try { tries, .. } => left_with(*tries),
            StoplessWrite::Address(_) => 2,
        }
    }
}

impl Watched for StoplessWrite {
    ghost front = { writes.front };

    fn front(&self, found: u64) -> Front {
        match self {
            StoplessWrite::Field(machine) => machine.front(found),
            StoplessWrite::Wide(_) | StoplessWrite::Try { .. } => wide_front(found),
            _ => Front::Stays,
        }
    }
}
