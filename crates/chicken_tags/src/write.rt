//! A write of a field.

ghost use Rattle.std.specs.Prelude.{◌≡◌, ◌<◌, ◌^◌, ◌↔◌, IsSome};
ghost use Rattle.heap_words.specs.FieldWords.{field_of};
ghost use Rattle.heap_words.specs.declared.limits.TheConstants.{ADDRESS_LIMIT};
ghost use Rattle.call_steps.specs.declared.step.Step.TheVariants.{Ended as StepEnded};
ghost use Rattle.call_steps.specs.Ending.{EndsOnlyFor};
ghost use Rattle.handshakes.specs.PhaseWords.{phase_word_of};
ghost use Rattle.barriers.specs.Spots.{spot_of};
ghost use Rattle.chicken_tags.specs.WriteCauses.{WriteEnds};
ghost use Rattle.tagged_calls.specs.Locations.{location_in};
ghost use Rattle.chicken_tags.specs.ChickenWrites as writes;

use barriers::{Front, Spot, Watched, WriteEnd, WriteMachine, len_in};
use call_steps::{CallMachine, Machine, Step};
use handshakes::PassView;
use heap_words::Layout;
use tagged_calls::{Keep, Location, Placed, write_in};

/// Loads the header, exchanges it for `Kept` where it is `Tagged`, and then writes the field as that of an
/// object at rest: in the copy where the header found last is `Forward`, and else in the original. At
/// most 3 steps.
#[derive(Clone, Copy, Debug, PartialEq, Eq)]
pub enum ChickenWrite {
    /// Loads the header.
    Header { spot: Spot, word: u64 },
    /// Exchanges the header.
    Keep { spot: Spot, word: u64, keep: Keep },
    /// Writes the field. It has ended where this has.
    Field(Placed<WriteMachine>),
}

// With the header's word at hand.
fn turned(spot: Spot, word: u64, header: u64) -> ChickenWrite
    ensures { result ≡ writes.turned spot word header (location_in spot header) }
{
    match Location::in_header(spot, header) {
        Location::Tagged(keep) if spot.field < len_in(header) => ChickenWrite::Keep {
            spot,
            word,
            keep,
        },
        location => ChickenWrite::Field(write_in(location, spot, word, header)),
    }
}

impl ChickenWrite {
    /// The write of a field of the object `birth`, to which a link leads at `at`, by this pass. The field
    /// number may be any; the word is to be the packed word of a number or a link.
    pub fn new(
        _layout: &Layout,
        _view: PassView,
        birth: u32,
        at: u32,
        field: u32,
        word: u64,
    ) -> ChickenWrite
        requires near { at < ADDRESS_LIMIT }
        requires acked { IsSome (phase_word_of _view.acked) }
        requires packed { word < 2 ^ 62 }
        requires value { IsSome (field_of word) }
        ensures machine { result ≡ writes.begun birth at field word }

        // Whatever others do: it is refused only where its first step loaded a header whose len, which the
        // end tells, is not above the field, and it is never raced. It has written where its last step stored
        // the word in the field, in the original, or in the copy that a `Forward` header told.
        ensures cause { EndsOnlyFor writes.asks_of writes.fed_of writes.end_of
            (WriteEnds (spot_of birth at field) word) result }
    {
        ChickenWrite::Header {
            spot: Spot::new(birth, at, field),
            word,
        }
    }

    /// What the write ended with, and `None` before its end. It is never raced.
    pub fn end(&self) -> Option<WriteEnd>
        ensures value { result ≡ writes.end_of self.now }
        ensures ended { IsSome result ↔ (writes.asks_of self.now ≡ StepEnded) }
    {
        match *self {
            ChickenWrite::Header { .. } | ChickenWrite::Keep { .. } => None,
            ChickenWrite::Field(Placed::Original(machine)) => machine.end(),
            ChickenWrite::Field(Placed::Copy { machine, .. }) => machine.end(),
        }
    }
}

impl Machine for ChickenWrite {
    ghost asks = { writes.asks_of };

    ghost fed = { writes.fed_of };

    ghost blind = { writes.blind_of };

    fn ask(&self) -> Step {
        match self {
            ChickenWrite::Header { spot, .. } => Step::Load { at: spot.at },
            ChickenWrite::Keep { spot, keep, .. } => Step::Exchange {
                at: spot.at,
                want: keep.tagged,
                put: keep.kept,
            },
            ChickenWrite::Field(machine) => machine.ask(),
        }
    }

    fn feed(&mut self, found: u64) {
        *self = match *self {
            ChickenWrite::Header { spot, word } => turned(spot, word, found),
            ChickenWrite::Keep { spot, word, keep } => {
                let location = Location::in_header(spot, found);
                ChickenWrite::Field(write_in(location, spot, word, keep.tagged))
            }
            ChickenWrite::Field(mut machine) => {
                machine.feed(found);
                ChickenWrite::Field(machine)
            }
        };
    }
}

impl CallMachine for ChickenWrite {
    ghost steps_left = { writes.left_of };

    ghost none_left = { writes.none_left_of };

    ghost some_left = { writes.some_left_of };

    ghost falls = { writes.falls_of };

    fn left(&self) -> u32 {
        match self {
            ChickenWrite::Header { .. } => 3,
            ChickenWrite::Keep { .. } => 2,
            ChickenWrite::Field(machine) => machine.left(),
        }
    }
}

impl Watched for ChickenWrite {
    ghost front = { writes.front };

    fn front(&self, found: u64) -> Front {
        match self {
            ChickenWrite::Header { .. } | ChickenWrite::Keep { .. } => Front::Stays,
            ChickenWrite::Field(machine) => machine.front(found),
        }
    }
}
