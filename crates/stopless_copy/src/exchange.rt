//! An exchange of a field.

ghost use Rattle.std.specs.Prelude.{◌≡◌, ◌<◌, ◌^◌, ◌↔◌, IsSome};
ghost use Rattle.heap_words.specs.FieldWords.{field_of};
ghost use Rattle.heap_words.specs.declared.limits.TheConstants.{ADDRESS_LIMIT};
ghost use Rattle.call_steps.specs.declared.step.Step.TheVariants.{Ended as StepEnded};
ghost use Rattle.call_steps.specs.Ending.{EndsOnlyFor};
ghost use Rattle.handshakes.specs.PhaseWords.{phase_word_of, phase_word_at};
ghost use Rattle.barriers.specs.Exchanges.{errand_of};
ghost use Rattle.tagged_calls.specs.Locations.{location_in};
ghost use Rattle.wide_objects.specs.WideWords.{wide_word_at};
ghost use Rattle.stopless_copy.specs.ExchangeCauses.{ExchangeEnds};
ghost use Rattle.stopless_copy.specs.StoplessExchanges as exchanges;

use crate::packed::{address_in, in_wide, wide_front, wide_in};
use barriers::{
    Errand, ExchangeEnd, ExchangeMachine, Front, PlainExchange, Spot, TriesLeft, TryRefusal,
    Watched, held_by, len_in,
};
use call_steps::{CallMachine, Machine, Step};
use handshakes::{FollowMachine, PassView, Phase};
use heap_words::{FieldWord, Layout, same_value};
use tagged_calls::{Keep, Location, Placed, exchange_in};
use wide_objects::{Status2, WideWord};

/// The exchange of a field of a wide object, whose word there is at `wide`.
#[derive(Clone, Copy, Debug, PartialEq, Eq)]
pub struct WideErrand {
    pub errand: Errand,
    pub wide: Spot,
    pub phase: Phase,
}

/// Loads the header, exchanges it for `Kept` where it is `Tagged`, and then exchanges the field's word as
/// that of an object at rest: in the copy where the header found last is `Forward`, and in the original
/// where it is not `Wide`. Where it is, loads the wide word, and the word in the original where that has
/// the value; and exchanges the wide word, where the value is the expected one, for one that has the new
/// value, until the wide word says that the value is in the copy, whose address the wide object has. At
/// most 12 steps, and at most 4 to follow.
#[derive(Clone, Copy, Debug, PartialEq, Eq)]
pub enum StoplessExchange {
    /// Loads the header.
    Header {
        errand: Errand,
        phase: Phase,
    },
    /// Exchanges the header.
    Keep {
        errand: Errand,
        phase: Phase,
        keep: Keep,
    },
    /// Exchanges the field's word, or follows what differs. It has ended where this has.
    Field(Placed<ExchangeMachine>),
    /// Loads the wide word.
    Wide(WideErrand),
    /// Loads the word in the original, where the wide word said that the value is.
    Original(WideErrand),
    /// Exchanges `wanted`, which was found there, and whose value is the expected one.
    Try {
        at: WideErrand,
        wanted: u64,
        tries: TriesLeft,
    },
    /// Loads the copy's address.
    Address(WideErrand),
}

/// The wide word of a field whose value is in the original.
const AT_REST: u64 = 0;

// At the word of its field, by the word of a header.
fn placed(errand: Errand, phase: Phase, header: u64, location: Location) -> StoplessExchange
    ensures { result ≡ exchanges.placed errand phase header location }
{
    match location {
        Location::Wide(wide) if errand.spot.field < len_in(header) => {
            StoplessExchange::Wide(WideErrand {
                errand,
                wide,
                phase,
            })
        }
        location => StoplessExchange::Field(exchange_in(location, errand, phase, header)),
    }
}

// With the header's word at hand.
fn turned(errand: Errand, phase: Phase, header: u64) -> StoplessExchange
    ensures { result ≡ exchanges.turned errand phase header (location_in errand.spot header) }
{
    match Location::in_header(errand.spot, header) {
        Location::Tagged(keep) if errand.spot.field < len_in(header) => StoplessExchange::Keep {
            errand,
            phase,
            keep,
        },
        location => placed(errand, phase, header, location),
    }
}

// It has ended so.
fn over(errand: Errand, end: ExchangeEnd) -> StoplessExchange
    ensures { result ≡ exchanges.over errand end }
{
    StoplessExchange::Field(Placed::Original(ExchangeMachine::Ended { errand, end }))
}

// The field's word has another value than the expected one.
fn differs(errand: Errand, phase: Phase, word: u64) -> StoplessExchange
    ensures { result ≡ exchanges.differs errand phase word }
{
    let machine = FollowMachine::in_phase(phase, held_by(word));
    StoplessExchange::Field(Placed::Original(ExchangeMachine::Follow { errand, machine }))
}

// With the field's word at hand, whose wide word is `wanted`.
fn compared(at: WideErrand, wanted: u64, word: u64) -> StoplessExchange
    ensures { result ≡ exchanges.compared at wanted word }
{
    if !same_value(at.errand.expected, held_by(word)) {
        return differs(at.errand, at.phase, word);
    }
    StoplessExchange::Try {
        at,
        wanted,
        tries: TriesLeft::Two,
    }
}

// With the wide word at hand.
fn looked(at: WideErrand, found: u64) -> StoplessExchange
    ensures { result ≡ exchanges.looked at found (wide_word_at found) }
{
    match wide_in(found) {
        WideWord {
            status: Status2::InOriginal,
            ..
        } => StoplessExchange::Original(at),
        WideWord {
            status: Status2::InWide,
            word,
        } => compared(at, found, word),
        WideWord {
            status: Status2::InCopy,
            ..
        } => StoplessExchange::Address(at),
    }
}

// Its exchange wanted the one wide word and found the other.
fn raced(at: WideErrand, loaded: u64, found: u64) -> StoplessExchange
    ensures { result ≡ exchanges.raced at loaded found }
{
    let refusal = TryRefusal::Raced { loaded, found };
    over(at.errand, ExchangeEnd::Refused(refusal))
}

// After an exchange that wanted another wide word than it found, whose value is the expected one too.
fn again(at: WideErrand, wanted: u64, tries: TriesLeft, found: u64) -> StoplessExchange
    ensures { result ≡ exchanges.again at wanted tries found }
{
    let tries = match tries {
        TriesLeft::Two => TriesLeft::One,
        TriesLeft::One => TriesLeft::Zero,
        TriesLeft::Zero => return raced(at, wanted, found),
    };
    StoplessExchange::Try {
        at,
        wanted: found,
        tries,
    }
}

// After an exchange that wanted another wide word than it found, which has this word of the field.
fn retried(at: WideErrand, wanted: u64, tries: TriesLeft, found: u64, word: u64) -> StoplessExchange
    ensures { result ≡ exchanges.retried at wanted tries found word }
{
    if !same_value(at.errand.expected, held_by(word)) {
        return differs(at.errand, at.phase, word);
    }
    again(at, wanted, tries, found)
}

// After an exchange that wanted another wide word than it found. No value comes back into the original.
fn lost(at: WideErrand, wanted: u64, tries: TriesLeft, found: u64) -> StoplessExchange
    ensures { result ≡ exchanges.lost at wanted tries found (wide_word_at found) }
{
    match wide_in(found) {
        WideWord {
            status: Status2::InOriginal,
            ..
        } => raced(at, wanted, found),
        WideWord {
            status: Status2::InWide,
            word,
        } => retried(at, wanted, tries, found, word),
        WideWord {
            status: Status2::InCopy,
            ..
        } => StoplessExchange::Address(at),
    }
}

// With the word that has the copy's address at hand.
fn addressed(at: WideErrand, found: u64) -> StoplessExchange
    ensures { result ≡ exchanges.addressed at found }
{
    let WideErrand { errand, phase, .. } = at;
    let spot = errand.spot;
    let copy = Spot::new(spot.birth, address_in(found), spot.field);
    let machine = ExchangeMachine::Field {
        errand: Errand {
            spot: copy,
            ..errand
        },
        phase,
        exchange: PlainExchange::new(copy.place, errand.expected, errand.word),
    };
    StoplessExchange::Field(Placed::Copy { spot, machine })
}

// The steps that are left at most, with the exchange that these tries would follow.
fn left_with(tries: TriesLeft) -> u32
    ensures { result ≡ exchanges.left_with tries }
{
    match tries {
        TriesLeft::Two => 12,
        TriesLeft::One => 11,
        TriesLeft::Zero => 10,
    }
}

impl StoplessExchange {
    /// The exchange of a field of the object `birth`, to which a link leads at `at`, by this pass. The
    /// field number may be any; the word is to be the packed word of a number or a link.
    pub fn new(
        _layout: &Layout,
        view: PassView,
        birth: u32,
        at: u32,
        field: u32,
        expected: FieldWord,
        word: u64,
    ) -> StoplessExchange
        requires near { at < ADDRESS_LIMIT }
        requires acked { IsSome (phase_word_of view.acked) }
        requires packed { word < 2 ^ 62 }
        requires value { IsSome (field_of word) }
        ensures machine { result ≡ exchanges.begun view birth at field expected word }

        // Whatever others do: it is refused for want of the field only where its first step loaded a header
        // whose len, which the end tells, is not above the field. Where the header found last is not `Wide`,
        // or the wide object told the copy's address, any other end has the cause of the exchange of an
        // object at rest, in the original or in the copy. Else it is done where its last step exchanged the
        // wide word that the header told, whose value was the expected one; what differs was found by the
        // load or a lost exchange of the wide word, or by the load in the original, has another value than
        // the expected one, and was followed as the phase asks; and it is raced only by the third exchange of
        // the wide word, which wanted the one word of the race and found the other, and both had the
        // expected value in the wide object, or where an exchange of the wide word lost to one that says
        // that the value is in the original, which none comes to say again.
        ensures cause { EndsOnlyFor exchanges.asks_of exchanges.fed_of exchanges.end_of
            (ExchangeEnds (errand_of birth at field expected word) (phase_word_at view.acked).phase) result }
    {
        let errand = Errand {
            spot: Spot::new(birth, at, field),
            expected,
            word,
        };
        StoplessExchange::Header {
            errand,
            phase: view.phase(),
        }
    }

    /// What this try of the exchange ended with, and `None` before its end.
    pub fn end(&self) -> Option<ExchangeEnd>
        ensures value { result ≡ exchanges.end_of self.now }
        ensures ended { IsSome result ↔ (exchanges.asks_of self.now ≡ StepEnded) }
    {
        match *self {
            StoplessExchange::Header { .. }
            | StoplessExchange::Keep { .. }
            | StoplessExchange::Wide(_)
            | StoplessExchange::Original(_)
            | StoplessExchange::Try { .. }
            | StoplessExchange::Address(_) => None,
            StoplessExchange::Field(Placed::Original(machine)) => machine.end(),
            StoplessExchange::Field(Placed::Copy { machine, .. }) => machine.end(),
        }
    }
}

impl Machine for StoplessExchange {
    ghost asks = { exchanges.asks_of };

    ghost fed = { exchanges.fed_of };

    ghost blind = { exchanges.blind_of };

    fn ask(&self) -> Step {
        match self {
            StoplessExchange::Header { errand, .. } => Step::Load { at: errand.spot.at },
            StoplessExchange::Keep { errand, keep, .. } => Step::Exchange {
                at: errand.spot.at,
                want: keep.tagged,
                put: keep.kept,
            },
            StoplessExchange::Field(machine) => machine.ask(),
            StoplessExchange::Wide(at) => Step::Load { at: at.wide.place },
            StoplessExchange::Original(at) => Step::Load {
                at: at.errand.spot.place,
            },
            StoplessExchange::Try { at, wanted, .. } => Step::Exchange {
                at: at.wide.place,
                want: *wanted,
                put: in_wide(at.errand.word),
            },
            StoplessExchange::Address(at) => Step::Load { at: at.wide.at },
        }
    }

    fn feed(&mut self, found: u64) {
        *self = match *self {
            StoplessExchange::Header { errand, phase } => turned(errand, phase, found),
            StoplessExchange::Keep {
                errand,
                phase,
                keep,
            } => {
                let location = Location::in_header(errand.spot, found);
                placed(errand, phase, keep.tagged, location)
            }
            StoplessExchange::Field(mut machine) => {
                machine.feed(found);
                StoplessExchange::Field(machine)
            }
            StoplessExchange::Wide(at) => looked(at, found),
            StoplessExchange::Original(at) => compared(at, AT_REST, found),
            StoplessExchange::Try { at, wanted, .. } if found == wanted => {
                over(at.errand, ExchangeEnd::Done)
            }
            StoplessExchange::Try { at, wanted, tries } => lost(at, wanted, tries, found),
            StoplessExchange::Address(at) => addressed(at, found),
        };
    }
}

impl CallMachine for StoplessExchange {
    ghost steps_left = { exchanges.left_of };

    ghost none_left = { exchanges.none_left_of };

    ghost some_left = { exchanges.some_left_of };

    ghost falls = { exchanges.falls_of };

    fn left(&self) -> u32 {
        match self {
            StoplessExchange::Header { .. } => 16,
            StoplessExchange::Keep { .. } => 15,
            StoplessExchange::Field(machine) => machine.left(),
            StoplessExchange::Wide(_) => 14,
            StoplessExchange::Original(_) => 13,
            StoplessExchange::Try { tries, .. } => left_with(*tries),
            StoplessExchange::Address(_) => 9,
        }
    }
}

impl Watched for StoplessExchange {
    ghost front = { exchanges.front };

    fn front(&self, found: u64) -> Front {
        match self {
            StoplessExchange::Field(machine) => machine.front(found),
            StoplessExchange::Wide(_) | StoplessExchange::Try { .. } => wide_front(found),
            _ => Front::Stays,
        }
    }
}
