//! An exchange of a field.

ghost use Rattle.std.specs.Prelude.{◌≡◌, ◌<◌, ◌^◌, ◌↔◌, IsSome};
ghost use Rattle.heap_words.specs.FieldWords.{field_of};
ghost use Rattle.heap_words.specs.declared.limits.TheConstants.{ADDRESS_LIMIT};
ghost use Rattle.call_steps.specs.declared.step.Step.TheVariants.{Ended as StepEnded};
ghost use Rattle.call_steps.specs.Ending.{EndsOnlyFor};
ghost use Rattle.handshakes.specs.PhaseWords.{phase_word_of, phase_word_at};
ghost use Rattle.barriers.specs.Exchanges.{errand_of};
ghost use Rattle.chicken_tags.specs.ExchangeCauses.{ExchangeEnds};
ghost use Rattle.tagged_calls.specs.Locations.{location_in};
ghost use Rattle.chicken_tags.specs.ChickenExchanges as exchanges;

use barriers::{Errand, ExchangeEnd, ExchangeMachine, Front, Spot, Watched, len_in};
use call_steps::{CallMachine, Machine, Step};
use handshakes::{PassView, Phase};
use heap_words::{FieldWord, Layout};
use tagged_calls::{Keep, Location, Placed, exchange_in};

/// Loads the header, exchanges it for `Kept` where it is `Tagged`, and then exchanges the field's word as
/// that of an object at rest: in the copy where the header found last is `Forward`, and else in the
/// original. At most 6 steps, and at most 4 to follow.
#[derive(Clone, Copy, Debug, PartialEq, Eq)]
pub enum ChickenExchange {
    /// Loads the header.
    Header {
        errand: Errand,
        phase: Phase,
    },
    /// Exchanges the header.
    Keep {
        errand: Errand,
        phase: Phase,
        keep: Keep,
    },
    /// Exchanges the field's word. It has ended where this has.
    Field(Placed<ExchangeMachine>),
}

// With the header's word at hand.
fn turned(errand: Errand, phase: Phase, header: u64) -> ChickenExchange
    ensures { result ≡ exchanges.turned errand phase header (location_in errand.spot header) }
{
    match Location::in_header(errand.spot, header) {
        Location::Tagged(keep) if errand.spot.field < len_in(header) => ChickenExchange::Keep {
            errand,
            phase,
            keep,
        },
        location => ChickenExchange::Field(exchange_in(location, errand, phase, header)),
    }
}

impl ChickenExchange {
    /// The exchange of a field of the object `birth`, to which a link leads at `at`, by this pass. The
    /// field number may be any; the word is to be the packed word of a number or a link.
    pub fn new(
        _layout: &Layout,
        view: PassView,
        birth: u32,
        at: u32,
        field: u32,
        expected: FieldWord,
        word: u64,
    ) -> ChickenExchange
        requires near { at < ADDRESS_LIMIT }
        requires acked { IsSome (phase_word_of view.acked) }
        requires packed { word < 2 ^ 62 }
        requires value { IsSome (field_of word) }
        ensures machine { result ≡ exchanges.begun view birth at field expected word }

        // Whatever others do: it is refused for want of the field only where its first step loaded a header
        // whose len, which the end tells, is not above the field. Any other end has the cause of the exchange
        // of an object at rest, in the original, or in the copy that a `Forward` header told: so it is raced
        // only by the third exchange of the word there, which wanted the one word of the race and found the
        // other, and both had the expected value.
        ensures cause { EndsOnlyFor exchanges.asks_of exchanges.fed_of exchanges.end_of
            (ExchangeEnds (errand_of birth at field expected word) (phase_word_at view.acked).phase) result }
    {
        let errand = Errand {
            spot: Spot::new(birth, at, field),
            expected,
            word,
        };
        ChickenExchange::Header {
            errand,
            phase: view.phase(),
        }
    }

    /// What the exchange ended with, and `None` before its end.
    pub fn end(&self) -> Option<ExchangeEnd>
        ensures value { result ≡ exchanges.end_of self.now }
        ensures ended { IsSome result ↔ (exchanges.asks_of self.now ≡ StepEnded) }
    {
        match *self {
            ChickenExchange::Header { .. } | ChickenExchange::Keep { .. } => None,
            ChickenExchange::Field(Placed::Original(machine)) => machine.end(),
            ChickenExchange::Field(Placed::Copy { machine, .. }) => machine.end(),
        }
    }
}

impl Machine for ChickenExchange {
    ghost asks = { exchanges.asks_of };

    ghost fed = { exchanges.fed_of };

    ghost blind = { exchanges.blind_of };

    fn ask(&self) -> Step {
        match self {
            ChickenExchange::Header { errand, .. } => Step::Load { at: errand.spot.at },
            ChickenExchange::Keep { errand, keep, .. } => Step::Exchange {
                at: errand.spot.at,
                want: keep.tagged,
                put: keep.kept,
            },
            ChickenExchange::Field(machine) => machine.ask(),
        }
    }

    fn feed(&mut self, found: u64) {
        *self = match *self {
            ChickenExchange::Header { errand, phase } => turned(errand, phase, found),
            ChickenExchange::Keep {
                errand,
                phase,
                keep,
            } => {
                let location = Location::in_header(errand.spot, found);
                ChickenExchange::Field(exchange_in(location, errand, phase, keep.tagged))
            }
            ChickenExchange::Field(mut machine) => {
                machine.feed(found);
                ChickenExchange::Field(machine)
            }
        };
    }
}

impl CallMachine for ChickenExchange {
    ghost steps_left = { exchanges.left_of };

    ghost none_left = { exchanges.none_left_of };

    ghost some_left = { exchanges.some_left_of };

    ghost falls = { exchanges.falls_of };

    fn left(&self) -> u32 {
        match self {
            ChickenExchange::Header { .. } => 10,
            ChickenExchange::Keep { .. } => 9,
            ChickenExchange::Field(machine) => machine.left(),
        }
    }
}

impl Watched for ChickenExchange {
    ghost front = { exchanges.front };

    fn front(&self, found: u64) -> Front {
        match self {
            ChickenExchange::Header { .. } | ChickenExchange::Keep { .. } => Front::Stays,
            ChickenExchange::Field(machine) => machine.front(found),
        }
    }
}
