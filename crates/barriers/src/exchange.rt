//! An exchange of a field.

ghost use Rattle.std.specs.Prelude.{◌≡◌, ◌<◌, ◌≤◌, ◌^◌, ◌↔◌, IsSome};
ghost use Rattle.call_steps.specs.declared.step.Step.TheVariants.{Ended as StepEnded};
ghost use Rattle.call_steps.specs.Ending.{EndsOnlyFor};
ghost use Rattle.heap_words.specs.FieldWords.{field_of};
ghost use Rattle.heap_words.specs.declared.limits.TheConstants.{ADDRESS_LIMIT};
ghost use Rattle.handshakes.specs.PhaseWords.{phase_word_of, phase_word_at};
ghost use Rattle.barriers.specs.declared.exchange.ExchangeMachine.TheVariants.{Header};
ghost use Rattle.barriers.specs.Exchanges.{asks_of, fed_of, end_of, errand_of, by_len, exchanged as exchanged_by, with_follow as with_follow_of};
ghost use Rattle.barriers.specs.Causes.{ExchangeEndsFor};

use crate::ends::{ExchangeEnd, TryRefusal};
use crate::front::Front;
use crate::packed::len_in;
use crate::plain_exchange::PlainExchange;
use crate::spot::Spot;
use crate::watched::Watched;
use call_steps::{CallMachine, Machine, Step};
use handshakes::{FollowMachine, PassView, Phase};
use heap_words::{FieldWord, Layout};

/// What an exchange is to do: the field is to hold `word`, if it has the value of `expected`.
#[derive(Clone, Copy, Debug, PartialEq, Eq)]
pub struct Errand {
    pub spot: Spot,
    pub expected: FieldWord,
    /// The packed word of a number or a link.
    pub word: u64,
}

/// Loads the header, and then exchanges the field's word for the new one where it has the expected value.
/// Where it has another value, follows what was found as the phase asks that the pass has acknowledged. At
/// most 5 steps, and at most 4 to follow.
///
/// The object is taken to be at rest, where its link says: its header is `Plain` or `Kept`. Any other
/// state is treated as these are.
#[derive(Clone, Copy, Debug, PartialEq, Eq)]
pub enum ExchangeMachine {
    /// Loads the header.
    Header {
        errand: Errand,
        phase: Phase,
    },
    /// Exchanges the field's word. It has ended where this exchange has.
    Field {
        errand: Errand,
        phase: Phase,
        exchange: PlainExchange,
    },
    /// Follows what was found in place of the expected value. It has ended where this has.
    Follow {
        errand: Errand,
        machine: FollowMachine,
    },
    Ended {
        errand: Errand,
        end: ExchangeEnd,
    },
}

/// The steps that a follow takes at most.
const MOST_TO_FOLLOW: u32 = 4;

// The steps left where the exchange of the word has this many left.
fn with_follow(left: u32) -> u32
    requires { left ≤ 4 }
    ensures value { result ≡ with_follow_of left }
    ensures few { result ≤ 8 }
{
    if left == 0 {
        return 0;
    }
    left + MOST_TO_FOLLOW
}

// With the header's len at hand.
fn begun(errand: Errand, phase: Phase, len: u32) -> ExchangeMachine
    ensures { result ≡ by_len errand phase len }
{
    let Errand {
        spot,
        expected,
        word,
    } = errand;
    if spot.field < len {
        ExchangeMachine::Field {
            errand,
            phase,
            exchange: PlainExchange::new(spot.place, expected, word),
        }
    } else {
        ExchangeMachine::Ended {
            errand,
            end: ExchangeEnd::Refused(TryRefusal::NoField { len }),
        }
    }
}

// With the exchange of the word as it stands: what differs is followed.
fn exchanged(errand: Errand, phase: Phase, exchange: PlainExchange) -> ExchangeMachine
    ensures { result ≡ exchanged_by errand phase exchange }
{
    match exchange {
        PlainExchange::Load(_) | PlainExchange::Try { .. } => ExchangeMachine::Field {
            errand,
            phase,
            exchange,
        },
        PlainExchange::Ended(ExchangeEnd::Differs(word)) => ExchangeMachine::Follow {
            errand,
            machine: FollowMachine::in_phase(phase, word),
        },
        PlainExchange::Ended(end) => ExchangeMachine::Ended { errand, end },
    }
}

impl ExchangeMachine {
    /// The exchange of a field of the object `birth`, which stands at `at`, by this pass. The field number
    /// may be any; the word is to be the packed word of a number or a link.
    pub fn new(
        _layout: &Layout,
        view: PassView,
        birth: u32,
        at: u32,
        field: u32,
        expected: FieldWord,
        word: u64,
    ) -> ExchangeMachine
        requires near { at < ADDRESS_LIMIT }
        requires acked { IsSome (phase_word_of view.acked) }
        requires packed { word < 2 ^ 62 }
        requires value { IsSome (field_of word) }
        ensures machine { result ≡ Header (errand_of birth at field expected word) (phase_word_at view.acked).phase }

        // Whatever others do: it is refused for want of the field only where its first step loaded a header
        // whose len, which the end tells, is not above the field. What differs is what a load of the field,
        // or an exchange there that wanted another word, found, and has another value than the expected one;
        // that was the last step, or, under Fix, the one before it, which found a link: then what differs is
        // this link, going where the header at its address, which the last step loaded, says that the object
        // is now. Any other end has the cause of the plain exchange of the field's word, which begins at the
        // second step.
        ensures cause { EndsOnlyFor asks_of fed_of end_of
            (ExchangeEndsFor (errand_of birth at field expected word) (phase_word_at view.acked).phase) result }
    {
        let errand = Errand {
            spot: Spot::new(birth, at, field),
            expected,
            word,
        };
        ExchangeMachine::Header {
            errand,
            phase: view.phase(),
        }
    }

    /// What the exchange ended with, and `None` before its end.
    pub fn end(&self) -> Option<ExchangeEnd>
        ensures value { result ≡ end_of self.now }
        ensures ended { IsSome result ↔ (asks_of self.now ≡ StepEnded) }
    {
        match *self {
            ExchangeMachine::Header { .. } => None,
            ExchangeMachine::Field { exchange, .. } => exchange.end(),
            ExchangeMachine::Follow { machine, .. } => {
                Some(ExchangeEnd::Differs(machine.end()?.word))
            }
            ExchangeMachine::Ended { end, .. } => Some(end),
        }
    }
}

impl Machine for ExchangeMachine {
    ghost use Rattle.barriers.specs.Exchanges.{asks_of, fed_of, blind_of};

    ghost asks = { asks_of };

    ghost fed = { fed_of };

    ghost blind = { blind_of };

    fn ask(&self) -> Step {
        match *self {
            ExchangeMachine::Header { errand, .. } => Step::Load { at: errand.spot.at },
            ExchangeMachine::Field { exchange, .. } => exchange.ask(),
            ExchangeMachine::Follow { machine, .. } => machine.ask(),
            ExchangeMachine::Ended { .. } => Step::Ended,
        }
    }

    fn feed(&mut self, found: u64) {
        *self = match *self {
            ExchangeMachine::Header { errand, phase } => begun(errand, phase, len_in(found)),
            ExchangeMachine::Field {
                errand,
                phase,
                mut exchange,
            } => {
                exchange.feed(found);
                exchanged(errand, phase, exchange)
            }
            ExchangeMachine::Follow {
                errand,
                mut machine,
            } => {
                machine.feed(found);
                ExchangeMachine::Follow { errand, machine }
            }
            ExchangeMachine::Ended { errand, end } => ExchangeMachine::Ended { errand, end },
        };
    }
}

impl CallMachine for ExchangeMachine {
    ghost use Rattle.barriers.specs.Exchanges.{left_of, none_left_of, some_left_of, falls_of};

    ghost steps_left = { left_of };

    ghost none_left = { none_left_of };

    ghost some_left = { some_left_of };

    ghost falls = { falls_of };

    fn left(&self) -> u32
        ensures bound { result ≡ left_of self.now }
        ensures few { result ≤ 9 }
    {
        match self {
            ExchangeMachine::Header { .. } => 9,
            ExchangeMachine::Field { exchange, .. } => with_follow(exchange.left()),
            ExchangeMachine::Follow { machine, .. } => machine.left(),
            ExchangeMachine::Ended { .. } => 0,
        }
    }
}

impl Watched for ExchangeMachine {
    ghost use Rattle.barriers.specs.Exchanges as exchanges;

    ghost front = { exchanges.front };

    fn front(&self, found: u64) -> Front {
        match self {
            ExchangeMachine::Field { exchange, .. } => exchange.front(found),
            _ => Front::Stays,
        }
    }
}
