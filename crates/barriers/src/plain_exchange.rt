//! The exchange at one word.

ghost use Rattle.std.specs.Prelude.{◌≡◌, ◌≤◌, ◌↔◌, IsSome};
ghost use Rattle.call_steps.specs.declared.step.Step.TheVariants.{Ended as StepEnded};
ghost use Rattle.call_steps.specs.Ending.{EndsOnlyFor};
ghost use Rattle.barriers.specs.declared.plain_exchange.PlainExchange.TheVariants.{Load};
ghost use Rattle.barriers.specs.PlainExchanges.{asks_of, fed_of, end_of, exchanges_left};
ghost use Rattle.barriers.specs.PlainExchangeCauses.{EndsFor};
ghost use Rattle.barriers.specs.PlainExchanges.{compared as compared_by, lost as lost_by, again as again_by, front as front_of};

use crate::ends::{ExchangeEnd, TryRefusal};
use crate::front::Front;
use crate::packed::held_by;
use call_steps::{CallMachine, Machine, Step};
use heap_words::{FieldWord, same_value};

/// The word at `place` is to become `word`, if it has the value of `expected`: links to one object have
/// one value, whatever address each says.
#[derive(Clone, Copy, Debug, PartialEq, Eq)]
pub struct Swap {
    pub place: u32,
    pub expected: FieldWord,
    pub word: u64,
}

/// How often a lost exchange at one word is tried again. There are three exchanges at most.
#[derive(Clone, Copy, Debug, PartialEq, Eq)]
pub enum TriesLeft {
    Two,
    One,
    Zero,
}

/// Loads a word and exchanges it for the new one where it has the expected value. An exchange that loses
/// has found what the next one wants. At most 4 steps.
///
/// A word that holds neither a number nor a link counts as the number 0; no field holds such a word.
#[derive(Clone, Copy, Debug, PartialEq, Eq)]
pub enum PlainExchange {
    /// Loads the word.
    Load(Swap),
    /// Exchanges `wanted`, which was found there, for the new word.
    Try {
        swap: Swap,
        wanted: u64,
        tries: TriesLeft,
    },
    Ended(ExchangeEnd),
}

impl TriesLeft {
    // How many exchanges are left, with the one that these tries would follow.
    fn exchanges(self) -> u32
        ensures count { result ≡ exchanges_left self }
        ensures few { result ≤ 3 }
    {
        match self {
            TriesLeft::Two => 3,
            TriesLeft::One => 2,
            TriesLeft::Zero => 1,
        }
    }
}

impl PlainExchange {
    /// The exchange of the word at `place` for `word` where it has the value of `expected`.
    pub fn new(place: u32, expected: FieldWord, word: u64) -> PlainExchange
        ensures machine { result ≡ Load (record { place = place; expected = expected; word = word }) }

        // Whatever others do: it is done where its last step was an exchange that wanted the word that it
        // found, and that word had the expected value. A value that differs is that of the word that the last
        // step found, the load or an exchange that wanted another word, and another than the expected one. It
        // is refused only where the last step was the third exchange, which wanted the one word of the race
        // and found the other, another word that had the expected value too.
        ensures cause { EndsOnlyFor asks_of fed_of end_of
            (EndsFor (record { place = place; expected = expected; word = word })) result }
    {
        PlainExchange::Load(Swap {
            place,
            expected,
            word,
        })
    }

    /// What the exchange ended with, and `None` before its end. It answers no refusal but `Raced`.
    pub fn end(&self) -> Option<ExchangeEnd>
        ensures value { result ≡ end_of self.now }
        ensures ended { IsSome result ↔ (asks_of self.now ≡ StepEnded) }
    {
        match *self {
            PlainExchange::Load(_) | PlainExchange::Try { .. } => None,
            PlainExchange::Ended(end) => Some(end),
        }
    }

    /// What its step, where it finds this word and changes nothing, makes of the changes that its pass has
    /// seen, at a field in its original: a word that has the expected value ends nothing, and counts for
    /// nothing.
    pub(crate) fn front(&self, found: u64) -> Front
        ensures { result ≡ front_of self.now found }
    {
        match *self {
            PlainExchange::Load(swap) if !same_value(swap.expected, held_by(found)) => {
                Front::SealedOrNow
            }
            PlainExchange::Try { swap, wanted, .. }
                if found != wanted && !same_value(swap.expected, held_by(found)) => { Front::Now }
            _ => Front::Stays,
        }
    }
}

// With the loaded word at hand.
fn compared(swap: Swap, found: u64) -> PlainExchange
    ensures { result ≡ compared_by swap found }
{
    let held = held_by(found);
    if !same_value(swap.expected, held) {
        return PlainExchange::Ended(ExchangeEnd::Differs(held));
    }
    PlainExchange::Try {
        swap,
        wanted: found,
        tries: TriesLeft::Two,
    }
}

// After an exchange that wanted another word than it found.
fn lost(swap: Swap, wanted: u64, tries: TriesLeft, found: u64) -> PlainExchange
    ensures { result ≡ lost_by swap wanted tries found }
{
    let held = held_by(found);
    if !same_value(swap.expected, held) {
        return PlainExchange::Ended(ExchangeEnd::Differs(held));
    }
    again(swap, wanted, tries, found)
}

// The word found has the expected value too.
fn again(swap: Swap, loaded: u64, tries: TriesLeft, found: u64) -> PlainExchange
    ensures { result ≡ again_by swap loaded tries found }
{
    let tries = match tries {
        TriesLeft::Two => TriesLeft::One,
        TriesLeft::One => TriesLeft::Zero,
        TriesLeft::Zero => {
            let refusal = TryRefusal::Raced { loaded, found };
            return PlainExchange::Ended(ExchangeEnd::Refused(refusal));
        }
    };
    PlainExchange::Try {
        swap,
        wanted: found,
        tries,
    }
}

impl Machine for PlainExchange {
    ghost use Rattle.barriers.specs.PlainExchanges.{asks_of, fed_of, blind_of};

    ghost asks = { asks_of };

    ghost fed = { fed_of };

    ghost blind = { blind_of };

    fn ask(&self) -> Step {
        match *self {
            PlainExchange::Load(swap) => Step::Load { at: swap.place },
            PlainExchange::Try { swap, wanted, .. } => Step::Exchange {
                at: swap.place,
                want: wanted,
                put: swap.word,
            },
            PlainExchange::Ended(_) => Step::Ended,
        }
    }

    fn feed(&mut self, found: u64) {
        *self = match *self {
            PlainExchange::Load(swap) => compared(swap, found),
            PlainExchange::Try { wanted, .. } if found == wanted => {
                PlainExchange::Ended(ExchangeEnd::Done)
            }
            PlainExchange::Try {
                swap,
                wanted,
                tries,
            } => lost(swap, wanted, tries, found),
            PlainExchange::Ended(end) => PlainExchange::Ended(end),
        };
    }
}

impl CallMachine for PlainExchange {
    ghost use Rattle.barriers.specs.PlainExchanges.{left_of, none_left_of, some_left_of, falls_of};

    ghost steps_left = { left_of };

    ghost none_left = { none_left_of };

    ghost some_left = { some_left_of };

    ghost falls = { falls_of };

    fn left(&self) -> u32
        ensures bound { result ≡ left_of self.now }
        ensures few { result ≤ 4 }
    {
        match self {
            PlainExchange::Load(_) => 4,
            PlainExchange::Try { tries, .. } => tries.exchanges(),
            PlainExchange::Ended(_) => 0,
        }
    }
}
