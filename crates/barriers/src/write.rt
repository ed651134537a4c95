//! A write of a field.

ghost use Rattle.std.specs.Prelude.{◌≡◌, ◌<◌, ◌≤◌, ◌^◌, ◌↔◌, IsSome};
ghost use Rattle.call_steps.specs.declared.step.Step.TheVariants.{Ended as StepEnded};
ghost use Rattle.call_steps.specs.Ending.{EndsOnlyFor};
ghost use Rattle.heap_words.specs.FieldWords.{field_of};
ghost use Rattle.heap_words.specs.declared.limits.TheConstants.{ADDRESS_LIMIT};
ghost use Rattle.handshakes.specs.PhaseWords.{phase_word_of};
ghost use Rattle.barriers.specs.declared.write.WriteMachine.TheVariants.{Header};
ghost use Rattle.barriers.specs.Spots.{spot_of};
ghost use Rattle.barriers.specs.Writes.{asks_of, fed_of, end_of};
ghost use Rattle.barriers.specs.Causes.{WriteEndsFor};

use crate::ends::{TryRefusal, WriteEnd};
use crate::front::Front;
use crate::packed::len_in;
use crate::spot::Spot;
use crate::watched::Watched;
use call_steps::{CallMachine, Machine, Step};
use handshakes::PassView;
use heap_words::Layout;

/// Loads the header, and then stores the word in the field. At most 2 steps.
///
/// The object is taken to be at rest, where its link says: its header is `Plain` or `Kept`. Any other
/// state is treated as these are.
#[derive(Clone, Copy, Debug, PartialEq, Eq)]
pub enum WriteMachine {
    /// Loads the header.
    Header {
        spot: Spot,
        word: u64,
    },
    /// Stores the word.
    Field {
        spot: Spot,
        word: u64,
    },
    Ended {
        spot: Spot,
        word: u64,
        end: WriteEnd,
    },
}

impl WriteMachine {
    /// The write of a field of the object `birth`, which stands at `at`, by this pass. The field number may
    /// be any; the word is to be the packed word of a number or a link.
    pub fn new(
        _layout: &Layout,
        _view: PassView,
        birth: u32,
        at: u32,
        field: u32,
        word: u64,
    ) -> WriteMachine
        requires near { at < ADDRESS_LIMIT }
        requires acked { IsSome (phase_word_of _view.acked) }
        requires packed { word < 2 ^ 62 }
        requires value { IsSome (field_of word) }
        ensures machine { result ≡ Header (spot_of birth at field) word }

        // Whatever others do: it has written where its last step stored the word in the field, and it is
        // refused only where its first step loaded a header whose len, which the end tells, is not above
        // the field.
        ensures cause { EndsOnlyFor asks_of fed_of end_of
            (WriteEndsFor (spot_of birth at field) word) result }
    {
        WriteMachine::Header {
            spot: Spot::new(birth, at, field),
            word,
        }
    }

    /// What the write ended with, and `None` before its end.
    pub fn end(&self) -> Option<WriteEnd>
        ensures value { result ≡ end_of self.now }
        ensures ended { IsSome result ↔ (asks_of self.now ≡ StepEnded) }
    {
        match *self {
            WriteMachine::Header { .. } | WriteMachine::Field { .. } => None,
            WriteMachine::Ended { end, .. } => Some(end),
        }
    }
}

impl Machine for WriteMachine {
    ghost use Rattle.barriers.specs.Writes.{asks_of, fed_of, blind_of};

    ghost asks = { asks_of };

    ghost fed = { fed_of };

    ghost blind = { blind_of };

    fn ask(&self) -> Step {
        match *self {
            WriteMachine::Header { spot, .. } => Step::Load { at: spot.at },
            WriteMachine::Field { spot, word } => Step::Store {
                at: spot.place,
                put: word,
            },
            WriteMachine::Ended { .. } => Step::Ended,
        }
    }

    fn feed(&mut self, found: u64) {
        *self = match *self {
            WriteMachine::Header { spot, word } => {
                let len = len_in(found);
                if spot.field < len {
                    WriteMachine::Field { spot, word }
                } else {
                    let end = WriteEnd::Refused(TryRefusal::NoField { len });
                    WriteMachine::Ended { spot, word, end }
                }
            }
            WriteMachine::Field { spot, word } => WriteMachine::Ended {
                spot,
                word,
                end: WriteEnd::Wrote,
            },
            WriteMachine::Ended { spot, word, end } => WriteMachine::Ended { spot, word, end },
        };
    }
}

impl CallMachine for WriteMachine {
    ghost use Rattle.barriers.specs.Writes.{left_of, none_left_of, some_left_of, falls_of};

    ghost steps_left = { left_of };

    ghost none_left = { none_left_of };

    ghost some_left = { some_left_of };

    ghost falls = { falls_of };

    fn left(&self) -> u32
        ensures bound { result ≡ left_of self.now }
        ensures few { result ≤ 2 }
    {
        match self {
            WriteMachine::Header { .. } => 2,
            WriteMachine::Field { .. } => 1,
            WriteMachine::Ended { .. } => 0,
        }
    }
}

impl Watched for WriteMachine {
    ghost use Rattle.barriers.specs.Writes as writes;

    ghost front = { writes.front };

    fn front(&self, _found: u64) -> Front {
        Front::Stays
    }
}
