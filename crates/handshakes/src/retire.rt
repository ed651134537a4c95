//! How a pass leaves the heap.

ghost use Rattle.std.specs.Prelude.{◌≡◌, ◌↔◌, ◌≤◌, ◌+◌, ◌^◌, All, IsSome, map};
ghost use Rattle.std.specs.Option.{ForSome};
ghost use Rattle.heap_words.specs.FieldWords.{IsFieldWord, word_of};
ghost use Rattle.heap_words.specs.Layouts.{IsPass, IsRegion};
ghost use Rattle.handshakes.specs.PhaseWords.{phase_word_of};

use crate::pass_view::PassView;
use crate::phase_word::RETIRED;
use call_steps::{CallMachine, Machine, Step};
use heap_words::{FieldWord, Layout, REGISTERS, pack};

/// What a retirement stores, and where.
#[derive(Clone, Copy, Debug, PartialEq, Eq)]
pub struct Retire {
    /// The address of the root word of the register `h`; those of `a` to `g` stand before it.
    pub last_root_at: u32,
    /// The words of the registers `a` to `h`.
    pub words: [u64; REGISTERS],
    /// The address of the word of the region in which the pass made its last objects, if it has one.
    pub region_at: Option<u32>,
    pub ack_at: u32,
}

/// Stores the registers in the pass's root words, `a` first; then Filled in the word of its region, if it
/// has one; and at last Retired in its acknowledgement.
#[derive(Clone, Copy, Debug, PartialEq, Eq)]
pub enum RetireMachine {
    /// Stores the register after which this many come.
    Root { retire: Retire, later: u16 },
    /// Stores Filled at the address.
    Region { retire: Retire, at: u32 },
    /// Stores Retired in the acknowledgement.
    Acknowledge(Retire),
    Ended,
}

/// How many registers come after `a`.
const LAST_REGISTER: u16 = REGISTERS as u16 - 1;

/// The word of a region to which nobody adds objects: Filled.
const FILLED: u64 = 2;

/// The words of registers.
fn words_of(registers: [FieldWord; REGISTERS]) -> [u64; REGISTERS]
    requires { All IsFieldWord registers }
    ensures { result ≡ map word_of registers }
{
    let mut words = [0; REGISTERS];
    for i in 0..REGISTERS {
        words[i] = pack(registers[i]);
    }
    words
}

/// A bound on the steps that are left with a register after which this many come.
fn left_with(later: u16) -> u32
    ensures { result ≡ later + 3 }
{
    u32::from(later) + 3
}

impl Retire {
    ghost use Rattle.std.specs.Prelude.{◌-◌, slice_index};
    ghost use Rattle.call_steps.specs.declared.step.Step.TheVariants.{Store};
    ghost use Rattle.handshakes.specs.Retires.{register_before, stored_all};

    /// The store of the register after which this many come.
    fn root(&self, later: u16) -> Step
        ensures { result ≡ Store (self.now.last_root_at - later) (slice_index self.now.words (register_before later)) }
    {
        Step::Store {
            at: self.last_root_at.saturating_sub(u32::from(later)),
            put: self.words[(REGISTERS - 1).saturating_sub(usize::from(later))],
        }
    }

    /// Goes on when all registers are stored.
    fn stored_all(&self) -> RetireMachine
        ensures { result ≡ stored_all self.now self.now.region_at }
    {
        match self.region_at {
            Some(at) => RetireMachine::Region { retire: *self, at },
            None => RetireMachine::Acknowledge(*self),
        }
    }
}

impl RetireMachine {
    ghost use Rattle.call_steps.specs.declared.step.Step.TheVariants.{Ended};
    ghost use Rattle.handshakes.specs.Retires.{retire_of, asks_of, left_of, end_of};

    /// The retirement of a pass that holds these words in its registers and makes its objects in this
    /// region.
    pub fn new(
        layout: &Layout,
        view: PassView,
        registers: [FieldWord; REGISTERS],
        region: Option<u32>,
    ) -> RetireMachine
        requires pass { IsPass layout.now view.pass }
        requires acked { IsSome (phase_word_of view.acked) }
        requires registers { All IsFieldWord registers }
        requires region { ForSome region (IsRegion layout.now) }
        ensures machine { result ≡ RetireMachine.Root (retire_of layout.now view.pass registers region) LAST_REGISTER }
        ensures steps { left_of result ≤ 10 }
    {
        let retire = Retire {
            last_root_at: layout.root_at(view.pass, LAST_REGISTER.into()),
            words: words_of(registers),
            region_at: match region {
                Some(region) => Some(layout.region_at(region)),
                None => None,
            },
            ack_at: layout.ack_at(view.pass),
        };
        RetireMachine::Root {
            retire,
            later: LAST_REGISTER,
        }
    }

    /// That it has ended, or `None` while it asks for a step. The pass then knows what
    /// [`PassView::retired`] says.
    pub fn end(&self) -> Option<()>
        ensures value { result ≡ end_of self.now }
        ensures ended { IsSome result ↔ (asks_of self.now ≡ Ended) }
    {
        match *self {
            RetireMachine::Ended => Some(()),
            _ => None,
        }
    }
}

impl Machine for RetireMachine {
    ghost use Rattle.handshakes.specs.Retires.{asks_of, fed_of, blind_of};

    ghost asks = { asks_of };

    ghost fed = { fed_of };

    ghost blind = { blind_of };

    fn ask(&self) -> Step {
        match *self {
            RetireMachine::Root { retire, later } => retire.root(later),
            RetireMachine::Region { at, .. } => Step::Store { at, put: FILLED },
            RetireMachine::Acknowledge(retire) => Step::Store {
                at: retire.ack_at,
                put: RETIRED,
            },
            RetireMachine::Ended => Step::Ended,
        }
    }

    fn feed(&mut self, _found: u64) {
        *self = match *self {
            RetireMachine::Root { retire, later } if later > 0 => RetireMachine::Root {
                retire,
                later: later - 1,
            },
            RetireMachine::Root { retire, .. } => retire.stored_all(),
            RetireMachine::Region { retire, .. } => RetireMachine::Acknowledge(retire),
            RetireMachine::Acknowledge(_) | RetireMachine::Ended => RetireMachine::Ended,
        };
    }
}

impl CallMachine for RetireMachine {
    ghost use Rattle.handshakes.specs.Retires.{left_of, none_left_of, some_left_of, falls_of};

    ghost steps_left = { left_of };

    ghost none_left = { none_left_of };

    ghost some_left = { some_left_of };

    ghost falls = { falls_of };

    fn left(&self) -> u32 {
        match *self {
            RetireMachine::Root { later, .. } => left_with(later),
            RetireMachine::Region { .. } => 2,
            RetireMachine::Acknowledge(_) => 1,
            RetireMachine::Ended => 0,
        }
    }
}
