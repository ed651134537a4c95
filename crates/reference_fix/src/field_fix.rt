//! How the link in a field is fixed.

ghost use Rattle.std.specs.Prelude.{◌≡◌, ◌≤◌, ◌↔◌, IsSome};
ghost use Rattle.reference_fix.specs.FieldFixes.{looked_at, known};

use crate::moved_link::{leads_to, moved_link};
use call_steps::{CallMachine, Machine, Step};
use heap_words::Layout;

/// Fixes the word of one field: loads it, and where it holds a link, the header to which the link leads. Where
/// that says that the object has moved, the word is exchanged for a link to the object's new place. An exchange
/// that loses is left. At most 3 steps.
#[derive(Clone, Copy, Debug, PartialEq, Eq)]
pub enum FixMachine {
    /// Loads the field's word.
    Field { at: u32 },
    /// Loads the header to which the link of the loaded word leads.
    Header { at: u32, word: u64, leads_to: u32 },
    /// Exchanges the loaded word for the link to the new place.
    Exchange { at: u32, word: u64, put: u64 },
    Ended,
}

// With the field's word at hand.
fn looked_at(at: u32, word: u64) -> FixMachine
    ensures { result ≡ looked_at at word }
{
    match leads_to(word) {
        Some(leads_to) => FixMachine::Header { at, word, leads_to },
        None => FixMachine::Ended,
    }
}

// With the header at hand.
fn known(at: u32, word: u64, header: u64) -> FixMachine
    ensures { result ≡ known at word header }
{
    match moved_link(word, header) {
        Some(put) => FixMachine::Exchange { at, word, put },
        None => FixMachine::Ended,
    }
}

impl FixMachine {
    ghost use Rattle.call_steps.specs.declared.step.Step.TheVariants.{Ended};
    ghost use Rattle.reference_fix.specs.FieldFixes.{asks_of, left_of, end_of, FixesField};

    /// The fixing of the word at an address.
    pub fn new(_layout: &Layout, at: u32) -> FixMachine
        ensures machine { result ≡ FixMachine.Field at }
        ensures steps { left_of result ≤ 3 }

        // Whatever others do: it loads the word and then the header to which the word's link leads, and puts
        // nothing but, by an exchange from the word that it loaded, a link to the same object at the target of
        // that header, which is Forward. After an exchange it has ended, whatever that found.
        ensures cause { FixesField at result }
    {
        FixMachine::Field { at }
    }

    /// That it has ended, or `None` while it asks for a step.
    pub fn end(&self) -> Option<()>
        ensures value { result ≡ end_of self.now }
        ensures ended { IsSome result ↔ (asks_of self.now ≡ Ended) }
    {
        match *self {
            FixMachine::Ended => Some(()),
            FixMachine::Field { .. } | FixMachine::Header { .. } | FixMachine::Exchange { .. } => {
                None
            }
        }
    }
}

impl Machine for FixMachine {
    ghost use Rattle.reference_fix.specs.FieldFixes.{asks_of, fed_of, blind_of};

    ghost asks = { asks_of };

    ghost fed = { fed_of };

    ghost blind = { blind_of };

    fn ask(&self) -> Step {
        match *self {
            FixMachine::Field { at } => Step::Load { at },
            FixMachine::Header { leads_to, .. } => Step::Load { at: leads_to },
            FixMachine::Exchange { at, word, put } => Step::Exchange {
                at,
                want: word,
                put,
            },
            FixMachine::Ended => Step::Ended,
        }
    }

    fn feed(&mut self, found: u64) {
        *self = match *self {
            FixMachine::Field { at } => looked_at(at, found),
            FixMachine::Header { at, word, .. } => known(at, word, found),
            FixMachine::Exchange { .. } | FixMachine::Ended => FixMachine::Ended,
        };
    }
}

impl CallMachine for FixMachine {
    ghost use Rattle.reference_fix.specs.FieldFixes.{left_of, none_left_of, some_left_of, falls_of};

    ghost steps_left = { left_of };

    ghost none_left = { none_left_of };

    ghost some_left = { some_left_of };

    ghost falls = { falls_of };

    fn left(&self) -> u32
        ensures bound { result ≡ left_of self.now }
        ensures few { result ≤ 3 }
    {
        match *self {
            FixMachine::Field { .. } => 3,
            FixMachine::Header { .. } => 2,
            FixMachine::Exchange { .. } => 1,
            FixMachine::Ended => 0,
        }
    }
}
