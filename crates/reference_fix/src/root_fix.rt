//! How the link in a root word is fixed.

ghost use Rattle.std.specs.Prelude.{◌≡◌, ◌<◌, ◌≤◌, ◌↔◌, IsSome};
ghost use Rattle.heap_words.specs.Layouts.{IsPass, root_at};
ghost use Rattle.heap_words.specs.declared.limits.TheConstants.{REGISTERS};
ghost use Rattle.reference_fix.specs.RootFixes.{looked_at, known};

use crate::moved_link::{leads_to, moved_link};
use call_steps::{CallMachine, Machine, Step};
use heap_words::Layout;

/// Fixes one root word of a pass that has retired: loads it, and where it holds a link, the header to which the
/// link leads. Where that says that the object has moved, a link to the object's new place is stored in the root
/// word. At most 3 steps.
#[derive(Clone, Copy, Debug, PartialEq, Eq)]
pub enum RootFixMachine {
    /// Loads the root word.
    Root { at: u32 },
    /// Loads the header to which the link of the loaded word leads.
    Header { at: u32, word: u64, leads_to: u32 },
    /// Stores the link to the new place.
    Store { at: u32, put: u64 },
    Ended,
}

// With the root word at hand.
fn looked_at(at: u32, word: u64) -> RootFixMachine
    ensures { result ≡ looked_at at word }
{
    match leads_to(word) {
        Some(leads_to) => RootFixMachine::Header { at, word, leads_to },
        None => RootFixMachine::Ended,
    }
}

// With the header at hand.
fn known(at: u32, word: u64, header: u64) -> RootFixMachine
    ensures { result ≡ known at word header }
{
    match moved_link(word, header) {
        Some(put) => RootFixMachine::Store { at, put },
        None => RootFixMachine::Ended,
    }
}

impl RootFixMachine {
    ghost use Rattle.call_steps.specs.declared.step.Step.TheVariants.{Ended};
    ghost use Rattle.reference_fix.specs.RootFixes.{asks_of, left_of, end_of, FixesRoot};

    /// The fixing of the root word of a pass for a register, 0 for `a` to 7 for `h`.
    pub fn new(layout: &Layout, pass: u32, reg: u32) -> RootFixMachine
        requires pass { IsPass layout.now pass }
        requires reg { reg < REGISTERS }
        ensures machine { result ≡ RootFixMachine.Root (root_at layout.now pass reg) }
        ensures steps { left_of result ≤ 3 }

        // Whatever others do: it loads the root word and then the header to which the word's link leads, and
        // puts nothing but a link to the same object at the target of that header, which is Forward.
        ensures cause { FixesRoot (root_at layout.now pass reg) result }
    {
        RootFixMachine::Root {
            at: layout.root_at(pass, reg),
        }
    }

    /// That it has ended, or `None` while it asks for a step.
    pub fn end(&self) -> Option<()>
        ensures value { result ≡ end_of self.now }
        ensures ended { IsSome result ↔ (asks_of self.now ≡ Ended) }
    {
        match *self {
            RootFixMachine::Ended => Some(()),
            RootFixMachine::Root { .. }
            | RootFixMachine::Header { .. }
            | RootFixMachine::Store { .. } => None,
        }
    }
}

impl Machine for RootFixMachine {
    ghost use Rattle.reference_fix.specs.RootFixes.{asks_of, fed_of, blind_of};

    ghost asks = { asks_of };

    ghost fed = { fed_of };

    ghost blind = { blind_of };

    fn ask(&self) -> Step {
        match *self {
            RootFixMachine::Root { at } => Step::Load { at },
            RootFixMachine::Header { leads_to, .. } => Step::Load { at: leads_to },
            RootFixMachine::Store { at, put } => Step::Store { at, put },
            RootFixMachine::Ended => Step::Ended,
        }
    }

    fn feed(&mut self, found: u64) {
        *self = match *self {
            RootFixMachine::Root { at } => looked_at(at, found),
            RootFixMachine::Header { at, word, .. } => known(at, word, found),
            RootFixMachine::Store { .. } | RootFixMachine::Ended => RootFixMachine::Ended,
        };
    }
}

impl CallMachine for RootFixMachine {
    ghost use Rattle.reference_fix.specs.RootFixes.{left_of, none_left_of, some_left_of, falls_of};

    ghost steps_left = { left_of };

    ghost none_left = { none_left_of };

    ghost some_left = { some_left_of };

    ghost falls = { falls_of };

    fn left(&self) -> u32
        ensures bound { result ≡ left_of self.now }
        ensures few { result ≤ 3 }
    {
        match *self {
            RootFixMachine::Root { .. } => 3,
            RootFixMachine::Header { .. } => 2,
            RootFixMachine::Store { .. } => 1,
            RootFixMachine::Ended => 0,
        }
    }
}
