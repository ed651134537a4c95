//! The record of a pass.

ghost use Rattle.std.specs.Prelude.{◌≡◌};

use crate::front::Front;
use crate::new_object::NewMachine;
use crate::room::Room;
use crate::watched::Watched;
use call_steps::{CallMachine, Machine, Step};
use handshakes::{PassView, PollMachine, RetireMachine};
use heap_words::{FieldWord, REGISTERS};

/// The machine that a pass is in, where reads, writes and exchanges are done by these machines. One that
/// has ended stands there until its end is taken in.
#[derive(Clone, Copy, Debug, PartialEq, Eq)]
pub enum PassMachine<R, W, E> {
    /// It is in none, between two of them.
    Idle,
    Poll(PollMachine),
    New(NewMachine),
    Read(R),
    Write(W),
    Exchange(E),
    Retire(RetireMachine),
    /// It has retired, and is in none any more.
    Retired,
}

/// What a pass is and knows, where reads, writes and exchanges are done by these machines.
#[derive(Clone, Copy, Debug, PartialEq, Eq)]
pub struct PassRecord<R, W, E> {
    /// Its number, the phase word that it acknowledged last, and its mark.
    pub view: PassView,
    /// The registers `a` to `h`.
    pub registers: [FieldWord; REGISTERS],
    pub machine: PassMachine<R, W, E>,
    /// Where it makes objects.
    pub room: Room,
    /// How many objects it has made.
    pub made: u32,
    /// How many changes of the history it has seen.
    pub seen: u32,
}

impl<R: Machine, W: Machine, E: Machine> Machine for PassMachine<R, W, E> {
    ghost use Rattle.barriers.specs.PassMachines.{asks_of, fed_of, blind_of};

    ghost asks = { asks_of R.asks W.asks E.asks };

    ghost fed = { fed_of R.fed W.fed E.fed };

    ghost blind = { blind_of R.asks W.asks E.asks R.fed W.fed E.fed R.blind W.blind E.blind };

    fn ask(&self) -> Step {
        match self {
            PassMachine::Poll(machine) => machine.ask(),
            PassMachine::New(machine) => machine.ask(),
            PassMachine::Read(machine) => machine.ask(),
            PassMachine::Write(machine) => machine.ask(),
            PassMachine::Exchange(machine) => machine.ask(),
            PassMachine::Retire(machine) => machine.ask(),
            PassMachine::Idle | PassMachine::Retired => Step::Ended,
        }
    }

    fn feed(&mut self, found: u64) {
        match self {
            PassMachine::Poll(machine) => machine.feed(found),
            PassMachine::New(machine) => machine.feed(found),
            PassMachine::Read(machine) => machine.feed(found),
            PassMachine::Write(machine) => machine.feed(found),
            PassMachine::Exchange(machine) => machine.feed(found),
            PassMachine::Retire(machine) => machine.feed(found),
            PassMachine::Idle | PassMachine::Retired => {}
        }
    }
}

impl<R: CallMachine, W: CallMachine, E: CallMachine> CallMachine for PassMachine<R, W, E> {
    ghost use Rattle.barriers.specs.PassMachines.{left_of, none_left_of, some_left_of, falls_of};

    ghost steps_left = { left_of R.steps_left W.steps_left E.steps_left };

    ghost none_left = { none_left_of R.asks W.asks E.asks R.steps_left W.steps_left E.steps_left R.none_left W.none_left E.none_left };

    ghost some_left = { some_left_of R.asks W.asks E.asks R.steps_left W.steps_left E.steps_left R.some_left W.some_left E.some_left };

    ghost falls = { falls_of R.asks W.asks E.asks R.fed W.fed E.fed R.steps_left W.steps_left E.steps_left R.falls W.falls E.falls };

    fn left(&self) -> u32 {
        match self {
            PassMachine::Poll(machine) => machine.left(),
            PassMachine::New(machine) => machine.left(),
            PassMachine::Read(machine) => machine.left(),
            PassMachine::Write(machine) => machine.left(),
            PassMachine::Exchange(machine) => machine.left(),
            PassMachine::Retire(machine) => machine.left(),
            PassMachine::Idle | PassMachine::Retired => 0,
        }
    }
}

impl<R: Watched, W: Watched, E: Watched> Watched for PassMachine<R, W, E> {
    ghost use Rattle.barriers.specs.PassMachines.{front_of};

    ghost front = { front_of R.front W.front E.front };

    fn front(&self, found: u64) -> Front {
        match self {
            PassMachine::Read(machine) => machine.front(found),
            PassMachine::Write(machine) => machine.front(found),
            PassMachine::Exchange(machine) => machine.front(found),
            PassMachine::Idle
            | PassMachine::Poll(_)
            | PassMachine::New(_)
            | PassMachine::Retire(_)
            | PassMachine::Retired => Front::Stays,
        }
    }
}
