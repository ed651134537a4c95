//! The call at the word of its field, in the original or in the copy.

ghost use Rattle.std.specs.Prelude.{◌≡◌};
ghost use Rattle.tagged_calls.specs.Placeds as placeds;

use crate::location::Location;
use barriers::{Errand, ExchangeMachine, Front, ReadMachine, Spot, Watched, WriteMachine};
use call_steps::{CallMachine, Machine, Step};
use handshakes::Phase;

/// The machine of a call at the word of its field: that of an object at rest, in the original or in the
/// copy.
#[derive(Clone, Copy, Debug, PartialEq, Eq)]
pub enum Placed<M> {
    /// It is in the original.
    Original(M),
    /// It is in the copy; `spot` is the field in the original, of which the call is.
    Copy { spot: Spot, machine: M },
}

impl<M: Machine> Machine for Placed<M> {
    ghost asks = { placeds.asks_of M.asks };

    ghost fed = { placeds.fed_of M.fed };

    ghost blind = { placeds.blind_of M.asks M.fed M.blind };

    fn ask(&self) -> Step {
        match self {
            Placed::Original(machine) | Placed::Copy { machine, .. } => machine.ask(),
        }
    }

    fn feed(&mut self, found: u64) {
        match self {
            Placed::Original(machine) => machine.feed(found),
            Placed::Copy { machine, .. } => machine.feed(found),
        }
    }
}

impl<M: CallMachine> CallMachine for Placed<M> {
    ghost steps_left = { placeds.left_of M.steps_left };

    ghost none_left = { placeds.none_left_of M.asks M.steps_left M.none_left };

    ghost some_left = { placeds.some_left_of M.asks M.steps_left M.some_left };

    ghost falls = { placeds.falls_of M.asks M.fed M.steps_left M.falls };

    fn left(&self) -> u32 {
        match self {
            Placed::Original(machine) | Placed::Copy { machine, .. } => machine.left(),
        }
    }
}

impl<M: Watched> Watched for Placed<M> {
    ghost front = { placeds.front_of M.front };

    fn front(&self, found: u64) -> Front {
        match self {
            Placed::Original(machine) => machine.front(found),
            Placed::Copy { machine, .. } => match machine.front(found) {
                Front::SealedOrNow => Front::Now,
                front => front,
            },
        }
    }
}

/// The read of the field, with the word of a header at hand: in the copy where the location says so, and
/// else in the original. As for an object at rest, it has ended where the header says that there is no
/// such field.
pub fn read_in(location: Location, spot: Spot, phase: Phase, header: u64) -> Placed<ReadMachine>
    ensures { result ≡ placeds.read_in location spot phase header }
{
    let here = match location {
        Location::Copy(copy) => copy,
        _ => spot,
    };
    let mut machine = ReadMachine::Header { spot: here, phase };
    machine.feed(header);
    match location {
        Location::Copy(_) => Placed::Copy { spot, machine },
        _ => Placed::Original(machine),
    }
}

/// The write of the field there, likewise.
pub fn write_in(location: Location, spot: Spot, word: u64, header: u64) -> Placed<WriteMachine>
    ensures { result ≡ placeds.write_in location spot word header }
{
    let here = match location {
        Location::Copy(copy) => copy,
        _ => spot,
    };
    let mut machine = WriteMachine::Header { spot: here, word };
    machine.feed(header);
    match location {
        Location::Copy(_) => Placed::Copy { spot, machine },
        _ => Placed::Original(machine),
    }
}

/// The exchange of the field there, likewise.
pub fn exchange_in(
    location: Location,
    errand: Errand,
    phase: Phase,
    header: u64,
) -> Placed<ExchangeMachine>
    ensures { result ≡ placeds.exchange_in location errand phase header }
{
    let spot = errand.spot;
    let here = match location {
        Location::Copy(copy) => copy,
        _ => spot,
    };
    let errand = Errand {
        spot: here,
        ..errand
    };
    let mut machine = ExchangeMachine::Header { errand, phase };
    machine.feed(header);
    match location {
        Location::Copy(_) => Placed::Copy { spot, machine },
        _ => Placed::Original(machine),
    }
}
