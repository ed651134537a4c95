//! What the machine of a pass ends with, what that makes of the record, and the next machine.

ghost use Rattle.std.specs.Prelude.{◌≡◌};
ghost use Rattle.barriers.specs.Records.{ended_of, with_end as with_end_of, started as started_of, operand_word as operand_word_of, HasBirths, IsOperand, IsReady, Fits};

use crate::copier::Copier;
use crate::ends::{ExchangeEnd, NewEnd, ReadEnd, WriteEnd};
use crate::new_object::NewMachine;
use crate::pass::{PassMachine, PassRecord};
use handshakes::{PollEnd, PollMachine, RetireMachine};
use heap_words::{FieldWord, Layout, Operand, REGISTERS, pack};

/// What the machine of a pass has ended with.
#[derive(Clone, Copy, Debug, PartialEq, Eq)]
pub enum MachineEnd {
    Poll(PollEnd),
    New(NewEnd),
    Read(ReadEnd),
    Write(WriteEnd),
    Exchange(ExchangeEnd),
    Retire,
}

/// What a pass is asked to do next. Registers are 0 for `a` to 7 for `h`.
#[derive(Clone, Copy, Debug, PartialEq, Eq)]
pub enum Request {
    Poll,
    /// An object with this many fields, at most [`heap_words::MOST_FIELDS`].
    New {
        len: u32,
    },
    /// Reads a field of the object to which the register `obj` leads.
    Read {
        obj: u32,
        field: u32,
    },
    /// Puts a value in the field.
    Write {
        obj: u32,
        field: u32,
        what: Operand,
    },
    /// Puts a value in the field, if it has the expected one.
    Exchange {
        obj: u32,
        field: u32,
        expected: Operand,
        what: Operand,
    },
    Retire,
}

/// What the machine has ended with. `None` before its end, and of a pass that is in none.
pub fn end_of<P: Copier>(
    machine: &PassMachine<P::Read, P::Write, P::Exchange>,
) -> Option<MachineEnd>
    ensures { result ≡ ended_of P.kit machine.now }
{
    match machine {
        PassMachine::Poll(poll) => Some(MachineEnd::Poll(poll.end()?)),
        PassMachine::New(new) => Some(MachineEnd::New(new.end()?)),
        PassMachine::Read(read) => Some(MachineEnd::Read(P::read_end(read)?)),
        PassMachine::Write(write) => Some(MachineEnd::Write(P::write_end(write)?)),
        PassMachine::Exchange(exchange) => Some(MachineEnd::Exchange(P::exchange_end(exchange)?)),
        PassMachine::Retire(retire) => retire.end().map(|_| MachineEnd::Retire),
        PassMachine::Idle | PassMachine::Retired => None,
    }
}

/// The record with what its machine has ended with: a poll acknowledges, and its registers go where the
/// objects are now; an object takes room and a birth number; and a pass that retires is in no machine any
/// more. After any other end it is between two machines. All else is unchanged.
pub fn with_end<R: Copy, W: Copy, E: Copy>(
    pass: PassRecord<R, W, E>,
    end: MachineEnd,
) -> PassRecord<R, W, E>
    requires { HasBirths pass.made end }
    ensures { result ≡ with_end_of pass end }
{
    let idle = PassRecord {
        machine: PassMachine::Idle,
        ..pass
    };
    match end {
        MachineEnd::Poll(end) => {
            let PollEnd { view, registers } = end;
            PassRecord {
                view,
                registers,
                ..idle
            }
        }
        MachineEnd::New(NewEnd::Made { room, .. }) => PassRecord {
            room,
            made: pass.made + 1,
            ..idle
        },
        MachineEnd::Retire => PassRecord {
            view: pass.view.retired(),
            machine: PassMachine::Retired,
            ..pass
        },
        _ => idle,
    }
}

// What an operand says.
fn operand_word(registers: &[FieldWord; REGISTERS], what: Operand) -> FieldWord
    requires { IsOperand what }
    ensures { result ≡ operand_word_of registers.now what }
{
    match what {
        Operand::Num(n) => FieldWord::Num(n),
        Operand::Reg(register) => registers[register as usize],
    }
}

/// The record with the machine that does what is asked. `None` exactly where it is to access an object and
/// the register `obj` holds no link.
pub fn start<P: Copier>(
    layout: &Layout,
    pass: PassRecord<P::Read, P::Write, P::Exchange>,
    request: Request,
) -> Option<PassRecord<P::Read, P::Write, P::Exchange>>
where
    P::Read: Copy,
    P::Write: Copy,
    P::Exchange: Copy,
    requires ready { IsReady layout.now pass }
    requires fits { Fits request }
    ensures { result ≡ started_of P.kit layout.now pass request }
{
    let machine = match request {
        Request::Poll => PassMachine::Poll(PollMachine::new(layout, pass.view, pass.registers)),
        Request::New { len } => {
            PassMachine::New(NewMachine::new(layout, pass.view, pass.room, pass.made, len))
        }
        Request::Read { obj, field } => match pass.registers[obj as usize] {
            FieldWord::Num(_) => return None,
            FieldWord::Link { birth, at } => {
                PassMachine::Read(P::read(layout, pass.view, birth, at, field))
            }
        },
        Request::Write { obj, field, what } => {
            let word = pack(operand_word(&pass.registers, what));
            match pass.registers[obj as usize] {
                FieldWord::Num(_) => return None,
                FieldWord::Link { birth, at } => {
                    PassMachine::Write(P::write(layout, pass.view, birth, at, field, word))
                }
            }
        }
        Request::Exchange {
            obj,
            field,
            expected,
            what,
        } => {
            let expected = operand_word(&pass.registers, expected);
            let word = pack(operand_word(&pass.registers, what));
            match pass.registers[obj as usize] {
                FieldWord::Num(_) => return None,
                FieldWord::Link { birth, at } => PassMachine::Exchange(P::exchange(
                    layout, pass.view, birth, at, field, expected, word,
                )),
            }
        }
        Request::Retire => {
            prove!(layout.quota() >= 1);
            let region = pass.room.region;
            PassMachine::Retire(RetireMachine::new(layout, pass.view, pass.registers, region))
        }
    };
    Some(PassRecord { machine, ..pass })
}
