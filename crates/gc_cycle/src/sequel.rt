//! What a script makes of the end of a machine. Nothing here knows how objects are moved.

ghost use Rattle.std.specs.Prelude.{◌≡◌, ◌<◌, ◌≤◌, ◌^◌};
ghost use Rattle.heap_script.specs.Scripts.{OperandFits, CommandFits};
ghost use Rattle.barriers.specs.Records.{operand_word};
ghost use Rattle.gc_cycle.specs.Sequels.{sequel_of, begun as begun_of, read_told, write_told, exchange_told, exchange_call as exchange_call_of, new_told, refused as refused_of, named as named_of};

use barriers::{ExchangeEnd, MachineEnd, NewEnd, ReadEnd, Request, TryRefusal, WriteEnd, value_of};
use heap_history::{Call, Ended, Reply};
use heap_script::{Answer, Command, Refusal};
use heap_words::{FieldWord, Operand};

/// What a script reads of a pass: its number, its registers, and how many changes it has seen.
#[derive(Clone, Copy, Debug, PartialEq, Eq)]
pub struct Face {
    pub pass: u32,
    pub registers: [FieldWord; 8],
    pub seen: u32,
}

/// A word that a register is to hold.
#[derive(Clone, Copy, Debug, PartialEq, Eq)]
pub struct InRegister {
    pub register: u32,
    pub word: FieldWord,
}

/// What comes of the end of a machine at a command.
#[derive(Clone, Copy, Debug, PartialEq, Eq)]
pub enum Sequel {
    /// Nothing: the command does not ask for such a machine.
    Nothing,
    /// The command begins.
    Starts(Request),
    /// The command is answered, and a register may get a word; where it was a call of the heap, that has ended.
    Answered {
        put: Option<InRegister>,
        answer: Answer,
        ended: Option<Ended>,
    },
    /// The try was refused, and is tried again after a poll.
    Retries(Refusal),
}

/// What an operand says.
fn meant(face: Face, what: Operand) -> FieldWord
    requires { OperandFits what }
    ensures { result ≡ operand_word face.registers what }
{
    match what {
        Operand::Num(n) => FieldWord::Num(n),
        Operand::Reg(register) => face.registers[register as usize],
    }
}

/// The object that a register names, and 0 for none.
fn named(face: Face, register: u32) -> u32
    requires { register < 8 }
    ensures { result ≡ named_of face.registers register }
{
    match face.registers[register as usize] {
        FieldWord::Num(_) => 0,
        FieldWord::Link { birth, .. } => birth,
    }
}

/// The command is answered, and was no call of the heap.
fn quiet(answer: Answer) -> Sequel
    ensures { result ≡ Sequel.Answered None answer None }
{
    Sequel::Answered {
        put: None,
        answer,
        ended: None,
    }
}

/// The command is answered, and was this call.
fn told(put: Option<InRegister>, answer: Answer, ended: Ended) -> Sequel
    ensures { result ≡ Sequel.Answered put answer (Some ended) }
{
    Sequel::Answered {
        put,
        answer,
        ended: Some(ended),
    }
}

/// The register gets a word, and the command is answered.
fn puts(register: u32, word: FieldWord) -> Sequel
    ensures { result ≡ Sequel.Answered (Some (record { register = register; word = word })) Answer.Ok None }
{
    Sequel::Answered {
        put: Some(InRegister { register, word }),
        answer: Answer::Ok,
        ended: None,
    }
}

/// The poll has ended, and the command begins.
fn begin(command: Command, face: Face) -> Sequel
    requires { CommandFits command }
    ensures { result ≡ begun_of command face }
{
    match command {
        Command::New { len, .. } => Sequel::Starts(Request::New { len }),
        Command::Get { obj, field, .. } => Sequel::Starts(Request::Read { obj, field }),
        Command::Put { obj, field, what } => Sequel::Starts(Request::Write { obj, field, what }),
        Command::Cas {
            obj,
            field,
            expected,
            value,
            ..
        } => Sequel::Starts(Request::Exchange {
            obj,
            field,
            expected,
            what: value,
        }),
        Command::Copy { dst, src } => puts(dst, face.registers[src as usize]),
        Command::Drop { dst } => puts(dst, FieldWord::Num(0)),
        Command::Poll => quiet(Answer::Ok),
    }
}

/// The object is made, and the register leads to it; or there was no room.
fn tell_new(changes: u32, command: Command, face: Face, end: NewEnd) -> Sequel
    requires command { CommandFits command }
    requires changes { changes < 2 ^ 31 }
    ensures { result ≡ new_told changes command face end }
{
    match (command, end) {
        (Command::New { dst, len }, NewEnd::Made { birth, at, .. }) => {
            let put = InRegister {
                register: dst,
                word: FieldWord::Link { birth, at },
            };
            let call = Call::NewObject {
                pass: face.pass,
                birth,
                len,
            };
            let ended = Ended {
                call,
                reply: Reply::Made,
                front: changes + 1,
            };
            told(Some(put), Answer::Made(birth), ended)
        }
        (Command::New { .. }, NewEnd::Refused(_)) => quiet(Answer::Full),
        _ => Sequel::Nothing,
    }
}

/// The field is read, and the register holds what it held; or there is no such field.
fn tell_read(command: Command, face: Face, end: ReadEnd) -> Sequel
    requires { CommandFits command }
    ensures { result ≡ read_told command face end }
{
    match (command, end) {
        (Command::Get { .. }, ReadEnd::NoField { len }) => quiet(Answer::NoField(len)),
        (Command::Get { dst, obj, field }, ReadEnd::Got(word)) => {
            let call = Call::Read {
                pass: face.pass,
                object: named(face, obj),
                field,
            };
            let value = value_of(word);
            let ended = Ended {
                call,
                reply: Reply::Got(value),
                front: face.seen,
            };
            let put = InRegister {
                register: dst,
                word,
            };
            told(Some(put), Answer::Got(value), ended)
        }
        _ => Sequel::Nothing,
    }
}

/// A try was refused: the command is answered, or it is tried again.
fn refuse(why: TryRefusal) -> Sequel
    ensures { result ≡ refused_of why }
{
    match why {
        TryRefusal::NotLink => quiet(Answer::NotLink),
        TryRefusal::NoField { len } => quiet(Answer::NoField(len)),
        TryRefusal::Raced { .. } => Sequel::Retries(Refusal::Raced),
        TryRefusal::Busy { .. } => Sequel::Retries(Refusal::Busy),
    }
}

/// The field is written; or the try was refused.
fn tell_write(changes: u32, command: Command, face: Face, end: WriteEnd) -> Sequel
    requires command { CommandFits command }
    requires changes { changes < 2 ^ 31 }
    ensures { result ≡ write_told changes command face end }
{
    match (command, end) {
        (Command::Put { .. }, WriteEnd::Refused(why)) => refuse(why),
        (Command::Put { obj, field, what }, WriteEnd::Wrote) => {
            let call = Call::Write {
                pass: face.pass,
                object: named(face, obj),
                field,
                value: value_of(meant(face, what)),
            };
            let ended = Ended {
                call,
                reply: Reply::Wrote,
                front: changes + 1,
            };
            told(None, Answer::Ok, ended)
        }
        _ => Sequel::Nothing,
    }
}

/// The call that a `cas` is.
fn exchange_call(face: Face, obj: u32, field: u32, expected: Operand, value: Operand) -> Call
    requires obj { obj < 8 }
    requires expected { OperandFits expected }
    requires value { OperandFits value }
    ensures { result ≡ exchange_call_of face obj field expected value }
{
    Call::Exchange {
        pass: face.pass,
        object: named(face, obj),
        field,
        expected: value_of(meant(face, expected)),
        value: value_of(meant(face, value)),
    }
}

/// The field is written; or it holds another value, which the register holds now; or the try was refused.
fn tell_exchange(changes: u32, command: Command, face: Face, end: ExchangeEnd) -> Sequel
    requires command { CommandFits command }
    requires changes { changes < 2 ^ 31 }
    ensures { result ≡ exchange_told changes command face end }
{
    let Command::Cas {
        dst,
        obj,
        field,
        expected,
        value,
    } = command
    else {
        return Sequel::Nothing;
    };
    let call = exchange_call(face, obj, field, expected, value);
    match end {
        ExchangeEnd::Refused(why) => refuse(why),
        ExchangeEnd::Done => {
            let ended = Ended {
                call,
                reply: Reply::Done,
                front: changes + 1,
            };
            told(None, Answer::Done, ended)
        }
        ExchangeEnd::Differs(word) => {
            let found = value_of(word);
            let ended = Ended {
                call,
                reply: Reply::Differs(found),
                front: face.seen,
            };
            let put = InRegister {
                register: dst,
                word,
            };
            told(Some(put), Answer::Differs(found), ended)
        }
    }
}

/// What the script makes of the end of a machine at this command, where there were so many changes. The face has taken
/// in what the machine ended with.
pub fn what_follows(changes: u32, command: Command, face: Face, end: MachineEnd) -> Sequel
    requires command { CommandFits command }
    requires changes { changes < 2 ^ 31 }
    ensures { result ≡ sequel_of changes command face end }
{
    match end {
        MachineEnd::Poll(_) => begin(command, face),
        MachineEnd::New(end) => tell_new(changes, command, face, end),
        MachineEnd::Read(end) => tell_read(command, face, end),
        MachineEnd::Write(end) => tell_write(changes, command, face, end),
        MachineEnd::Exchange(end) => tell_exchange(changes, command, face, end),
        MachineEnd::Retire => Sequel::Nothing,
    }
}
