//! The calls of a pass as machines: read, write and exchange of a field, the plain exchange at a word
//! that they share, and what each of them answers.
#![tactic(auto)]

mod copier;
mod ends;
mod exchange;
mod front;
mod machine_end;
mod new_object;
mod packed;
mod pass;
mod plain_exchange;
mod read;
mod room;
mod spot;
mod value;
mod watched;
mod write;

pub use copier::Copier;
pub use ends::{
    AccessRefusal, ExchangeEnd, MoveEnd, NewEnd, NewRefusal, ReadEnd, TryRefusal, WriteEnd,
};
pub use exchange::{Errand, ExchangeMachine};
pub use front::Front;
pub use machine_end::{MachineEnd, Request, end_of, start, with_end};
pub use new_object::{NewMachine, NewPlan, Placement};
pub use packed::{held_by, len_in};
pub use pass::{PassMachine, PassRecord};
pub use plain_exchange::{PlainExchange, Swap, TriesLeft};
pub use read::ReadMachine;
pub use room::Room;
pub use spot::Spot;
pub use value::value_of;
pub use watched::Watched;
pub use write::WriteMachine;
