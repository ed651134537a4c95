//! The copier that moves nothing.

use crate::stay::StayMachine;
use barriers::{
    Copier, ExchangeEnd, ExchangeMachine, MoveEnd, ReadEnd, ReadMachine, WriteEnd, WriteMachine,
};
use handshakes::PassView;
use heap_words::{FieldWord, Layout};
use object_headers::Kind;
use space_reclaim::MoveJob;

/// Objects stay where they are made.
#[derive(Clone, Copy, Debug, PartialEq, Eq)]
pub struct AtRest;

impl Copier for AtRest {
    ghost use Rattle.std.specs.Prelude.{refl};
    ghost use Rattle.at_rest.specs.Knowing.{kit_at_rest};
    ghost use Rattle.at_rest.specs.Rests.{laws_at_rest};
    ghost use Rattle.object_headers.specs.declared.change.Kind.TheVariants as Kind;

    const KIND: Kind = Kind::AtRest;

    ghost KIND = { Kind.AtRest };

    type Read = ReadMachine;

    type Write = WriteMachine;

    type Exchange = ExchangeMachine;

    type Move = StayMachine;

    ghost kit = { kit_at_rest };

    fn read(layout: &Layout, view: PassView, birth: u32, at: u32, field: u32) -> ReadMachine {
        ReadMachine::new(layout, view, birth, at, field)
    }

    fn read_end(machine: &ReadMachine) -> Option<ReadEnd> {
        machine.end()
    }

    fn write(
        layout: &Layout,
        view: PassView,
        birth: u32,
        at: u32,
        field: u32,
        word: u64,
    ) -> WriteMachine {
        WriteMachine::new(layout, view, birth, at, field, word)
    }

    fn write_end(machine: &WriteMachine) -> Option<WriteEnd> {
        machine.end()
    }

    fn exchange(
        layout: &Layout,
        view: PassView,
        birth: u32,
        at: u32,
        field: u32,
        expected: FieldWord,
        word: u64,
    ) -> ExchangeMachine {
        ExchangeMachine::new(layout, view, birth, at, field, expected, word)
    }

    fn exchange_end(machine: &ExchangeMachine) -> Option<ExchangeEnd> {
        machine.end()
    }

    fn move_one(_layout: &Layout, job: MoveJob, _mark: u64) -> StayMachine {
        StayMachine::Header(job)
    }

    fn move_end(machine: &StayMachine) -> Option<MoveEnd> {
        machine.end()
    }

    ghost kind = { refl };

    ghost laws = { laws_at_rest };
}
