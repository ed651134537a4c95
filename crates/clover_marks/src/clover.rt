//! The copier that puts a mark in place of each value that has moved.

ghost use Rattle.std.specs.Prelude.{◌≡◌};
ghost use Rattle.clover_marks.specs.CallEnds as ends;

use crate::call::{CallEnd, CloverCall};
use crate::mover::CloverMove;
use barriers::{Copier, ExchangeEnd, MoveEnd, ReadEnd, TryRefusal, WriteEnd};
use handshakes::PassView;
use heap_words::{FieldWord, Layout};
use object_headers::Kind;
use space_reclaim::MoveJob;

/// The collector draws a mark at random and searches all fields for it. Where no field holds it and every
/// pass has acknowledged that, it copies an object field by field: it stores a field's word in the copy, and
/// then exchanges it in the original for the mark. A call that finds the mark goes to the copy, and no call
/// writes the mark meanwhile.
#[derive(Clone, Copy, Debug, PartialEq, Eq)]
pub struct Clover;

// What a read ends with that ends so.
fn read_end_of(end: CallEnd) -> Option<ReadEnd>
    ensures { result ≡ ends.read_end_of end }
{
    match end {
        CallEnd::Got(word) => Some(ReadEnd::Got(word)),
        CallEnd::Refused(TryRefusal::NoField { len }) => Some(ReadEnd::NoField { len }),
        _ => None,
    }
}

// What a write ends with that ends so.
fn write_end_of(end: CallEnd) -> Option<WriteEnd>
    ensures { result ≡ ends.write_end_of end }
{
    match end {
        CallEnd::Wrote => Some(WriteEnd::Wrote),
        CallEnd::Refused(why) => Some(WriteEnd::Refused(why)),
        _ => None,
    }
}

// What an exchange ends with that ends so.
fn exchange_end_of(end: CallEnd) -> Option<ExchangeEnd>
    ensures { result ≡ ends.exchange_end_of end }
{
    match end {
        CallEnd::Done => Some(ExchangeEnd::Done),
        CallEnd::Differs(word) => Some(ExchangeEnd::Differs(word)),
        CallEnd::Refused(why) => Some(ExchangeEnd::Refused(why)),
        _ => None,
    }
}

impl Copier for Clover {
    ghost use Rattle.std.specs.Prelude.{refl};
    ghost use Rattle.clover_marks.specs.Clovers.{kit_of_clover, laws_of_clover};
    ghost use Rattle.object_headers.specs.declared.change.Kind.TheVariants as Kind;

    const KIND: Kind = Kind::Clover;

    ghost KIND = { Kind.Clover };

    type Read = CloverCall;

    type Write = CloverCall;

    type Exchange = CloverCall;

    type Move = CloverMove;

    ghost kit = { kit_of_clover };

    fn read(layout: &Layout, view: PassView, birth: u32, at: u32, field: u32) -> CloverCall {
        CloverCall::read(layout, view, birth, at, field)
    }

    fn read_end(machine: &CloverCall) -> Option<ReadEnd> {
        read_end_of(machine.end()?)
    }

    fn write(
        layout: &Layout,
        view: PassView,
        birth: u32,
        at: u32,
        field: u32,
        word: u64,
    ) -> CloverCall {
        CloverCall::write(layout, view, birth, at, field, word)
    }

    fn write_end(machine: &CloverCall) -> Option<WriteEnd> {
        write_end_of(machine.end()?)
    }

    fn exchange(
        layout: &Layout,
        view: PassView,
        birth: u32,
        at: u32,
        field: u32,
        expected: FieldWord,
        word: u64,
    ) -> CloverCall {
        CloverCall::exchange(layout, view, birth, at, field, expected, word)
    }

    fn exchange_end(machine: &CloverCall) -> Option<ExchangeEnd> {
        exchange_end_of(machine.end()?)
    }

    fn move_one(_layout: &Layout, job: MoveJob, mark: u64) -> CloverMove {
        CloverMove::new(job, mark)
    }

    fn move_end(machine: &CloverMove) -> Option<MoveEnd> {
        machine.end()
    }

    ghost kind = { refl };

    ghost laws = { laws_of_clover };
}
