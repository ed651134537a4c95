//! The copier that copies through wide objects.

use crate::exchange::StoplessExchange;
use crate::mover::StoplessMove;
use crate::read::StoplessRead;
use crate::write::StoplessWrite;
use barriers::{Copier, ExchangeEnd, MoveEnd, ReadEnd, WriteEnd};
use handshakes::PassView;
use heap_words::{FieldWord, Layout};
use object_headers::Kind;
use space_reclaim::MoveJob;

/// The collector tags an object before it copies it, and makes it wide where its header is still `Tagged`
/// then: from there on each field has a wide word beside it, which says where the value is, and whoever
/// changes the field exchanges that word. A call that is about to write in a `Tagged` object turns it to
/// `Kept` first: then the object stays where it is in this cycle.
#[derive(Clone, Copy, Debug, PartialEq, Eq)]
pub struct Stopless;

impl Copier for Stopless {
    ghost use Rattle.std.specs.Prelude.{refl};
    ghost use Rattle.stopless_copy.specs.StoplessLaws.{kit_of_stopless, laws_of_stopless};
    ghost use Rattle.object_headers.specs.declared.change.Kind.TheVariants as Kind;

    const KIND: Kind = Kind::Stopless;

    ghost KIND = { Kind.Stopless };

    type Read = StoplessRead;

    type Write = StoplessWrite;

    type Exchange = StoplessExchange;

    type Move = StoplessMove;

    ghost kit = { kit_of_stopless };

    fn read(layout: &Layout, view: PassView, birth: u32, at: u32, field: u32) -> StoplessRead {
        StoplessRead::new(layout, view, birth, at, field)
    }

    fn read_end(machine: &StoplessRead) -> Option<ReadEnd> {
        machine.end()
    }

    fn write(
        layout: &Layout,
        view: PassView,
        birth: u32,
        at: u32,
        field: u32,
        word: u64,
    ) -> StoplessWrite {
        StoplessWrite::new(layout, view, birth, at, field, word)
    }

    fn write_end(machine: &StoplessWrite) -> Option<WriteEnd> {
        machine.end()
    }

    fn exchange(
        layout: &Layout,
        view: PassView,
        birth: u32,
        at: u32,
        field: u32,
        expected: FieldWord,
        word: u64,
    ) -> StoplessExchange {
        StoplessExchange::new(layout, view, birth, at, field, expected, word)
    }

    fn exchange_end(machine: &StoplessExchange) -> Option<ExchangeEnd> {
        machine.end()
    }

    fn move_one(_layout: &Layout, job: MoveJob, _mark: u64) -> StoplessMove {
        StoplessMove::new(job)
    }

    fn move_end(machine: &StoplessMove) -> Option<MoveEnd> {
        machine.end()
    }

    ghost kind = { refl };

    ghost laws = { laws_of_stopless };
}
