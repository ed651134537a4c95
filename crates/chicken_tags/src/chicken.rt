//! The copier whose copies are aborted by whoever is about to write.

use crate::exchange::ChickenExchange;
use crate::mover::ChickenMove;
use crate::read::ChickenRead;
use crate::write::ChickenWrite;
use barriers::{Copier, ExchangeEnd, MoveEnd, ReadEnd, WriteEnd};
use handshakes::PassView;
use heap_words::{FieldWord, Layout};
use object_headers::Kind;
use space_reclaim::MoveJob;

/// The collector tags an object before it copies it, and the copy counts only where the header is still
/// `Tagged` at the end. A call that is about to write in a `Tagged` object turns it to `Kept` first: then
/// the object stays where it is in this cycle.
#[derive(Clone, Copy, Debug, PartialEq, Eq)]
pub struct Chicken;

impl Copier for Chicken {
    ghost use Rattle.std.specs.Prelude.{refl};
    ghost use Rattle.chicken_tags.specs.Chickens.{kit_of_chicken, laws_of_chicken};
    ghost use Rattle.object_headers.specs.declared.change.Kind.TheVariants as Kind;

    const KIND: Kind = Kind::Chicken;

    ghost KIND = { Kind.Chicken };

    type Read = ChickenRead;

    type Write = ChickenWrite;

    type Exchange = ChickenExchange;

    type Move = ChickenMove;

    ghost kit = { kit_of_chicken };

    fn read(layout: &Layout, view: PassView, birth: u32, at: u32, field: u32) -> ChickenRead {
        ChickenRead::new(layout, view, birth, at, field)
    }

    fn read_end(machine: &ChickenRead) -> Option<ReadEnd> {
        machine.end()
    }

    fn write(
        layout: &Layout,
        view: PassView,
        birth: u32,
        at: u32,
        field: u32,
        word: u64,
    ) -> ChickenWrite {
        ChickenWrite::new(layout, view, birth, at, field, word)
    }

    fn write_end(machine: &ChickenWrite) -> Option<WriteEnd> {
        machine.end()
    }

    fn exchange(
        layout: &Layout,
        view: PassView,
        birth: u32,
        at: u32,
        field: u32,
        expected: FieldWord,
        word: u64,
    ) -> ChickenExchange {
        ChickenExchange::new(layout, view, birth, at, field, expected, word)
    }

    fn exchange_end(machine: &ChickenExchange) -> Option<ExchangeEnd> {
        machine.end()
    }

    fn move_one(_layout: &Layout, job: MoveJob, _mark: u64) -> ChickenMove {
        ChickenMove::new(job)
    }

    fn move_end(machine: &ChickenMove) -> Option<MoveEnd> {
        machine.end()
    }

    ghost kind = { refl };

    ghost laws = { laws_of_chicken };
}
