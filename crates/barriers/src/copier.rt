//! The calls of a copier.

ghost use Rattle.std.specs.Prelude.{◌≡◌, ◌<◌, ◌^◌, IsSome};
ghost use Rattle.heap_words.specs.declared.limits.TheConstants.{ADDRESS_LIMIT};
ghost use Rattle.heap_words.specs.FieldWords.{field_of};
ghost use Rattle.handshakes.specs.PhaseWords.{phase_word_of};
ghost use Rattle.object_headers.specs.declared.change.Kind.{Kind};
ghost use Rattle.barriers.specs.Kits.{Kit, Laws};

use crate::ends::{ExchangeEnd, MoveEnd, ReadEnd, WriteEnd};
use crate::watched::Watched;
use call_steps::Machine;
use handshakes::PassView;
use heap_words::{FieldWord, Layout};
use object_headers::Kind;
use space_reclaim::MoveJob;

/// How fields are read, written and exchanged while objects are moved, and how objects are moved.
pub trait Copier {
    /// Which changes of headers it makes.
    const KIND: Kind;

    ghost KIND: { Kind };

    /// The machine of a read of a field.
    type Read: Watched;

    /// The machine of one try of a write of a field.
    type Write: Watched;

    /// The machine of one try of an exchange of a field.
    type Exchange: Watched;

    /// The machine of a move of one object.
    type Move: Machine;

    /// What is known of the machines.
    ghost kit: { Kit Self.Read Self.Write Self.Exchange Self.Move };

    /// The read of a field of the object `birth`, which stands at `at`, by this pass. The field number may
    /// be any.
    fn read(layout: &Layout, view: PassView, birth: u32, at: u32, field: u32) -> Self::Read
        requires near { at < ADDRESS_LIMIT }
        requires acked { IsSome (phase_word_of view.acked) }
        ensures { result ≡ kit.starts_read layout.now view birth at field };

    /// What the read has ended with, and `None` before its end.
    fn read_end(machine: &Self::Read) -> Option<ReadEnd>
        ensures { result ≡ kit.read_ended machine.now };

    /// The write of a field of the object `birth`, which stands at `at`, by this pass. The field number may
    /// be any; the word is to be the packed word of a number or a link.
    fn write(
        layout: &Layout,
        view: PassView,
        birth: u32,
        at: u32,
        field: u32,
        word: u64,
    ) -> Self::Write
        requires near { at < ADDRESS_LIMIT }
        requires acked { IsSome (phase_word_of view.acked) }
        requires packed { word < 2 ^ 62 }
        requires value { IsSome (field_of word) }
        ensures { result ≡ kit.starts_write layout.now view birth at field word };

    /// What this try of the write has ended with, and `None` before its end.
    fn write_end(machine: &Self::Write) -> Option<WriteEnd>
        ensures { result ≡ kit.write_ended machine.now };

    /// The exchange of a field of the object `birth`, which stands at `at`, by this pass. The field number
    /// may be any; the word is to be the packed word of a number or a link.
    fn exchange(
        layout: &Layout,
        view: PassView,
        birth: u32,
        at: u32,
        field: u32,
        expected: FieldWord,
        word: u64,
    ) -> Self::Exchange
        requires near { at < ADDRESS_LIMIT }
        requires acked { IsSome (phase_word_of view.acked) }
        requires packed { word < 2 ^ 62 }
        requires value { IsSome (field_of word) }
        ensures { result ≡ kit.starts_exchange layout.now view birth at field expected word };

    /// What this try of the exchange has ended with, and `None` before its end.
    fn exchange_end(machine: &Self::Exchange) -> Option<ExchangeEnd>
        ensures { result ≡ kit.exchange_ended machine.now };

    /// The move of one object, in a cycle with this mark; 0 is none.
    fn move_one(layout: &Layout, job: MoveJob, mark: u64) -> Self::Move
        ensures { result ≡ kit.starts_move layout.now job mark };

    /// What the move has ended with, and `None` before its end.
    fn move_end(machine: &Self::Move) -> Option<MoveEnd>
        ensures { result ≡ kit.move_ended machine.now };

    /// Its kind is that of the machines.
    ghost kind: { KIND ≡ kit.kind };

    /// What holds of all that.
    ghost laws: { Laws kit (record {
      read_asks = Self.Read.asks;
      write_asks = Self.Write.asks;
      exchange_asks = Self.Exchange.asks;
      move_asks = Self.Move.asks;
      read_fed = Self.Read.fed;
      write_fed = Self.Write.fed;
      exchange_fed = Self.Exchange.fed;
      move_fed = Self.Move.fed;
      read_front = Self.Read.front;
      write_front = Self.Write.front;
      exchange_front = Self.Exchange.front;
      read_left = Self.Read.steps_left;
      write_left = Self.Write.steps_left;
      exchange_left = Self.Exchange.steps_left;
    }) };
}
