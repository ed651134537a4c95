//! The law of words and records, over any copier.

use barriers::Copier;
use call_steps::{Law, Lawful};
use heap_words::Layout;
use lawful_records::Party;
use std::marker::PhantomData;

/// What is fixed when the words are made: the layout, how many cycles the collector plays, and the salt that draws
/// its marks.
#[derive(Clone, Copy, Debug, PartialEq, Eq)]
pub struct Opening {
    pub layout: Layout,
    pub cycles: u32,
    pub salt: u64,
}

/// The records of passes that use this copier, and of the collector.
pub struct Records<P> {
    copier: PhantomData<P>,
}

impl<P: Copier> Lawful<Party<P::Read, P::Write, P::Exchange, P::Move>, Opening> for Records<P> {
    ghost use Rattle.lawful_records.specs.Opening.{opening_parties};
    ghost use Rattle.lawful_records.specs.LawfulRecords.{LawfulRecords};

    ghost lawful = { λ k ws rs. LawfulRecords P.kit k.layout ws rs };

    ghost opening = { λ k. opening_parties P.kit k.layout k.cycles k.salt };
}

impl<P: Copier> Law<Party<P::Read, P::Write, P::Exchange, P::Move>, Opening> for Records<P> {
    ghost use Rattle.std.specs.Prelude.{◌+◌};
    ghost use Rattle.heap_words.specs.Layouts.{words_of};
    ghost use Rattle.lawful_records.specs.Running.{steps_of};
    ghost use Rattle.lawful_records.specs.Turns.{turned as turned_of, party_asks};
    ghost use Rattle.lawful_records.specs.Beginnings.{BeginsOn};
    ghost use Rattle.lawful_records.proofs.RecordLaws.{begins_rests, lawful_wide, lawful_counted, lawful_inside, lawful_regroups, lawful_starts, lawful_keeps};

    ghost width = { λ k. words_of k.layout };

    ghost parties = { λ k. k.layout.passes + 1 };

    ghost asks = { party_asks P.kit (record {
      read_asks = P.Read.asks;
      write_asks = P.Write.asks;
      exchange_asks = P.Exchange.asks;
      move_asks = P.Move.asks;
      read_fed = P.Read.fed;
      write_fed = P.Write.fed;
      exchange_fed = P.Exchange.fed;
      move_fed = P.Move.fed;
      read_front = P.Read.front;
      write_front = P.Write.front;
      exchange_front = P.Exchange.front;
      read_left = P.Read.steps_left;
      write_left = P.Write.steps_left;
      exchange_left = P.Exchange.steps_left;
    }) };

    ghost turned = { λ k. turned_of P.kit (record {
      read_asks = P.Read.asks;
      write_asks = P.Write.asks;
      exchange_asks = P.Exchange.asks;
      move_asks = P.Move.asks;
      read_fed = P.Read.fed;
      write_fed = P.Write.fed;
      exchange_fed = P.Exchange.fed;
      move_fed = P.Move.fed;
      read_front = P.Read.front;
      write_front = P.Write.front;
      exchange_front = P.Exchange.front;
      read_left = P.Read.steps_left;
      write_left = P.Write.steps_left;
      exchange_left = P.Exchange.steps_left;
    }) };

    ghost begins = { λ k. BeginsOn P.kit k.layout };

    ghost rests = { λ k. begins_rests P.kit k.layout };

    ghost wide = { λ k. lawful_wide P.kit k.layout };

    ghost counted = { λ k. lawful_counted P.kit k.layout };

    ghost inside = { λ k. lawful_inside P.kit (steps_of P.laws) P.laws k.layout };

    ghost regroups = { λ k. lawful_regroups P.kit k.layout };

    ghost starts = { λ k. lawful_starts P.kit (steps_of P.laws) P.laws k.layout };

    ghost keeps = { λ k. lawful_keeps P.kit (steps_of P.laws) P.laws k.layout };
}
