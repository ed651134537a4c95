//! What the machines of a copier do, a step at a time.

use barriers::Copier;

/// The steps of all machines of a copier, in one record. Every copier has it.
pub trait Steps: Copier {
    ghost use Rattle.barriers.specs.Kits.{Stepping};

    /// What its machines do, a step at a time.
    ghost by: { Stepping Self.Read Self.Write Self.Exchange Self.Move };
}

impl<P: Copier> Steps for P {
    ghost use Rattle.gc_cycle.specs.Steppings.{stepping_of};

    ghost by = { stepping_of P.Read.asks P.Write.asks P.Exchange.asks P.Move.asks P.Read.fed P.Write.fed P.Exchange.fed P.Move.fed P.Read.front P.Write.front P.Exchange.front P.Read.steps_left P.Write.steps_left P.Exchange.steps_left };
}
