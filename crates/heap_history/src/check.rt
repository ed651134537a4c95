//! Whether the fixed heap gives the replies of a list of entries.

ghost use Rattle.std.specs.Prelude.{◌≡◌, ◌<◌, ◌^◌, ◌⊎◌, ℕ, length, OnOk, IfErr, IsOkUnless, IsErrOf};
ghost use Rattle.heap_history.specs.declared.call.Reply.{Reply};
ghost use Rattle.heap_history.specs.declared.check.CheckFault.TheVariants as faults;
ghost use Rattle.heap_history.specs.FixedHeaps.{opening};
ghost use Rattle.heap_history.specs.Histories.{IsAccepted, IsFirstBad};
ghost use Rattle.heap_history.specs.Faults.{Says};
ghost use Rattle.heap_history.specs.LastWrites.{HoldsLastWrites};
ghost use Rattle.heap_history.specs.Arranged.{AreLegal};

use crate::call::{Entry, Reply};
use crate::fixed_heap::FixedHeap;
use std::alloc::{AllocError, Global};

/// Why a list of entries was not accepted.
#[derive(Clone, Copy, Debug, PartialEq, Eq)]
pub enum CheckFault {
    /// The first entry, counted from 0, whose reply is not the fixed heap's, or for which the fixed heap's
    /// reply is `NotThere`: its index, the fixed heap's reply, and the entry's.
    BadEntry {
        index: u32,
        wanted: Reply,
        found: Reply,
    },
    /// Memory ran out.
    OutOfMemory,
}

impl From<AllocError> for CheckFault {
    ghost from_gives = { λ _ fault. fault ≡ faults.OutOfMemory };

    fn from(_failed: AllocError) -> CheckFault {
        CheckFault::OutOfMemory
    }
}

/// Accepts the entries, or finds the first bad one.
fn first_bad(alloc: Global, entries: &[Entry]) -> Result<(), CheckFault>
    requires { length entries.now < 2 ^ 31 }
    ensures ok { OnOk result (IsAccepted opening entries.now) }
    ensures bad { IfErr result (Says entries.now) }
{
    let mut heap = FixedHeap::opening(alloc);
    for (index, entry) in entries.iter().enumerate() {
        let wanted = heap.apply(entry.call)?;
        if wanted != entry.reply || wanted == Reply::NotThere {
            return Err(CheckFault::BadEntry {
                index: index as u32,
                wanted,
                found: entry.reply,
            });
        }
    }
    Ok(())
}

/// Whether a fixed heap, called from its opening on, gives the replies of the entries, one after another,
/// and never `NotThere`. Where it does, they are a legal history, and each field that is there in the end holds
/// the value that was last written to it, or 0.
///
/// # Errors
///
/// `BadEntry` is the first entry for which it does not. `OutOfMemory` comes only where an entry stands after accepted
/// ones, and the heap makes an object for it.
pub fn check_history(alloc: Global, entries: &[Entry]) -> Result<(), CheckFault>
    requires { length entries.now < 2 ^ 31 }
    ensures ok { OnOk result (IsAccepted opening entries.now) }
    ensures bad { IfErr result (Says entries.now) }

    // Entries are accepted, and a first bad entry is refused, unless memory runs out.
    ensures accepts { IsAccepted opening entries.now → IsOkUnless result CheckFault.OutOfMemory }
    ensures refuses { (index : ℕ) (wanted found : Reply) → IsFirstBad entries.now index wanted found →
        IsErrOf result (CheckFault.BadEntry index wanted found) ⊎ IsErrOf result CheckFault.OutOfMemory }

    ensures legal { OnOk result (AreLegal entries.now) }
    ensures last_writes { OnOk result (HoldsLastWrites entries.now) }
{
    first_bad(alloc, entries)
}
