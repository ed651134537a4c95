//! Writing the whole output.

ghost use Rattle.std.specs.Prelude.{◌≡◌, OnOk, OnErr, IsOkUnless};
ghost use Rattle.std.specs.Io.KnownBytes.{Appends};
ghost use Rattle.gc_tool.specs.Outside.{Rose, AppendsPrefix};

use crate::sink::Sink;
use crate::status::Status;

/// Gives the whole text to the sink.
///
/// # Errors
///
/// `WriteFault` where a call of the sink fails. A prefix of the text was then written, and no call follows.
pub fn give_all<K: Sink>(sink: &mut K, text: &[u8]) -> Result<(), Status>
    ensures all { OnOk result (Appends (K.holds sink.old) (K.holds sink.new) text.now) }
    ensures prefix { OnErr result (AppendsPrefix (K.holds sink.old) (K.holds sink.new) text.now) }
    ensures write_fault { OnErr result (Rose (K.faults sink.old) (K.faults sink.new)) }
    ensures went_well { OnOk result (K.faults sink.new ≡ K.faults sink.old) }
    ensures only { IsOkUnless result Status.WriteFault }
{
    let mut rest = text;
    while !rest.is_empty() {
        let Ok(count) = sink.give(rest) else {
            return Err(Status::WriteFault);
        };
        rest = &rest[count..];
    }
    Ok(())
}
