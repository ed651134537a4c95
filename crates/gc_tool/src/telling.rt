//! Telling how the program ended.

ghost use Rattle.std.specs.Prelude.{◌≡◌, OnOk, OnErr};
ghost use Rattle.std.specs.Io.KnownBytes.{Appends};
ghost use Rattle.gc_tool.specs.Outside.{AppendsPrefix};
ghost use Rattle.gc_tool.specs.Statuses.{line_of};

use crate::sink::Sink;
use crate::status::{Status, status_text};
use crate::writing::give_all;

/// Gives the text of the status and a line end to the sink, or nothing for `Done`.
///
/// # Errors
///
/// `WriteFault` where a call of the sink fails. A prefix of the line was then written.
pub fn tell<K: Sink>(sink: &mut K, status: &Status) -> Result<(), Status>
    ensures all { OnOk result (Appends (K.holds sink.old) (K.holds sink.new) (line_of status.now)) }
{
    if *status == Status::Done {
        return Ok(());
    }
    give_all(sink, status_text(status).as_bytes())?;
    give_all(sink, b"\n")
}
