//! What the program does.

ghost use Rattle.std.specs.Prelude.{◌≡◌, ◌≢◌, ◌<◌, ◌↔◌, ◌⊎◌, ℕ, List, Ok, Err, length, IfOk, IfErr, IsErrOf};
ghost use Rattle.std.specs.Io.KnownBytes.{Appends};
ghost use Rattle.heap_script.specs.Scripts.{Reading};
ghost use Rattle.heap_script.specs.declared.fault.FaultKind.{FaultKind};
ghost use Rattle.gc_cycle.specs.Lawful.{Lawful};
ghost use Rattle.gc_tool.specs.Outside.{Rose, Gave, AppendsPrefix};
ghost use Rattle.gc_tool.specs.Forms.{words_of, request_of, IsBuilt};
ghost use Rattle.gc_tool.specs.Runs.{IsOutput, IsOutputOver, IsStop, IsStopOver, IsCause, ReadsScript, ReadsFault, ReadsUnbuilt, Asks, Spends, IsHonest, Answers, IsTextOf};

use crate::forms::{Copying, Replay, read_built, replay_of};
use crate::reading::read_all;
use crate::sink::Sink;
use crate::source::Source;
use crate::status::Status;
use crate::writing::give_all;
use barriers::Copier;
use chicken_tags::Chicken;
use clover_marks::Clover;
use gc_cycle::{Steps, World};
use heap_report::history_report;
use heap_script::Script;
use std::alloc::Global;
use stopless_copy::Stopless;

/// The salt that draws the marks of a replay's cycles.
pub const SALT: u64 = 1;

/// The text of a world's history, refused tries and answers.
fn text_of<P: Copier>(alloc: Global, world: &World<P>) -> Result<Vec<u8>, Status>
where
    P::Read: Copy,
    P::Write: Copy,
    P::Exchange: Copy,
    P::Move: Copy,
    requires { Lawful P.kit world.now }
    ensures text { IfOk result (λ text. IsTextOf P.kit ⟦<P as Steps>⟧.by world.now text.items) }
    ensures memory { IfErr result (λ e. e ≡ Status.OutOfMemory) }
{
    let history = world.history(alloc)?;
    let text = history_report(alloc, &history, world.agains(), world.answers())?;
    Ok(text)
}

/// Plays the script with this copier, and gives the text of what happened.
fn play_with<P: Copier>(alloc: Global, script: &Script, replay: Replay) -> Result<Vec<u8>, Status>
where
    P::Read: Copy,
    P::Write: Copy,
    P::Exchange: Copy,
    P::Move: Copy,
    requires { IsBuilt script.now }
    ensures output { IfOk result (λ text. IsOutputOver P.kit ⟦<P as Steps>⟧.by script.now replay text.items) }
    ensures stop { IfErr result (IsStopOver P.kit ⟦<P as Steps>⟧.by script.now replay) }
{
    let mut world = World::<P>::new(alloc, script, SALT)?;
    match world.run(replay.schedule, replay.steps) {
        Ok(()) => text_of(alloc, &world),
        Err(spent) => Err(Status::StepsSpent { n: spent.n }),
    }
}

/// Plays the script with the copier of the replay, and gives the text of what happened.
fn play(alloc: Global, script: &Script, replay: Replay) -> Result<Vec<u8>, Status>
    requires { IsBuilt script.now }
    ensures output { IfOk result (λ text. IsOutput script.now replay text.items) }
    ensures stop { IfErr result (IsStop script.now replay) }
{
    match replay.copier {
        Copying::Stopless => play_with::<Stopless>(alloc, script, replay),
        Copying::Chicken => play_with::<Chicken>(alloc, script, replay),
        Copying::Clover => play_with::<Clover>(alloc, script, replay),
    }
}

/// Reads a script to the end, and plays it.
fn output_of<S: Source>(alloc: Global, replay: Replay, source: &mut S) -> Result<Vec<u8>, Status>
    ensures output { IfOk result (λ text. (script : Reading)
        × ReadsScript (S.left source.old) (S.left source.new) script
        × IsOutput script replay text.items) }
    ensures cause { IfErr result (λ status. IsCause replay status (S.left source.old) (S.left source.new)
        (S.faults source.old) (S.faults source.new)) }
    ensures too_long { Gave (S.left source.old) (S.left source.new)
        (λ given. IsErrOf result Status.TooLong ↔ (1048576 < length given)) }
    ensures went_well { (IsErrOf result Status.ReadFault → ⊥) → S.faults source.new ≡ S.faults source.old }
{
    let bytes = read_all(alloc, source)?;
    let script = read_built(alloc, &bytes)?;
    play(alloc, &script, replay)
}

/// Plays `replay COPIER SCHEDULE STEPS` with one of the copiers: reads the source to its end, plays the script
/// that it spells, and writes the history, the refused tries and the answers. The words are the program's own, without its
/// name. They come first, then the reading, the script, the play and the writing; `OutOfMemory` has no cause of its own.
pub fn run_plain<S: Source, K: Sink>(
    alloc: Global,
    words: &[Vec<u8>],
    source: &mut S,
    sink: &mut K,
) -> Status
    // The output is written whole, or its first bytes are; else nothing is written.
    ensures done { result ≡ Status.Done
        → (text : List ℕ) × Asks (words_of words.now) (S.left source.old) (S.left source.new) text
        × Appends (K.holds sink.old) (K.holds sink.new) text }
    ensures write_fault { result ≡ Status.WriteFault
        → (text : List ℕ) × Asks (words_of words.now) (S.left source.old) (S.left source.new) text
        × AppendsPrefix (K.holds sink.old) (K.holds sink.new) text
        × Rose (K.faults sink.old) (K.faults sink.new) }
    ensures unwritten { result ≢ Status.Done → result ≢ Status.WriteFault → sink.new ≡ sink.old }

    // Words that are no form, or a form that is not built, are refused before anything is read.
    ensures words { (status : Status) → request_of (words_of words.now) ≡ Err status
        → (result ≡ status) × (source.new ≡ source.old) }
    ensures usage { (index : ℕ) → result ≡ Status.Usage index
        → request_of (words_of words.now) ≡ Err (Status.Usage index) }

    // Why there is no output.
    ensures not_built { result ≡ Status.NotBuilt
        → (request_of (words_of words.now) ≡ Err Status.NotBuilt)
        ⊎ ((replay : Replay) × (request_of (words_of words.now) ≡ Ok replay)
        × ReadsUnbuilt (S.left source.old) (S.left source.new)) }
    ensures read_fault { result ≡ Status.ReadFault → Rose (S.faults source.old) (S.faults source.new) }
    ensures too_long { Gave (S.left source.old) (S.left source.new)
        (λ given. (result ≡ Status.TooLong) ↔ (1048576 < length given)) }
    ensures script_fault { (line : ℕ) (kind : FaultKind) → result ≡ Status.ScriptFault line kind
        → ReadsFault (S.left source.old) (S.left source.new) (line, kind) }
    ensures steps_spent { (n : ℕ) → result ≡ Status.StepsSpent n
        → Spends (words_of words.now) (S.left source.old) (S.left source.new) n }

    // Where reading and writing do not fail, the status is that of the input, unless memory runs out.
    ensures honest { (replay : Replay) (bytes : List ℕ)
        → IsHonest (words_of words.now) (S.left source.old) replay bytes
        → result ≢ Status.ReadFault → result ≢ Status.WriteFault
        → Answers bytes replay result ⊎ (result ≡ Status.OutOfMemory) }

    // Where they do not fail, no fault is counted.
    ensures read_well { result ≢ Status.ReadFault → S.faults source.new ≡ S.faults source.old }
    ensures wrote_well { result ≢ Status.WriteFault → K.faults sink.new ≡ K.faults sink.old }
{
    let replay = match replay_of(words) {
        Ok(replay) => replay,
        Err(status) => return status,
    };
    match output_of(alloc, replay, source) {
        Err(status) => status,
        Ok(text) => match give_all(sink, &text) {
            Ok(()) => Status::Done,
            Err(status) => status,
        },
    }
}

#[cfg(test)]
mod tests;
