//! Which words and which inputs this program takes.

ghost use Rattle.std.specs.Prelude.{◌≡◌, ℕ, ◌<◌, ◌^◌, ◌↔◌, length, Some, Ok, Err, IsTrue, IfOk, IfErr, IsErrOf, ◌⊎◌};
ghost use Rattle.heap_script.specs.FirstFault.{IsScript, IsFault};
ghost use Rattle.heap_script.specs.Grammar.{Fault};
ghost use Rattle.heap_script.specs.Scripts.{Reading};
ghost use Rattle.heap_script.specs.Words.{number_of};
ghost use Rattle.gc_tool.specs.Forms as grammar;

use crate::status::Status;
use gc_cycle::Schedule;
use heap_script::{ReadScriptFault, Script, number, read_script};
use std::alloc::Global;

/// The most cycles of a script that is played, until cycles are planned.
const MOST_CYCLES: u32 = 1;

/// The most steps of a replay.
const MOST_STEPS: u64 = 1_000_000_000;

/// The copiers.
#[derive(Clone, Copy, Debug, PartialEq, Eq)]
pub enum Copying {
    Stopless,
    Chicken,
    Clover,
}

/// A replay that the words ask for.
#[derive(Clone, Copy, Debug, PartialEq, Eq)]
pub struct Replay {
    pub copier: Copying,
    pub schedule: Schedule,
    pub steps: u64,
}

/// What the words ask for.
#[derive(Clone, Copy, Debug, PartialEq, Eq)]
enum Asked {
    Replay(Replay),
    /// A form that is not built yet.
    Unbuilt,
}

/// The number that the word is, if it is within both limits.
fn number_within(word: &[u8], low: u64, high: u64) -> Option<u64>
    ensures { result ≡ grammar.within low high (number_of word.now) }
{
    match number(word) {
        Some(n) if u128::from(low) <= n && n <= u128::from(high) => Some(n as u64),
        _ => None,
    }
}

fn seed_of(word: &[u8]) -> Option<u64>
    ensures { result ≡ grammar.seed_of word.now }
{
    number_within(word, 0, u64::MAX)
}

fn steps_of(word: &[u8]) -> Option<u64>
    ensures { result ≡ grammar.steps_of word.now }
{
    number_within(word, 1, MOST_STEPS)
}

fn schedule_of(word: &[u8]) -> Option<Schedule>
    ensures { result ≡ grammar.schedule_of word.now }
{
    if word == b"solo".as_slice() {
        Some(Schedule::Solo)
    } else if word == b"even".as_slice() {
        Some(Schedule::Even)
    } else {
        seed_of(word).map(Schedule::Drawn)
    }
}

/// The copier of this name.
fn copying_of(word: &[u8]) -> Option<Copying>
    ensures { result ≡ grammar.copying_of word.now }
{
    if word == b"stopless".as_slice() {
        Some(Copying::Stopless)
    } else if word == b"chicken".as_slice() {
        Some(Copying::Chicken)
    } else if word == b"clover".as_slice() {
        Some(Copying::Clover)
    } else {
        None
    }
}

/// The word at this index, and the words after it; the index where it is missing.
fn due(index: u32, words: &[Vec<u8>]) -> Result<(&[u8], &[Vec<u8>]), u32>
    ensures { grammar.Gives (λ x. (x.0.now, grammar.words_of x.1.now)) result (grammar.due index (grammar.words_of words.now)) }
{
    match words.split_first() {
        None => Err(index),
        Some((word, later)) => Ok((word, later)),
    }
}

/// No further word stands; else its index.
fn ended(index: u32, words: &[Vec<u8>]) -> Result<(), u32>
    ensures { result ≡ grammar.ended index (grammar.words_of words.now) }
{
    if words.is_empty() { Ok(()) } else { Err(index) }
}

/// COPIER SCHEDULE STEPS, after `replay`.
#[tactic(auto, unfolding(crate::specs::Forms::replay_form))]
fn replay_form(words: &[Vec<u8>]) -> Result<Replay, u32>
    ensures { result ≡ grammar.replay_form (grammar.words_of words.now) }
{
    let (word, later) = due(1, words)?;
    let copier = copying_of(word).ok_or(1u32)?;
    let (word, later) = due(2, later)?;
    let schedule = schedule_of(word).ok_or(2u32)?;
    let (word, later) = due(3, later)?;
    let steps = steps_of(word).ok_or(3u32)?;
    ended(4, later)?;
    Ok(Replay {
        copier,
        schedule,
        steps,
    })
}

/// A NUMBER at this index, and no further word.
#[tactic(auto, unfolding(crate::specs::Forms::number_form))]
fn number_form(index: u32, words: &[Vec<u8>]) -> Result<(), u32>
    requires { index < 3 }
    ensures { result ≡ grammar.number_form index (grammar.words_of words.now) }
{
    let (word, later) = due(index, words)?;
    seed_of(word).ok_or(index)?;
    ended(index + 1, later)
}

/// Nothing, or a NUMBER at this index and no further word.
fn maybe_number_form(index: u32, words: &[Vec<u8>]) -> Result<(), u32>
    requires { index < 3 }
    ensures { result ≡ grammar.maybe_number_form index (grammar.words_of words.now) }
{
    if words.is_empty() {
        return Ok(());
    }
    number_form(index, words)
}

/// COPIER, after `load` or `run`, and the words after it.
#[tactic(auto, unfolding(crate::specs::Forms::copier_form))]
fn copier_form(words: &[Vec<u8>]) -> Result<&[Vec<u8>], u32>
    ensures { grammar.Gives (λ x. grammar.words_of x.now) result (grammar.copier_form (grammar.words_of words.now)) }
{
    let (word, later) = due(1, words)?;
    copying_of(word).ok_or(1u32)?;
    Ok(later)
}

/// What the first word and those after it ask for; else the index of the first word that does not fit.
#[tactic(auto, unfolding(crate::specs::Forms::form_of))]
fn form_of(first: &[u8], later: &[Vec<u8>]) -> Result<Asked, u32>
    ensures { result ≡ grammar.form_of first.now (grammar.words_of later.now) }
{
    if first == b"replay".as_slice() {
        return Ok(Asked::Replay(replay_form(later)?));
    }
    if first == b"run".as_slice() {
        maybe_number_form(2, copier_form(later)?)?;
    } else if first == b"load".as_slice() {
        number_form(2, copier_form(later)?)?;
    } else if first == b"check".as_slice() {
        ended(1, later)?;
    } else if first == b"make".as_slice() {
        number_form(1, later)?;
    } else {
        return Err(0);
    }
    Ok(Asked::Unbuilt)
}

/// What the words ask for; else the index of the first word that does not fit, or the number of words where one is
/// missing.
fn asked_by(words: &[Vec<u8>]) -> Result<Asked, u32>
    ensures { result ≡ grammar.asked_by (grammar.words_of words.now) }
{
    match words.split_first() {
        None => Err(0),
        Some((first, later)) => form_of(first, later),
    }
}

/// The replay that the words ask for.
///
/// # Errors
///
/// `Usage` for words that are no form, and `NotBuilt` for every other form.
pub fn replay_of(words: &[Vec<u8>]) -> Result<Replay, Status>
    ensures { result ≡ grammar.request_of (grammar.words_of words.now) }
{
    match asked_by(words) {
        Ok(Asked::Replay(replay)) => Ok(replay),
        Ok(Asked::Unbuilt) => Err(Status::NotBuilt),
        Err(index) => Err(Status::Usage { index }),
    }
}

/// The script that the bytes spell.
///
/// # Errors
///
/// `ScriptFault` with the first line that is at fault, `NotBuilt` for a script that is not built, and `OutOfMemory`,
/// which has no cause of its own.
pub fn read_built(alloc: Global, bytes: &[u8]) -> Result<Script, Status>
    requires { length bytes.now < 2 ^ 31 }

    // Each answer has its cause.
    ensures ok { IfOk result (λ script. IsScript bytes.now script × grammar.IsBuilt script) }
    ensures err { IfErr result (grammar.IsRefused bytes.now) }

    // Each cause has its answer, unless memory runs out.
    ensures built { (script : Reading) → IsScript bytes.now script → grammar.IsBuilt script
        → (result ≡ Ok script) ⊎ (result ≡ Err Status.OutOfMemory) }
    ensures not_built { (script : Reading) → IsScript bytes.now script → ¬ (grammar.IsBuilt script)
        → (result ≡ Err Status.NotBuilt) ⊎ (result ≡ Err Status.OutOfMemory) }
    ensures fault { (f : Fault) → IsFault bytes.now f
        → (result ≡ Err (Status.ScriptFault f.0 f.1)) ⊎ (result ≡ Err Status.OutOfMemory) }
{
    match read_script(alloc, bytes) {
        Ok(script) => {
            if script.cycles <= MOST_CYCLES {
                Ok(script)
            } else {
                Err(Status::NotBuilt)
            }
        }
        Err(ReadScriptFault::Script { line, kind }) => Err(Status::ScriptFault { line, kind }),
        Err(ReadScriptFault::OutOfMemory) => Err(Status::OutOfMemory),
    }
}
