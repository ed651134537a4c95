//! The move of one object.

ghost use Rattle.std.specs.Prelude.{◌≡◌, ◌↔◌, IsSome};
ghost use Rattle.call_steps.specs.declared.step.Step.TheVariants.{Ended as StepEnded};
ghost use Rattle.call_steps.specs.Ending.{EndsOnlyFor};
ghost use Rattle.wide_objects.specs.WideWords.{wide_word_at};
ghost use Rattle.stopless_copy.specs.StoplessMoves as moves;
ghost use Rattle.stopless_copy.specs.MoveCauses.{MoveEnds};

use crate::packed::{in_copy, in_wide, wide_in};
use barriers::MoveEnd;
use call_steps::{Machine, Step};
use heap_words::{ADDRESS_LIMIT, MOST_FIELDS};
use object_headers::{Header, State};
use space_reclaim::MoveJob;
use wide_objects::{Status2, WideWord};

/// The words of the headers of an object that is moved: in the original `Tagged`, `Wide` with the address
/// of the wide object, and `Forward` with the copy's; in the copy `Plain` and `Dead`.
#[derive(Clone, Copy, Debug, PartialEq, Eq)]
pub struct MoveHeaders {
    pub tagged: u64,
    pub wide: u64,
    pub forward: u64,
    pub plain: u64,
    pub dead: u64,
}

/// What is moved, and its headers.
#[derive(Clone, Copy, Debug, PartialEq, Eq)]
pub struct MoveTask {
    pub job: MoveJob,
    pub headers: MoveHeaders,
}

/// How far the value of a field has been carried to the copy.
#[derive(Clone, Copy, Debug, PartialEq, Eq)]
pub enum Carry {
    /// Loads the wide word.
    Ask,
    /// Loads the word in the original, where the wide word said that the value is.
    Load,
    /// Exchanges the wide word, which is to be at rest still, for one that has this word of the field.
    Widen(u64),
    /// Stores this word of the field in the copy.
    Store(u64),
    /// Exchanges the wide word, which is to have this word of the field still, for one that says that the
    /// value is in the copy.
    Finish(u64),
}

/// Stores the copy's header, and the copy's address in the wide object, and exchanges the original's
/// header, which is to be `Tagged` still, for `Wide`. Where that loses, a call keeps the object: then the
/// copy's header becomes `Dead`, and the object stays where it is. Else it carries the value of each field
/// from the original to its wide word and from there to the copy, each by an exchange of the wide word
/// that goes on with the word found where it loses; and exchanges the original's header for `Forward`.
#[derive(Clone, Copy, Debug, PartialEq, Eq)]
pub enum StoplessMove {
    /// Stores the copy's header.
    Header(MoveTask),
    /// Stores the copy's address in the wide object.
    Address(MoveTask),
    /// Exchanges the original's header for `Wide`.
    Seal(MoveTask),
    /// Stores `Dead` in the copy's header: the exchange found this header in the original.
    GiveUp {
        task: MoveTask,
        header: u64,
    },
    /// Carries the value of a field to the copy.
    Carries {
        task: MoveTask,
        field: u32,
        carry: Carry,
    },
    /// Exchanges the original's header for `Forward`.
    Forward(MoveTask),
    Ended(MoveEnd),
}

/// The wide word of a field whose value is in the original.
const AT_REST: u64 = 0;

// The headers of a job, and `None` where its header is not one of a `Plain` object, or its copy or its wide
// object has no address of the table.
#[tactic(auto, unfolding(object_headers::specs::Headers::header_at))]
fn headers_of(job: &MoveJob) -> Option<MoveHeaders>
    ensures { result ≡ moves.headers_of job.now }
{
    let plain = Header::unpack(job.header)?;
    if plain.state != State::Plain || job.to >= ADDRESS_LIMIT || job.wide >= ADDRESS_LIMIT {
        return None;
    }
    let tagged = Header {
        state: State::Tagged,
        ..plain
    };
    let wide = Header {
        state: State::Wide,
        target: job.wide,
        ..plain
    };
    let forward = Header {
        state: State::Forward,
        target: job.to,
        ..plain
    };
    let dead = Header {
        state: State::Dead,
        ..plain
    };
    Some(MoveHeaders {
        tagged: tagged.pack(),
        wide: wide.pack(),
        forward: forward.pack(),
        plain: plain.pack(),
        dead: dead.pack(),
    })
}

// The address of a field's word after the header at this address. No object has more fields than the most.
fn word_at(at: u32, field: u32) -> u32
    ensures { result ≡ moves.word_at at field }
{
    at.min(ADDRESS_LIMIT) + 1 + field.min(MOST_FIELDS)
}

// With the fields below this one in the copy.
fn carried(task: MoveTask, field: u32) -> StoplessMove
    ensures { result ≡ moves.carried task field }
{
    if field < task.job.len {
        StoplessMove::Carries {
            task,
            field,
            carry: Carry::Ask,
        }
    } else {
        StoplessMove::Forward(task)
    }
}

// With this one in the copy, too.
fn finished(task: MoveTask, field: u32) -> StoplessMove
    ensures { result ≡ moves.finished task field }
{
    if field < task.job.len {
        carried(task, field + 1)
    } else {
        StoplessMove::Forward(task)
    }
}

// With the wide word of this field at hand.
fn asked(task: MoveTask, field: u32, found: u64) -> StoplessMove
    ensures { result ≡ moves.asked task field (wide_word_at found) }
{
    let carry = match wide_in(found) {
        WideWord {
            status: Status2::InOriginal,
            ..
        } => Carry::Load,
        WideWord {
            status: Status2::InWide,
            word,
        } => Carry::Store(word),
        WideWord {
            status: Status2::InCopy,
            ..
        } => return finished(task, field),
    };
    StoplessMove::Carries { task, field, carry }
}

// The carry of this field goes on so.
fn carried_on(task: MoveTask, field: u32, carry: Carry) -> StoplessMove
    ensures { result ≡ moves.carried_on task field carry }
{
    StoplessMove::Carries { task, field, carry }
}

// After a step of the carry of this field: an exchange that loses goes on with the wide word found.
fn carried_by(task: MoveTask, field: u32, carry: Carry, found: u64) -> StoplessMove
    ensures { result ≡ moves.carried_by task field carry found }
{
    match carry {
        Carry::Ask => asked(task, field, found),
        Carry::Load => carried_on(task, field, Carry::Widen(found)),
        Carry::Widen(word) if found == AT_REST => carried_on(task, field, Carry::Store(word)),
        Carry::Widen(_) => asked(task, field, found),
        Carry::Store(word) => carried_on(task, field, Carry::Finish(word)),
        Carry::Finish(word) if found == in_wide(word) => finished(task, field),
        Carry::Finish(_) => asked(task, field, found),
    }
}

impl Carry {
    // The step of the carry of this field.
    fn ask(self, job: &MoveJob, field: u32) -> Step
        ensures { result ≡ moves.carry_asks job.now field self }
    {
        match self {
            Carry::Ask => Step::Load {
                at: word_at(job.wide, field),
            },
            Carry::Load => Step::Load {
                at: word_at(job.from, field),
            },
            Carry::Widen(word) => Step::Exchange {
                at: word_at(job.wide, field),
                want: AT_REST,
                put: in_wide(word),
            },
            Carry::Store(word) => Step::Store {
                at: word_at(job.to, field),
                put: word,
            },
            Carry::Finish(word) => Step::Exchange {
                at: word_at(job.wide, field),
                want: in_wide(word),
                put: in_copy(word),
            },
        }
    }
}

impl StoplessMove {
    /// The move of one object. A job whose header is not one of a `Plain` object, or whose copy or wide
    /// object has no address of the table, moves nothing: it ends at once, with the job's header.
    pub fn new(job: MoveJob) -> StoplessMove
        ensures machine { result ≡ moves.begun job }

        // Whatever others do: it has moved the object where its last step exchanged the original's header,
        // which its exchange before made `Wide`, for `Forward`; and it has kept it where its exchange for
        // `Wide` lost to the header that the end tells, and its last step, after that, made the copy's header
        // `Dead`.
        ensures cause { EndsOnlyFor moves.asks_of moves.fed_of moves.end_of (MoveEnds job) result }
    {
        match headers_of(&job) {
            Some(headers) => StoplessMove::Header(MoveTask { job, headers }),
            None => StoplessMove::Ended(MoveEnd::Kept { header: job.header }),
        }
    }

    /// What the move ended with, and `None` before its end.
    pub fn end(&self) -> Option<MoveEnd>
        ensures value { result ≡ moves.end_of self.now }
        ensures ended { IsSome result ↔ (moves.asks_of self.now ≡ StepEnded) }
    {
        match *self {
            StoplessMove::Ended(end) => Some(end),
            _ => None,
        }
    }
}

impl Machine for StoplessMove {
    ghost asks = { moves.asks_of };

    ghost fed = { moves.fed_of };

    ghost blind = { moves.blind_of };

    fn ask(&self) -> Step {
        match *self {
            StoplessMove::Header(MoveTask { job, headers }) => Step::Store {
                at: job.to,
                put: headers.plain,
            },
            StoplessMove::Address(MoveTask { job, .. }) => Step::Store {
                at: job.wide,
                put: u64::from(job.to),
            },
            StoplessMove::Seal(MoveTask { job, headers }) => Step::Exchange {
                at: job.from,
                want: headers.tagged,
                put: headers.wide,
            },
            StoplessMove::GiveUp { task, .. } => Step::Store {
                at: task.job.to,
                put: task.headers.dead,
            },
            StoplessMove::Carries { task, field, carry } => carry.ask(&task.job, field),
            StoplessMove::Forward(MoveTask { job, headers }) => Step::Exchange {
                at: job.from,
                want: headers.wide,
                put: headers.forward,
            },
            StoplessMove::Ended(_) => Step::Ended,
        }
    }

    fn feed(&mut self, found: u64) {
        *self = match *self {
            StoplessMove::Header(task) => StoplessMove::Address(task),
            StoplessMove::Address(task) => StoplessMove::Seal(task),
            StoplessMove::Seal(task) if found == task.headers.tagged => carried(task, 0),
            StoplessMove::Seal(task) => StoplessMove::GiveUp {
                task,
                header: found,
            },
            StoplessMove::GiveUp { header, .. } => StoplessMove::Ended(MoveEnd::Kept { header }),
            StoplessMove::Carries { task, field, carry } => carried_by(task, field, carry, found),
            StoplessMove::Forward(_) => StoplessMove::Ended(MoveEnd::Moved),
            StoplessMove::Ended(end) => StoplessMove::Ended(end),
        };
    }
}
