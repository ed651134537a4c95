//! The move of one object.

ghost use Rattle.std.specs.Prelude.{◌≡◌, ◌↔◌, IsSome};
ghost use Rattle.call_steps.specs.declared.step.Step.TheVariants.{Ended as StepEnded};
ghost use Rattle.call_steps.specs.Ending.{EndsOnlyFor};
ghost use Rattle.clover_marks.specs.CloverMoves as moves;
ghost use Rattle.clover_marks.specs.MoveCauses.{MoveEnds};

use barriers::MoveEnd;
use call_steps::{Machine, Step};
use heap_words::{ADDRESS_LIMIT, MOST_FIELDS};
use object_headers::{Header, State};
use space_reclaim::MoveJob;

/// The words of the headers of an object that is moved: `Plain`, in the original and in the copy, and in
/// the original, with the copy's address, `Moving` and `Forward`.
#[derive(Clone, Copy, Debug, PartialEq, Eq)]
pub struct MoveHeaders {
    pub plain: u64,
    pub moving: u64,
    pub forward: u64,
}

/// The move of one object in a cycle with this mark.
#[derive(Clone, Copy, Debug, PartialEq, Eq)]
pub struct Relocation {
    pub job: MoveJob,
    pub headers: MoveHeaders,
    pub mark: u64,
}

/// Stores the copy's header, and exchanges the original's, which is `Plain`, for `Moving`. Then, field by
/// field, it loads the word, stores it in the copy, and exchanges it in the original for the mark. Where
/// that loses, it goes on with the word found. At last it exchanges the original's header for `Forward`.
/// The two exchanges of the header never lose, since nobody else changes it.
#[derive(Clone, Copy, Debug, PartialEq, Eq)]
pub enum CloverMove {
    /// Stores the copy's header.
    Header(Relocation),
    /// Exchanges the original's header for `Moving`.
    Start(Relocation),
    /// Loads a field.
    Load {
        relocation: Relocation,
        field: u32,
    },
    /// Stores its word in the copy.
    Store {
        relocation: Relocation,
        field: u32,
        word: u64,
    },
    /// Exchanges the word in the original for the mark.
    Mark {
        relocation: Relocation,
        field: u32,
        word: u64,
    },
    /// Exchanges the original's header for `Forward`.
    Forward(Relocation),
    Ended(MoveEnd),
}

// The headers of a job, and `None` where its header is not one of a `Plain` object, or its copy has no
// address of the table.
#[tactic(auto, unfolding(object_headers::specs::Headers::header_at))]
fn headers_of(job: &MoveJob) -> Option<MoveHeaders>
    ensures { result ≡ moves.headers_of job.now }
{
    let plain = Header::unpack(job.header)?;
    if plain.state != State::Plain || job.to >= ADDRESS_LIMIT {
        return None;
    }
    let moving = Header {
        state: State::Moving,
        target: job.to,
        ..plain
    };
    let forward = Header {
        state: State::Forward,
        target: job.to,
        ..plain
    };
    Some(MoveHeaders {
        plain: plain.pack(),
        moving: moving.pack(),
        forward: forward.pack(),
    })
}

// The address of a field's word after the header at this address. No object has more fields than the most.
fn word_at(at: u32, field: u32) -> u32
    ensures { result ≡ moves.word_at at field }
{
    at.min(ADDRESS_LIMIT) + 1 + field.min(MOST_FIELDS)
}

// With the fields below this one moved.
fn moved_to(relocation: Relocation, field: u32) -> CloverMove
    ensures { result ≡ moves.moved_to relocation field }
{
    if field < relocation.job.len {
        CloverMove::Load { relocation, field }
    } else {
        CloverMove::Forward(relocation)
    }
}

// With this field moved, too.
fn marked(relocation: Relocation, field: u32) -> CloverMove
    ensures { result ≡ moves.marked relocation field }
{
    if field < relocation.job.len {
        moved_to(relocation, field + 1)
    } else {
        CloverMove::Forward(relocation)
    }
}

impl CloverMove {
    /// The move of one object, in a cycle with this mark. A job whose header is not one of a `Plain`
    /// object, or whose copy has no address of the table, moves nothing: it ends at once, with the job's
    /// header. No other move ends so.
    pub fn new(job: MoveJob, mark: u64) -> CloverMove
        ensures machine { result ≡ moves.begun job mark }

        // Whatever others do: it has moved the object where its last step was the exchange of the original's
        // header, `Moving`, for `Forward`, after as many exchanges of a field's word for the mark that won as
        // the object has fields, one at each; and no step of it ends otherwise.
        ensures cause { EndsOnlyFor moves.asks_of moves.fed_of moves.end_of (MoveEnds job mark) result }
    {
        match headers_of(&job) {
            Some(headers) => CloverMove::Header(Relocation { job, headers, mark }),
            None => CloverMove::Ended(MoveEnd::Kept { header: job.header }),
        }
    }

    /// What the move ended with, and `None` before its end.
    pub fn end(&self) -> Option<MoveEnd>
        ensures value { result ≡ moves.end_of self.now }
        ensures ended { IsSome result ↔ (moves.asks_of self.now ≡ StepEnded) }
    {
        match *self {
            CloverMove::Ended(end) => Some(end),
            _ => None,
        }
    }
}

impl Machine for CloverMove {
    ghost asks = { moves.asks_of };

    ghost fed = { moves.fed_of };

    ghost blind = { moves.blind_of };

    fn ask(&self) -> Step {
        match *self {
            CloverMove::Header(Relocation { job, headers, .. }) => Step::Store {
                at: job.to,
                put: headers.plain,
            },
            CloverMove::Start(Relocation { job, headers, .. }) => Step::Exchange {
                at: job.from,
                want: headers.plain,
                put: headers.moving,
            },
            CloverMove::Load { relocation, field } => Step::Load {
                at: word_at(relocation.job.from, field),
            },
            CloverMove::Store {
                relocation,
                field,
                word,
            } => Step::Store {
                at: word_at(relocation.job.to, field),
                put: word,
            },
            CloverMove::Mark {
                relocation,
                field,
                word,
            } => Step::Exchange {
                at: word_at(relocation.job.from, field),
                want: word,
                put: relocation.mark,
            },
            CloverMove::Forward(Relocation { job, headers, .. }) => Step::Exchange {
                at: job.from,
                want: headers.moving,
                put: headers.forward,
            },
            CloverMove::Ended(_) => Step::Ended,
        }
    }

    fn feed(&mut self, found: u64) {
        *self = match *self {
            CloverMove::Header(relocation) => CloverMove::Start(relocation),
            CloverMove::Start(relocation) => moved_to(relocation, 0),
            CloverMove::Load { relocation, field } => CloverMove::Store {
                relocation,
                field,
                word: found,
            },
            CloverMove::Store {
                relocation,
                field,
                word,
            } => CloverMove::Mark {
                relocation,
                field,
                word,
            },
            CloverMove::Mark {
                relocation,
                field,
                word,
            } if found == word => marked(relocation, field),
            CloverMove::Mark {
                relocation,
                field,
                ..
            } => CloverMove::Store {
                relocation,
                field,
                word: found,
            },
            CloverMove::Forward(_) => CloverMove::Ended(MoveEnd::Moved),
            CloverMove::Ended(end) => CloverMove::Ended(end),
        };
    }
}
