//! The move of one object.

ghost use Rattle.std.specs.Prelude.{◌≡◌, ◌↔◌, IsSome};
ghost use Rattle.call_steps.specs.declared.step.Step.TheVariants.{Ended as StepEnded};
ghost use Rattle.call_steps.specs.Ending.{EndsOnlyFor};
ghost use Rattle.chicken_tags.specs.ChickenMoves as moves;
ghost use Rattle.chicken_tags.specs.MoveCauses.{MoveEnds};

use barriers::MoveEnd;
use call_steps::{Machine, Step};
use heap_words::{ADDRESS_LIMIT, MOST_FIELDS};
use object_headers::{Header, State};
use space_reclaim::MoveJob;

/// The words of the headers of an object that is moved: in the original `Tagged` and, with the copy's
/// address, `Forward`; in the copy `Plain` and `Dead`.
#[derive(Clone, Copy, Debug, PartialEq, Eq)]
pub struct MoveHeaders {
    pub tagged: u64,
    pub forward: u64,
    pub plain: u64,
    pub dead: u64,
}

/// Stores the copy's header, loads each field and stores it in the copy, and exchanges the original's
/// header, which is to be `Tagged` still, for `Forward`. Where that loses, a call has aborted the copy:
/// then the copy's header becomes `Dead`, and the object stays where it is.
#[derive(Clone, Copy, Debug, PartialEq, Eq)]
pub enum ChickenMove {
    /// Stores the copy's header.
    Header {
        job: MoveJob,
        headers: MoveHeaders,
    },
    /// Loads a field.
    Load {
        job: MoveJob,
        headers: MoveHeaders,
        field: u32,
    },
    /// Stores its word in the copy.
    Store {
        job: MoveJob,
        headers: MoveHeaders,
        field: u32,
        word: u64,
    },
    /// Exchanges the original's header.
    Forward {
        job: MoveJob,
        headers: MoveHeaders,
    },
    /// Stores `Dead` in the copy's header: the exchange found this header in the original.
    GiveUp {
        job: MoveJob,
        headers: MoveHeaders,
        header: u64,
    },
    Ended(MoveEnd),
}

// The headers of a job, and `None` where its header is not one of a `Plain` object, or its copy has no
// address of the table.
#[tactic(auto, unfolding(object_headers::specs::Headers::header_at))]
fn headers_of(job: &MoveJob) -> Option<MoveHeaders>
    ensures { result ≡ moves.headers_of job.now }
{
    let plain = Header::unpack(job.header)?;
    if plain.state != State::Plain || job.to >= ADDRESS_LIMIT {
        return None;
    }
    let tagged = Header {
        state: State::Tagged,
        ..plain
    };
    let forward = Header {
        state: State::Forward,
        target: job.to,
        ..plain
    };
    let dead = Header {
        state: State::Dead,
        ..plain
    };
    Some(MoveHeaders {
        tagged: tagged.pack(),
        forward: forward.pack(),
        plain: plain.pack(),
        dead: dead.pack(),
    })
}

// The address of a field's word after the header at this address. No object has more fields than the most.
fn word_at(at: u32, field: u32) -> u32
    ensures { result ≡ moves.word_at at field }
{
    at.min(ADDRESS_LIMIT) + 1 + field.min(MOST_FIELDS)
}

// With the fields below this one copied.
fn copied(job: MoveJob, headers: MoveHeaders, field: u32) -> ChickenMove
    ensures { result ≡ moves.copied job headers field }
{
    if field < job.len {
        ChickenMove::Load {
            job,
            headers,
            field,
        }
    } else {
        ChickenMove::Forward { job, headers }
    }
}

// With this field copied, too.
fn stored(job: MoveJob, headers: MoveHeaders, field: u32) -> ChickenMove
    ensures { result ≡ moves.stored job headers field }
{
    if field < job.len {
        copied(job, headers, field + 1)
    } else {
        ChickenMove::Forward { job, headers }
    }
}

impl ChickenMove {
    /// The move of one object. A job whose header is not one of a `Plain` object, or whose copy has no
    /// address of the table, moves nothing: it ends at once, with the job's header.
    pub fn new(job: MoveJob) -> ChickenMove
        ensures machine { result ≡ moves.begun job }

        // Whatever others do: it has moved the object where its last step exchanged the original's header,
        // `Tagged` until then, for `Forward`; and it has kept it where that exchange lost to the header that
        // the end tells, and its last step, after that, made the copy's header `Dead`.
        ensures cause { EndsOnlyFor moves.asks_of moves.fed_of moves.end_of (MoveEnds job) result }
    {
        match headers_of(&job) {
            Some(headers) => ChickenMove::Header { job, headers },
            None => ChickenMove::Ended(MoveEnd::Kept { header: job.header }),
        }
    }

    /// What the move ended with, and `None` before its end.
    pub fn end(&self) -> Option<MoveEnd>
        ensures value { result ≡ moves.end_of self.now }
        ensures ended { IsSome result ↔ (moves.asks_of self.now ≡ StepEnded) }
    {
        match *self {
            ChickenMove::Ended(end) => Some(end),
            _ => None,
        }
    }
}

impl Machine for ChickenMove {
    ghost asks = { moves.asks_of };

    ghost fed = { moves.fed_of };

    ghost blind = { moves.blind_of };

    fn ask(&self) -> Step {
        match *self {
            ChickenMove::Header { job, headers } => Step::Store {
                at: job.to,
                put: headers.plain,
            },
            ChickenMove::Load { job, field, .. } => Step::Load {
                at: word_at(job.from, field),
            },
            ChickenMove::Store {
                job,
                field,
                word,
                ..
            } => Step::Store {
                at: word_at(job.to, field),
                put: word,
            },
            ChickenMove::Forward { job, headers } => Step::Exchange {
                at: job.from,
                want: headers.tagged,
                put: headers.forward,
            },
            ChickenMove::GiveUp { job, headers, .. } => Step::Store {
                at: job.to,
                put: headers.dead,
            },
            ChickenMove::Ended(_) => Step::Ended,
        }
    }

    fn feed(&mut self, found: u64) {
        *self = match *self {
            ChickenMove::Header { job, headers } => copied(job, headers, 0),
            ChickenMove::Load {
                job,
                headers,
                field,
            } => ChickenMove::Store {
                job,
                headers,
                field,
                word: found,
            },
            ChickenMove::Store {
                job,
                headers,
                field,
                ..
            } => stored(job, headers, field),
            ChickenMove::Forward { headers, .. } if found == headers.tagged => {
                ChickenMove::Ended(MoveEnd::Moved)
            }
            ChickenMove::Forward { job, headers } => ChickenMove::GiveUp {
                job,
                headers,
                header: found,
            },
            ChickenMove::GiveUp { header, .. } => ChickenMove::Ended(MoveEnd::Kept { header }),
            ChickenMove::Ended(end) => ChickenMove::Ended(end),
        };
    }
}
