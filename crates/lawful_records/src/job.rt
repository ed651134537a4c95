//! What the first cycle moves, until cycles are planned: the object that is there from the start, from the first word of
//! region 0 to the first word of region 1.

ghost use Rattle.std.specs.Prelude.{◌≡◌, IfOk};
ghost use Rattle.object_headers.specs.Changes.{does_move as does_move_by};
ghost use Rattle.lawful_records.specs.Jobs.{has_wide_room as has_room, has_job as has_job_in, first_plan as first_plan_of, tagged_word as tagged_word_of, is_tagged as is_tagged_word, does_seal as does_seal_by};

use call_steps::{OutOfMemory, Step};
use heap_words::Layout;
use object_headers::{Colour, Header, Kind, State};
use space_reclaim::{MoveJob, ObjectRow, Plan, RegionLive};
use std::alloc::Global;

/// The header of the object that is there from the start.
pub const COMMON: Header = Header {
    state: State::Plain,
    colour: Colour::Even,
    len: 8,
    birth: 1,
    target: 0,
};

/// The region that is emptied: it has the common object alone.
pub const EMPTIED: u32 = 0;

/// The region to which that object is copied.
pub const FILLED: u32 = 1;

/// The words of its wide object: the copy's address, and a word for each field.
pub const WIDE_WORDS: u32 = COMMON.len + 1;

/// Whether a copier of this kind moves objects.
fn does_move(kind: Kind) -> bool
    ensures { result ≡ does_move_by kind }
{
    !matches!(kind, Kind::AtRest)
}

/// Whether the wide area has room for its wide object, if it is to have one.
fn has_wide_room(layout: &Layout, kind: Kind) -> bool
    ensures { result ≡ has_room kind layout.now }
{
    match kind {
        Kind::Stopless => layout.wide() >= WIDE_WORDS,
        Kind::AtRest | Kind::Chicken | Kind::Clover => true,
    }
}

/// Whether a copier of this kind moves that object: the pool has a second region, and the wide area room.
fn has_job(layout: &Layout, kind: Kind) -> bool
    ensures { result ≡ has_job_in kind layout.now }
{
    does_move(kind) && layout.pool() >= 2 && has_wide_room(layout, kind)
}

/// The plan of the first cycle: to move that object, where the pool has a second region and the wide area has room.
pub fn first_plan(alloc: Global, layout: &Layout, kind: Kind) -> Result<Plan, OutOfMemory>
    ensures { IfOk result (λ plan. plan ≡ first_plan_of kind layout.now) }
{
    let mut plan = Plan::with_room(alloc, layout)?;
    if has_job(layout, kind) {
        plan.fill(
            &[RegionLive {
                region: EMPTIED,
                words: COMMON.len + 1,
            }],
            &[ObjectRow {
                region: EMPTIED,
                birth: COMMON.birth,
                at: layout.first_word(EMPTIED),
                len: COMMON.len,
                header: COMMON.pack(),
            }],
            &[FILLED],
            layout.wide(),
            kind,
        );
    }
    Ok(plan)
}

/// The word of the same header when it is Tagged; any word but that of a Plain header stays what it is.
#[tactic(auto, unfolding(object_headers::specs::Headers::header_at))]
pub fn tagged_word(word: u64) -> u64
    ensures { result ≡ tagged_word_of word }
{
    match Header::unpack(word) {
        Some(header) if header.state == State::Plain => {
            let tagged = Header {
                state: State::Tagged,
                ..header
            };
            tagged.pack()
        }
        _ => word,
    }
}

/// Whether it is the word of a Tagged header.
#[tactic(auto, unfolding(object_headers::specs::Headers::header_at))]
fn is_tagged(word: u64) -> bool
    ensures { result ≡ is_tagged_word word }
{
    match Header::unpack(word) {
        Some(header) => header.state == State::Tagged,
        None => false,
    }
}

/// Whether this step of a mover seals the object at this address, where it finds this word: an exchange of its Tagged
/// header that wins.
pub fn does_seal(at: u32, step: Step, found: u64) -> bool
    ensures { result ≡ does_seal_by at step found }
{
    match step {
        Step::Exchange {
            at: place,
            want,
            ..
        } => place == at && found == want && is_tagged(found),
        _ => false,
    }
}
