//! The walk over all regions, and what each of its steps tells.

ghost use Rattle.std.specs.Prelude.{◌≡◌, ◌≢◌, ◌*◌, ◌^◌, ◌<◌, ◌≤◌, ◌↔◌, IsSome, IfSome, Some, None, if◌then◌else◌};
ghost use Rattle.heap_words.specs.Layouts.{regions_of};
ghost use Rattle.heap_words.specs.declared.limits.TheConstants.{ADDRESS_LIMIT, MOST_FIELDS};
ghost use Rattle.object_headers.specs.Headers.{header_at};
ghost use Rattle.call_steps.specs.declared.step.Step.TheVariants.{Load, Ended as StepEnded};
ghost use Rattle.live_walk.specs.Walks as walks;
ghost use Rattle.live_walk.specs.Passing.{PassesBelow};
ghost use Rattle.live_walk.specs.StillWords.{NotesWhatIsLive};

use call_steps::{CallMachine, Machine, Step};
use heap_words::{ADDRESS_LIMIT, Layout, REGION_WORDS};
use object_headers::{Header, State};
use space_reclaim::{ObjectRow, RegionLive};

/// Where the regions are.
#[derive(Clone, Copy, Debug, PartialEq, Eq)]
pub struct Walk {
    /// The address of the word of region 0.
    pub words_at: u32,
    /// The address of the first word in region 0.
    pub first_at: u32,
    /// How many regions there are.
    pub regions: u16,
    /// How many of them are of the pool: those from region 0 on.
    pub pool: u16,
}

/// Walks all regions in rising number. Of each it loads the region word, and passes over a Free one; in any other it
/// loads header after header, until one says that no object is there, or the region ends. A word of no header ends a
/// region, and so does that of an object that would reach past it.
#[derive(Clone, Copy, Debug, PartialEq, Eq)]
pub enum NoteMachine {
    /// Loads the word of a region.
    Region {
        walk: Walk,
        region: u16,
    },
    /// Loads a header, before which there are `offset` words of the region. `live` is how many words the live
    /// objects before it take, where the region was Filled, and `None` where it was not.
    Header {
        walk: Walk,
        region: u16,
        offset: u16,
        live: Option<u16>,
    },
    Ended {
        walk: Walk,
    },
}

/// What one step of the walk tells.
#[derive(Clone, Copy, Debug, PartialEq, Eq)]
pub struct Finding {
    /// A region of the pool that is Free.
    pub free: Option<u32>,
    /// A live object in a region that was Filled: one that is neither `Dead` nor `Absent`.
    pub object: Option<ObjectRow>,
    /// A region that was Filled and that has been walked to its end, with the words of its live objects, also where
    /// it has none.
    pub region: Option<RegionLive>,
}

/// The word of a region that is Free.
const FREE: u64 = 0;

/// The word of a region that is Filled.
const FILLED: u64 = 2;

impl Walk {
    // The address of the word of a region.
    fn word_of(&self, region: u16) -> u32
        ensures { result ≡ walks.word_of self.now region }
    {
        self.words_at.min(ADDRESS_LIMIT) + u32::from(region)
    }

    // The address of a word of a region.
    fn address(&self, region: u16, offset: u16) -> u32
        ensures { result ≡ walks.address self.now region offset }
    {
        self.first_at.min(ADDRESS_LIMIT) + REGION_WORDS * u32::from(region) + u32::from(offset)
    }
}

// The header of the object that begins at such a word of a region, and `None` where none does.
#[tactic(auto, unfolding(object_headers::specs::Headers::header_at))]
fn header_in(offset: u16, word: u64) -> Option<Header>
    ensures { result ≡ if walks.begins offset word then Some (header_at word) else None }
{
    let header = Header::unpack(word)?;
    let end = u32::from(offset) + 1 + header.len;
    if header.state == State::Absent || end > REGION_WORDS {
        None
    } else {
        Some(header)
    }
}

// The header of the live object that begins there.
fn live_in(offset: u16, word: u64) -> Option<Header>
    ensures { result ≡ if walks.is_live_at offset word then Some (header_at word) else None }
{
    let header = header_in(offset, word)?;
    if header.state == State::Dead {
        None
    } else {
        Some(header)
    }
}

// How many words the live objects take with the one that begins there, if one does.
fn counted(offset: u16, word: u64, live: u16) -> u16
    ensures { result ≡ walks.counted offset word live }
{
    match live_in(offset, word) {
        Some(header) => live.min(REGION_WORDS as u16) + header.len as u16 + 1,
        None => live,
    }
}

// Where the next header of the region stands, and `None` where it has been walked to its end.
fn next_offset(offset: u16, word: u64) -> Option<u16>
    ensures { result ≡ if walks.goes_on offset word then Some (walks.offset_after offset word) else None }
{
    let header = header_in(offset, word)?;
    let next = u32::from(offset) + 1 + header.len;
    if next < REGION_WORDS {
        Some(next as u16)
    } else {
        None
    }
}

// After a region.
fn next_region(walk: Walk, region: u16) -> NoteMachine
    ensures { result ≡ walks.next_region walk region }
{
    if u32::from(region) + 1 < u32::from(walk.regions) {
        NoteMachine::Region {
            walk,
            region: region + 1,
        }
    } else {
        NoteMachine::Ended { walk }
    }
}

// With a word at hand where a header may stand.
fn with_header(walk: Walk, region: u16, offset: u16, live: Option<u16>, word: u64) -> NoteMachine
    ensures { result ≡ walks.with_header walk region offset live word }
{
    match next_offset(offset, word) {
        Some(next) => NoteMachine::Header {
            walk,
            region,
            offset: next,
            live: match live {
                Some(words) => Some(counted(offset, word, words)),
                None => None,
            },
        },
        None => next_region(walk, region),
    }
}

impl NoteMachine {
    /// The walk over all regions of a layout.
    pub fn new(layout: &Layout) -> NoteMachine
        ensures machine { result ≡ walks.begun layout.now }

        // Whatever words it finds: it ends after at most 65 steps for each region.
        ensures bound { walks.left_of result ≡ 65 * regions_of layout.now }

        // Whatever others do: each address below its cursor was passed by one of its steps. It is one of a Free
        // region, one in an object whose header it found there, or one after the last object of a region.
        ensures passes { PassesBelow result }

        // Alone on words it notes exactly what they have.
        ensures alone { NotesWhatIsLive layout.now }
    {
        let regions = layout.regions() as u16;
        let walk = Walk {
            words_at: layout.region_at(0),
            first_at: layout.first_word(0),
            regions,
            pool: layout.pool() as u16,
        };
        NoteMachine::Region { walk, region: 0 }
    }

    /// What its next step tells, where it finds this word.
    pub fn finding(&self, found: u64) -> Finding
        ensures value { result ≡ walks.finding_of self.now found }

        // An object that it tells of has the header that the step finds, at the address that it loads.
        ensures object { IfSome result.object (λ o. (walks.asks_of self.now ≡ Load o.at) × (o.header ≡ found)) }
    {
        match *self {
            NoteMachine::Region { walk, region } => Finding {
                free: if found == FREE && region < walk.pool {
                    Some(u32::from(region))
                } else {
                    None
                },
                object: None,
                region: None,
            },
            NoteMachine::Header {
                walk,
                region,
                offset,
                live: Some(words),
            } => Finding {
                free: None,
                object: object_at(walk, region, offset, found),
                region: region_at(region, offset, words, found),
            },
            _ => Finding {
                free: None,
                object: None,
                region: None,
            },
        }
    }

    /// Whether it has ended: `Some(())` where it has.
    pub fn end(&self) -> Option<()>
        ensures { IsSome result ↔ (walks.asks_of self.now ≡ StepEnded) }
    {
        match *self {
            NoteMachine::Ended { .. } => Some(()),
            _ => None,
        }
    }
}

// The row of the live object that begins at such a word of a region.
fn object_at(walk: Walk, region: u16, offset: u16, word: u64) -> Option<ObjectRow>
    ensures { result ≡ walks.object_at walk region offset word }
{
    let header = live_in(offset, word)?;
    Some(ObjectRow {
        region: u32::from(region),
        birth: header.birth,
        at: walk.address(region, offset),
        len: header.len,
        header: word,
    })
}

// The row of a region that ends with the object at such a word.
fn region_at(region: u16, offset: u16, live: u16, word: u64) -> Option<RegionLive>
    ensures { result ≡ walks.region_at_end region offset live word }
{
    match next_offset(offset, word) {
        Some(_) => None,
        None => Some(RegionLive {
            region: u32::from(region),
            words: u32::from(counted(offset, word, live)),
        }),
    }
}

impl Machine for NoteMachine {
    ghost asks = { walks.asks_of };

    ghost fed = { walks.fed_of };

    ghost blind = { walks.blind_of };

    fn ask(&self) -> Step {
        match *self {
            NoteMachine::Region { walk, region } => Step::Load {
                at: walk.word_of(region),
            },
            NoteMachine::Header {
                walk,
                region,
                offset,
                ..
            } => Step::Load {
                at: walk.address(region, offset),
            },
            NoteMachine::Ended { .. } => Step::Ended,
        }
    }

    fn feed(&mut self, found: u64) {
        *self = match *self {
            NoteMachine::Region { walk, region } if found == FREE => next_region(walk, region),
            NoteMachine::Region { walk, region } => NoteMachine::Header {
                walk,
                region,
                offset: 0,
                live: if found == FILLED { Some(0) } else { None },
            },
            NoteMachine::Header {
                walk,
                region,
                offset,
                live,
            } => with_header(walk, region, offset, live, found),
            NoteMachine::Ended { walk } => NoteMachine::Ended { walk },
        };
    }
}

// How many regions come after this one.
fn regions_after(walk: Walk, region: u16) -> u32
    ensures value { result ≡ walks.regions_after walk region }
    ensures few { result < 2 ^ 16 }
{
    u32::from(walk.regions).saturating_sub(u32::from(region) + 1)
}

impl CallMachine for NoteMachine {
    ghost steps_left = { walks.left_of };

    ghost none_left = { walks.none_left };

    ghost some_left = { walks.some_left };

    ghost falls = { walks.falls };

    fn left(&self) -> u32 {
        match *self {
            NoteMachine::Region { walk, region } => 65 * regions_after(walk, region) + 65,
            NoteMachine::Header {
                walk,
                region,
                offset,
                ..
            } => 65 * regions_after(walk, region) + 1 + 63u32.saturating_sub(u32::from(offset)),
            NoteMachine::Ended { .. } => 0,
        }
    }
}
