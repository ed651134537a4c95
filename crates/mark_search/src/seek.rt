//! The search for a field that holds a mark as a value.

ghost use Rattle.std.specs.Prelude.{◌≡◌, ◌*◌, ◌<◌, ◌↔◌, IsSome};
ghost use Rattle.heap_words.specs.declared.limits.TheConstants.{ADDRESS_LIMIT};
ghost use Rattle.call_steps.specs.declared.step.Step.TheVariants.{Ended as StepEnded};
ghost use Rattle.mark_search.specs.Seeks as seeks;
ghost use Rattle.mark_search.specs.SeekRuns.{EndsAtFirst, PassesBelow};

use call_steps::{Machine, Step};
use heap_words::{ADDRESS_LIMIT, Layout, REGION_WORDS};
use object_headers::{Header, State};

/// What is sought, and where the regions are.
#[derive(Clone, Copy, Debug, PartialEq, Eq)]
pub struct Search {
    /// The word that is sought.
    pub candidate: u64,
    /// The address of the word of region 0.
    pub words_at: u32,
    /// The address of the first word in region 0.
    pub first_at: u32,
    /// How many regions there are.
    pub regions: u16,
}

/// Where a header stands: its region, and how many words of the region come before it.
#[derive(Clone, Copy, Debug, PartialEq, Eq)]
pub struct Cursor {
    pub region: u16,
    pub offset: u16,
}

/// The first field that held the mark: the address of its object, and its number.
#[derive(Clone, Copy, Debug, PartialEq, Eq)]
pub struct MarkFound {
    pub at: u32,
    pub field: u32,
}

/// How a search ends.
#[derive(Clone, Copy, Debug, PartialEq, Eq)]
pub enum SeekEnd {
    /// No field held the candidate when it was loaded.
    Clear,
    /// This one did, and none before it.
    MarkFound(MarkFound),
}

/// Loads the fields of all objects that are neither `Dead` nor `Absent`, in rising address, region after
/// region, until one holds the candidate. Of a region it loads the region word first, and passes over a
/// Free one; then header after header until one says that no object is there, or the region ends; and the
/// fields of an object directly after its header.
#[derive(Clone, Copy, Debug, PartialEq, Eq)]
pub enum SeekMarkMachine {
    /// Loads the word of a region.
    Region {
        search: Search,
        region: u16,
    },
    /// Loads a header.
    Header {
        search: Search,
        cursor: Cursor,
    },
    /// Loads a field of the object at the cursor, which has `len` of them.
    Field {
        search: Search,
        cursor: Cursor,
        len: u16,
        field: u16,
    },
    Ended {
        search: Search,
        end: SeekEnd,
    },
}

/// The word of a region that is Free.
const FREE: u64 = 0;

impl Search {
    // The address of the word of a region.
    fn word_of(&self, region: u16) -> u32
        ensures { result ≡ seeks.word_of self.now region }
    {
        self.words_at.min(ADDRESS_LIMIT) + u32::from(region)
    }

    // The address at a cursor.
    fn address(&self, cursor: Cursor) -> u32
        ensures value { result ≡ seeks.address self.now cursor }
        ensures small { result < 8 * ADDRESS_LIMIT }
    {
        self.first_at.min(ADDRESS_LIMIT)
            + REGION_WORDS * u32::from(cursor.region)
            + u32::from(cursor.offset)
    }
}

// After the last object of a region.
fn next_region(search: Search, region: u16) -> SeekMarkMachine
    ensures { result ≡ seeks.next_region search region }
{
    if u32::from(region) + 1 < u32::from(search.regions) {
        SeekMarkMachine::Region {
            search,
            region: region + 1,
        }
    } else {
        SeekMarkMachine::Ended {
            search,
            end: SeekEnd::Clear,
        }
    }
}

// After an object of this length: where the region has not ended, a header comes.
fn next_object(search: Search, cursor: Cursor, len: u16) -> SeekMarkMachine
    ensures { result ≡ seeks.next_object search cursor len }
{
    let offset = u32::from(cursor.offset) + 1 + u32::from(len);
    if offset < REGION_WORDS {
        let cursor = Cursor {
            region: cursor.region,
            offset: offset as u16,
        };
        SeekMarkMachine::Header { search, cursor }
    } else {
        next_region(search, cursor.region)
    }
}

// With the fields before this one loaded.
fn next_field(search: Search, cursor: Cursor, len: u16, field: u16) -> SeekMarkMachine
    ensures { result ≡ seeks.next_field search cursor len field }
{
    if field < len {
        SeekMarkMachine::Field {
            search,
            cursor,
            len,
            field,
        }
    } else {
        next_object(search, cursor, len)
    }
}

// With this field loaded, too.
fn after_field(search: Search, cursor: Cursor, len: u16, field: u16) -> SeekMarkMachine
    ensures { result ≡ seeks.after_field search cursor len field }
{
    if field < len {
        next_field(search, cursor, len, field + 1)
    } else {
        next_object(search, cursor, len)
    }
}

// With a header's word at hand. No header's word but that of no object ends a region, too.
#[tactic(auto, unfolding(object_headers::specs::Headers::header_at))]
fn with_header(search: Search, cursor: Cursor, word: u64) -> SeekMarkMachine
    ensures { result ≡ seeks.with_header search cursor word }
{
    let Some(header) = Header::unpack(word) else {
        return next_region(search, cursor.region);
    };
    let len = header.len as u16;
    match header.state {
        State::Absent => next_region(search, cursor.region),
        State::Dead => next_object(search, cursor, len),
        _ => next_field(search, cursor, len, 0),
    }
}

impl SeekMarkMachine {
    /// The search of all regions for this word.
    pub fn new(layout: &Layout, candidate: u64) -> SeekMarkMachine
        ensures machine { result ≡ seeks.begun layout.now candidate }

        // Whatever others do: it ends clear only where no field held the word when it was loaded, and with a
        // place only where its last step found the word in that field, and no field before it held the word.
        ensures first { EndsAtFirst candidate result }

        // Where each object that it comes to is inside its region: each address below its cursor was passed
        // by one of its steps. It is one of a Free region, of a header, of a dead object, one after the last
        // object of its region, or one of a field that held another word when it was loaded.
        ensures passes { PassesBelow result }
    {
        let regions = layout.regions() as u16;
        let search = Search {
            candidate,
            words_at: layout.region_at(0),
            first_at: layout.first_word(0),
            regions,
        };
        SeekMarkMachine::Region { search, region: 0 }
    }

    /// How the search ended, and `None` before its end.
    pub fn end(&self) -> Option<SeekEnd>
        ensures value { result ≡ seeks.end_of self.now }
        ensures ended { IsSome result ↔ (seeks.asks_of self.now ≡ StepEnded) }
    {
        match *self {
            SeekMarkMachine::Ended { end, .. } => Some(end),
            _ => None,
        }
    }
}

impl Machine for SeekMarkMachine {
    ghost asks = { seeks.asks_of };

    ghost fed = { seeks.fed_of };

    ghost blind = { seeks.blind_of };

    fn ask(&self) -> Step {
        match *self {
            SeekMarkMachine::Region { search, region } => Step::Load {
                at: search.word_of(region),
            },
            SeekMarkMachine::Header { search, cursor } => Step::Load {
                at: search.address(cursor),
            },
            SeekMarkMachine::Field {
                search,
                cursor,
                field,
                ..
            } => Step::Load {
                at: search.address(cursor) + 1 + u32::from(field),
            },
            SeekMarkMachine::Ended { .. } => Step::Ended,
        }
    }

    fn feed(&mut self, found: u64) {
        *self = match *self {
            SeekMarkMachine::Region { search, region } if found == FREE => {
                next_region(search, region)
            }
            SeekMarkMachine::Region { search, region } => SeekMarkMachine::Header {
                search,
                cursor: Cursor { region, offset: 0 },
            },
            SeekMarkMachine::Header { search, cursor } => with_header(search, cursor, found),
            SeekMarkMachine::Field {
                search,
                cursor,
                field,
                ..
            } if found == search.candidate => {
                let found = MarkFound {
                    at: search.address(cursor),
                    field: u32::from(field),
                };
                SeekMarkMachine::Ended {
                    search,
                    end: SeekEnd::MarkFound(found),
                }
            }
            SeekMarkMachine::Field {
                search,
                cursor,
                len,
                field,
            } => after_field(search, cursor, len, field),
            SeekMarkMachine::Ended { search, end } => SeekMarkMachine::Ended { search, end },
        };
    }
}
