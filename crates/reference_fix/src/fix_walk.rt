//! The walk that fixes the fields of all objects.

ghost use Rattle.std.specs.Prelude.{◌≡◌, ◌*◌, ◌<◌, ◌↔◌, IsSome};
ghost use Rattle.heap_words.specs.Layouts.{regions_of};
ghost use Rattle.heap_words.specs.declared.limits.TheConstants.{ADDRESS_LIMIT};
ghost use Rattle.call_steps.specs.declared.step.Step.TheVariants.{Ended as StepEnded};
ghost use Rattle.reference_fix.specs.FixWalks as walks;
ghost use Rattle.reference_fix.specs.FixWalkRuns.{FixesLinks, PassesBelow, EndsWithin};

use crate::field_fix::FixMachine;
use call_steps::{Machine, Step};
use heap_words::{ADDRESS_LIMIT, Layout, REGION_WORDS};
use object_headers::{Header, State};

/// Where the regions are.
#[derive(Clone, Copy, Debug, PartialEq, Eq)]
pub struct Area {
    /// The address of the word of region 0.
    pub words_at: u32,
    /// The address of the first word in region 0.
    pub first_at: u32,
    /// How many regions there are.
    pub regions: u16,
}

/// Where a header stands: its region, and how many words of the region come before it.
#[derive(Clone, Copy, Debug, PartialEq, Eq)]
pub struct Cursor {
    pub region: u16,
    pub offset: u16,
}

/// Fixes the fields of all objects that are `Plain` or `Kept`, in rising address, region after region. Of a
/// region it loads the region word first, and passes over a Free one; then header after header until one says
/// that no object is there, or the region ends; and directly after the header of such an object it fixes each
/// of its fields in turn.
#[derive(Clone, Copy, Debug, PartialEq, Eq)]
pub enum FixWalkMachine {
    /// Loads the word of a region.
    Region {
        area: Area,
        region: u16,
    },
    /// Loads a header.
    Header {
        area: Area,
        cursor: Cursor,
    },
    /// Fixes a field of the object at the cursor, which has `len` of them, by this machine.
    Field {
        area: Area,
        cursor: Cursor,
        len: u16,
        field: u16,
        machine: FixMachine,
    },
    Ended(Area),
}

/// The word of a region that is Free.
const FREE: u64 = 0;

impl Area {
    // The address of the word of a region.
    fn word_of(&self, region: u16) -> u32
        ensures { result ≡ walks.word_of self.now region }
    {
        self.words_at.min(ADDRESS_LIMIT) + u32::from(region)
    }

    // The address at a cursor.
    fn address(&self, cursor: Cursor) -> u32
        ensures value { result ≡ walks.address self.now cursor }
        ensures small { result < 8 * ADDRESS_LIMIT }
    {
        self.first_at.min(ADDRESS_LIMIT)
            + REGION_WORDS * u32::from(cursor.region)
            + u32::from(cursor.offset)
    }
}

// After the last object of a region.
fn next_region(area: Area, region: u16) -> FixWalkMachine
    ensures { result ≡ walks.next_region area region }
{
    if u32::from(region) + 1 < u32::from(area.regions) {
        FixWalkMachine::Region {
            area,
            region: region + 1,
        }
    } else {
        FixWalkMachine::Ended(area)
    }
}

// After an object of this length: where the region has not ended, a header comes.
fn next_object(area: Area, cursor: Cursor, len: u16) -> FixWalkMachine
    ensures { result ≡ walks.next_object area cursor len }
{
    let offset = u32::from(cursor.offset) + 1 + u32::from(len);
    if offset < REGION_WORDS {
        let cursor = Cursor {
            region: cursor.region,
            offset: offset as u16,
        };
        FixWalkMachine::Header { area, cursor }
    } else {
        next_region(area, cursor.region)
    }
}

// With the fields before this one fixed.
fn next_field(area: Area, cursor: Cursor, len: u16, field: u16) -> FixWalkMachine
    ensures { result ≡ walks.next_field area cursor len field }
{
    if field < len {
        let at = area.address(cursor) + 1 + u32::from(field);
        FixWalkMachine::Field {
            area,
            cursor,
            len,
            field,
            machine: FixMachine::Field { at },
        }
    } else {
        next_object(area, cursor, len)
    }
}

// With this field fixed, too.
fn after_field(area: Area, cursor: Cursor, len: u16, field: u16) -> FixWalkMachine
    ensures { result ≡ walks.after_field area cursor len field }
{
    if field < len {
        next_field(area, cursor, len, field + 1)
    } else {
        next_object(area, cursor, len)
    }
}

// After a step of the fix of a field.
fn fixed_on(area: Area, cursor: Cursor, len: u16, field: u16, machine: FixMachine) -> FixWalkMachine
    ensures { result ≡ walks.fixed_on area cursor len field machine }
{
    match machine {
        FixMachine::Ended => after_field(area, cursor, len, field),
        machine => FixWalkMachine::Field {
            area,
            cursor,
            len,
            field,
            machine,
        },
    }
}

// With a header's word at hand. No header's word but that of no object ends a region, too.
#[tactic(auto, unfolding(object_headers::specs::Headers::header_at))]
fn with_header(area: Area, cursor: Cursor, word: u64) -> FixWalkMachine
    ensures { result ≡ walks.with_header area cursor word }
{
    let Some(header) = Header::unpack(word) else {
        return next_region(area, cursor.region);
    };
    let len = header.len as u16;
    match header.state {
        State::Absent => next_region(area, cursor.region),
        State::Plain | State::Kept => next_field(area, cursor, len, 0),
        _ => next_object(area, cursor, len),
    }
}

impl FixWalkMachine {
    /// The walk through all regions.
    pub fn new(layout: &Layout) -> FixWalkMachine
        ensures machine { result ≡ walks.begun layout.now }

        // Whatever others do: it puts nothing but, by an exchange from the word that a field's load found, a link
        // to the same object at the target of the header to which that word's link leads, which is Forward.
        ensures links { FixesLinks result }

        // Each address below its cursor was passed by one of its steps. It is one of a Free region, of a header,
        // of an object that is neither Plain nor Kept, one after the last object of its region, or one of a
        // field whose fix has ended.
        ensures passes { PassesBelow result }

        // Whatever words it finds, it has ended after this many steps.
        ensures bound { EndsWithin (288 * regions_of layout.now) result }
    {
        let regions = layout.regions() as u16;
        let area = Area {
            words_at: layout.region_at(0),
            first_at: layout.first_word(0),
            regions,
        };
        FixWalkMachine::Region { area, region: 0 }
    }

    /// That it has ended, or `None` while it asks for a step.
    pub fn end(&self) -> Option<()>
        ensures value { result ≡ walks.end_of self.now }
        ensures ended { IsSome result ↔ (walks.asks_of self.now ≡ StepEnded) }
    {
        match *self {
            FixWalkMachine::Ended(_) => Some(()),
            FixWalkMachine::Field { machine, .. } => machine.end(),
            _ => None,
        }
    }
}

impl Machine for FixWalkMachine {
    ghost asks = { walks.asks_of };

    ghost fed = { walks.fed_of };

    ghost blind = { walks.blind_of };

    fn ask(&self) -> Step {
        match *self {
            FixWalkMachine::Region { area, region } => Step::Load {
                at: area.word_of(region),
            },
            FixWalkMachine::Header { area, cursor } => Step::Load {
                at: area.address(cursor),
            },
            FixWalkMachine::Field { machine, .. } => machine.ask(),
            FixWalkMachine::Ended(_) => Step::Ended,
        }
    }

    fn feed(&mut self, found: u64) {
        *self = match *self {
            FixWalkMachine::Region { area, region } if found == FREE => next_region(area, region),
            FixWalkMachine::Region { area, region } => FixWalkMachine::Header {
                area,
                cursor: Cursor { region, offset: 0 },
            },
            FixWalkMachine::Header { area, cursor } => with_header(area, cursor, found),
            FixWalkMachine::Field {
                area,
                cursor,
                len,
                field,
                machine,
            } => {
                let mut fed = machine;
                fed.feed(found);
                fixed_on(area, cursor, len, field, fed)
            }
            FixWalkMachine::Ended(area) => FixWalkMachine::Ended(area),
        };
    }
}
