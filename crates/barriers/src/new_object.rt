//! A new object.

ghost use Rattle.std.specs.Prelude.{◌≡◌, ◌<◌, ◌≤◌, ◌+◌, ◌^◌, ◌↔◌, IsSome};
ghost use Rattle.std.specs.Option.{ForSome};
ghost use Rattle.call_steps.specs.declared.step.Step.TheVariants.{Ended as StepEnded};
ghost use Rattle.heap_words.specs.Layouts.{IsLayout, IsPass, IsRegion, first_word};
ghost use Rattle.heap_words.specs.declared.limits.TheConstants.{BIRTHS_OF_PASS, BIRTH_LIMIT, MOST_FIELDS, MOST_PASSES, REGION_WORDS};
ghost use Rattle.object_headers.specs.Headers.{word_of_header};
ghost use Rattle.barriers.specs.NewObjects.{asks_of, end_of, left_of, new_of, placed, plan_of, placed_in, claimed, leaving_at, word_of_old};
ghost use Rattle.barriers.specs.NewObjectCauses.{MakesWithCause};
ghost use Rattle.barriers.specs.NewObjects.{next_birth as next_birth_of, new_header as header_of_new};

use crate::ends::{NewEnd, NewRefusal};
use crate::room::Room;
use call_steps::{CallMachine, Machine, Step};
use handshakes::PassView;
use heap_words::{BIRTHS_BETWEEN_PASSES, BIRTHS_OF_PASS, Layout, MOST_REGIONS, REGION_WORDS};
use object_headers::{Colour, Header, State};
use space_reclaim::{ClaimEnd, ClaimMachine, RegionWord, Round};

/// Where an object is made: what is stored there, and where the pass makes objects then.
#[derive(Clone, Copy, Debug, PartialEq, Eq)]
pub struct Placement {
    pub birth: u32,
    /// The address of the object's header.
    pub at: u32,
    /// The word of that header.
    pub header: u64,
    /// Where the pass makes objects once it has made this one.
    pub room: Room,
}

/// An object for which a region is claimed.
#[derive(Clone, Copy, Debug, PartialEq, Eq)]
pub struct NewPlan {
    pub birth: u32,
    /// The word of the object's header.
    pub header: u64,
    /// The words that the object takes: its header and its fields.
    pub words: u32,
    /// The first word of region 0.
    pub regions_at: u16,
    /// The address of the word of the region that the pass leaves, if it has one.
    pub old_at: Option<u32>,
}

/// Makes an object after the others of the pass's region. Where it does not fit there, or there is none, a
/// region of the pass's own is claimed for it, and the old one is filled. At most `quota + 4` steps.
#[derive(Clone, Copy, Debug, PartialEq, Eq)]
pub enum NewMachine {
    /// Looks for a region that is free.
    Look { plan: NewPlan, round: Round },
    /// Takes the region that is looked at.
    Claim { plan: NewPlan, round: Round },
    /// Stores Filled in the word of the region that the pass leaves, at this address.
    Fill { at: u32, placement: Placement },
    /// Stores the header.
    Header(Placement),
    Ended(NewEnd),
}

/// No table has a region past this one.
const LAST_REGION: u32 = MOST_REGIONS - 1;

impl Placement {
    // The object after the used words of a region.
    fn new(layout: &Layout, pass: u32, made: u32, len: u32, region: u32, room: Room) -> Placement
        requires layout { IsLayout layout.now }
        requires pass { IsPass layout.now pass }
        requires made { made < BIRTHS_OF_PASS }
        requires fits { room.used + len + 1 ≤ REGION_WORDS }
        requires len { len ≤ MOST_FIELDS }
        requires region { IsRegion layout.now region }
        ensures { result ≡ placed (next_birth_of pass made) len region (first_word layout.now region) room.used room.last }
    {
        let at = layout.first_word(region) + room.used;
        let birth = next_birth(pass, made);
        Placement {
            birth,
            at,
            header: new_header(len, birth),
            room: Room {
                region: Some(region),
                used: room.used + len + 1,
                last: room.last,
            },
        }
    }
}

impl NewPlan {
    // The plan of an object for which the pass leaves this region, or none.
    fn new(layout: &Layout, pass: u32, made: u32, len: u32, old: Option<u32>) -> NewPlan
        requires layout { IsLayout layout.now }
        requires pass { IsPass layout.now pass }
        requires made { made < BIRTHS_OF_PASS }
        requires len { len ≤ MOST_FIELDS }
        requires old { ForSome old (IsRegion layout.now) }
        ensures { result ≡ plan_of layout.now pass made len old }
    {
        let regions_at = layout.first_word(0) as u16;
        let birth = next_birth(pass, made);
        NewPlan {
            birth,
            header: new_header(len, birth),
            words: len + 1,
            regions_at,
            old_at: word_of_old(layout, old),
        }
    }

    // The object at the start of a claimed region.
    fn placed_in(&self, region: u32) -> Placement
        ensures { result ≡ placed_in self.now region }
    {
        let first_word = u32::from(self.regions_at) + REGION_WORDS * region.min(LAST_REGION);
        Placement {
            birth: self.birth,
            at: first_word,
            header: self.header,
            room: Room {
                region: Some(region),
                used: self.words,
                last: Some(region),
            },
        }
    }

    // What comes next with the claim of the region as it stands.
    fn claimed(&self, claim: ClaimMachine) -> NewMachine
        ensures { result ≡ claimed self.now claim }
    {
        let plan = *self;
        match claim {
            ClaimMachine::Look(round) => NewMachine::Look { plan, round },
            ClaimMachine::Claim(round) => NewMachine::Claim { plan, round },
            ClaimMachine::Ended(ClaimEnd::Claimed(region)) => leaving(
                plan.old_at,
                plan.placed_in(region),
            ),
            ClaimMachine::Ended(ClaimEnd::NoneFree { regions }) => {
                NewMachine::Ended(NewEnd::Refused(NewRefusal::QuotaSpent { regions }))
            }
        }
    }
}

// The region that the pass leaves is filled first.
fn leaving(old_at: Option<u32>, placement: Placement) -> NewMachine
    ensures { result ≡ leaving_at old_at placement }
{
    match old_at {
        Some(at) => NewMachine::Fill { at, placement },
        None => NewMachine::Header(placement),
    }
}

// The steps that are left at most when the region that is looked at is taken.
fn left_of_claim(round: Round) -> u32
    ensures value { result ≡ round.ahead + 3 }
    ensures few { result ≤ 2 ^ 16 + 2 }
{
    u32::from(round.ahead) + 3
}

// The birth number of a pass's next object.
fn next_birth(pass: u32, made: u32) -> u32
    requires pass { pass ≤ MOST_PASSES }
    requires made { made < BIRTHS_OF_PASS }
    ensures number { result ≡ next_birth_of pass made }
    ensures some { 0 < result }
    ensures small { result < BIRTH_LIMIT }
{
    pass * BIRTHS_BETWEEN_PASSES + made + 1
}

// The word of a new object's header.
fn new_header(len: u32, birth: u32) -> u64
    requires len { len ≤ MOST_FIELDS }
    requires some { 0 < birth }
    requires small { birth < BIRTH_LIMIT }
    ensures { result ≡ word_of_header (header_of_new len birth) }
{
    let header = Header {
        state: State::Plain,
        colour: Colour::Even,
        len,
        birth,
        target: 0,
    };
    header.pack()
}

// The address of the word of a region, if there is one.
fn word_of_old(layout: &Layout, old: Option<u32>) -> Option<u32>
    requires { ForSome old (IsRegion layout.now) }
    ensures { result ≡ word_of_old layout.now old }
{
    Some(layout.region_at(old?))
}

impl NewMachine {
    // The machine before its first step, and that the layout is one.
    fn begin(layout: &Layout, view: PassView, room: Room, made: u32, len: u32) -> NewMachine
        requires pass { IsPass layout.now view.pass }
        requires used { room.used ≤ REGION_WORDS }
        requires region { ForSome room.region (IsRegion layout.now) }
        requires last { ForSome room.last (IsRegion layout.now) }
        requires made { made ≤ BIRTHS_OF_PASS }
        requires len { len ≤ MOST_FIELDS }
        ensures machine { result ≡ new_of layout.now view room made len }
        ensures layout { IsLayout layout.now }
    {
        let pass = view.pass;
        prove!(pass <= layout.passes());
        if made == BIRTHS_OF_PASS {
            return NewMachine::Ended(NewEnd::Refused(NewRefusal::BirthsSpent));
        }
        match room.region {
            Some(region) if room.used + len + 1 <= REGION_WORDS => {
                NewMachine::Header(Placement::new(layout, pass, made, len, region, room))
            }
            _ => {
                let plan = NewPlan::new(layout, pass, made, len, room.region);
                plan.claimed(ClaimMachine::new(layout, pass, room.last))
            }
        }
    }

    /// The next object of a pass, with `len` fields, of which the pass has made `made`.
    pub fn new(layout: &Layout, view: PassView, room: Room, made: u32, len: u32) -> NewMachine
        requires pass { IsPass layout.now view.pass }
        requires used { room.used ≤ REGION_WORDS }
        requires region { ForSome room.region (IsRegion layout.now) }
        requires last { ForSome room.last (IsRegion layout.now) }
        requires made { made ≤ BIRTHS_OF_PASS }
        requires len { len ≤ MOST_FIELDS }
        ensures machine { result ≡ new_of layout.now view room made len }
        ensures steps { left_of result ≤ layout.now.quota + 4 }

        // Whatever others do: the object that it made has the pass's next birth number, its header was stored
        // where it stands, and there it is the last object of the room's region, the one that the pass had or
        // one of its own. The quota is spent only where the object does not fit the pass's region, or there is
        // none, and each region of the pass's own, as many as the end tells, was found in use: where the pass's
        // objects have filled them, these and this one need more regions than the quota. The birth numbers are
        // spent only after the last object that a pass makes, and then it has ended at once.
        ensures cause { MakesWithCause layout.now view.pass room made len result }
    {
        NewMachine::begin(layout, view, room, made, len)
    }

    /// What the making ended with, and `None` before its end.
    pub fn end(&self) -> Option<NewEnd>
        ensures value { result ≡ end_of self.now }
        ensures ended { IsSome result ↔ (asks_of self.now ≡ StepEnded) }
    {
        match *self {
            NewMachine::Look { .. }
            | NewMachine::Claim { .. }
            | NewMachine::Fill { .. }
            | NewMachine::Header(_) => None,
            NewMachine::Ended(end) => Some(end),
        }
    }
}

impl Machine for NewMachine {
    ghost use Rattle.barriers.specs.NewObjects.{asks_of, fed_of, blind_of};

    ghost asks = { asks_of };

    ghost fed = { fed_of };

    ghost blind = { blind_of };

    fn ask(&self) -> Step {
        match *self {
            NewMachine::Look { round, .. } => ClaimMachine::Look(round).ask(),
            NewMachine::Claim { round, .. } => ClaimMachine::Claim(round).ask(),
            NewMachine::Fill { at, .. } => Step::Store {
                at,
                put: RegionWord::Filled.pack(),
            },
            NewMachine::Header(placement) => Step::Store {
                at: placement.at,
                put: placement.header,
            },
            NewMachine::Ended(_) => Step::Ended,
        }
    }

    fn feed(&mut self, found: u64) {
        *self = match *self {
            NewMachine::Look { plan, round } => {
                let mut claim = ClaimMachine::Look(round);
                claim.feed(found);
                plan.claimed(claim)
            }
            NewMachine::Claim { plan, round } => {
                let mut claim = ClaimMachine::Claim(round);
                claim.feed(found);
                plan.claimed(claim)
            }
            NewMachine::Fill { placement, .. } => NewMachine::Header(placement),
            NewMachine::Header(
                Placement {
                    birth,
                    at,
                    room,
                    ..
                },
            ) => NewMachine::Ended(NewEnd::Made { birth, at, room }),
            NewMachine::Ended(end) => NewMachine::Ended(end),
        };
    }
}

impl CallMachine for NewMachine {
    ghost use Rattle.barriers.specs.NewObjects.{left_of, none_left_of, some_left_of, falls_of};

    ghost steps_left = { left_of };

    ghost none_left = { none_left_of };

    ghost some_left = { some_left_of };

    ghost falls = { falls_of };

    fn left(&self) -> u32
        ensures bound { result ≡ left_of self.now }
        ensures few { result ≤ 2 ^ 16 + 3 }
    {
        match *self {
            NewMachine::Look { round, .. } => left_of_claim(round) + 1,
            NewMachine::Claim { round, .. } => left_of_claim(round),
            NewMachine::Fill { .. } => 2,
            NewMachine::Header(_) => 1,
            NewMachine::Ended(_) => 0,
        }
    }
}
