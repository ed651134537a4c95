//! One try of a call: a read, a write or an exchange of a field.

ghost use Rattle.std.specs.Prelude.{◌≡◌, ◌<◌, ◌≤◌, ◌^◌, ◌↔◌, IsSome};
ghost use Rattle.call_steps.specs.declared.step.Step.TheVariants.{Ended as StepEnded};
ghost use Rattle.call_steps.specs.Ending.{EndsOnlyFor};
ghost use Rattle.heap_words.specs.FieldWords.{field_of};
ghost use Rattle.heap_words.specs.declared.limits.TheConstants.{ADDRESS_LIMIT};
ghost use Rattle.handshakes.specs.PhaseWords.{phase_word_of, phase_word_at};
ghost use Rattle.barriers.specs.Spots.{spot_of};
ghost use Rattle.clover_marks.specs.declared.access.Action.TheVariants as action;
ghost use Rattle.clover_marks.specs.CallCauses.{CallEnds};
ghost use Rattle.clover_marks.specs.Calls as calls;

use crate::access::{Access, Action, Place, forwarded, moved};
use barriers::{Front, Spot, TriesLeft, TryRefusal, Watched, held_by, len_in};
use call_steps::{CallMachine, Machine, Step};
use handshakes::{FollowMachine, PassView, Phase, PhaseWord};
use heap_words::{FieldWord, Layout};

/// What one try of a call ends with.
#[derive(Clone, Copy, Debug, PartialEq, Eq)]
pub enum CallEnd {
    /// A read: the field holds this.
    Got(FieldWord),
    /// A write: the field holds the new word.
    Wrote,
    /// An exchange: the field held the expected value, and holds the new word.
    Done,
    /// An exchange: the field holds this, which has another value than the expected one.
    Differs(FieldWord),
    /// Nothing was written.
    Refused(TryRefusal),
}

/// A call of a pass. Where the word to write is the pass's mark, it loads the phase word first, and is
/// refused while values may be moving in the cycle that the pass has acknowledged. Then it loads the
/// header. Where that is `Forward`, it goes on in the copy, and else in the original: without a mark as
/// with an object at rest, and with a mark so that it loads the field's word and writes by an exchange.
/// Where it finds the mark there, it loads the header again: with `Moving` or `Forward` it goes on in the
/// copy, and with any other state the mark is the value. At most 16 steps, 4 of them to follow.
#[derive(Clone, Copy, Debug, PartialEq, Eq)]
pub enum CloverCall {
    /// Loads the phase word: the word to write is the pass's mark, and the pass has acknowledged `cycle`.
    Phase {
        access: Access,
        cycle: u32,
        /// The address of the phase word.
        phase_at: u32,
    },
    /// Loads the header.
    Header(Access),
    /// Loads the field's word.
    Load {
        access: Access,
        place: Place,
    },
    /// Stores the word to write.
    Store {
        access: Access,
        place: Place,
    },
    /// Exchanges `wanted`, which was found there, for the word to write.
    Try {
        access: Access,
        place: Place,
        wanted: u64,
        tries: TriesLeft,
    },
    /// Loads the header again: it found the mark in the original, where it had loaded `wanted`, which is
    /// the mark, or had lost the exchange of `wanted`. `next` says how many tries are left with the next
    /// exchange, if there is to be one.
    Again {
        access: Access,
        wanted: u64,
        next: Option<TriesLeft>,
    },
    /// Exchanges the mark in the original, which is the value there, for the word to write.
    TryMark {
        access: Access,
        tries: TriesLeft,
    },
    /// Follows what was found. It has ended where this has.
    Follow {
        access: Access,
        machine: FollowMachine,
    },
    Ended {
        access: Access,
        end: CallEnd,
    },
}

// The tries left with the next exchange.
fn next_of(tries: TriesLeft) -> Option<TriesLeft>
    ensures { result ≡ calls.next_of tries }
{
    match tries {
        TriesLeft::Two => Some(TriesLeft::One),
        TriesLeft::One => Some(TriesLeft::Zero),
        TriesLeft::Zero => None,
    }
}

// Whether this word announces that values of this cycle may be moving.
#[tactic(auto, unfolding(handshakes::specs::PhaseWords::phase_word_at))]
fn is_busy(cycle: u32, word: u64) -> bool
    ensures { result ≡ calls.is_busy cycle word }
{
    match PhaseWord::unpack(word) {
        Some(announced) => {
            announced.cycle == cycle && matches!(announced.phase, Phase::Copy | Phase::Fix)
        }
        None => false,
    }
}

// At the word of its field.
fn at_place(access: Access, place: Place) -> CloverCall
    ensures { result ≡ calls.at_place access place }
{
    match (access.action, place) {
        (Action::Write { .. }, Place::Copy(_)) => CloverCall::Store { access, place },
        (Action::Write { .. }, Place::Original) if access.mark == 0 => {
            CloverCall::Store { access, place }
        }
        _ => CloverCall::Load { access, place },
    }
}

// With the header's word at hand.
fn begun(access: Access, header: u64) -> CloverCall
    ensures { result ≡ calls.begun_by access header }
{
    let len = len_in(header);
    if access.spot.field >= len {
        let end = CallEnd::Refused(TryRefusal::NoField { len });
        return CloverCall::Ended { access, end };
    }
    match forwarded(access.spot, header) {
        Some(copy) => at_place(access, Place::Copy(copy)),
        None => at_place(access, Place::Original),
    }
}

// With a word that is the field's and that the call came for.
fn followed(access: Access, word: u64) -> CloverCall
    ensures { result ≡ calls.followed access word }
{
    CloverCall::Follow {
        access,
        machine: FollowMachine::in_phase(access.phase, held_by(word)),
    }
}

// After the third exchange.
fn raced(access: Access, loaded: u64, found: u64) -> CloverCall
    ensures { result ≡ calls.raced access loaded found }
{
    CloverCall::Ended {
        access,
        end: CallEnd::Refused(TryRefusal::Raced { loaded, found }),
    }
}

// With the word that was found at the place, where it wanted another one.
fn valued(
    access: Access,
    place: Place,
    wanted: u64,
    next: Option<TriesLeft>,
    found: u64,
) -> CloverCall
    ensures { result ≡ calls.valued access place wanted next found }
{
    if !access.action.serves(found) {
        return followed(access, found);
    }
    match next {
        Some(tries) => CloverCall::Try {
            access,
            place,
            wanted: found,
            tries,
        },
        None => raced(access, wanted, found),
    }
}

// With the mark as the value in the original.
fn marked(access: Access, wanted: u64, next: Option<TriesLeft>) -> CloverCall
    ensures { result ≡ calls.marked access wanted next }
{
    if !access.action.serves(access.mark) {
        return followed(access, access.mark);
    }
    match next {
        Some(tries) => CloverCall::TryMark { access, tries },
        None => raced(access, wanted, access.mark),
    }
}

// With the word that was found at the place: in the original it may be the mark.
fn found_at(
    access: Access,
    place: Place,
    wanted: u64,
    next: Option<TriesLeft>,
    found: u64,
) -> CloverCall
    ensures { result ≡ calls.found_at access place wanted next found }
{
    match place {
        Place::Original if access.is_mark(found) => CloverCall::Again {
            access,
            wanted,
            next,
        },
        _ => valued(access, place, wanted, next, found),
    }
}

// With its word in place of the one that was there.
fn made(access: Access) -> CloverCall
    ensures { result ≡ calls.made access }
{
    let end = match access.action {
        Action::Exchange { .. } => CallEnd::Done,
        Action::Read | Action::Write { .. } => CallEnd::Wrote,
    };
    CloverCall::Ended { access, end }
}

// What a call ends with that came for this word. A write comes for none.
fn found_end(action: Action, word: FieldWord) -> CallEnd
    ensures { result ≡ calls.found_end action word }
{
    match action {
        Action::Read => CallEnd::Got(word),
        Action::Write { .. } => CallEnd::Wrote,
        Action::Exchange { .. } => CallEnd::Differs(word),
    }
}

// The cycle that a word announces, and 0 where it announces nothing.
#[tactic(auto, unfolding(handshakes::specs::PhaseWords::phase_word_at))]
fn cycle_in(word: u64) -> u32
    ensures { result ≡ (phase_word_at word).cycle }
{
    PhaseWord::unpack(word).map_or(0, |announced| announced.cycle)
}

// The call as it begins.
fn first(layout: &Layout, view: PassView, spot: Spot, action: Action) -> CloverCall
    requires acked { IsSome (phase_word_of view.acked) }
    ensures { result ≡ calls.first view spot action }
{
    let access = Access {
        spot,
        action,
        mark: view.mark,
        phase: view.phase(),
    };
    if access.is_mark(action.word()) {
        CloverCall::Phase {
            access,
            cycle: cycle_in(view.acked),
            phase_at: layout.phase_at(),
        }
    } else {
        CloverCall::Header(access)
    }
}

impl CloverCall {
    /// The read of a field of the object `birth`, to which a link leads at `at`, by this pass. The field
    /// number may be any.
    pub fn read(layout: &Layout, view: PassView, birth: u32, at: u32, field: u32) -> CloverCall
        requires near { at < ADDRESS_LIMIT }
        requires acked { IsSome (phase_word_of view.acked) }
        ensures machine { result ≡ calls.begun view birth at field action.Read }

        // Whatever others do: it is refused only where the first header that it loaded has a len, which the
        // end tells, that is not above the field. It gives what a load of the field found, in the original or in
        // the copy that a header told, and that is not the pass's mark in the original; or the mark, where a
        // load of the field found it and the next step, its last, loaded a header that is neither `Moving`
        // nor `Forward`. A link that it found is followed, under Fix, by one more step.
        ensures cause { EndsOnlyFor calls.asks_of calls.fed_of calls.end_of
            (CallEnds (calls.access_of view (spot_of birth at field) action.Read)
            (phase_word_at view.acked).cycle) result }
    {
        first(layout, view, Spot::new(birth, at, field), Action::Read)
    }

    /// The write of a field of that object, by this pass. The field number may be any; the word is to be
    /// the packed word of a number or a link.
    pub fn write(
        layout: &Layout,
        view: PassView,
        birth: u32,
        at: u32,
        field: u32,
        word: u64,
    ) -> CloverCall
        requires near { at < ADDRESS_LIMIT }
        requires acked { IsSome (phase_word_of view.acked) }
        requires packed { word < 2 ^ 62 }
        requires value { IsSome (field_of word) }
        ensures machine { result ≡ calls.begun view birth at field (action.Write word) }

        // Whatever others do: it has written where its last step stored the word in the field, or exchanged
        // what it found there for it, in the original or in the copy that a header told. It is busy only
        // where the word to write is the pass's mark, and its first step found a phase word of Copy or Fix
        // of the cycle that the pass has acknowledged. It is raced only where its third exchange of the
        // field's word in one place lost, and that was its last step, or found the mark in the original,
        // and the last step then loaded a header that is neither `Moving` nor `Forward`. Without a field as
        // with a read.
        ensures cause { EndsOnlyFor calls.asks_of calls.fed_of calls.end_of
            (CallEnds (calls.access_of view (spot_of birth at field) (action.Write word))
            (phase_word_at view.acked).cycle) result }
    {
        first(
            layout,
            view,
            Spot::new(birth, at, field),
            Action::Write { word },
        )
    }

    /// The exchange of a field of that object, by this pass. The field number may be any; the word is to
    /// be the packed word of a number or a link.
    pub fn exchange(
        layout: &Layout,
        view: PassView,
        birth: u32,
        at: u32,
        field: u32,
        expected: FieldWord,
        word: u64,
    ) -> CloverCall
        requires near { at < ADDRESS_LIMIT }
        requires acked { IsSome (phase_word_of view.acked) }
        requires packed { word < 2 ^ 62 }
        requires value { IsSome (field_of word) }
        ensures machine { result ≡ calls.begun view birth at field (action.Exchange expected word) }

        // Whatever others do: it is done where its last step exchanged a word that it found there and that
        // has the expected value. What differs was found as with a read, or by an exchange that lost, and
        // has another value. It is refused as a write is, and where it is raced both words have the expected
        // value.
        ensures cause { EndsOnlyFor calls.asks_of calls.fed_of calls.end_of
            (CallEnds (calls.access_of view (spot_of birth at field) (action.Exchange expected word))
            (phase_word_at view.acked).cycle) result }
    {
        first(
            layout,
            view,
            Spot::new(birth, at, field),
            Action::Exchange { expected, word },
        )
    }

    /// What the call ended with, and `None` before its end.
    pub fn end(&self) -> Option<CallEnd>
        ensures value { result ≡ calls.end_of self.now }
        ensures ended { IsSome result ↔ (calls.asks_of self.now ≡ StepEnded) }
    {
        match *self {
            CloverCall::Follow { access, machine } => {
                Some(found_end(access.action, machine.end()?.word))
            }
            CloverCall::Ended { end, .. } => Some(end),
            _ => None,
        }
    }
}

impl Machine for CloverCall {
    ghost asks = { calls.asks_of };

    ghost fed = { calls.fed_of };

    ghost blind = { calls.blind_of };

    fn ask(&self) -> Step {
        match *self {
            CloverCall::Phase { phase_at, .. } => Step::Load { at: phase_at },
            CloverCall::Header(access) | CloverCall::Again { access, .. } => Step::Load {
                at: access.spot.at,
            },
            CloverCall::Load { access, place } => Step::Load {
                at: access.address(place),
            },
            CloverCall::Store { access, place } => Step::Store {
                at: access.address(place),
                put: access.action.word(),
            },
            CloverCall::Try {
                access,
                place,
                wanted,
                ..
            } => Step::Exchange {
                at: access.address(place),
                want: wanted,
                put: access.action.word(),
            },
            CloverCall::TryMark { access, .. } => Step::Exchange {
                at: access.spot.place,
                want: access.mark,
                put: access.action.word(),
            },
            CloverCall::Follow { machine, .. } => machine.ask(),
            CloverCall::Ended { .. } => Step::Ended,
        }
    }

    fn feed(&mut self, found: u64) {
        *self = match *self {
            CloverCall::Phase { access, cycle, .. } if is_busy(cycle, found) => {
                let mark = access.mark;
                let end = CallEnd::Refused(TryRefusal::Busy { cycle, mark });
                CloverCall::Ended { access, end }
            }
            CloverCall::Phase { access, .. } => CloverCall::Header(access),
            CloverCall::Header(access) => begun(access, found),
            CloverCall::Load { access, place } => {
                found_at(access, place, found, Some(TriesLeft::Two), found)
            }
            CloverCall::Store { access, .. } => CloverCall::Ended {
                access,
                end: CallEnd::Wrote,
            },
            CloverCall::Try { access, wanted, .. } if found == wanted => made(access),
            CloverCall::Try {
                access,
                place,
                wanted,
                tries,
            } => found_at(access, place, wanted, next_of(tries), found),
            CloverCall::Again {
                access,
                wanted,
                next,
            } => match moved(access.spot, found) {
                Some(copy) => at_place(access, Place::Copy(copy)),
                None => marked(access, wanted, next),
            },
            CloverCall::TryMark { access, .. } if found == access.mark => made(access),
            CloverCall::TryMark { access, tries } => {
                valued(access, Place::Original, access.mark, next_of(tries), found)
            }
            CloverCall::Follow {
                access,
                mut machine,
            } => {
                machine.feed(found);
                CloverCall::Follow { access, machine }
            }
            CloverCall::Ended { access, end } => CloverCall::Ended { access, end },
        };
    }
}

/// The steps that a follow takes at most.
const MOST_TO_FOLLOW: u32 = 4;

// The steps left with this many tries left in the copy.
fn left_in_copy(tries: TriesLeft) -> u32
    ensures { result ≡ calls.left_in_copy tries }
{
    match tries {
        TriesLeft::Two => 3 + MOST_TO_FOLLOW,
        TriesLeft::One => 2 + MOST_TO_FOLLOW,
        TriesLeft::Zero => 1 + MOST_TO_FOLLOW,
    }
}

// The same in the original: after the last exchange the call may go to the copy, which takes as many steps
// as a load and all tries there.
fn left_in_original(tries: TriesLeft) -> u32
    ensures { result ≡ calls.left_in_original tries }
{
    match tries {
        TriesLeft::Two => 13,
        TriesLeft::One => 11,
        TriesLeft::Zero => 10,
    }
}

// The same where the mark is exchanged, since what is found then is not the mark.
fn left_of_mark(tries: TriesLeft) -> u32
    ensures { result ≡ calls.left_of_mark tries }
{
    match tries {
        TriesLeft::Two => 12,
        TriesLeft::One => 11,
        TriesLeft::Zero => 1 + MOST_TO_FOLLOW,
    }
}

// The same where the header is loaded again.
fn left_again(next: Option<TriesLeft>) -> u32
    ensures { result ≡ calls.left_again next }
{
    match next {
        Some(TriesLeft::Two) => 13,
        Some(TriesLeft::One) => 12,
        Some(TriesLeft::Zero) | None => 9,
    }
}

impl CallMachine for CloverCall {
    ghost steps_left = { calls.left_of };

    ghost none_left = { calls.none_left_of };

    ghost some_left = { calls.some_left_of };

    ghost falls = { calls.falls_of };

    fn left(&self) -> u32
        ensures bound { result ≡ calls.left_of self.now }
        ensures few { result ≤ 16 }
    {
        match *self {
            CloverCall::Phase { .. } => 16,
            CloverCall::Header(_) => 15,
            CloverCall::Load {
                place: Place::Original,
                ..
            } => 14,
            CloverCall::Load { .. } => 8,
            CloverCall::Store { .. } => 1,
            CloverCall::Try {
                place: Place::Original,
                tries,
                ..
            } => left_in_original(tries),
            CloverCall::Try { tries, .. } => left_in_copy(tries),
            CloverCall::Again { next, .. } => left_again(next),
            CloverCall::TryMark { tries, .. } => left_of_mark(tries),
            CloverCall::Follow { machine, .. } => machine.left(),
            CloverCall::Ended { .. } => 0,
        }
    }
}

// What a step that finds this word makes of what its pass has seen, where the word is the field's: it is seen
// where the call came for it.
fn seen(access: Access, found: u64, front: Front) -> Front
    ensures { result ≡ calls.seen access found front }
{
    if access.action.serves(found) {
        Front::Stays
    } else {
        front
    }
}

// The same in the original, where it may be the mark: then it is seen, whatever the call becomes.
fn seen_in_original(access: Access, found: u64, front: Front) -> Front
    ensures { result ≡ calls.seen_in_original access found front }
{
    if access.is_mark(found) {
        front
    } else {
        seen(access, found, front)
    }
}

impl Watched for CloverCall {
    ghost front = { calls.front };

    fn front(&self, found: u64) -> Front {
        match *self {
            CloverCall::Load {
                access,
                place: Place::Original,
            } => seen_in_original(access, found, Front::SealedOrNow),
            CloverCall::Try {
                access,
                place: Place::Original,
                ..
            }
            | CloverCall::TryMark { access, .. } => seen_in_original(access, found, Front::Now),
            CloverCall::Load { access, .. } | CloverCall::Try { access, .. } => {
                seen(access, found, Front::Now)
            }
            _ => Front::Stays,
        }
    }
}
