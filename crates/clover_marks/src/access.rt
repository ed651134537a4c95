//! What a call is to do, and where the word of its field is.

ghost use Rattle.std.specs.Prelude.{◌≡◌};
ghost use Rattle.clover_marks.specs.Accesses as accesses;

use barriers::{Spot, held_by};
use handshakes::Phase;
use heap_words::{FieldWord, NUMBER_LIMIT, same_value};
use object_headers::{Header, State};

/// What a call does with its field. Words are the packed words of numbers or links.
#[derive(Clone, Copy, Debug, PartialEq, Eq)]
pub enum Action {
    Read,
    Write { word: u64 },
    /// The field is to hold `word`, if it has the value of `expected`.
    Exchange { expected: FieldWord, word: u64 },
}

/// A call of a pass: its field, what it does there, the mark of the pass, 0 for none, and the phase that
/// the pass has acknowledged.
#[derive(Clone, Copy, Debug, PartialEq, Eq)]
pub struct Access {
    pub spot: Spot,
    pub action: Action,
    pub mark: u64,
    pub phase: Phase,
}

/// Where the word is that a call is at.
#[derive(Clone, Copy, Debug, PartialEq, Eq)]
pub enum Place {
    /// In the original.
    Original,
    /// In the copy: the same field of what has its header there.
    Copy(Spot),
}

impl Action {
    /// The word to write; a read has none, and gives 0.
    pub fn word(&self) -> u64
        ensures { result ≡ accesses.word_of_action self.now }
    {
        match *self {
            Action::Read => 0,
            Action::Write { word } | Action::Exchange { word, .. } => word,
        }
    }

    // Whether the call writes where it finds this word.
    pub(crate) fn serves(&self, found: u64) -> bool
        ensures { result ≡ accesses.serves self.now found }
    {
        match *self {
            Action::Read => false,
            Action::Write { .. } => true,
            Action::Exchange { expected, .. } => same_value(expected, held_by(found)),
        }
    }
}

impl Access {
    // Whether a word is the pass's mark.
    pub(crate) fn is_mark(&self, word: u64) -> bool
        ensures { result ≡ accesses.is_mark_word self.now.mark word }
    {
        word == self.mark && word > 0 && word < NUMBER_LIMIT
    }

    // The address of the field's word.
    pub(crate) fn address(&self, place: Place) -> u32
        ensures { result ≡ accesses.address_of self.now place }
    {
        match place {
            Place::Original => self.spot.place,
            Place::Copy(copy) => copy.place,
        }
    }
}

// The same field of the copy, where the header of the original is `Forward`.
#[tactic(auto, unfolding(object_headers::specs::Headers::header_at))]
pub(crate) fn forwarded(spot: Spot, header: u64) -> Option<Spot>
    ensures { result ≡ accesses.forwarded spot header }
{
    let header = Header::unpack(header)?;
    match header.state {
        State::Forward => Some(Spot::new(spot.birth, header.target, spot.field)),
        _ => None,
    }
}

// The same, where it is `Moving` or `Forward`.
#[tactic(auto, unfolding(object_headers::specs::Headers::header_at))]
pub(crate) fn moved(spot: Spot, header: u64) -> Option<Spot>
    ensures { result ≡ accesses.moved spot header }
{
    let header = Header::unpack(header)?;
    match header.state {
        State::Moving | State::Forward => { Some(Spot::new(spot.birth, header.target, spot.field)) }
        _ => None,
    }
}
