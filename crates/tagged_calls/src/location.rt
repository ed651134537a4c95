//! Where a header says that the word of a field is.

ghost use Rattle.std.specs.Prelude.{◌≡◌};
ghost use Rattle.tagged_calls.specs.Locations.{location_in};

use barriers::Spot;
use object_headers::{Header, State};

/// A header that was found `Tagged`, and what a call that writes makes of it: `Kept`, so that the object
/// stays where it is in this cycle.
#[derive(Clone, Copy, Debug, PartialEq, Eq)]
pub struct Keep {
    /// The word that was found.
    pub tagged: u64,
    /// The word of the same header in the state `Kept`.
    pub kept: u64,
}

/// Where the word of a field is, as the header of its object says. The spots are those of the same field
/// of what has its header at the target.
#[derive(Clone, Copy, Debug, PartialEq, Eq)]
pub enum Location {
    /// In the original. So it is, too, where the word is that of no header, or of no object.
    Original,
    /// In the original, which is to be copied.
    Tagged(Keep),
    /// After its wide word.
    Wide(Spot),
    /// In the copy.
    Copy(Spot),
}

impl Location {
    /// Where the header that this word is says that the word of the field is.
    #[tactic(auto, unfolding(object_headers::specs::Headers::header_at))]
    pub fn in_header(spot: Spot, word: u64) -> Location
        ensures { result ≡ location_in spot word }
    {
        let Some(header) = Header::unpack(word) else {
            return Location::Original;
        };
        match header.state {
            State::Tagged => Location::Tagged(Keep {
                tagged: word,
                kept: Header {
                    state: State::Kept,
                    ..header
                }
                .pack(),
            }),
            State::Wide => Location::Wide(Spot::new(spot.birth, header.target, spot.field)),
            State::Forward => Location::Copy(Spot::new(spot.birth, header.target, spot.field)),
            _ => Location::Original,
        }
    }
}
