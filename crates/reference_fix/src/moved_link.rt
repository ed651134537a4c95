//! What a link becomes whose object has moved.

ghost use Rattle.std.specs.Prelude.{◌≡◌};
ghost use Rattle.heap_words.specs.FieldWords.{field_at};
ghost use Rattle.object_headers.specs.Headers.{header_at};
ghost use Rattle.reference_fix.specs.MovedLinks.{leads_to, moved_link};

use heap_words::{FieldWord, pack, unpack};
use object_headers::{Header, State};

/// The address to which the link of a word leads, or `None` where the word holds no link.
#[tactic(auto, unfolding(heap_words::specs::FieldWords::field_at))]
pub fn leads_to(word: u64) -> Option<u32>
    ensures { result ≡ leads_to (field_at word) }
{
    match unpack(word) {
        Some(FieldWord::Link { at, .. }) => Some(at),
        _ => None,
    }
}

/// The word that takes the place of this one, where the header at the address to which its link leads is this:
/// the link to the same object at the header's target. `None` where the header is not Forward, and where the
/// word holds no link.
#[tactic(auto, unfolding(heap_words::specs::FieldWords::field_at, object_headers::specs::Headers::header_at))]
pub fn moved_link(word: u64, header: u64) -> Option<u64>
    ensures { result ≡ moved_link (field_at word) (header_at header) }
{
    let birth = match unpack(word) {
        Some(FieldWord::Link { birth, .. }) => birth,
        _ => return None,
    };
    match Header::unpack(header) {
        Some(
            Header {
                state: State::Forward,
                target,
                ..
            },
        ) => Some(pack(FieldWord::Link { birth, at: target })),
        _ => None,
    }
}
