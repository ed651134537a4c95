//! What loaded words say.

ghost use Rattle.std.specs.Prelude.{◌≡◌};
ghost use Rattle.heap_words.specs.FieldWords.{field_at};
ghost use Rattle.object_headers.specs.Headers.{header_at};

use heap_words::{FieldWord, unpack};
use object_headers::Header;

/// What a field's word holds. A word that holds nothing counts as the number 0, and stands in no field.
#[tactic(auto, unfolding(heap_words::specs::FieldWords::field_at))]
pub fn held_by(word: u64) -> FieldWord
    ensures { result ≡ field_at word }
{
    unpack(word).unwrap_or(FieldWord::Num(0))
}

/// The number of fields that a header's word says, and 0 where the word is that of no header.
#[tactic(auto, unfolding(object_headers::specs::Headers::header_at))]
pub fn len_in(word: u64) -> u32
    ensures { let header = header_at word in result ≡ header.len }
{
    Header::unpack(word).map_or(0, |header| header.len)
}
