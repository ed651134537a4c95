//! The words of a wide object.

ghost use Rattle.std.specs.Prelude.{◌≡◌, ◌<◌};
ghost use Rattle.heap_words.specs.declared.limits.TheConstants.{ADDRESS_LIMIT as LIMIT};
ghost use Rattle.wide_objects.specs.WideWords.{wide_word_at};
ghost use Rattle.stopless_copy.specs.WideSteps as wides;

use barriers::{Front, held_by};
use heap_words::{ADDRESS_LIMIT, pack};
use wide_objects::{Status2, WideWord};

/// What a wide word says. A word that is that of none counts as one at rest, and stands in no wide object.
#[tactic(auto, unfolding(wide_objects::specs::WideWords::wide_word_at))]
pub(crate) fn wide_in(word: u64) -> WideWord
    ensures { result ≡ wide_word_at word }
{
    WideWord::unpack(word).unwrap_or(WideWord {
        status: Status2::InOriginal,
        word: 0,
    })
}

/// The wide word that has the value of a field with this word, which is in the wide object. A word that
/// holds nothing counts as the number 0, and stands in no field.
pub(crate) fn in_wide(word: u64) -> u64
    ensures { result ≡ wides.in_wide word }
{
    let wide = WideWord {
        status: Status2::InWide,
        word: pack(held_by(word)),
    };
    wide.pack()
}

/// The wide word that says that the field was copied with this word.
pub(crate) fn in_copy(word: u64) -> u64
    ensures { result ≡ wides.in_copy word }
{
    let wide = WideWord {
        status: Status2::InCopy,
        word: pack(held_by(word)),
    };
    wide.pack()
}

/// The address that a word says. A word that is that of none counts as 0, and stands in no wide object.
pub(crate) fn address_in(word: u64) -> u32
    ensures value { result ≡ wides.address_at word }
    ensures near { result < LIMIT }
{
    if word < u64::from(ADDRESS_LIMIT) {
        word as u32
    } else {
        0
    }
}

/// What a look at a wide word makes of the changes that its pass has seen: where the value is not in the
/// copy, the look has seen it.
pub(crate) fn wide_front(word: u64) -> Front
    ensures { result ≡ wides.wide_front word }
{
    match wide_in(word).status {
        Status2::InOriginal | Status2::InWide => Front::Now,
        Status2::InCopy => Front::Stays,
    }
}
