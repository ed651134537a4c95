//! What a word of a wide object says of its field, and the word that it is packed into.

ghost use Rattle.std.specs.Prelude.{◌≡◌, ◌<◌, ◌*◌, ◌^◌, ◌↔◌, IsNone, IfSome, IsTrue};
ghost use Rattle.wide_objects.specs.WideWords.{code_of};
ghost use Rattle.wide_objects.specs.Changes.{AllowedChange, RisesOrIsReset};

use heap_words::unpack;

/// Where the current value of a field is, while its object is being copied.
#[derive(Clone, Copy, Debug, PartialEq, Eq)]
pub enum Status2 {
    /// In the original.
    InOriginal,
    /// In the wide object, beside this status.
    InWide,
    /// In the copy. The value beside this status is the one that the field was copied with.
    InCopy,
}

/// What the wide word of a field says.
#[derive(Clone, Copy, Debug, PartialEq, Eq)]
pub struct WideWord {
    pub status: Status2,
    /// The word of a field, below 2^62, and 0 where the value is in the original.
    pub word: u64,
}

/// The code of a status, in bits 62 and 63.
fn status_code(status: Status2) -> u64
    ensures code { result ≡ code_of status }
    ensures small { result < 3 }
{
    match status {
        Status2::InOriginal => 0,
        Status2::InWide => 1,
        Status2::InCopy => 2,
    }
}

impl WideWord {
    ghost use Rattle.wide_objects.specs.WideWords.{IsWideWord, word_of_wide, wide_word_of, HoldsNoWide};

    /// The word of a wide word, from which [`WideWord::unpack`] gives it again.
    pub fn pack(&self) -> u64
        requires { IsWideWord self.now }
        ensures word { result ≡ word_of_wide self.now }
        ensures packed { result < 3 * 2 ^ 62 }
        ensures unpacks { wide_word_of result ≡ Some self.now }
    {
        (status_code(self.status) << 62) + self.word
    }

    /// The wide word of a word, or `None` where the word is that of none: its status is 3, it has
    /// another bit set beside `InOriginal`, or bits 0 to 61 are not those of a field.
    #[tactic(auto, unfolding(crate::specs::WideWords::wide_word_of, crate::specs::WideWords::word_of_wide))]
    pub fn unpack(word: u64) -> Option<WideWord>
        ensures value { result ≡ wide_word_of word }
        ensures none { IsNone result ↔ HoldsNoWide word }
        ensures fits { IfSome result IsWideWord }
        ensures packs { IfSome result (λ w. word_of_wide w ≡ word) }
    {
        if unpack(word).is_none() {
            return None;
        }
        let low = word % (1 << 62);
        let status = match word / (1 << 62) {
            0 if low == 0 => Status2::InOriginal,
            1 => Status2::InWide,
            2 => Status2::InCopy,
            _ => return None,
        };
        Some(WideWord { status, word: low })
    }
}

/// Whether a pass or the collector may change one wide word into the other: a value that was in the
/// original comes into the wide object, another value takes its place there, that value goes on to the
/// copy, or the release resets the word.
pub fn allowed_change(from: WideWord, to: WideWord) -> bool
    ensures allowed { IsTrue result ↔ AllowedChange from to }
    ensures rises { IsTrue result → RisesOrIsReset from to }
{
    match (from.status, to.status) {
        (Status2::InOriginal | Status2::InWide, Status2::InWide) => true,
        (Status2::InWide, Status2::InCopy) => from.word == to.word,
        (_, Status2::InOriginal) => to.word == 0,
        _ => false,
    }
}

#[cfg(test)]
mod tests {
    use super::*;

    fn wide(status: Status2, word: u64) -> WideWord
        ensures { result ≡ record { status = status; word = word } }
    {
        WideWord { status, word }
    }

    #[test]
    #[tactic(auto, unfolding(heap_words::specs::FieldWords::field_of))]
    fn packs_and_unpacks(rt: HostRuntime) {
        assert_eq!(rt; wide(Status2::InOriginal, 0).pack(), 0);
        assert_eq!(rt; wide(Status2::InWide, 7).pack(), 0x4000_0000_0000_0007);
        assert_eq!(rt; wide(Status2::InCopy, 7).pack(), 0x8000_0000_0000_0007);
        for (word, want) in [
            (0, Some(wide(Status2::InOriginal, 0))),
            (0x4000_0000_0000_0007, Some(wide(Status2::InWide, 7))),
            (0x8000_0000_0000_0007, Some(wide(Status2::InCopy, 7))),
            (0x4000_0000_0000_0000, Some(wide(Status2::InWide, 0))),
            (
                0x6000_0000_0010_0018,
                Some(wide(Status2::InWide, 0x2000_0000_0010_0018)),
            ),
            // The status 3; a value, or a link, in the original; a number with bit 48 and a link with bit 44.
            (0xc000_0000_0000_0007, None),
            (0xc000_0000_0000_0000, None),
            (0x7, None),
            (0x2000_0000_0010_0018, None),
            (0x4001_0000_0000_0000, None),
            (0xa000_1000_0010_0018, None),
        ] {
            assert_eq!(rt; WideWord::unpack(word), want, "at {word}");
        }
    }

    // The greatest number, and the link with the greatest birth number and address.
    #[test]
    #[tactic(auto, unfolding(heap_words::specs::FieldWords::field_of))]
    fn packs_at_every_limit(rt: HostRuntime) {
        let number = 0xffff_ffff_ffff;
        let link = 0x2000_0fff_ffff_ffff;
        assert_eq!(rt; wide(Status2::InWide, number).pack(), 0x4000_ffff_ffff_ffff);
        assert_eq!(rt; wide(Status2::InCopy, number).pack(), 0x8000_ffff_ffff_ffff);
        assert_eq!(rt; wide(Status2::InWide, link).pack(), 0x6000_0fff_ffff_ffff);
        assert_eq!(rt; wide(Status2::InCopy, link).pack(), 0xa000_0fff_ffff_ffff);
        for (word, want) in [
            (0x4000_ffff_ffff_ffff, Some(wide(Status2::InWide, number))),
            (0xa000_0fff_ffff_ffff, Some(wide(Status2::InCopy, link))),
            (0x8000_0000_0000_0000, Some(wide(Status2::InCopy, 0))),
            (0x6000_0000_0000_0000, Some(wide(Status2::InWide, 1 << 61))),
            // One past the greatest number, one past the greatest link, and bits beside InOriginal.
            (0x8001_0000_0000_0000, None),
            (0x6000_1000_0000_0000, None),
            (0x1, None),
            (0xffff_ffff_ffff_ffff, None),
        ] {
            assert_eq!(rt; WideWord::unpack(word), want, "at {word}");
        }
    }

    #[test]
    fn a_status_rises_until_the_release(rt: HostRuntime) {
        let none = wide(Status2::InOriginal, 0);
        let held = wide(Status2::InWide, 7);
        let copied = wide(Status2::InCopy, 7);
        for (from, to, want) in [
            (none, held, true),
            (held, held, true),
            (held, wide(Status2::InWide, 8), true),
            (held, copied, true),
            (none, none, true),
            (held, none, true),
            (copied, none, true),
            (none, copied, false),
            (held, wide(Status2::InCopy, 8), false),
            (held, wide(Status2::InOriginal, 7), false),
            (copied, held, false),
            (copied, copied, false),
        ] {
            assert_eq!(rt; allowed_change(from, to), want);
        }
    }
}
