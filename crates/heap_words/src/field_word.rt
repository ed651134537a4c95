//! What one field of an object holds, and the word that it is packed into.

ghost use Rattle.std.specs.Prelude.{◌≡◌, ◌<◌, ◌^◌, ◌↔◌, IsNone, IfSome};
ghost use Rattle.heap_words.specs.FieldWords.{word_of, field_of, is_same_value, IsFieldWord, HoldsNoField};

/// A number below 2^48, or a link: the birth number of an object, below 2^24, and the address at
/// which the object was when the link was made, below 2^20.
#[derive(Clone, Copy, Debug, PartialEq, Eq)]
pub enum FieldWord {
    Num(u64),
    Link { birth: u32, at: u32 },
}

/// Bit 61 tells a link from a number.
const LINK: u64 = 1 << 61;

/// The word of a field. It has bits 62 and 63 clear, and [`unpack`] gives the field again.
#[tactic(auto, unfolding(crate::specs::FieldWords::word_of))]
pub fn pack(w: FieldWord) -> u64
    requires { IsFieldWord w }
    ensures word { result ≡ word_of w }
    ensures packed { result < 2 ^ 62 }
    ensures unpacks { field_of result ≡ Some w }
{
    match w {
        FieldWord::Num(n) => n,
        FieldWord::Link { birth, at } => LINK + (u64::from(birth) << 20) + u64::from(at),
    }
}

/// What bits 0 to 61 of a word hold, or `None` where they are neither a number nor a link. Bits 62
/// and 63 may be any.
#[tactic(auto, unfolding(crate::specs::FieldWords::field_of))]
pub fn unpack(word: u64) -> Option<FieldWord>
    ensures value { result ≡ field_of word }
    ensures none { IsNone result ↔ HoldsNoField word }
    ensures fits { IfSome result IsFieldWord }
{
    if word / LINK % 2 == 0 {
        if word / (1 << 48) % (1 << 13) != 0 {
            return None;
        }
        return Some(FieldWord::Num(word % (1 << 48)));
    }
    if word / (1 << 44) % (1 << 17) != 0 {
        return None;
    }
    Some(FieldWord::Link {
        birth: (word / (1 << 20) % (1 << 24)) as u32,
        at: (word % (1 << 20)) as u32,
    })
}

/// Whether both hold one value: two equal numbers, or two links to one object.
pub fn same_value(a: FieldWord, b: FieldWord) -> bool
    ensures { result ≡ is_same_value a b }
{
    match (a, b) {
        (FieldWord::Num(m), FieldWord::Num(n)) => m == n,
        (FieldWord::Link { birth, .. }, FieldWord::Link { birth: other, .. }) => birth == other,
        _ => false,
    }
}

#[cfg(test)]
mod tests {
    use super::*;

    #[test]
    fn packs_and_unpacks(rt: HostRuntime) {
        let link = FieldWord::Link { birth: 1, at: 24 };
        assert_eq!(rt; pack(FieldWord::Num(5)), 0x5);
        assert_eq!(rt; pack(link), 0x2000_0000_0010_0018);
        assert!(rt; same_value(link, FieldWord::Link { birth: 1, at: 97 }));
        for (word, want) in [
            (0x5, Some(FieldWord::Num(5))),
            (0x2000_0000_0010_0018, Some(link)),
            (0xe000_0000_0010_0018, Some(link)),
            (0xc000_0000_0000_0005, Some(FieldWord::Num(5))),
            (0x0001_0000_0000_0000, None),
            (0x1000_0000_0000_0000, None),
            (0x2000_1000_0000_0000, None),
            (0x3000_0000_0010_0018, None),
        ] {
            assert_eq!(rt; unpack(word), want, "at {word}");
        }
    }
}
