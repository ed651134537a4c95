//! What the word of a region says, and the word that it is packed into.

ghost use Rattle.std.specs.Prelude.{◌≡◌, ◌<◌, ◌^◌, ◌↔◌, IsNone, IfSome};

/// What a region is used for.
#[derive(Clone, Copy, Debug, PartialEq, Eq)]
pub enum RegionWord {
    /// Nobody has it, and its words are 0.
    Free,
    /// The pass of this number, below 32, makes its objects there.
    Taken(u32),
    /// It has objects, and nobody makes further ones there.
    Filled,
    /// Its objects are being copied away.
    Source,
    /// Copies are being made there.
    Target,
}

impl RegionWord {
    ghost use Rattle.space_reclaim.specs.RegionWords.{IsRegionWord, word_of_region, region_word_of, HoldsNoRegion};

    /// The word of a region, from which [`RegionWord::unpack`] gives it again.
    #[tactic(auto, unfolding(crate::specs::RegionWords::word_of_region, crate::specs::RegionWords::region_word_of))]
    pub fn pack(&self) -> u64
        requires { IsRegionWord self.now }
        ensures word { result ≡ word_of_region self.now }
        ensures packed { result < 2 ^ 8 }
        ensures unpacks { region_word_of result ≡ Some self.now }
    {
        match *self {
            RegionWord::Free => 0,
            RegionWord::Taken(pass) => 1 + (u64::from(pass) << 3),
            RegionWord::Filled => 2,
            RegionWord::Source => 3,
            RegionWord::Target => 4,
        }
    }

    /// What a word says of a region, or `None` where it is the word of none.
    #[tactic(auto, unfolding(crate::specs::RegionWords::region_word_of, crate::specs::RegionWords::word_of_region))]
    pub fn unpack(word: u64) -> Option<RegionWord>
        ensures value { result ≡ region_word_of word }
        ensures none { IsNone result ↔ HoldsNoRegion word }
        ensures fits { IfSome result IsRegionWord }
        ensures packs { IfSome result (λ r. word_of_region r ≡ word) }
    {
        match word {
            0 => Some(RegionWord::Free),
            2 => Some(RegionWord::Filled),
            3 => Some(RegionWord::Source),
            4 => Some(RegionWord::Target),
            _ if word % (1 << 3) == 1 && word / (1 << 8) == 0 => {
                Some(RegionWord::Taken((word / (1 << 3) % (1 << 5)) as u32))
            }
            _ => None,
        }
    }
}

#[cfg(test)]
mod tests {
    use super::*;

    #[test]
    fn packs_and_unpacks(rt: HostRuntime) {
        assert_eq!(rt; RegionWord::Taken(31).pack(), 0xf9);
        for (word, want) in [
            (0x0, Some(RegionWord::Free)),
            (0x1, Some(RegionWord::Taken(0))),
            (0x9, Some(RegionWord::Taken(1))),
            (0xf9, Some(RegionWord::Taken(31))),
            (0x2, Some(RegionWord::Filled)),
            (0x3, Some(RegionWord::Source)),
            (0x4, Some(RegionWord::Target)),
            (0x5, None),
            (0xf, None),
            (0x101, None),
            (0x100, None),
            (0x8, None),
            (0xa, None),
            (0xfc, None),
        ] {
            assert_eq!(rt; RegionWord::unpack(word), want, "at {word}");
        }
    }
}
