//! The table's areas: the phase word, the mark word and the count of greys, the acknowledgements, the
//! root words, the region words, the regions of [`REGION_WORDS`] words each, and the wide area.

ghost use Rattle.std.specs.Prelude.{◌≡◌, ◌<◌, ◌↔◌, IsOk, IfOk};
ghost use Rattle.std.specs.Result.{result_err};

use crate::limits::{MOST_PASSES, MOST_POOL, MOST_QUOTA, MOST_WIDE, REGION_WORDS, REGISTERS};
use std::marker::Model;

/// How many passes, regions and words a table has: 1 to [`MOST_PASSES`] passes, 1 to [`MOST_QUOTA`]
/// regions of its own for each, 1 to [`MOST_POOL`] regions in the pool, and 0 to [`MOST_WIDE`] words in
/// the wide area.
#[derive(Clone, Copy, Debug, PartialEq, Eq)]
pub struct Layout {
    passes: u32,
    quota: u32,
    pool: u32,
    wide: u32,
}

impl Model for Layout {
    ghost use Rattle.heap_words.specs.Layouts.{Sizes, IsLayout};

    ghost Value = { Sizes };

    ghost view = { λ l. record { passes = l.passes; quota = l.quota; pool = l.pool; wide = l.wide } };

    ghost invariant = { λ l. IsLayout (record { passes = l.passes; quota = l.quota; pool = l.pool; wide = l.wide }) };

    ghost inverse = { λ s. record { passes = s.passes; quota = s.quota; pool = s.pool; wide = s.wide } };
}

/// The first number of a layout that is out of its range.
#[derive(Clone, Copy, Debug, PartialEq, Eq)]
pub enum LayoutFault {
    /// The passes are not 1 to [`MOST_PASSES`].
    Passes,
    /// The regions of each pass are not 1 to [`MOST_QUOTA`].
    Quota,
    /// The regions of the pool are not 1 to [`MOST_POOL`].
    Pool,
    /// The words of the wide area are over [`MOST_WIDE`].
    Wide,
}

/// The words that stand alone at the table's start, before the acknowledgements.
const SINGLE_WORDS: u32 = 3;

/// The acknowledgement of a pass and its root words.
const WORDS_OF_PASS: u32 = 1 + REGISTERS as u32;

/// The word that says what a region is used for, and the region's words.
const WORDS_OF_REGION: u32 = 1 + REGION_WORDS;

impl Layout {
    ghost use Rattle.heap_words.specs.Layouts.{Sizes, IsLayout, IsPass, IsRegion, regions_of, words_of};
    ghost use Rattle.heap_words.specs.Layouts.{phase_at, mark_at, greys_at, ack_at, root_at, region_at, first_word, wide_at};
    ghost use Rattle.heap_words.specs.LayoutFaults.{first_fault};
    ghost use Rattle.heap_words.specs.declared.limits.TheConstants.{REGISTERS};
    ghost use Rattle.heap_words.specs.Limits.{AreLimits};
    ghost use Rattle.heap_words.specs.Places.{HasPlacesApart};

    /// The layout of these numbers, or the first of them that is out of its range.
    pub fn new(passes: u32, quota: u32, pool: u32, wide: u32) -> Result<Layout, LayoutFault>
        ensures sizes { IfOk result (λ l. l ≡ record { passes = passes; quota = quota; pool = pool; wide = wide }) }
        ensures fault { result_err result ≡ first_fault (record { passes = passes; quota = quota; pool = pool; wide = wide }) }
        ensures within { IsOk result ↔ IsLayout (record { passes = passes; quota = quota; pool = pool; wide = wide }) }
        // No two areas overlap, and all lie within the table.
        ensures areas { IfOk result HasPlacesApart }

        // The limits are the numbers of the format.
        ensures limits { AreLimits }
    {
        if passes < 1 || passes > MOST_PASSES {
            return Err(LayoutFault::Passes);
        }
        if quota < 1 || quota > MOST_QUOTA {
            return Err(LayoutFault::Quota);
        }
        if pool < 1 || pool > MOST_POOL {
            return Err(LayoutFault::Pool);
        }
        if wide > MOST_WIDE {
            return Err(LayoutFault::Wide);
        }
        Ok(Layout {
            passes,
            quota,
            pool,
            wide,
        })
    }

    /// The number of passes, which count from 1.
    pub fn passes(&self) -> u32
        ensures number { result ≡ self.now.passes }
        ensures within { IsLayout self.now }
    {
        self.passes
    }

    /// The number of regions that each pass has of its own.
    pub fn quota(&self) -> u32
        ensures number { result ≡ self.now.quota }
        ensures within { IsLayout self.now }
    {
        self.quota
    }

    /// The number of regions in the pool, which are those from 0 on.
    pub fn pool(&self) -> u32
        ensures number { result ≡ self.now.pool }
        ensures within { IsLayout self.now }
    {
        self.pool
    }

    /// The number of words in the wide area.
    pub fn wide(&self) -> u32
        ensures number { result ≡ self.now.wide }
        ensures within { IsLayout self.now }
    {
        self.wide
    }

    /// The number of regions: those of the pool, and the quota of each pass. Regions count from 0.
    pub fn regions(&self) -> u32
        ensures number { result ≡ regions_of self.now }
        ensures within { IsLayout self.now }
    {
        self.pool + self.passes * self.quota
    }

    /// The number of words of the table, at most 232,011.
    pub fn words(&self) -> u32
        ensures number { result ≡ words_of self.now }
        ensures within { IsLayout self.now }
    {
        self.wide_at() + self.wide
    }

    /// The address of the phase word.
    pub fn phase_at(&self) -> u32
        ensures number { result ≡ phase_at }
        ensures within { IsLayout self.now }
    {
        // A read of a field, so that the limits are known here.
        let _ = &self.passes;
        0
    }

    /// The address of the mark word.
    pub fn mark_at(&self) -> u32
        ensures number { result ≡ mark_at }
        ensures within { IsLayout self.now }
    {
        self.phase_at() + 1
    }

    /// The address of the count of grey objects.
    pub fn greys_at(&self) -> u32
        ensures number { result ≡ greys_at }
        ensures within { IsLayout self.now }
    {
        self.mark_at() + 1
    }

    /// The address of a pass's acknowledgement.
    pub fn ack_at(&self, pass: u32) -> u32
        requires { IsPass self.now pass }
        ensures number { result ≡ ack_at pass }
        ensures within { IsLayout self.now }
    {
        self.greys_at() + pass
    }

    /// The address of a pass's root word for a register, 0 for `a` to 7 for `h`.
    pub fn root_at(&self, pass: u32, reg: u32) -> u32
        requires pass_in_range { IsPass self.now pass }
        requires reg_in_range { reg < REGISTERS }
        ensures number { result ≡ root_at self.now pass reg }
        ensures within { IsLayout self.now }
    {
        SINGLE_WORDS + self.passes + REGISTERS as u32 * (pass - 1) + reg
    }

    /// The address of the word that says what a region is used for.
    pub fn region_at(&self, region: u32) -> u32
        requires { IsRegion self.now region }
        ensures number { result ≡ region_at self.now region }
        ensures within { IsLayout self.now }
    {
        self.first_region_at() + region
    }

    /// The address of the first of a region's words.
    pub fn first_word(&self, region: u32) -> u32
        requires { IsRegion self.now region }
        ensures number { result ≡ first_word self.now region }
        ensures within { IsLayout self.now }
    {
        self.first_region_at() + self.regions() + REGION_WORDS * region
    }

    /// The address of the first word of the wide area; where that has no words, the table's length.
    pub fn wide_at(&self) -> u32
        ensures number { result ≡ wide_at self.now }
        ensures within { IsLayout self.now }
    {
        self.first_region_at() + WORDS_OF_REGION * self.regions()
    }

    /// The address of the word of region 0.
    fn first_region_at(&self) -> u32
        ensures number { result ≡ region_at self.now 0 }
        ensures within { IsLayout self.now }
    {
        SINGLE_WORDS + WORDS_OF_PASS * self.passes
    }
}

#[cfg(test)]
mod tests {
    use super::*;
    use std::test::Fail;

    #[test]
    fn names_the_first_number_out_of_range(rt: HostRuntime) {
        for (passes, quota, pool, wide, fault) in [
            (0, 1, 1, 0, LayoutFault::Passes),
            (9, 1, 1, 0, LayoutFault::Passes),
            (1, 0, 1, 0, LayoutFault::Quota),
            (1, 257, 1, 0, LayoutFault::Quota),
            (1, 1, 0, 0, LayoutFault::Pool),
            (1, 1, 513, 0, LayoutFault::Pool),
            (1, 1, 1, 65_537, LayoutFault::Wide),
        ] {
            assert_eq!(rt; Layout::new(passes, quota, pool, wide), Err(fault));
        }
    }

    #[test]
    fn lays_out_the_largest_table(rt: HostRuntime) -> Result<(), Fail> {
        let layout = Layout::new(8, 256, 512, 65_536)?;
        assert_eq!(rt; layout.words(), 232_011);
        assert_eq!(rt; layout.regions(), 2_560);
        assert_eq!(rt; layout.wide_at(), 166_475);
        Ok(())
    }

    #[test]
    fn lays_out_a_small_table(rt: HostRuntime) -> Result<(), Fail> {
        let layout = Layout::new(2, 3, 4, 5)?;
        for (at, want) in [
            (layout.passes(), 2),
            (layout.quota(), 3),
            (layout.pool(), 4),
            (layout.wide(), 5),
            (layout.phase_at(), 0),
            (layout.mark_at(), 1),
            (layout.greys_at(), 2),
            (layout.ack_at(2), 4),
            (layout.root_at(1, 0), 5),
            (layout.root_at(2, 7), 20),
            (layout.region_at(9), 30),
            (layout.first_word(0), 31),
            (layout.first_word(9), 607),
            (layout.wide_at(), 671),
            (layout.words(), 676),
        ] {
            assert_eq!(rt; at, want);
        }
        Ok(())
    }
}
