//! How many regions objects need.

ghost use Rattle.std.specs.Prelude.{◌≡◌, ◌≤◌, ◌<◌, ◌^◌, All, length};
ghost use Rattle.heap_words.specs.Packing.{packing};
ghost use Rattle.heap_words.specs.declared.limits.TheConstants.{MOST_FIELDS};

use heap_words::REGION_WORDS;

/// The number of regions that objects of these lens, 0 to [`MOST_FIELDS`] each, need when they are laid one
/// after another, each its fields and one more word, and one that does not fit begins a new region.
pub fn packing(lens: &[u32]) -> u32
    requires lens { All (λ len. len ≤ MOST_FIELDS) lens.now }
    requires count { length lens.now < 2 ^ 31 }
    ensures { result ≡ packing lens.now }
{
    let mut regions = 0;
    let mut used = REGION_WORDS;
    for &len in lens {
        if used + len + 1 > REGION_WORDS {
            regions += 1;
            used = 0;
        }
        used += len + 1;
    }
    regions
}

#[cfg(test)]
mod tests {
    use super::*;

    #[test]
    fn packs_in_order(rt: HostRuntime) {
        assert_eq!(rt; packing(&[]), 0);
        assert_eq!(rt; packing(&[0]), 1);
        // 31 + 31 words leave 2, which an object without fields fits and one of two fields does not.
        assert_eq!(rt; packing(&[30, 30, 0, 0]), 1);
        assert_eq!(rt; packing(&[30, 30, 2]), 2);
        // No space is used twice: the third of 31 words does not go back.
        assert_eq!(rt; packing(&[30, 30, 30, 0, 0]), 2);
        assert_eq!(rt; packing(&[30, 1, 30, 30]), 2);
    }
}
