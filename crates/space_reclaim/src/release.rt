//! How the space of a region is given again.

ghost use Rattle.std.specs.Prelude.{◌≡◌, ◌↔◌, ◌-◌, ◌+◌, IsSome};
ghost use Rattle.heap_words.specs.Layouts.{IsRegion};

use call_steps::{CallMachine, Machine, Step};
use heap_words::Layout;

/// Where the words of a region are that is given again.
#[derive(Clone, Copy, Debug, PartialEq, Eq)]
pub struct Release {
    /// The address of the last of its 64 words.
    pub last_at: u32,
    /// The address of the word that says what it is used for.
    pub region_at: u32,
}

/// Stores 0 in the 64 words of a region, in rising address, and then Free in its region word. Nobody has
/// any address of that region.
#[derive(Clone, Copy, Debug, PartialEq, Eq)]
pub enum ReleaseMachine {
    /// Stores 0 in a word of the region, after which this many more are to come.
    Clear { release: Release, ahead: u16 },
    /// Stores Free in the region word.
    Free(Release),
    Ended,
}

/// The words of a region after its first.
const WORDS_AFTER_FIRST: u16 = 63;

/// The word of a region that is Free.
const FREE: u64 = 0;

impl Release {
    ghost use Rattle.call_steps.specs.declared.step.Step.TheVariants.{Store};

    /// The store of 0 in the word after which this many more are to come.
    fn clear(&self, ahead: u16) -> Step
        ensures { result ≡ Store (self.now.last_at - ahead) 0 }
    {
        Step::Store {
            at: self.last_at.saturating_sub(u32::from(ahead)),
            put: 0,
        }
    }
}

/// The steps that are left with a word after which this many more are to come.
fn left_with(ahead: u16) -> u32
    ensures { result ≡ ahead + 2 }
{
    u32::from(ahead) + 2
}

impl ReleaseMachine {
    ghost use Rattle.call_steps.specs.declared.step.Step.TheVariants.{Ended};
    ghost use Rattle.space_reclaim.specs.Releases.{release_of, asks_of, left_of, end_of, ReleasesInOrder};

    /// The release of a region.
    pub fn new(layout: &Layout, region: u32) -> ReleaseMachine
        requires { IsRegion layout.now region }
        ensures machine { result ≡ ReleaseMachine.Clear (release_of layout.now region) 63 }
        ensures steps { left_of result ≡ 65 }

        // Each word becomes 0 before the region becomes Free.
        ensures order { ReleasesInOrder layout.now region result }
    {
        let release = Release {
            last_at: layout.first_word(region) + u32::from(WORDS_AFTER_FIRST),
            region_at: layout.region_at(region),
        };
        ReleaseMachine::Clear {
            release,
            ahead: WORDS_AFTER_FIRST,
        }
    }

    /// Whether it has ended, or `None` while it asks for a step.
    pub fn end(&self) -> Option<()>
        ensures value { result ≡ end_of self.now }
        ensures ended { IsSome result ↔ (asks_of self.now ≡ Ended) }
    {
        match *self {
            ReleaseMachine::Ended => Some(()),
            ReleaseMachine::Clear { .. } | ReleaseMachine::Free(_) => None,
        }
    }
}

impl Machine for ReleaseMachine {
    ghost use Rattle.space_reclaim.specs.Releases.{asks_of, fed_of, blind_of};

    ghost asks = { asks_of };

    ghost fed = { fed_of };

    ghost blind = { blind_of };

    fn ask(&self) -> Step {
        match *self {
            ReleaseMachine::Clear { release, ahead } => release.clear(ahead),
            ReleaseMachine::Free(release) => Step::Store {
                at: release.region_at,
                put: FREE,
            },
            ReleaseMachine::Ended => Step::Ended,
        }
    }

    fn feed(&mut self, _found: u64) {
        *self = match *self {
            ReleaseMachine::Clear { release, ahead } if ahead > 0 => ReleaseMachine::Clear {
                release,
                ahead: ahead - 1,
            },
            ReleaseMachine::Clear { release, .. } => ReleaseMachine::Free(release),
            ReleaseMachine::Free(_) | ReleaseMachine::Ended => ReleaseMachine::Ended,
        };
    }
}

impl CallMachine for ReleaseMachine {
    ghost use Rattle.space_reclaim.specs.Releases.{left_of, none_left_of, some_left_of, falls_of};

    ghost steps_left = { left_of };

    ghost none_left = { none_left_of };

    ghost some_left = { some_left_of };

    ghost falls = { falls_of };

    fn left(&self) -> u32 {
        match *self {
            ReleaseMachine::Clear { ahead, .. } => left_with(ahead),
            ReleaseMachine::Free(_) => 1,
            ReleaseMachine::Ended => 0,
        }
    }
}

#[cfg(test)]
mod tests {
    use super::*;
    use std::test::Fail;

    // Of 1 pass with 4 own regions and 8 in the pool region 8 has its word at 20, and its 64 words from 536 to 599.
    #[test]
    fn clears_a_region_and_then_frees_it(rt: HostRuntime) -> Result<(), Fail> {
        let layout = Layout::new(1, 4, 8, 256)?;
        let mut machine = ReleaseMachine::new(&layout, 8);
        assert_eq!(rt; machine.left(), 65);
        for at in 536..600 {
            assert_eq!(rt; machine.ask(), Step::Store { at, put: 0 });
            assert_eq!(rt; machine.end(), None);
            machine.feed(0);
        }
        assert_eq!(rt; machine.ask(), Step::Store { at: 20, put: 0 });
        assert_eq!(rt; machine.left(), 1);
        machine.feed(0);
        assert_eq!(rt; machine.end(), Some(()));
        assert_eq!(rt; machine.left(), 0);
        Ok(())
    }
}
