//! How a pass claims a region of its own.

ghost use Rattle.std.specs.Prelude.{◌≡◌, ◌<◌, ◌≤◌, ◌+◌, ◌^◌};
ghost use Rattle.std.specs.Option.{ForSome};

use crate::region_word::RegionWord;
use call_steps::{CallMachine, Machine, Step};
use heap_words::Layout;

/// Where a pass is on the round of its own regions.
#[derive(Clone, Copy, Debug, PartialEq, Eq)]
pub struct Round {
    /// The address of the word of region 0.
    pub words_at: u32,
    /// The address of the word of the pass's first region.
    pub first_at: u32,
    /// The address of the word of the pass's last region.
    pub last_at: u32,
    /// The address of the word that is looked at.
    pub at: u32,
    /// How many regions of the round come after the one that is looked at.
    pub ahead: u16,
    /// How many regions the pass has.
    pub regions: u32,
    /// The word of a region that the pass has taken.
    pub taken: u64,
}

impl Round {
    ghost use Rattle.heap_words.specs.Layouts.{IsLayout, IsPass, IsRegion};
    ghost use Rattle.space_reclaim.specs.Claims.{round_of, next_round, region_of};

    /// The round of a pass that begins after the region `last`, or at its first where that is `None` or
    /// none of its own.
    fn of_pass(layout: &Layout, pass: u32, last: Option<u32>) -> Round
        requires pass { IsPass layout.now pass }
        requires last { ForSome last (IsRegion layout.now) }
        ensures round { result ≡ round_of layout.now pass last }
        ensures within { IsLayout layout.now }
    {
        let first_own = layout.pool() + (pass - 1) * layout.quota();
        let last_own = first_own + (layout.quota() - 1);
        let begins_at = match last {
            Some(region) if first_own <= region && region < last_own => region + 1,
            _ => first_own,
        };
        Round {
            words_at: layout.region_at(0),
            first_at: layout.region_at(first_own),
            last_at: layout.region_at(last_own),
            at: layout.region_at(begins_at),
            ahead: (layout.quota() - 1) as u16,
            regions: layout.quota(),
            taken: RegionWord::Taken(pass).pack(),
        }
    }

    /// The region that is looked at.
    fn region(&self) -> u32
        ensures { result ≡ region_of self.now }
    {
        self.at.saturating_sub(self.words_at)
    }

    /// How many regions are left with the one that is looked at.
    fn left(self) -> u32
        ensures value { result ≡ self.ahead + 1 }
        ensures small { result ≤ 2 ^ 16 }
    {
        u32::from(self.ahead) + 1
    }

    /// The round at the next region; after the last comes the first.
    fn next(&self) -> Round
        requires { 0 < self.now.ahead }
        ensures { result ≡ next_round self.now }
    {
        Round {
            at: if self.at < self.last_at {
                self.at + 1
            } else {
                self.first_at
            },
            ahead: self.ahead - 1,
            ..*self
        }
    }
}

/// How the claim of a region ends.
#[derive(Clone, Copy, Debug, PartialEq, Eq)]
pub enum ClaimEnd {
    /// This region was Free, and is now the pass's.
    Claimed(u32),
    /// Each of the pass's own regions, of which there are this many, was found in use.
    NoneFree { regions: u32 },
}

/// Loads the words of a pass's own regions on its round of them. At the first that is Free it exchanges
/// that word for the one of a region that the pass has taken. Only the pass itself takes regions of its
/// own, so that exchange is not lost; if it were, the machine would go on with exchanges at the regions
/// that are left. So it ends after one step more than the pass has regions.
#[derive(Clone, Copy, Debug, PartialEq, Eq)]
pub enum ClaimMachine {
    Look(Round),
    Claim(Round),
    Ended(ClaimEnd),
}

/// The word of a region that is Free.
const FREE: u64 = 0;

impl ClaimMachine {
    ghost use Rattle.std.specs.Prelude.{◌↔◌, IsSome};
    ghost use Rattle.call_steps.specs.declared.step.Step.TheVariants.{Ended};
    ghost use Rattle.heap_words.specs.Layouts.{IsPass, IsRegion};
    ghost use Rattle.space_reclaim.specs.declared.claim.ClaimMachine.TheVariants.{Look};
    ghost use Rattle.space_reclaim.specs.Claims.{round_of, asks_of, left_of, end_of};
    ghost use Rattle.space_reclaim.specs.ClaimRuns.{EndsWithCause};

    /// The claim of a pass that claimed the region `last` before, or none. It begins after that region, if
    /// it is one of the pass's own, and else at the first.
    pub fn new(layout: &Layout, pass: u32, last: Option<u32>) -> ClaimMachine
        requires pass { IsPass layout.now pass }
        requires last { ForSome last (IsRegion layout.now) }
        ensures machine { result ≡ Look (round_of layout.now pass last) }
        ensures steps { left_of result ≤ layout.now.quota + 1 }

        // It claims a region only by an exchange that found Free, and none is free only where each of
        // the pass's own was found in use.
        ensures cause { EndsWithCause layout.now pass result }
    {
        ClaimMachine::Look(Round::of_pass(layout, pass, last))
    }

    /// How it ended, or `None` while it asks for a step.
    pub fn end(&self) -> Option<ClaimEnd>
        ensures value { result ≡ end_of self.now }
        ensures ended { IsSome result ↔ (asks_of self.now ≡ Ended) }
    {
        match *self {
            ClaimMachine::Ended(end) => Some(end),
            ClaimMachine::Look(_) | ClaimMachine::Claim(_) => None,
        }
    }
}

impl Machine for ClaimMachine {
    ghost use Rattle.space_reclaim.specs.Claims.{asks_of, fed_of, blind_of};

    ghost asks = { asks_of };

    ghost fed = { fed_of };

    ghost blind = { blind_of };

    fn ask(&self) -> Step {
        match *self {
            ClaimMachine::Look(round) => Step::Load { at: round.at },
            ClaimMachine::Claim(round) => Step::Exchange {
                at: round.at,
                want: FREE,
                put: round.taken,
            },
            ClaimMachine::Ended(_) => Step::Ended,
        }
    }

    fn feed(&mut self, found: u64) {
        *self = match *self {
            ClaimMachine::Look(round) if found == FREE => ClaimMachine::Claim(round),
            ClaimMachine::Claim(round) if found == FREE => {
                ClaimMachine::Ended(ClaimEnd::Claimed(round.region()))
            }
            ClaimMachine::Look(round) if round.ahead > 0 => ClaimMachine::Look(round.next()),
            ClaimMachine::Claim(round) if round.ahead > 0 => ClaimMachine::Claim(round.next()),
            ClaimMachine::Look(round) | ClaimMachine::Claim(round) => {
                ClaimMachine::Ended(ClaimEnd::NoneFree {
                    regions: round.regions,
                })
            }
            ClaimMachine::Ended(end) => ClaimMachine::Ended(end),
        };
    }
}

impl CallMachine for ClaimMachine {
    ghost use Rattle.space_reclaim.specs.Claims.{left_of, none_left_of, some_left_of, falls_of};

    ghost steps_left = { left_of };

    ghost none_left = { none_left_of };

    ghost some_left = { some_left_of };

    ghost falls = { falls_of };

    fn left(&self) -> u32 {
        match *self {
            ClaimMachine::Look(round) => round.left() + 1,
            ClaimMachine::Claim(round) => round.left(),
            ClaimMachine::Ended(_) => 0,
        }
    }
}

#[cfg(test)]
mod tests;
