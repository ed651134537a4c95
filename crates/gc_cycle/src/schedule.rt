//! Which party takes the next step.

ghost use Rattle.std.specs.Prelude.{◌≡◌, ◌<◌, length, nat_lt, find, Contains};
ghost use Rattle.gc_cycle.specs.Schedules.{lowest, next_after, drawn, chooser_of, chosen_by};

use rand_core::utils::NextWord;
use rand_pcg::Lcg128Xsl64;

/// Which party takes the next step, among those that can step.
#[derive(Clone, Copy, Debug, PartialEq, Eq)]
pub enum Schedule {
    /// The lowest.
    Solo,
    /// Each in turn: the lowest above the one that stepped last, and where there is none, the lowest.
    Even,
    /// The one that the generator of this number draws.
    Drawn(u64),
}

/// Steps were spent and a party has not ended.
#[derive(Clone, Copy, Debug, PartialEq, Eq)]
pub struct StepsSpent {
    pub n: u64,
}

/// Where a schedule is. Parties count from 1, and before the first step of `Even` the last is 0.
#[derive(Drop)]
pub enum Chooser {
    Solo,
    Even { last: u32 },
    Drawn(Lcg128Xsl64),
}

impl Chooser {
    pub fn new(schedule: Schedule) -> Chooser
        ensures { result ≡ chooser_of schedule }
    {
        match schedule {
            Schedule::Solo => Chooser::Solo,
            Schedule::Even => Chooser::Even { last: 0 },
            Schedule::Drawn(number) => Chooser::Drawn(Lcg128Xsl64::new(number as u128, 2)),
        }
    }

    /// The party that takes the next step, of those that can, in rising order.
    pub fn choose(&mut self, ready: &[u32]) -> u32
        requires { 0 < length ready.now }
        ensures chosen { (result, self.new) ≡ chosen_by self.old ready.now }
        ensures ready { Contains ready.now result }
    {
        match self {
            Chooser::Solo => ready[0],
            Chooser::Even { last } => {
                let party = party_after(*last, ready);
                *last = party;
                party
            }
            Chooser::Drawn(generator) => party_drawn(generator.next_word(), ready),
        }
    }
}

/// The lowest party above `last`, and where there is none, the lowest.
fn party_after(last: u32, ready: &[u32]) -> u32
    requires { 0 < length ready.now }
    ensures { result ≡ next_after last ready.now }
{
    match first_above(last, ready) {
        Some(party) => party,
        None => ready[0],
    }
}

fn first_above(last: u32, ready: &[u32]) -> Option<u32>
    ensures { result ≡ find (λ party. nat_lt last party) ready.now }
{
    ready.iter().copied().find(|party| last < *party)
}

/// The party that a word draws.
fn party_drawn(word: u64, ready: &[u32]) -> u32
    requires { 0 < length ready.now }
    ensures { result ≡ drawn word ready.now }
{
    let place = word % ready.len() as u64;
    ready[place as usize]
}
