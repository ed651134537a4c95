//! The draws of marks, by number.

ghost use Rattle.std.specs.Prelude.{◌≡◌, ◌<◌, ◌↔◌};
ghost use Rattle.heap_words.specs.declared.limits.TheConstants.{NUMBER_LIMIT};
ghost use Rattle.mark_search.specs.Draws as draws;

use heap_words::NUMBER_LIMIT;
use rand_core::utils::NextWord;
use rand_pcg::Lcg128Xsl64;

/// The candidates for the marks of a run, one after another: of each word of the generator that a salt
/// begins the low 48 bits, and 1 where these are 0. It keeps how many were drawn, and no generator.
#[derive(Clone, Copy, Debug, PartialEq, Eq)]
pub struct Candidates {
    salt: u64,
    drawn: u32,
}

// The candidate of this salt that is drawn after this many others.
#[tactic(auto, unfolding(crate::specs::Draws::candidate_at))]
fn candidate_at(salt: u64, drawn: u32) -> u64
    ensures value { result ≡ draws.candidate_at salt drawn }
    ensures some { 0 < result }
    ensures number { result < NUMBER_LIMIT }
{
    let mut generator = Lcg128Xsl64::new(u128::from(salt), 1);
    generator.advance(u128::from(drawn));
    let low = generator.next_word() % NUMBER_LIMIT;
    if low == 0 { 1 } else { low }
}

impl Candidates {
    /// The candidates of this salt, from the first on.
    pub fn new(salt: u64) -> Candidates
        ensures { result ≡ draws.candidates_of salt }
    {
        Candidates { salt, drawn: 0 }
    }

    /// The candidate that is drawn next: a number other than 0.
    pub fn next(&self) -> u64
        ensures value { result ≡ draws.next_of self.now }
        ensures some { 0 < result }
        ensures number { result < NUMBER_LIMIT }
    {
        candidate_at(self.salt, self.drawn)
    }

    /// The candidate of the last draw that was counted, and 0 before the first.
    pub fn last(&self) -> u64
        ensures value { result ≡ draws.last_of self.now }
        ensures none { (result ≡ 0) ↔ draws.IsUndrawn self.now }
        ensures number { result < NUMBER_LIMIT }
    {
        if self.drawn == 0 {
            0
        } else {
            candidate_at(self.salt, self.drawn - 1)
        }
    }

    /// Draws the next candidate, and counts it: the count stays at `u32::MAX`.
    pub fn draw(&mut self) -> u64
        ensures value { result ≡ draws.next_of self.old }
        ensures drawn { self.new ≡ draws.drawn_on self.old }
        ensures some { 0 < result }
        ensures number { result < NUMBER_LIMIT }
    {
        let next = self.next();
        self.drawn = self.drawn.saturating_add(1);
        next
    }
}
