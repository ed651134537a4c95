//! A call as single steps.

ghost use Rattle.std.specs.Prelude.{◌≡◌, ◌≢◌, ℕ, ◌<◌};
ghost use Rattle.call_steps.specs.declared.step.Step.{Step};
ghost use Rattle.call_steps.specs.declared.step.Step.TheVariants.{Store, Ended};

use crate::step::Step;

/// A machine asks for one step at a time, and is fed the word that the step found. It touches no
/// word itself, so the same machine is played over plain words and over words that threads share.
pub trait Machine {
    /// The step that is wanted next.
    ghost asks: { Self → Step };

    /// The machine after it was fed a word.
    ghost fed: { Self → ℕ → Self };

    /// The step that is wanted next. It stays the same until the machine is fed.
    fn ask(&self) -> Step
        ensures { result ≡ asks self.now };

    /// Goes on from the word that stood there before the step.
    fn feed(&mut self, found: u64)
        requires { asks self.old ≢ Ended }
        ensures { self.new ≡ fed self.old found };

    /// After a store a machine goes on alike for every word that it is fed: a store of shared words
    /// tells nothing, and 0 is fed there.
    ghost blind: { (m : Self) (at put n : ℕ) → asks m ≡ Store at put → fed m n ≡ fed m 0 };
}

/// A machine that ends after a bounded number of steps, whatever it is fed.
pub trait CallMachine: Machine {
    /// A bound on the steps that are left.
    ghost steps_left: { Self → ℕ };

    /// A bound on the steps that are left: 0 exactly where the machine has ended.
    fn left(&self) -> u32
        ensures { result ≡ steps_left self.now };

    /// Where the machine has ended, no step is left.
    ghost none_left: { (m : Self) → Self.asks m ≡ Ended → steps_left m ≡ 0 };

    /// Where no step is left, the machine has ended.
    ghost some_left: { (m : Self) → steps_left m ≡ 0 → Self.asks m ≡ Ended };

    /// Each word that it is fed lowers the bound.
    ghost falls: { (m : Self) (n : ℕ) → Self.asks m ≢ Ended
        → steps_left (Self.fed m n) < steps_left m };
}
