//! A machine of a call, with what its steps see.

ghost use Rattle.std.specs.Prelude.{◌≡◌, ℕ};
ghost use Rattle.barriers.specs.declared.front.Front.{Front};

use crate::front::Front;
use call_steps::CallMachine;

/// A machine of a call, which tells what each step makes of the changes that its pass has seen.
pub trait Watched: CallMachine {
    /// What its step makes of that, where it finds this word and changes nothing.
    ghost front: { Self → ℕ → Front };

    /// What its step makes of that, where it finds this word and changes nothing.
    fn front(&self, found: u64) -> Front
        ensures { result ≡ front self.now found };
}
