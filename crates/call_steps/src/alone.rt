//! One machine alone on plain words.

ghost use Rattle.std.specs.Prelude.{◌≡◌, List, ℕ, length};
ghost use Rattle.call_steps.specs.declared.step.Step.TheVariants.{Ended};
ghost use Rattle.call_steps.specs.Alone.{RunsAlone};
ghost use Rattle.call_steps.specs.Steps.{IsInside};

use crate::machine::CallMachine;
use crate::plain_words::PlainWords;

/// Does the steps of a machine until it has ended. Wherever its steps lead it, it is to ask for a
/// step on a word that is there.
pub fn run_alone<M: CallMachine>(words: &mut PlainWords, machine: &mut M)
    requires { (m : M) (ws : List ℕ) → RunsAlone M.asks M.fed (machine.old, words.old) (m, ws)
        → IsInside (length ws) (M.asks m) }

    ensures run { RunsAlone M.asks M.fed (machine.old, words.old) (machine.new, words.new) }
    ensures ended { M.asks machine.new ≡ Ended }
{
    'steps: while machine.left() != 0 {
        machine.feed(words.apply(machine.ask()));
    }
}
