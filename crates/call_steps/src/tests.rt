//! Steps on a few words, and a machine that is played alone.

ghost use Rattle.std.specs.Prelude.{◌≡◌, ℕ, ◌<◌, ◌↔◌, IsTrue};
ghost use Rattle.std.proofs.Common.{refl, arith, lit<};
ghost use Rattle.call_steps.specs.declared.step.Step.TheVariants.{Add, Ended};
ghost use Rattle.call_steps.specs.declared.tests.Counting.TheVariants.{Twice, Once, Done};
ghost use Rattle.call_steps.specs.Steps.{IsInside};

use super::*;
use std::test::Fail;

/// The largest word.
const LAST: u64 = u64::MAX;

fn is_inside(len: u32, step: Step) -> bool
    ensures { IsTrue result ↔ IsInside len step }
{
    match step {
        Step::Load { at }
        | Step::Store { at, .. }
        | Step::Exchange { at, .. }
        | Step::Add { at, .. }
        | Step::Sub { at, .. } => at < len,
        Step::Ended => true,
    }
}

// Each step, the word that it finds, and the two words after it.
#[test]
fn steps_on_two_words(rt: HostRuntime) -> Result<(), Fail> {
    let mut words = PlainWords::zeros(rt.alloc(), 2)?;
    assert_eq!(rt; words.len(), 2);
    for (step, found, after) in [
        (Step::Store { at: 1, put: 7 }, 0, [0, 7]),
        (Step::Load { at: 1 }, 7, [0, 7]),
        (Step::Load { at: 0 }, 0, [0, 7]),
        (Step::Store { at: 1, put: 8 }, 7, [0, 8]),
        (
            Step::Exchange {
                at: 1,
                want: 8,
                put: 9,
            },
            8,
            [0, 9],
        ),
        (
            Step::Exchange {
                at: 1,
                want: 8,
                put: 5,
            },
            9,
            [0, 9],
        ),
        (Step::Sub { at: 0, by: 1 }, 0, [LAST, 9]),
        (Step::Add { at: 0, by: 1 }, LAST, [0, 9]),
        (Step::Add { at: 1, by: 3 }, 9, [0, 12]),
        (Step::Sub { at: 1, by: 2 }, 12, [0, 10]),
        (Step::Ended, 0, [0, 10]),
    ] {
        assert!(rt; is_inside(words.len(), step), "{step:?}");
        assert_eq!(rt; words.apply(step), found, "found by {step:?}");
        assert_eq!(rt; words.len(), 2);
        assert_eq!(rt; [words.word(0), words.word(1)], after, "after {step:?}");
    }
    Ok(())
}

/// Adds 1 to the word at 0, twice.
#[derive(Clone, Copy)]
enum Counting {
    Twice,
    Once,
    Done,
}

impl Machine for Counting {
    ghost asks = { elim [ Twice ↦ Add 0 1 | Once ↦ Add 0 1 | Done ↦ Ended ] };

    ghost fed = { elim [ Twice ↦ λ found. Once | Once ↦ λ found. Done | Done ↦ λ found. Done ] };

    ghost blind = { elim [
      | Twice ↦ λ at put n is. refl
      | Once ↦ λ at put n is. refl
      | Done ↦ λ at put n is. refl
    ] };

    fn ask(&self) -> Step {
        match self {
            Counting::Twice | Counting::Once => Step::Add { at: 0, by: 1 },
            Counting::Done => Step::Ended,
        }
    }

    fn feed(&mut self, _found: u64) {
        *self = match *self {
            Counting::Twice => Counting::Once,
            Counting::Once | Counting::Done => Counting::Done,
        };
    }
}

impl CallMachine for Counting {
    ghost steps_left = { elim [ Twice ↦ 2 | Once ↦ 1 | Done ↦ 0 ] };

    ghost none_left = { elim [
      | Twice ↦ λ ended. Prim.cc
      | Once ↦ λ ended. Prim.cc
      | Done ↦ λ ended. refl
    ] };

    ghost some_left = { elim [
      | Twice ↦ λ none. absurd (Prim.omega arith)
      | Once ↦ λ none. absurd (Prim.omega arith)
      | Done ↦ λ none. refl
    ] };

    ghost falls = { elim [
      | Twice ↦ λ n on. lit< tt
      | Once ↦ λ n on. lit< tt
      | Done ↦ λ n on. absurd (on refl)
    ] };

    fn left(&self) -> u32 {
        match self {
            Counting::Twice => 2,
            Counting::Once => 1,
            Counting::Done => 0,
        }
    }
}

// One machine alone runs to its end.
#[test]
fn one_machine_ends(rt: HostRuntime) -> Result<(), Fail> {
    let mut words = PlainWords::zeros(rt.alloc(), 1)?;
    let mut machine = Counting::Twice;
    run_alone(&mut words, &mut machine);
    assert_eq!(rt; machine.left(), 0);
    assert_eq!(rt; words.len(), 1);
    assert_eq!(rt; words.word(0), 2);
    Ok(())
}
