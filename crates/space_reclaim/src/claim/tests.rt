//! Claims that are played over plain words.

ghost use Rattle.std.specs.Prelude.{◌<◌, ◌↔◌, IsTrue};
ghost use Rattle.call_steps.specs.Steps.{IsInside};

use super::*;
use call_steps::PlainWords;
use std::process::Abort;
use std::test::Fail;

fn is_inside(len: u32, step: Step) -> bool
    ensures { IsTrue result ↔ IsInside len step }
{
    match step {
        Step::Load { at }
        | Step::Store { at, .. }
        | Step::Exchange { at, .. }
        | Step::Add { at, .. }
        | Step::Sub { at, .. } => at < len,
        Step::Ended => true,
    }
}

/// Plays the claim to its end, and gives the number of its steps.
fn play(rt: &impl Abort, words: &mut PlainWords, machine: &mut ClaimMachine) -> u32 {
    for steps in 0..10 {
        let step = machine.ask();
        if matches!(step, Step::Ended) {
            return steps;
        }
        assert!(rt; is_inside(words.len(), step), "{step:?}");
        let found = words.apply(step);
        machine.feed(found);
    }
    10
}

// Of 2 passes with 3 regions each and 4 in the pool the second has the regions 7 to 9, with their words
// at 28 to 30. Each row has the region claimed last, those three words, the number of steps, the end,
// and the three words after it. Taken by pass 2 is 17.
#[test]
fn claims_in_cyclic_order(rt: HostRuntime) -> Result<(), Fail> {
    let layout = Layout::new(2, 3, 4, 5)?;
    let none_free = ClaimEnd::NoneFree { regions: 3 };
    for (last, before, steps, end, after) in [
        (None, [0, 0, 0], 2, ClaimEnd::Claimed(7), [17, 0, 0]),
        (Some(7), [17, 0, 0], 2, ClaimEnd::Claimed(8), [17, 17, 0]),
        (Some(8), [2, 17, 2], 3, none_free, [2, 17, 2]),
        (Some(9), [2, 0, 17], 3, ClaimEnd::Claimed(8), [2, 17, 17]),
        (Some(8), [0, 17, 3], 3, ClaimEnd::Claimed(7), [17, 17, 3]),
    ] {
        let mut words = PlainWords::zeros(rt.alloc(), 31)?;
        assert_eq!(rt; words.len(), 31);
        for (at, put) in [(28, before[0]), (29, before[1]), (30, before[2])] {
            assert!(rt; at < words.len());
            words.apply(Step::Store { at, put });
        }
        let mut machine = ClaimMachine::new(&layout, 2, last);
        assert_eq!(rt;
            play(&rt, &mut words, &mut machine),
            steps,
            "after {last:?}"
        );
        assert_eq!(rt; machine.end(), Some(end), "after {last:?}");
        assert_eq!(rt; words.len(), 31);
        assert_eq!(rt; [words.word(28), words.word(29), words.word(30)], after);
    }
    Ok(())
}

// An exchange that another party's word makes it lose: it goes on with exchanges, and still ends.
#[test]
fn goes_on_after_a_lost_claim(rt: HostRuntime) -> Result<(), Fail> {
    let layout = Layout::new(1, 2, 1, 0)?;
    let mut machine = ClaimMachine::new(&layout, 1, None);
    assert_eq!(rt; machine.left(), 3);
    for (step, found) in [
        (Step::Load { at: 13 }, 0),
        (
            Step::Exchange {
                at: 13,
                want: 0,
                put: 9,
            },
            2,
        ),
        (
            Step::Exchange {
                at: 14,
                want: 0,
                put: 9,
            },
            2,
        ),
    ] {
        assert_eq!(rt; machine.ask(), step);
        assert!(rt; machine.left() > 0);
        machine.feed(found);
    }
    assert_eq!(rt; machine.end(), Some(ClaimEnd::NoneFree { regions: 2 }));
    Ok(())
}
