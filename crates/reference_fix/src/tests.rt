//! Links fixed by hand, with another party's step in between.

ghost use Rattle.std.specs.Prelude.{◌<◌, ◌↔◌, ◌≡◌, IsTrue, length};
ghost use Rattle.call_steps.specs.Steps.{IsInside};

use super::*;
use call_steps::{CallMachine, Machine, PlainWords, Step};
use heap_words::Layout;
use std::alloc::{AllocError, Global};
use std::process::Abort;
use std::test::Fail;

/// Links to `#0.1` where it was, at 15, and to its copy at 79.
const LEFT: u64 = 0x2000_0000_0010_000f;

const COPIED: u64 = 0x2000_0000_0010_004f;

/// The header of `#0.1`: `Plain`, and `Forward` to 79.
const PLAIN: u64 = 0x901;

const FORWARD: u64 = 0x278_0000_090e;

/// Of 1 pass with 2 own regions and 1 in the pool: the root words 4 to 11, and region 0 from 15 to 78.
const AT: u32 = 15;

/// Does one step of the machine, if it asks for one that is there.
fn step<M: CallMachine>(rt: &impl Abort, words: &mut PlainWords, machine: &mut M) -> Step {
    let step = machine.ask();
    match step {
        Step::Load { at } | Step::Store { at, .. } | Step::Exchange { at, .. } => {
            assert!(rt; at < words.len());
            assert!(rt; machine.left() != 0);
            machine.feed(words.apply(step));
        }
        Step::Add { .. } | Step::Sub { .. } | Step::Ended => assert_eq!(rt; machine.left(), 0),
    }
    step
}

/// Puts a word.
fn put(rt: &impl Abort, words: &mut PlainWords, at: u32, word: u64) {
    assert!(rt; at < words.len());
    words.apply(Step::Store { at, put: word });
}

/// The header of `#0.1`, and a word that is to be fixed.
fn words_with(
    rt: &impl Abort,
    alloc: Global,
    header: u64,
    at: u32,
    word: u64,
) -> Result<PlainWords, AllocError> {
    let mut words = PlainWords::zeros(alloc, 24)?;
    put(rt, &mut words, AT, header);
    put(rt, &mut words, at, word);
    Ok(words)
}

// The header, the word of field 0, the number of steps, and the word after them.
#[test]
fn fixes_a_field(rt: HostRuntime) -> Result<(), Fail> {
    let layout = Layout::new(1, 2, 1, 0)?;
    for (header, word, steps, after) in [
        (FORWARD, LEFT, 3, COPIED),
        (PLAIN, LEFT, 2, LEFT),
        (FORWARD, 15, 1, 15),
    ] {
        let mut words = words_with(&rt, rt.alloc(), header, 16, word)?;
        let mut machine = FixMachine::new(&layout, 16);
        for _ in 0..steps {
            assert_eq!(rt; machine.end(), None);
            step(&rt, &mut words, &mut machine);
        }
        assert_eq!(rt; machine.end(), Some(()));
        assert_eq!(rt; words.len(), 24);
        assert_eq!(rt; words.word(16), after);
    }
    Ok(())
}

// Another party writes 7 before the exchange, which loses.
#[test]
fn leaves_a_field_that_changed(rt: HostRuntime) -> Result<(), Fail> {
    let layout = Layout::new(1, 2, 1, 0)?;
    let mut words = words_with(&rt, rt.alloc(), FORWARD, 16, LEFT)?;
    let mut machine = FixMachine::new(&layout, 16);
    assert_eq!(rt; step(&rt, &mut words, &mut machine), Step::Load { at: 16 });
    assert_eq!(rt; step(&rt, &mut words, &mut machine), Step::Load { at: 15 });
    put(&rt, &mut words, 16, 7);
    assert_eq!(rt;
        step(&rt, &mut words, &mut machine),
        Step::Exchange {
            at: 16,
            want: LEFT,
            put: COPIED
        }
    );
    assert_eq!(rt; machine.end(), Some(()));
    assert_eq!(rt; words.len(), 24);
    assert_eq!(rt; words.word(16), 7);
    Ok(())
}

// The root word of `h` stands at 11, that of `a` at 4.
#[test]
fn fixes_a_root_word(rt: HostRuntime) -> Result<(), Fail> {
    let layout = Layout::new(1, 2, 1, 0)?;
    for (reg, at, header, word, steps, after) in [
        (7, 11, FORWARD, LEFT, 3, COPIED),
        (0, 4, PLAIN, LEFT, 2, LEFT),
        (0, 4, FORWARD, 15, 1, 15),
    ] {
        let mut words = words_with(&rt, rt.alloc(), header, at, word)?;
        let mut machine = RootFixMachine::new(&layout, 1, reg);
        for _ in 0..steps {
            assert_eq!(rt; machine.end(), None);
            step(&rt, &mut words, &mut machine);
        }
        assert_eq!(rt; machine.end(), Some(()));
        assert!(rt; words.len() == 24 && at < 24);
        assert_eq!(rt; words.word(at), after);
    }
    Ok(())
}

// Of 1 pass with 1 own region and 2 in the pool, whose words begin at 15, 79 and 143: `#0.1` has moved from the
// first word of region 0 to that of region 1, and an object with two fields stands in region 2. A field of each
// leads to where `#0.1` was.
#[test]
fn walks_through_all_fields(rt: HostRuntime) -> Result<(), Fail> {
    let layout = Layout::new(1, 1, 2, 0)?;
    let mut words = PlainWords::zeros(rt.alloc(), 207)?;
    for (at, word) in [
        (12, 2),
        (15, FORWARD),
        (16, LEFT),
        (13, 2),
        (79, PLAIN),
        (80, LEFT),
        (14, 2),
        (143, 0x1041),
        (144, 7),
        (145, LEFT),
    ] {
        put(&rt, &mut words, at, word);
    }
    let mut machine = FixWalkMachine::new(&layout);
    for _ in 0..23 {
        assert_eq!(rt; machine.end(), None);
        match machine.ask() {
            Step::Load { at } | Step::Exchange { at, .. } => assert!(rt; at < words.len()),
            Step::Store { .. } | Step::Add { .. } | Step::Sub { .. } | Step::Ended => {
                assert!(rt; false)
            }
        }
        machine.feed(words.apply(machine.ask()));
    }
    assert_eq!(rt; machine.end(), Some(()));
    assert!(rt; words.len() == 207);
    for (at, word) in [(16, LEFT), (80, COPIED), (144, 7), (145, COPIED)] {
        assert!(rt; at < 207);
        assert_eq!(rt; words.word(at), word);
    }
    Ok(())
}
