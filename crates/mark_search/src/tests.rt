//! The first draws, and searches of words put by hand.

use super::*;
use call_steps::{Machine, OutOfMemory, PlainWords, Step};
use heap_words::Layout;
use std::alloc::Global;
use std::process::Abort;
use std::test::Fail;

/// The first candidate of the salt 1.
const MARK: u64 = 52_245_546_284_806;

// Stores a word.
fn put(rt: &impl Abort, words: &mut PlainWords, at: u32, put: u64) {
    assert!(rt; at < words.len());
    words.apply(Step::Store { at, put });
}

// Takes this many steps of the search, or fewer where it ends before that: how many it took.
fn play(rt: &impl Abort, words: &mut PlainWords, seek: &mut SeekMarkMachine, most: u32) -> u32 {
    for steps in 0..most {
        let Step::Load { at } = seek.ask() else {
            return steps;
        };
        assert!(rt; at < words.len());
        seek.feed(words.apply(Step::Load { at }));
    }
    most
}

// The first draws of the salt 1.
#[test]
fn draws_candidates(rt: HostRuntime) {
    let mut candidates = Candidates::new(1);
    assert_eq!(rt; candidates.last(), 0);
    for drawn in [
        52_245_546_284_806,
        10_655_524_108_031,
        221_021_922_147_337,
        2_279_383_572_887,
        2_118_945_423_177,
        176_092_554_572_926,
        249_096_715_120_665,
        33_101_435_500_597,
    ] {
        assert_eq!(rt; candidates.next(), drawn);
        assert_eq!(rt; candidates.draw(), drawn);
        assert_eq!(rt; candidates.last(), drawn);
    }
}

// The table of three regions, whose words are at 12, 13 and 14, and whose own words begin at 15, 79 and
// 143, with these words in it.
fn regions(
    rt: &impl Abort,
    alloc: Global,
    entries: &[(u32, u64)],
) -> Result<PlainWords, OutOfMemory> {
    let mut words = PlainWords::zeros(alloc, 207)?;
    for (at, entry) in entries.iter().copied() {
        put(rt, &mut words, at, entry);
    }
    Ok(words)
}

// Headers, all `Plain` and `Even`: birth number 1 with 8 fields, 2 with 2, 3 with 30, 4 with 1; and birth
// number 2 with 2 fields, `Dead`.
const PLAIN: u64 = 0x901;

const OF_TWO: u64 = 0x1041;

const OF_THIRTY: u64 = 0x1bc1;

const OF_ONE: u64 = 0x2021;

const DEAD: u64 = 0x1047;

const FILLED: u64 = 2;

// The mark in the last field of the last object; and the common object is before it.
#[test]
fn finds_the_mark_in_the_last_field(rt: HostRuntime) -> Result<(), Fail> {
    let layout = Layout::new(1, 1, 2, 0)?;
    let entries = [
        (12, FILLED),
        (15, PLAIN),
        (14, FILLED),
        (143, OF_TWO),
        (145, MARK),
    ];
    let mut words = regions(&rt, rt.alloc(), &entries)?;
    let mut seek = SeekMarkMachine::new(&layout, MARK);
    assert_eq!(rt; play(&rt, &mut words, &mut seek, 15), 15);
    assert_eq!(rt; seek.end(), None);
    assert_eq!(rt; play(&rt, &mut words, &mut seek, 20), 1);
    let found = MarkFound { at: 143, field: 1 };
    assert_eq!(rt; seek.end(), Some(SeekEnd::MarkFound(found)));
    Ok(())
}

// Region 0 is full: two objects of 30 fields and one of 1. The word after it is the header of region 1's
// object, and that is no object of region 0.
#[test]
fn ends_a_full_region(rt: HostRuntime) -> Result<(), Fail> {
    let layout = Layout::new(1, 1, 2, 0)?;
    let entries = [
        (12, FILLED),
        (15, OF_THIRTY),
        (46, OF_THIRTY),
        (77, OF_ONE),
        (13, FILLED),
        (79, OF_ONE),
    ];
    let mut words = regions(&rt, rt.alloc(), &entries)?;
    let mut seek = SeekMarkMachine::new(&layout, MARK);
    assert_eq!(rt; play(&rt, &mut words, &mut seek, 100), 70);
    assert_eq!(rt; seek.end(), Some(SeekEnd::Clear));
    Ok(())
}

// Two dead objects hold the mark, and are passed over.
#[test]
fn passes_over_dead_objects(rt: HostRuntime) -> Result<(), Fail> {
    let layout = Layout::new(1, 1, 2, 0)?;
    let entries = [
        (12, FILLED),
        (15, DEAD),
        (16, MARK),
        (18, DEAD),
        (20, MARK),
        (21, OF_ONE),
    ];
    let mut words = regions(&rt, rt.alloc(), &entries)?;
    let mut seek = SeekMarkMachine::new(&layout, MARK);
    assert_eq!(rt; play(&rt, &mut words, &mut seek, 100), 8);
    assert_eq!(rt; seek.end(), Some(SeekEnd::Clear));
    Ok(())
}
