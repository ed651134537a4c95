//! Walks over words put by hand.

ghost use Rattle.std.specs.Prelude.{◌≡◌};

use super::*;
use call_steps::{Machine, OutOfMemory, PlainWords, Step};
use heap_words::Layout;
use space_reclaim::{ObjectRow, RegionLive};
use std::alloc::Global;
use std::process::Abort;
use std::test::Fail;

// The table of three regions, of which the pool has two. Their words are at 12, 13 and 14, and their own words
// begin at 15, 79 and 143. These words are in it.
fn regions(
    rt: &impl Abort,
    alloc: Global,
    entries: &[(u32, u64)],
) -> Result<PlainWords, OutOfMemory> {
    let mut words = PlainWords::zeros(alloc, 207)?;
    for (at, put) in entries.iter().copied() {
        assert!(rt; at < words.len());
        words.apply(Step::Store { at, put });
    }
    Ok(words)
}

// Walks the words to the end, and gives the number of steps.
fn walk(rt: &impl Abort, words: &mut PlainWords, layout: &Layout, noted: &mut Noted) -> u32
    requires { noted.old.layout ≡ layout.now }
{
    let mut machine = NoteMachine::new(layout);
    noted.clear();
    for steps in 0..200 {
        let Step::Load { at } = machine.ask() else {
            return steps;
        };
        assert!(rt; at < words.len());
        let found = words.apply(Step::Load { at });
        noted.note(&machine, found);
        machine.feed(found);
    }
    200
}

// Headers, all `Plain` and `Even`: birth number 1 with 8 fields, 2 with 2, 3 with 30, 4 with 1; and birth
// number 2 with 2 fields, `Dead`.
const PLAIN: u64 = 0x901;

const OF_TWO: u64 = 0x1041;

const OF_THIRTY: u64 = 0x1bc1;

const OF_ONE: u64 = 0x2021;

const DEAD: u64 = 0x1047;

const FILLED: u64 = 2;

// The word of a region that pass 1 has taken.
const TAKEN: u64 = 9;

fn object(region: u32, birth: u32, at: u32, len: u32, header: u64) -> ObjectRow {
    ObjectRow {
        region,
        birth,
        at,
        len,
        header,
    }
}

// Region 0 has a dead object between two others, region 1 is free, and region 2 is taken, so its object is not
// noted.
#[test]
fn notes_filled_regions(rt: HostRuntime) -> Result<(), Fail> {
    let layout = Layout::new(1, 1, 2, 0)?;
    let entries = [
        (12, FILLED),
        (15, PLAIN),
        (24, DEAD),
        (27, OF_ONE),
        (14, TAKEN),
        (143, OF_TWO),
    ];
    let mut words = regions(&rt, rt.alloc(), &entries)?;
    let mut noted = Noted::with_room(rt.alloc(), &layout)?;
    assert_eq!(rt; walk(&rt, &mut words, &layout, &mut noted), 9);
    let live = [RegionLive {
        region: 0,
        words: 11,
    }];
    assert_eq!(rt; noted.live(), live.as_slice());
    let objects = [object(0, 1, 15, 8, PLAIN), object(0, 4, 27, 1, OF_ONE)];
    assert_eq!(rt; noted.objects(), objects.as_slice());
    assert_eq!(rt; noted.pool_free(), [1].as_slice());
    Ok(())
}

// Region 0 is full: two objects of 30 fields and one of 1. Region 1 is filled and empty. Region 2 is free, and not
// one of the pool.
#[test]
fn notes_full_and_empty_regions(rt: HostRuntime) -> Result<(), Fail> {
    let layout = Layout::new(1, 1, 2, 0)?;
    let entries = [
        (12, FILLED),
        (15, OF_THIRTY),
        (46, OF_THIRTY),
        (77, OF_ONE),
        (13, FILLED),
    ];
    let mut words = regions(&rt, rt.alloc(), &entries)?;
    let mut noted = Noted::with_room(rt.alloc(), &layout)?;
    assert_eq!(rt; walk(&rt, &mut words, &layout, &mut noted), 7);
    let live = [
        RegionLive {
            region: 0,
            words: 64,
        },
        RegionLive {
            region: 1,
            words: 0,
        },
    ];
    assert_eq!(rt; noted.live(), live.as_slice());
    let objects = [
        object(0, 3, 15, 30, OF_THIRTY),
        object(0, 3, 46, 30, OF_THIRTY),
        object(0, 4, 77, 1, OF_ONE),
    ];
    assert_eq!(rt; noted.objects(), objects.as_slice());
    assert!(rt; noted.pool_free().is_empty());
    Ok(())
}
