//! Each call once at each state of the header, with the mark as a value and as a mark, the moves, and what
//! others do in between, on plain words put by hand.

ghost use Rattle.std.specs.Prelude.{◌≡◌, IsSome};
ghost use Rattle.handshakes.specs.PhaseWords.{phase_word_of};

use super::*;
use barriers::{Copier, ExchangeEnd, MoveEnd, ReadEnd, TryRefusal, WriteEnd};
use call_steps::{Machine, OutOfMemory, PlainWords, Step};
use handshakes::{PassView, PhaseWord};
use heap_words::{FieldWord, Layout, pack};
use space_reclaim::MoveJob;
use std::alloc::Global;
use std::process::Abort;
use std::test::Fail;

/// The object of birth number 1 with 8 fields, which is there from the start, and the address of its copy.
const BIRTH: u32 = 1;

const AT: u32 = 15;

const TO: u32 = 79;

/// Its header in each state, `Even`.
const PLAIN: u64 = 0x901;

const MOVING: u64 = 0x278_0000_0905;

const FORWARD: u64 = 0x278_0000_0906;

/// The field of the calls, and its addresses in the original and in the copy.
const FIELD: u32 = 2;

const ORIGINAL: u32 = 18;

const COPY: u32 = 82;

/// The first candidate of the salt 1.
const MARK: u64 = 52_245_546_284_806;

/// The phase words Copy(1, 1), Copy(1, 9), Fix(1, 0), Free(1, 0) and Copy(2, 9).
const SEARCHING: u64 = 0x8_0000_000b;

const COPYING: u64 = 0x48_0000_000b;

const FIXING: u64 = 12;

const FREE: u64 = 8;

const NEXT_CYCLE: u64 = 0x48_0000_0013;

// The only pass, which has acknowledged the last Copy word of cycle 1, and has this mark.
fn view(rt: &impl Abort, mark: u64) -> PassView
    ensures acked { IsSome (phase_word_of result.acked) }
{
    assert!(rt; PhaseWord::unpack(COPYING).is_some());
    PassView {
        pass: 1,
        acked: COPYING,
        mark,
    }
}

// Stores a word.
fn put(rt: &impl Abort, words: &mut PlainWords, at: u32, put: u64) {
    assert!(rt; at < words.len());
    words.apply(Step::Store { at, put });
}

// The word there.
fn word(rt: &impl Abort, words: &PlainWords, at: u32) -> u64 {
    assert!(rt; at < words.len());
    words.word(at)
}

// Words with the original, whose header and field are these, and the copy, whose field holds 4.
fn heap(
    rt: &impl Abort,
    alloc: Global,
    header: u64,
    field: u64,
) -> Result<PlainWords, OutOfMemory> {
    let mut words = PlainWords::zeros(alloc, 88)?;
    put(rt, &mut words, 0, COPYING);
    put(rt, &mut words, AT, header);
    put(rt, &mut words, ORIGINAL, field);
    put(rt, &mut words, TO, PLAIN);
    put(rt, &mut words, COPY, 4);
    Ok(words)
}

// Takes this many steps of the machine, or fewer where it ends before that: how many it took.
fn play<M: Machine>(rt: &impl Abort, words: &mut PlainWords, machine: &mut M, most: u32) -> u32 {
    for steps in 0..most {
        let step = machine.ask();
        match step {
            Step::Load { at } | Step::Store { at, .. } | Step::Exchange { at, .. } => {
                assert!(rt; at < words.len());
                machine.feed(words.apply(step));
            }
            Step::Add { .. } | Step::Sub { .. } | Step::Ended => return steps,
        }
    }
    most
}

// The pass's mark, the header and the original's word, the value, and the steps.
#[test]
fn reads_by_the_header_and_the_mark(rt: HostRuntime) -> Result<(), Fail> {
    let layout = Layout::new(1, 1, 2, 16)?;
    for (mark, header, field, value, steps) in [
        (0, PLAIN, 3, 3, 2),
        (0, PLAIN, MARK, MARK, 2),
        (0, FORWARD, 3, 4, 2),
        (MARK, PLAIN, 3, 3, 2),
        (MARK, PLAIN, MARK, MARK, 3),
        (MARK, MOVING, 3, 3, 2),
        (MARK, MOVING, MARK, 4, 4),
        (MARK, FORWARD, MARK, 4, 2),
    ] {
        let mut words = heap(&rt, rt.alloc(), header, field)?;
        let mut read = Clover::read(&layout, view(&rt, mark), BIRTH, AT, FIELD);
        assert_eq!(rt; Clover::read_end(&read), None);
        assert_eq!(rt; play(&rt, &mut words, &mut read, 20), steps);
        assert_eq!(rt;
            Clover::read_end(&read),
            Some(ReadEnd::Got(FieldWord::Num(value)))
        );
        let mut past = Clover::read(&layout, view(&rt, mark), BIRTH, AT, 8);
        assert_eq!(rt; play(&rt, &mut words, &mut past, 20), 1);
        assert_eq!(rt; Clover::read_end(&past), Some(ReadEnd::NoField { len: 8 }));
    }
    Ok(())
}

// The pass's mark, the header and the original's word, the steps, and what the original and the copy hold
// then.
#[test]
fn writes_by_the_header_and_the_mark(rt: HostRuntime) -> Result<(), Fail> {
    let layout = Layout::new(1, 1, 2, 16)?;
    let seven = pack(FieldWord::Num(7));
    for (mark, header, field, steps, original, copy) in [
        (0, PLAIN, 3, 2, 7, 4),
        (0, FORWARD, 3, 2, 3, 7),
        (MARK, PLAIN, 3, 3, 7, 4),
        (MARK, PLAIN, MARK, 4, 7, 4),
        (MARK, MOVING, 3, 3, 7, 4),
        (MARK, MOVING, MARK, 4, MARK, 7),
        (MARK, FORWARD, MARK, 2, MARK, 7),
    ] {
        let mut words = heap(&rt, rt.alloc(), header, field)?;
        let mut write = Clover::write(&layout, view(&rt, mark), BIRTH, AT, FIELD, seven);
        assert_eq!(rt; Clover::write_end(&write), None);
        assert_eq!(rt; play(&rt, &mut words, &mut write, 20), steps);
        assert_eq!(rt; Clover::write_end(&write), Some(WriteEnd::Wrote));
        assert_eq!(rt; word(&rt, &words, ORIGINAL), original);
        assert_eq!(rt; word(&rt, &words, COPY), copy);
        let mut past = Clover::write(&layout, view(&rt, mark), BIRTH, AT, 8, seven);
        assert_eq!(rt; play(&rt, &mut words, &mut past, 20), 1);
        let none = WriteEnd::Refused(TryRefusal::NoField { len: 8 });
        assert_eq!(rt; Clover::write_end(&past), Some(none));
    }
    Ok(())
}

// The pass's mark, the header and the original's word, the expected number, the steps, the end, and what
// the original and the copy hold then.
#[test]
fn exchanges_by_the_header_and_the_mark(rt: HostRuntime) -> Result<(), Fail> {
    let layout = Layout::new(1, 1, 2, 16)?;
    let seven = pack(FieldWord::Num(7));
    let done = ExchangeEnd::Done;
    let three = ExchangeEnd::Differs(FieldWord::Num(3));
    let four = ExchangeEnd::Differs(FieldWord::Num(4));
    let mark = ExchangeEnd::Differs(FieldWord::Num(MARK));
    for (own, header, field, expected, steps, end, original, copy) in [
        (0, PLAIN, 3, 3, 3, done, 7, 4),
        (0, PLAIN, 3, 5, 2, three, 3, 4),
        (0, FORWARD, 3, 4, 3, done, 3, 7),
        (MARK, PLAIN, 3, 3, 3, done, 7, 4),
        (MARK, PLAIN, MARK, MARK, 4, done, 7, 4),
        (MARK, PLAIN, MARK, 3, 3, mark, MARK, 4),
        (MARK, MOVING, 3, 3, 3, done, 7, 4),
        (MARK, MOVING, MARK, 4, 5, done, MARK, 7),
        (MARK, MOVING, MARK, 3, 4, four, MARK, 4),
        (MARK, FORWARD, MARK, 4, 3, done, MARK, 7),
    ] {
        let mut words = heap(&rt, rt.alloc(), header, field)?;
        let expected = FieldWord::Num(expected);
        let view = view(&rt, own);
        let mut exchange = Clover::exchange(&layout, view, BIRTH, AT, FIELD, expected, seven);
        assert_eq!(rt; Clover::exchange_end(&exchange), None);
        assert_eq!(rt; play(&rt, &mut words, &mut exchange, 20), steps);
        assert_eq!(rt; Clover::exchange_end(&exchange), Some(end));
        assert_eq!(rt; word(&rt, &words, ORIGINAL), original);
        assert_eq!(rt; word(&rt, &words, COPY), copy);
    }
    Ok(())
}

// The move of the object, in whose header the walk found this word.
fn job(header: u64) -> MoveJob {
    MoveJob {
        birth: BIRTH,
        from: AT,
        to: TO,
        wide: 0,
        len: 8,
        header,
    }
}

// Words with the original alone, whose field f holds 20 + f.
fn plain(rt: &impl Abort, alloc: Global) -> Result<PlainWords, OutOfMemory> {
    let mut words = PlainWords::zeros(alloc, 88)?;
    put(rt, &mut words, AT, PLAIN);
    for field in 0..8u32 {
        put(rt, &mut words, AT + 1 + field, 20 + u64::from(field));
    }
    Ok(words)
}

#[test]
fn moves_an_object(rt: HostRuntime) -> Result<(), Fail> {
    let layout = Layout::new(1, 1, 2, 16)?;
    let mut words = plain(&rt, rt.alloc())?;
    let mut mover = Clover::move_one(&layout, job(PLAIN), MARK);
    assert_eq!(rt; Clover::move_end(&mover), None);
    assert_eq!(rt; play(&rt, &mut words, &mut mover, 2), 2);
    assert_eq!(rt; word(&rt, &words, AT), MOVING);
    assert_eq!(rt; play(&rt, &mut words, &mut mover, 40), 25);
    assert_eq!(rt; Clover::move_end(&mover), Some(MoveEnd::Moved));
    assert_eq!(rt; word(&rt, &words, AT), FORWARD);
    assert_eq!(rt; word(&rt, &words, TO), PLAIN);
    for field in 0..8u32 {
        assert_eq!(rt; word(&rt, &words, AT + 1 + field), MARK);
        assert_eq!(rt; word(&rt, &words, TO + 1 + field), 20 + u64::from(field));
    }
    Ok(())
}
