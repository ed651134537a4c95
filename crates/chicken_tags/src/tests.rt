//! Each call once at each state of the header, the moves, and what others do in between, on plain words put
//! by hand.

ghost use Rattle.std.specs.Prelude.{◌≡◌, IsSome};
ghost use Rattle.handshakes.specs.PhaseWords.{phase_word_of};

use super::*;
use barriers::{Copier, ExchangeEnd, MoveEnd, ReadEnd, TryRefusal, WriteEnd};
use call_steps::{Machine, OutOfMemory, PlainWords, Step};
use handshakes::{PassView, PhaseWord};
use heap_words::{FieldWord, Layout, pack};
use space_reclaim::MoveJob;
use std::alloc::Global;
use std::process::Abort;
use std::test::Fail;

/// The object of birth number 1 with 8 fields, which is there from the start, and the address of its copy.
const BIRTH: u32 = 1;

const AT: u32 = 15;

const TO: u32 = 79;

/// Its header in each state, `Even`.
const PLAIN: u64 = 0x901;

const KEPT: u64 = 0x902;

const TAGGED: u64 = 0x903;

const FORWARD: u64 = 0x278_0000_0906;

const DEAD: u64 = 0x907;

/// The field of the calls, and its addresses in the original and in the copy.
const FIELD: u32 = 2;

const ORIGINAL: u32 = 18;

const COPY: u32 = 82;

/// The phase word of Free in cycle 1.
const FREE: u64 = 8;

// The only pass, which has acknowledged Free.
fn view(rt: &impl Abort) -> PassView
    ensures acked { IsSome (phase_word_of result.acked) }
{
    assert!(rt; PhaseWord::unpack(FREE).is_some());
    PassView {
        pass: 1,
        acked: FREE,
        mark: 0,
    }
}

// Stores a word.
fn put(rt: &impl Abort, words: &mut PlainWords, at: u32, put: u64) {
    assert!(rt; at < words.len());
    words.apply(Step::Store { at, put });
}

// The word there.
fn word(rt: &impl Abort, words: &PlainWords, at: u32) -> u64 {
    assert!(rt; at < words.len());
    words.word(at)
}

// Words with the original, whose header is this one and whose field holds 3, and the copy, whose field
// holds 4.
fn heap(rt: &impl Abort, alloc: Global, header: u64) -> Result<PlainWords, OutOfMemory> {
    let mut words = PlainWords::zeros(alloc, 88)?;
    put(rt, &mut words, AT, header);
    put(rt, &mut words, ORIGINAL, 3);
    put(rt, &mut words, TO, PLAIN);
    put(rt, &mut words, COPY, 4);
    Ok(words)
}

// Takes this many steps of the machine, or fewer where it ends before that: how many it took.
fn play<M: Machine>(rt: &impl Abort, words: &mut PlainWords, machine: &mut M, most: u32) -> u32 {
    for steps in 0..most {
        let step = machine.ask();
        match step {
            Step::Load { at } | Step::Store { at, .. } | Step::Exchange { at, .. } => {
                assert!(rt; at < words.len());
                machine.feed(words.apply(step));
            }
            Step::Add { .. } | Step::Sub { .. } | Step::Ended => return steps,
        }
    }
    most
}

#[test]
fn reads_by_the_header(rt: HostRuntime) -> Result<(), Fail> {
    let layout = Layout::new(1, 1, 2, 16)?;
    for (header, value) in [(PLAIN, 3), (KEPT, 3), (TAGGED, 3), (FORWARD, 4)] {
        let mut words = heap(&rt, rt.alloc(), header)?;
        let mut read = Chicken::read(&layout, view(&rt), BIRTH, AT, FIELD);
        assert_eq!(rt; Chicken::read_end(&read), None);
        assert_eq!(rt; play(&rt, &mut words, &mut read, 20), 2);
        assert_eq!(rt;
            Chicken::read_end(&read),
            Some(ReadEnd::Got(FieldWord::Num(value)))
        );
        assert_eq!(rt; word(&rt, &words, AT), header);
        let mut past = Chicken::read(&layout, view(&rt), BIRTH, AT, 8);
        assert_eq!(rt; play(&rt, &mut words, &mut past, 20), 1);
        assert_eq!(rt; Chicken::read_end(&past), Some(ReadEnd::NoField { len: 8 }));
    }
    Ok(())
}

// The header before and after, the steps, and what the original and the copy hold then.
#[test]
fn writes_by_the_header(rt: HostRuntime) -> Result<(), Fail> {
    let layout = Layout::new(1, 1, 2, 16)?;
    let seven = pack(FieldWord::Num(7));
    for (header, after, steps, original, copy) in [
        (PLAIN, PLAIN, 2, 7, 4),
        (KEPT, KEPT, 2, 7, 4),
        (TAGGED, KEPT, 3, 7, 4),
        (FORWARD, FORWARD, 2, 3, 7),
    ] {
        let mut words = heap(&rt, rt.alloc(), header)?;
        let mut write = Chicken::write(&layout, view(&rt), BIRTH, AT, FIELD, seven);
        assert_eq!(rt; Chicken::write_end(&write), None);
        assert_eq!(rt; play(&rt, &mut words, &mut write, 20), steps);
        assert_eq!(rt; Chicken::write_end(&write), Some(WriteEnd::Wrote));
        assert_eq!(rt; word(&rt, &words, AT), after);
        assert_eq!(rt; word(&rt, &words, ORIGINAL), original);
        assert_eq!(rt; word(&rt, &words, COPY), copy);
        let mut past = Chicken::write(&layout, view(&rt), BIRTH, AT, 8, seven);
        assert_eq!(rt; play(&rt, &mut words, &mut past, 20), 1);
        let none = WriteEnd::Refused(TryRefusal::NoField { len: 8 });
        assert_eq!(rt; Chicken::write_end(&past), Some(none));
    }
    Ok(())
}

// The header before and after, the expected number, the steps, the end, and what the original and the
// copy hold then.
#[test]
fn exchanges_by_the_header(rt: HostRuntime) -> Result<(), Fail> {
    let layout = Layout::new(1, 1, 2, 16)?;
    let seven = pack(FieldWord::Num(7));
    let four = ExchangeEnd::Differs(FieldWord::Num(4));
    let three = ExchangeEnd::Differs(FieldWord::Num(3));
    for (header, after, expected, steps, end, original, copy) in [
        (PLAIN, PLAIN, 3, 3, ExchangeEnd::Done, 7, 4),
        (PLAIN, PLAIN, 5, 2, three, 3, 4),
        (KEPT, KEPT, 3, 3, ExchangeEnd::Done, 7, 4),
        (TAGGED, KEPT, 3, 4, ExchangeEnd::Done, 7, 4),
        (FORWARD, FORWARD, 4, 3, ExchangeEnd::Done, 3, 7),
        (FORWARD, FORWARD, 3, 2, four, 3, 4),
    ] {
        let mut words = heap(&rt, rt.alloc(), header)?;
        let expected = FieldWord::Num(expected);
        let mut exchange = Chicken::exchange(&layout, view(&rt), BIRTH, AT, FIELD, expected, seven);
        assert_eq!(rt; Chicken::exchange_end(&exchange), None);
        assert_eq!(rt; play(&rt, &mut words, &mut exchange, 20), steps);
        assert_eq!(rt; Chicken::exchange_end(&exchange), Some(end));
        assert_eq!(rt; word(&rt, &words, AT), after);
        assert_eq!(rt; word(&rt, &words, ORIGINAL), original);
        assert_eq!(rt; word(&rt, &words, COPY), copy);
    }
    Ok(())
}

// The move of the object, in whose header the plan found this word.
fn job(header: u64) -> MoveJob {
    MoveJob {
        birth: BIRTH,
        from: AT,
        to: TO,
        wide: 0,
        len: 8,
        header,
    }
}

// Words with the original alone, `Tagged`, whose field f holds 20 + f.
fn tagged(rt: &impl Abort, alloc: Global) -> Result<PlainWords, OutOfMemory> {
    let mut words = PlainWords::zeros(alloc, 88)?;
    put(rt, &mut words, AT, TAGGED);
    for field in 0..8u32 {
        put(rt, &mut words, AT + 1 + field, 20 + u64::from(field));
    }
    Ok(words)
}

#[test]
fn moves_an_object(rt: HostRuntime) -> Result<(), Fail> {
    let layout = Layout::new(1, 1, 2, 16)?;
    let mut words = tagged(&rt, rt.alloc())?;
    let mut copy = Chicken::move_one(&layout, job(PLAIN), 0);
    assert_eq!(rt; Chicken::move_end(&copy), None);
    assert_eq!(rt; play(&rt, &mut words, &mut copy, 40), 18);
    assert_eq!(rt; Chicken::move_end(&copy), Some(MoveEnd::Moved));
    assert_eq!(rt; word(&rt, &words, AT), FORWARD);
    assert_eq!(rt; word(&rt, &words, TO), PLAIN);
    for field in 0..8u32 {
        assert_eq!(rt; word(&rt, &words, TO + 1 + field), 20 + u64::from(field));
    }
    Ok(())
}
