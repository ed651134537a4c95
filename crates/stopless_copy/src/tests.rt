//! Each call once at each state of the header and of the wide word, the moves, and what others do in
//! between, on plain words put by hand.

ghost use Rattle.std.specs.Prelude.{◌≡◌, IsSome};
ghost use Rattle.handshakes.specs.PhaseWords.{phase_word_of};

use super::*;
use barriers::{Copier, ExchangeEnd, Front, MoveEnd, ReadEnd, TryRefusal, Watched, WriteEnd};
use call_steps::{CallMachine, Machine, OutOfMemory, PlainWords, Step};
use handshakes::{PassView, PhaseWord};
use heap_words::{FieldWord, Layout, pack};
use space_reclaim::MoveJob;
use std::alloc::Global;
use std::process::Abort;
use std::test::Fail;

/// The object of birth number 1 with 8 fields, which is there from the start, and the addresses of its
/// copy and of its wide object.
const BIRTH: u32 = 1;

const AT: u32 = 15;

const TO: u32 = 79;

const WIDE_AT: u32 = 207;

/// Its header in each state, `Even`.
const PLAIN: u64 = 0x901;

const KEPT: u64 = 0x902;

const TAGGED: u64 = 0x903;

const WIDE: u64 = 0x678_0000_0904;

const FORWARD: u64 = 0x278_0000_0906;

const DEAD: u64 = 0x907;

/// The field of the calls, and its addresses in the original, in the copy and in the wide object.
const FIELD: u32 = 2;

const ORIGINAL: u32 = 18;

const COPY: u32 = 82;

const WORD: u32 = 210;

/// Wide words: of a value that is in the original, of numbers, and of links to the object, by its old
/// address and by its new one.
const AT_REST: u64 = 0;

const FIVE: u64 = 0x4000_0000_0000_0005;

const SIX: u64 = 0x4000_0000_0000_0006;

const SEVEN: u64 = 0x4000_0000_0000_0007;

const EIGHT: u64 = 0x4000_0000_0000_0008;

const COPIED: u64 = 0x8000_0000_0000_0003;

const HERE: u64 = 0x2000_0000_0010_000f;

const THERE: u64 = 0x2000_0000_0010_004f;

const WIDE_HERE: u64 = 0x6000_0000_0010_000f;

const WIDE_THERE: u64 = 0x6000_0000_0010_004f;

/// The phase words of Free and of Fix in cycle 1.
const FREE: u64 = 8;

const FIX: u64 = 12;

// The only pass, which has acknowledged this word.
fn view(rt: &impl Abort, acked: u64) -> PassView
    ensures acked { IsSome (phase_word_of result.acked) }
{
    assert!(rt; PhaseWord::unpack(acked).is_some());
    PassView {
        pass: 1,
        acked,
        mark: 0,
    }
}

// Stores a word.
fn put(rt: &impl Abort, words: &mut PlainWords, at: u32, put: u64) {
    assert!(rt; at < words.len());
    words.apply(Step::Store { at, put });
}

// The word there.
fn word(rt: &impl Abort, words: &PlainWords, at: u32) -> u64 {
    assert!(rt; at < words.len());
    words.word(at)
}

// Words with the original, whose header is this one and whose field holds 3, the copy, whose field holds
// 4, and the wide object, with the copy's address and this wide word.
fn heap(rt: &impl Abort, alloc: Global, header: u64, wide: u64) -> Result<PlainWords, OutOfMemory> {
    let mut words = PlainWords::zeros(alloc, 216)?;
    put(rt, &mut words, AT, header);
    put(rt, &mut words, ORIGINAL, 3);
    put(rt, &mut words, TO, PLAIN);
    put(rt, &mut words, COPY, 4);
    put(rt, &mut words, WIDE_AT, u64::from(TO));
    put(rt, &mut words, WORD, wide);
    Ok(words)
}

// The words of the field: the original's, the wide one and the copy's.
fn field(rt: &impl Abort, words: &PlainWords) -> [u64; 3] {
    [
        word(rt, words, ORIGINAL),
        word(rt, words, WORD),
        word(rt, words, COPY),
    ]
}

// Takes this many steps of the machine, or fewer where it ends before that: how many it took.
fn play<M: Machine>(rt: &impl Abort, words: &mut PlainWords, machine: &mut M, most: u32) -> u32 {
    for steps in 0..most {
        let step = machine.ask();
        match step {
            Step::Load { at } | Step::Store { at, .. } | Step::Exchange { at, .. } => {
                assert!(rt; at < words.len());
                machine.feed(words.apply(step));
            }
            Step::Add { .. } | Step::Sub { .. } | Step::Ended => return steps,
        }
    }
    most
}

// A write that is raced so, an exchange, and one that differs.
fn write_raced(loaded: u64, found: u64) -> WriteEnd {
    WriteEnd::Refused(TryRefusal::Raced { loaded, found })
}

fn raced(loaded: u64, found: u64) -> ExchangeEnd {
    ExchangeEnd::Refused(TryRefusal::Raced { loaded, found })
}

fn differs(number: u64) -> ExchangeEnd {
    ExchangeEnd::Differs(FieldWord::Num(number))
}

// The header, the wide word, and the steps and the value of the read.
#[test]
fn reads_by_header_and_status(rt: HostRuntime) -> Result<(), Fail> {
    let layout = Layout::new(1, 1, 2, 16)?;
    for (header, wide, steps, value) in [
        (PLAIN, AT_REST, 2, 3),
        (KEPT, AT_REST, 2, 3),
        (TAGGED, AT_REST, 2, 3),
        (WIDE, AT_REST, 3, 3),
        (WIDE, FIVE, 2, 5),
        (WIDE, COPIED, 4, 4),
        (FORWARD, COPIED, 2, 4),
    ] {
        let mut words = heap(&rt, rt.alloc(), header, wide)?;
        let mut read = Stopless::read(&layout, view(&rt, FREE), BIRTH, AT, FIELD);
        assert_eq!(rt; Stopless::read_end(&read), None);
        assert_eq!(rt; play(&rt, &mut words, &mut read, 20), steps);
        assert_eq!(rt;
            Stopless::read_end(&read),
            Some(ReadEnd::Got(FieldWord::Num(value)))
        );
        assert_eq!(rt; field(&rt, &words), [3, wide, 4]);
        let mut past = Stopless::read(&layout, view(&rt, FREE), BIRTH, AT, 8);
        assert_eq!(rt; play(&rt, &mut words, &mut past, 20), 1);
        assert_eq!(rt;
            Stopless::read_end(&past),
            Some(ReadEnd::NoField { len: 8 })
        );
    }
    Ok(())
}

// The header and the wide word, the steps, the header after, and the words of the field then.
#[test]
fn writes_by_header_and_status(rt: HostRuntime) -> Result<(), Fail> {
    let layout = Layout::new(1, 1, 2, 16)?;
    let seven = pack(FieldWord::Num(7));
    for (header, wide, steps, after, words_after) in [
        (PLAIN, AT_REST, 2, PLAIN, [7, AT_REST, 4]),
        (KEPT, AT_REST, 2, KEPT, [7, AT_REST, 4]),
        (TAGGED, AT_REST, 3, KEPT, [7, AT_REST, 4]),
        (WIDE, AT_REST, 3, WIDE, [3, SEVEN, 4]),
        (WIDE, FIVE, 3, WIDE, [3, SEVEN, 4]),
        (WIDE, COPIED, 4, WIDE, [3, COPIED, 7]),
        (FORWARD, COPIED, 2, FORWARD, [3, COPIED, 7]),
    ] {
        let mut words = heap(&rt, rt.alloc(), header, wide)?;
        let mut write = Stopless::write(&layout, view(&rt, FREE), BIRTH, AT, FIELD, seven);
        assert_eq!(rt; Stopless::write_end(&write), None);
        assert_eq!(rt; play(&rt, &mut words, &mut write, 20), steps);
        assert_eq!(rt; Stopless::write_end(&write), Some(WriteEnd::Wrote));
        assert_eq!(rt; word(&rt, &words, AT), after);
        assert_eq!(rt; field(&rt, &words), words_after);
        let mut past = Stopless::write(&layout, view(&rt, FREE), BIRTH, AT, 8, seven);
        assert_eq!(rt; play(&rt, &mut words, &mut past, 20), 1);
        let none = WriteEnd::Refused(TryRefusal::NoField { len: 8 });
        assert_eq!(rt; Stopless::write_end(&past), Some(none));
    }
    Ok(())
}

// The header and the wide word, the expected number, the steps, the end, the header after, and the words
// of the field then.
#[test]
fn exchanges_by_header_and_status(rt: HostRuntime) -> Result<(), Fail> {
    let layout = Layout::new(1, 1, 2, 16)?;
    let seven = pack(FieldWord::Num(7));
    for (header, wide, expected, steps, end, after, words_after) in [
        (
            PLAIN,
            AT_REST,
            3,
            3,
            ExchangeEnd::Done,
            PLAIN,
            [7, AT_REST, 4],
        ),
        (KEPT, AT_REST, 5, 2, differs(3), KEPT, [3, AT_REST, 4]),
        (
            TAGGED,
            AT_REST,
            3,
            4,
            ExchangeEnd::Done,
            KEPT,
            [7, AT_REST, 4],
        ),
        (WIDE, AT_REST, 3, 4, ExchangeEnd::Done, WIDE, [3, SEVEN, 4]),
        (WIDE, AT_REST, 5, 3, differs(3), WIDE, [3, AT_REST, 4]),
        (WIDE, FIVE, 5, 3, ExchangeEnd::Done, WIDE, [3, SEVEN, 4]),
        (WIDE, FIVE, 3, 2, differs(5), WIDE, [3, FIVE, 4]),
        (WIDE, COPIED, 4, 5, ExchangeEnd::Done, WIDE, [3, COPIED, 7]),
        (WIDE, COPIED, 3, 4, differs(4), WIDE, [3, COPIED, 4]),
        (
            FORWARD,
            COPIED,
            4,
            3,
            ExchangeEnd::Done,
            FORWARD,
            [3, COPIED, 7],
        ),
    ] {
        let mut words = heap(&rt, rt.alloc(), header, wide)?;
        let expected = FieldWord::Num(expected);
        let mut exchange = Stopless::exchange(
            &layout,
            view(&rt, FREE),
            BIRTH,
            AT,
            FIELD,
            expected,
            seven,
        );
        assert_eq!(rt; Stopless::exchange_end(&exchange), None);
        assert_eq!(rt; play(&rt, &mut words, &mut exchange, 20), steps);
        assert_eq!(rt; Stopless::exchange_end(&exchange), Some(end));
        assert_eq!(rt; word(&rt, &words, AT), after);
        assert_eq!(rt; field(&rt, &words), words_after);
    }
    Ok(())
}

// The move of the object, in whose header the plan found this word.
fn job(header: u64) -> MoveJob {
    MoveJob {
        birth: BIRTH,
        from: AT,
        to: TO,
        wide: WIDE_AT,
        len: 8,
        header,
    }
}

// Words with the original alone, `Tagged`, whose field f holds 20 + f.
fn tagged(rt: &impl Abort, alloc: Global) -> Result<PlainWords, OutOfMemory> {
    let mut words = PlainWords::zeros(alloc, 216)?;
    put(rt, &mut words, AT, TAGGED);
    for field in 0..8u32 {
        put(rt, &mut words, AT + 1 + field, 20 + u64::from(field));
    }
    Ok(words)
}

#[test]
fn moves_an_object(rt: HostRuntime) -> Result<(), Fail> {
    let layout = Layout::new(1, 1, 2, 16)?;
    let mut words = tagged(&rt, rt.alloc())?;
    let mut copy = Stopless::move_one(&layout, job(PLAIN), 0);
    assert_eq!(rt; Stopless::move_end(&copy), None);
    assert_eq!(rt; play(&rt, &mut words, &mut copy, 60), 44);
    assert_eq!(rt; Stopless::move_end(&copy), Some(MoveEnd::Moved));
    assert_eq!(rt; word(&rt, &words, AT), FORWARD);
    assert_eq!(rt; word(&rt, &words, TO), PLAIN);
    assert_eq!(rt; word(&rt, &words, WIDE_AT), u64::from(TO));
    for field in 0..8u32 {
        let value = 20 + u64::from(field);
        assert_eq!(rt; word(&rt, &words, TO + 1 + field), value);
        assert_eq!(rt; word(&rt, &words, WIDE_AT + 1 + field), (2 << 62) + value);
    }
    Ok(())
}
