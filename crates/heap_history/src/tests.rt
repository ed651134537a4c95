//! Sessions whose replies were worked out by hand.

use crate::{Call, CheckFault, Entry, FixedHeap, Reply, Value, check_history};
use std::test::Fail;

/// The opening object, the first object of pass 1, one that is never made, and the last that pass 1 can make.
const OPENING: u32 = 1;

const FIRST: u32 = 524_289;

const MISSING: u32 = 524_290;

const LAST: u32 = 786_432;

fn new(birth: u32, len: u32) -> Call {
    Call::NewObject {
        pass: 1,
        birth,
        len,
    }
}

fn read(object: u32, field: u32) -> Call {
    Call::Read {
        pass: 1,
        object,
        field,
    }
}

fn write(object: u32, field: u32, value: Value) -> Call {
    Call::Write {
        pass: 1,
        object,
        field,
        value,
    }
}

fn exchange(field: u32, expected: Value, value: Value) -> Call {
    Call::Exchange {
        pass: 1,
        object: FIRST,
        field,
        expected,
        value,
    }
}

#[test]
fn a_session(rt: HostRuntime) -> Result<(), Fail> {
    let mut heap = FixedHeap::opening(rt.alloc());
    for (call, reply) in [
        (read(OPENING, 7), Reply::Got(Value::Num(0))),
        (new(FIRST, 2), Reply::Made),
        (write(FIRST, 0, Value::Num(5)), Reply::Wrote),
        (read(FIRST, 0), Reply::Got(Value::Num(5))),
        (read(FIRST, 1), Reply::Got(Value::Num(0))),
        (
            exchange(0, Value::Num(6), Value::Num(7)),
            Reply::Differs(Value::Num(5)),
        ),
        (
            exchange(0, Value::Num(5), Value::Object(OPENING)),
            Reply::Done,
        ),
        // An expected value may name an object that is not there.
        (
            exchange(0, Value::Object(MISSING), Value::Num(7)),
            Reply::Differs(Value::Object(OPENING)),
        ),
        (new(LAST, 0), Reply::Made),
    ] {
        assert_eq!(rt; heap.apply(call)?, reply);
    }
    assert_eq!(rt; heap.look(FIRST, 0), Some(Value::Object(OPENING)));
    assert_eq!(rt; heap.look(LAST, 0), None);
    Ok(())
}

#[test]
fn what_is_not_there(rt: HostRuntime) -> Result<(), Fail> {
    let mut heap = FixedHeap::opening(rt.alloc());
    assert_eq!(rt; heap.apply(new(FIRST, 2))?, Reply::Made);
    for call in [
        read(MISSING, 0),
        read(FIRST, 2),
        read(OPENING, 8),
        write(FIRST, 2, Value::Num(5)),
        write(FIRST, 0, Value::Object(MISSING)),
        exchange(2, Value::Num(0), Value::Num(5)),
        exchange(0, Value::Num(9), Value::Object(MISSING)),
        // Birth numbers: one that is there, the first of pass 2, and those just before and after pass 1.
        new(FIRST, 2),
        new(1_048_577, 2),
        new(524_288, 2),
        new(786_433, 2),
    ] {
        assert_eq!(rt; heap.apply(call)?, Reply::NotThere);
    }
    assert_eq!(rt; heap.look(FIRST, 0), Some(Value::Num(0)));
    Ok(())
}

#[test]
fn checks(rt: HostRuntime) -> Result<(), Fail> {
    let made = Entry {
        call: new(FIRST, 2),
        reply: Reply::Made,
    };
    let wrote = Entry {
        call: write(FIRST, 0, Value::Num(5)),
        reply: Reply::Wrote,
    };
    let got_5 = Entry {
        call: read(FIRST, 0),
        reply: Reply::Got(Value::Num(5)),
    };
    let got_6 = Entry {
        call: read(FIRST, 0),
        reply: Reply::Got(Value::Num(6)),
    };
    let not_there = Entry {
        call: read(MISSING, 0),
        reply: Reply::NotThere,
    };
    let alloc = rt.alloc();
    assert_eq!(rt; check_history(alloc, &[]), Ok(()));
    assert_eq!(rt; check_history(alloc, &[made, wrote, got_5]), Ok(()));
    assert_eq!(rt;
        check_history(alloc, &[made, wrote, got_6, got_5]),
        Err(CheckFault::BadEntry {
            index: 2,
            wanted: Reply::Got(Value::Num(5)),
            found: Reply::Got(Value::Num(6)),
        })
    );
    assert_eq!(rt;
        check_history(alloc, &[made, not_there]),
        Err(CheckFault::BadEntry {
            index: 1,
            wanted: Reply::NotThere,
            found: Reply::NotThere,
        })
    );
    Ok(())
}
