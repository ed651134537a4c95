//! Texts worked out by hand.

ghost use Rattle.std.specs.Prelude.{◌≡◌, ◌<◌, ◌^◌, length, IfOk};
ghost use Rattle.std.specs.List.{All};
ghost use Rattle.heap_script.specs.AnswerLists.{lists_of};

use super::*;
use cycle_journal::{CycleReport, KeptRow, LastHeap, MarkFound, MarkRow, MoveRow, ObjectLine};
use heap_history::{Call, Entry, Reply, Value};
use heap_script::{Again, Answer, Answers};
use space_reclaim::RegionLive;
use std::alloc::{AllocError, Global};
use std::test::Fail;

/// `#1.1`, the first object of pass 1.
const MADE: u32 = 524_289;

/// What the report of the run says.
const REPORT: &str = "\
answer 1 1 #1.1
answer 1 2 full
answer 1 3 5
answer 1 4 ok
answer 1 5 done
answer 2 1 differs #1.1
answer 2 2 nolink
answer 2 3 nofield 8
cycle 1 chosen 2 moved 1 kept 1 freed 1 mark -
move 1 #1.1 536 97
kept 1 #0.1 24
cycle 2 chosen 0 moved 0 kept 0 freed 0 mark refused
left 1 0 5 0 0 0 0 0 #0.1
left 2 0 0 0 0 0 0 0 #1.1
object #0.1 24 #1.1 0 0 0 0 0 0 0
object #1.1 97 5 0
end
";

/// What is there in a replay before it.
const HISTORY: &str = "\
entry 1 new #1.1 2 made
entry 1 put #1.1.0 5 wrote
entry 2 get #1.1.0 got 5
entry 2 cas #0.1.0 0 #1.1 done
entry 1 cas #0.1.0 0 7 differs #1.1
again 2 1 raced 3 busy 18446744073709551615
";

fn answers(alloc: Global) -> Result<Answers, AllocError>
    ensures threads { IfOk result (λ answers. length (lists_of answers) ≡ 2) }
    ensures commands { IfOk result (λ answers. All (λ list. length list < 2 ^ 31) (lists_of answers)) }
{
    let first = [
        Answer::Made(MADE),
        Answer::Full,
        Answer::Got(Value::Num(5)),
        Answer::Ok,
        Answer::Done,
    ];
    let second = [
        Answer::Differs(Value::Object(MADE)),
        Answer::NotLink,
        Answer::NoField(8),
    ];
    let mut lists = Vec::new(alloc);
    lists.push(first.to_vec(alloc)?)?;
    lists.push(second.to_vec(alloc)?)?;
    Ok(Answers { lists })
}

/// In cycle 1 the object `#1.1` has moved, and `#0.1` was kept; of cycle 2 all marks were refused.
fn journal(alloc: Global) -> Result<Vec<CycleReport>, AllocError> {
    let live = [
        RegionLive {
            region: 0,
            words: 9,
        },
        RegionLive {
            region: 8,
            words: 3,
        },
    ];
    let moved = MoveRow {
        birth: MADE,
        from: 536,
        to: 97,
    };
    let kept = KeptRow {
        birth: 1,
        at: 24,
        header: 0x902,
    };
    let mut cycles = Vec::new(alloc);
    cycles.push(CycleReport {
        cycle: 1,
        live: live.to_vec(alloc)?,
        chosen: [0, 8].to_vec(alloc)?,
        moves: [moved].to_vec(alloc)?,
        kept: [kept].to_vec(alloc)?,
        freed: [8].to_vec(alloc)?,
        mark: MarkRow::None,
    })?;
    cycles.push(CycleReport {
        cycle: 2,
        live: live.to_vec(alloc)?,
        chosen: Vec::new(alloc),
        moves: Vec::new(alloc),
        kept: Vec::new(alloc),
        freed: Vec::new(alloc),
        mark: MarkRow::Refused([MarkFound { at: 24, field: 0 }; 8]),
    })?;
    Ok(cycles)
}

fn last(alloc: Global) -> Result<LastHeap, AllocError>
    ensures { IfOk result (λ last. length last.left.items ≡ 2) }
{
    let zero = Value::Num(0);
    let five = Value::Num(5);
    let common = Value::Object(1);
    let made = Value::Object(MADE);
    let left = [
        [zero, five, zero, zero, zero, zero, zero, common],
        [zero, zero, zero, zero, zero, zero, zero, made],
    ];
    let mut objects = Vec::new(alloc);
    objects.push(ObjectLine {
        birth: 1,
        at: 24,
        fields: [made, zero, zero, zero, zero, zero, zero, zero].to_vec(alloc)?,
    })?;
    objects.push(ObjectLine {
        birth: MADE,
        at: 97,
        fields: [five, zero].to_vec(alloc)?,
    })?;
    Ok(LastHeap {
        left: left.to_vec(alloc)?,
        objects,
    })
}

#[test]
fn tells_a_run(rt: HostRuntime) -> Result<(), Fail> {
    let alloc = rt.alloc();
    let answers = answers(alloc)?;
    let last = last(alloc)?;
    let text = report(alloc, &answers, &journal(alloc)?, &last)?;
    assert_eq!(rt; text.as_slice(), REPORT.as_bytes());
    Ok(())
}

// A cycle of Clover has the number of its mark.
#[test]
fn tells_a_mark(rt: HostRuntime) -> Result<(), Fail> {
    let alloc = rt.alloc();
    let cycle = CycleReport {
        cycle: 65,
        live: Vec::new(alloc),
        chosen: Vec::new(alloc),
        moves: Vec::new(alloc),
        kept: Vec::new(alloc),
        freed: Vec::new(alloc),
        mark: MarkRow::Used(52_245_546_284_806),
    };
    let answers = Answers {
        lists: Vec::new(alloc),
    };
    let last = LastHeap {
        left: Vec::new(alloc),
        objects: Vec::new(alloc),
    };
    let text = report(alloc, &answers, &[cycle], &last)?;
    let line = "cycle 65 chosen 0 moved 0 kept 0 freed 0 mark 52245546284806\nend\n";
    assert_eq!(rt; text.as_slice(), line.as_bytes());
    Ok(())
}

#[test]
fn tells_a_replay(rt: HostRuntime) -> Result<(), Fail> {
    let alloc = rt.alloc();
    let zero = Value::Num(0);
    let made = Value::Object(MADE);
    let history = [
        Entry {
            call: Call::NewObject {
                pass: 1,
                birth: MADE,
                len: 2,
            },
            reply: Reply::Made,
        },
        Entry {
            call: Call::Write {
                pass: 1,
                object: MADE,
                field: 0,
                value: Value::Num(5),
            },
            reply: Reply::Wrote,
        },
        Entry {
            call: Call::Read {
                pass: 2,
                object: MADE,
                field: 0,
            },
            reply: Reply::Got(Value::Num(5)),
        },
        Entry {
            call: Call::Exchange {
                pass: 2,
                object: 1,
                field: 0,
                expected: zero,
                value: made,
            },
            reply: Reply::Done,
        },
        Entry {
            call: Call::Exchange {
                pass: 1,
                object: 1,
                field: 0,
                expected: zero,
                value: Value::Num(7),
            },
            reply: Reply::Differs(made),
        },
    ];
    let agains = [
        Again {
            thread: 1,
            number: 1,
            raced: 0,
            busy: 0,
        },
        Again {
            thread: 2,
            number: 1,
            raced: 3,
            busy: u64::MAX,
        },
    ];
    let answers = answers(alloc)?;
    let last = last(alloc)?;
    let text = replay_report(alloc, &history, &agains, &answers, &journal(alloc)?, &last)?;
    let (first, second) = text.as_slice().split_at(HISTORY.len().min(text.len()));
    assert_eq!(rt; first, HISTORY.as_bytes());
    assert_eq!(rt; second, REPORT.as_bytes());
    Ok(())
}
