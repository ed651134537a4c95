//! A heap that is left, put by hand.

use super::*;
use call_steps::Step;
use std::process::Abort;
use std::test::Fail;

/// Puts words at their addresses.
fn put_all(rt: &impl Abort, words: &mut PlainWords, puts: &[(u32, u64)]) {
    for (at, put) in puts {
        assert!(rt; *at < words.len());
        words.apply(Step::Store { at: *at, put: *put });
    }
}

// Of 2 passes with a region each and one in the pool the root words stand from 5 and from 13 on, and the regions from
// 24, 88 and 152 on. In region 0 is `#0.1`. In region 1, which is full, `#1.2` and `#1.3` are dead, and `#2.1` ends it.
// In region 2 is `#1.1`, in another colour.
#[test]
fn tells_what_is_left(rt: HostRuntime) -> Result<(), Fail> {
    let layout = Layout::new(2, 1, 1, 0)?;
    let mut words = PlainWords::zeros(rt.alloc(), 216)?;
    let roots = [
        (6, 5),
        (12, 0x2000_0000_0010_0018),
        (13, 0x2000_0100_0010_0096),
    ];
    let objects = [
        (24, 0x901),
        (25, 0x2000_0080_0010_0098),
        (32, 7),
        (88, 0x4000_13c7),
        (119, 0x4000_1bc7),
        (120, 8),
        (150, 0x8000_0821),
        (151, 9),
        (152, 0x4000_0829),
        (153, 5),
    ];
    put_all(&rt, &mut words, &roots);
    put_all(&rt, &mut words, &objects);
    let last = last_heap(rt.alloc(), &layout, &words)?;
    let zero = Value::Num(0);
    let common = Value::Object(1);
    let first = Value::Object(524_289);
    let left = [
        [zero, Value::Num(5), zero, zero, zero, zero, zero, common],
        [
            Value::Object(1_048_577),
            zero,
            zero,
            zero,
            zero,
            zero,
            zero,
            zero,
        ],
    ];
    assert_eq!(rt; last.left.as_slice(), left.as_slice());
    assert_eq!(rt; last.objects.len(), 3);
    let [a, b, c] = [&last.objects[0], &last.objects[1], &last.objects[2]];
    assert_eq!(rt;
        [(a.birth, a.at), (b.birth, b.at), (c.birth, c.at)],
        [(1, 24), (524_289, 152), (1_048_577, 150)]
    );
    let fields = [first, zero, zero, zero, zero, zero, zero, Value::Num(7)];
    assert_eq!(rt; a.fields.as_slice(), fields.as_slice());
    assert_eq!(rt; b.fields.as_slice(), [Value::Num(5)].as_slice());
    assert_eq!(rt; c.fields.as_slice(), [Value::Num(9)].as_slice());
    Ok(())
}
