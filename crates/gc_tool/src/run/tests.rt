use super::*;
use crate::memory::{MemorySink, MemorySource};
use std::process::Abort;
use std::test::Fail;

const SESSION: &[u8] =
    b"heap 1 threads 4 quota 8 pool 256 wide 0 cycles\n1 new a 2\n1 put a.0 5\n1 get b a.0\n";

const OUTPUT: &[u8] =
    b"entry 1 new #1.1 2 made\nentry 1 put #1.1.0 5 wrote\nentry 1 get #1.1.0 got 5\nanswer 1 1 #1.1\nanswer 1 2 ok\nanswer 1 3 5\nend\n";

fn words_of(alloc: Global, text: &str) -> Result<Vec<Vec<u8>>, Fail> {
    let mut words = Vec::new(alloc);
    for word in text.split_whitespace() {
        words.push(word.as_bytes().to_vec(alloc)?)?;
    }
    Ok(words)
}

fn source_of(
    rt: &impl Abort,
    alloc: Global,
    input: &[u8],
    piece: usize,
    fails: &[u32],
) -> Result<MemorySource, Fail> {
    assert!(rt; piece > 0);
    Ok(MemorySource::new(input.to_vec(alloc)?, piece, fails.to_vec(alloc)?))
}

fn sink_of(
    rt: &impl Abort,
    alloc: Global,
    piece: usize,
    fails: &[u32],
) -> Result<MemorySink, Fail> {
    assert!(rt; piece > 0);
    Ok(MemorySink::new(alloc, 1000, piece, fails.to_vec(alloc)?)?)
}

#[test]
fn says_which_side_failed(rt: HostRuntime) -> Result<(), Fail> {
    let alloc = rt.alloc();
    let never: [u32; 0] = [];
    let words = words_of(alloc, "replay stopless solo 20")?;

    // The source is called seven times, and the sink thirteen times.
    for call in 1..=7 {
        let mut source = source_of(&rt, alloc, SESSION, 16, &[call])?;
        let mut sink = sink_of(&rt, alloc, 10, &never)?;
        assert_eq!(rt;
            run_plain(alloc, &words, &mut source, &mut sink),
            Status::ReadFault,
            "{call}"
        );
        assert!(rt; sink.bytes().is_empty(), "{call}");
    }
    for call in 1..=13 {
        let mut source = source_of(&rt, alloc, SESSION, 16, &never)?;
        let mut sink = sink_of(&rt, alloc, 10, &[call])?;
        assert_eq!(rt;
            run_plain(alloc, &words, &mut source, &mut sink),
            Status::WriteFault,
            "{call}"
        );
        assert_eq!(rt;
            Some(sink.bytes()),
            OUTPUT.get(..10 * (call as usize - 1)),
            "{call}"
        );
    }
    let mut source = source_of(&rt, alloc, SESSION, 16, &[8])?;
    let mut sink = sink_of(&rt, alloc, 10, &[14])?;
    assert_eq!(rt;
        run_plain(alloc, &words, &mut source, &mut sink),
        Status::Done
    );
    assert_eq!(rt; sink.bytes(), OUTPUT);
    Ok(())
}
