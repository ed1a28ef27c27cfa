use outside::{Draws, MemDraws, MemSink, MemSource, Sink, Source, SureSink, SureSource};
use std::test::Fail;

/// Puts three pieces, and answers which puts failed.
fn put_three<S: Sink>(sink: &mut S) -> [bool; 3] {
    let first = sink.put(b"ab").is_err();
    let second = sink.put(b"c").is_err();
    [first, second, sink.put(b"de").is_err()]
}

#[test]
fn sinks_fail_where_they_are_told_to(rt: HostRuntime) -> Result<(), Fail> {
    let alloc = rt.alloc();
    let rows: [(u64, [bool; 3], &[u8], u64); 4] = [
        (1, [true, false, false], b"cde", 1),
        (2, [false, true, false], b"abde", 1),
        (3, [false, false, true], b"abc", 1),
        (4, [false, false, false], b"abcde", 0),
    ];
    for (call, failed, written, faults) in rows {
        let mut sink = MemSink::new(alloc, vec![in alloc; call]?);
        assert_eq!(rt; put_three(&mut sink), failed, "failing {call}");
        assert_eq!(rt; sink.written(), written, "failing {call}");
        assert_eq!(rt; sink.faults(), faults, "failing {call}");
    }
    let mut sure = SureSink::new(alloc);
    assert_eq!(rt; put_three(&mut sure), [false; 3]);
    assert_eq!(rt; sure.written(), b"abcde".as_slice());
    assert_eq!(rt; sure.faults(), 0);
    Ok(())
}

/// How many bytes the next read gives, of two at most, and the room with them.
fn next_two<S: Source>(source: &mut S) -> Option<(usize, [u8; 2])> {
    let mut buf = [b'-'; 2];
    let count = source.read(&mut buf).ok()?;
    Some((count, buf))
}

#[test]
fn sources_go_on_after_a_fault(rt: HostRuntime) -> Result<(), Fail> {
    let alloc = rt.alloc();
    let mut source = MemSource::new(b"abc".to_vec(alloc)?, vec![in alloc; 1, 3]?);
    for (i, got) in [
        None,
        Some((2, *b"ab")),
        None,
        Some((1, *b"c-")),
        Some((0, *b"--")),
    ]
    .into_iter()
    .enumerate()
    {
        assert_eq!(rt; next_two(&mut source), got, "read {i}");
    }
    assert_eq!(rt; source.faults(), 2);
    let mut sure = SureSource::new(b"abc".to_vec(alloc)?);
    for (i, got) in [(2, *b"ab"), (1, *b"c-"), (0, *b"--")]
        .into_iter()
        .enumerate()
    {
        assert_eq!(rt; next_two(&mut sure), Some(got), "read {i}");
    }
    assert_eq!(rt; sure.faults(), 0);
    Ok(())
}

#[test]
fn draws_count_from_zero(rt: HostRuntime) -> Result<(), Fail> {
    let mut draws = MemDraws::new(0xd0, vec![in rt.alloc(); 2]?);
    assert_eq!(rt;
        draws.nonce()?.0,
        [0xd0, 0, 0, 0, 0, 0, 0, 0, 0, 0, 0, 0, 0, 0, 0, 0]
    );
    assert!(rt; draws.part().is_err());
    for _ in 1..258 {
        draws.nonce()?;
    }
    let part = draws.part()?.0;
    assert_eq!(rt; part[0], 0xd0);
    assert_eq!(rt; &part[1..30], [0; 29].as_slice());
    assert_eq!(rt; &part[30..], [1, 2].as_slice());
    let nonce = draws.nonce()?.0;
    assert_eq!(rt; &nonce[13..], [0, 1, 3].as_slice());
    assert_eq!(rt; draws.faults(), 1);
    Ok(())
}
