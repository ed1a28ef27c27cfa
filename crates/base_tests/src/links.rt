use outside::{Clock, Failed, Link, MemClock, MemLink, PutFault, SureLink};
use std::test::Fail;

/// How many bytes the next take gives, of two at most, and the room with them.
fn take_two<L: Link>(link: &mut L) -> Option<(usize, [u8; 2])> {
    let mut buf = [b'-'; 2];
    let count = link.take(&mut buf).ok()?;
    Some((count, buf))
}

#[test]
fn links_fail_where_they_are_told_to(rt: HostRuntime) -> Result<(), Fail> {
    let alloc = rt.alloc();
    let mut link = MemLink::new(alloc, b"abc".to_vec(alloc)?, vec![in alloc; 1, 4]?);
    assert_eq!(rt; take_two(&mut link), None);
    assert_eq!(rt; link.put(b"xy"), Ok(()));
    assert_eq!(rt; take_two(&mut link), Some((2, *b"ab")));
    assert_eq!(rt; link.put(b"lost"), Err(PutFault::Failed));
    assert_eq!(rt; take_two(&mut link), Some((1, *b"c-")));
    assert_eq!(rt; link.put(b"z"), Ok(()));
    assert_eq!(rt; take_two(&mut link), Some((0, *b"--")));
    assert_eq!(rt; link.written(), b"xyz".as_slice());
    assert_eq!(rt; link.faults(), 2);
    Ok(())
}

#[test]
fn a_sure_link_never_fails(rt: HostRuntime) -> Result<(), Fail> {
    let alloc = rt.alloc();
    let mut link = SureLink::new(alloc, b"abc".to_vec(alloc)?);
    assert_eq!(rt; take_two(&mut link), Some((2, *b"ab")));
    assert_eq!(rt; link.put(b"xy"), Ok(()));
    assert_eq!(rt; take_two(&mut link), Some((1, *b"c-")));
    assert_eq!(rt; link.put(b"z"), Ok(()));
    assert_eq!(rt; take_two(&mut link), Some((0, *b"--")));
    assert_eq!(rt; link.written(), b"xyz".as_slice());
    assert_eq!(rt; link.faults(), 0);
    Ok(())
}

#[test]
fn a_clock_says_its_last_answer_again(rt: HostRuntime) -> Result<(), Fail> {
    let alloc = rt.alloc();
    let mut clock = MemClock::new(vec![in alloc; 5, 9]?, vec![in alloc; 2]?);
    for (call, want) in [Ok(5), Err(Failed), Ok(9), Ok(9)].into_iter().enumerate() {
        assert_eq!(rt; clock.now_ms(), want, "call {call}");
    }
    assert_eq!(rt; clock.faults(), 1);
    Ok(())
}
