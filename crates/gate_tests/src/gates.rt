use outside::{Bench, Failed, Gate, Link, MemClock, MemDraws, MemGate, SureLink};
use std::alloc::Global;
use std::test::Fail;

/// A line that gives this one byte.
fn line_of(alloc: Global, byte: u8) -> Result<SureLink, Fail> {
    Ok(SureLink::new(alloc, vec![in alloc; byte]?))
}

/// A gate with the lines `a` and `b`.
fn two_lines(alloc: Global, failing: Vec<u64>) -> Result<MemGate<SureLink>, Fail> {
    let lines = vec![in alloc; line_of(alloc, b'a')?, line_of(alloc, b'b')?]?;
    Ok(MemGate::new(alloc, lines, failing)?)
}

/// The byte that a line gives next.
fn byte_of(line: &mut SureLink) -> Option<u8> {
    let mut buf = [0];
    match line.take(&mut buf) {
        Ok(1) => Some(buf[0]),
        _ => None,
    }
}

#[test]
fn lines_are_admitted_in_order(rt: HostRuntime) -> Result<(), Fail> {
    let alloc = rt.alloc();
    let mut gate = two_lines(alloc, vec![in alloc; 2]?)?;
    let mut first = gate.admit()?;
    assert_eq!(rt; first.as_mut().and_then(byte_of), Some(b'a'));
    assert_eq!(rt; gate.admit().err(), Some(Failed));
    let mut second = gate.admit()?;
    assert_eq!(rt; second.as_mut().and_then(byte_of), Some(b'b'));
    assert_eq!(rt; gate.admit()?.is_none(), true);
    assert_eq!(rt; gate.faults(), 1);
    Ok(())
}

#[test]
fn a_dial_without_a_line_fails(rt: HostRuntime) -> Result<(), Fail> {
    let alloc = rt.alloc();
    let mut gate = two_lines(alloc, vec![in alloc; 2]?)?;
    let mut first = gate.dial(7000)?;
    assert_eq!(rt; byte_of(&mut first), Some(b'a'));
    assert_eq!(rt; gate.dial(7000).err(), Some(Failed));
    let mut second = gate.dial(7001)?;
    assert_eq!(rt; byte_of(&mut second), Some(b'b'));
    assert_eq!(rt; gate.dial(7002).err(), Some(Failed));
    assert_eq!(rt; gate.faults(), 2);
    Ok(())
}

#[test]
fn lines_are_given_back_to_a_bench(rt: HostRuntime) -> Result<(), Fail> {
    let alloc = rt.alloc();
    let mut bench = Bench {
        clock: MemClock::new(vec![in alloc; 5]?, Vec::new(alloc)),
        draws: MemDraws::new(1, Vec::new(alloc)),
        gate: two_lines(alloc, Vec::new(alloc))?,
    };
    let mut line = bench.gate.dial(7000)?;
    line.put(b"x")?;
    bench.gate.give_back(line);
    assert_eq!(rt; bench.gate.returned().len(), 1);
    assert_eq!(rt; bench.gate.returned()[0].written(), b"x".as_slice());
    Ok(())
}
