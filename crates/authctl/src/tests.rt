use crate::offline::run_offline;
use crate::online::is_online;
use crate::real::{Input, Output, write_whole};
use crate::{reason, status_of};
use outside::{MemSink, MemSource, PutFault, Sink, Source, SureSink, SureSource};
use std::alloc::Global;
use std::io;
use std::io::{Read, Write};
use std::test::Fail;

const PART: &str = "1111111111111111111111111111111111111111111111111111111111111111";

/// What the walk of each mechanism writes, with PART for its part.
const OUTPUTS: [(&str, &str); 8] = [
    (
        "E1",
        "message 1 08030701010100060000090bPART08050701010101010000000101000000020200000000000003e8060000\npasses 1\n",
    ),
    (
        "E2",
        "message 1 0803070102010004d0000000000000000000000000000000060000\nmessage 2 08030701020200060000090bPART080507010202010100000001010000000204d0000000000000000000000000000000060000\npasses 2\n",
    ),
    (
        "E3",
        "message 1 08030701030100060000090bPART08050701030101010000000101000000020200000000000003e8060000\nmessage 2 08030701030200060000090bPART08050701030201010000000101000000020200000000000003e8060000\npasses 2\n",
    ),
    (
        "E4",
        "message 1 0803070104010004d0000000000000000000000000000000060000\nmessage 2 08030701040200060000090bPART080607010402010100000001010000000204d000000000000000000000000000000104d0000000000000000000000000000000060000\nmessage 3 08030701040300060000090bPART080607010403010100000001010000000204d000000000000000000000000000000004d0000000000000000000000000000001060000\npasses 3\n",
    ),
    (
        "C1",
        "message 1 080507020101000200000000000003e80600000600000a0bPART08050702010101010000000101000000020200000000000003e8060000\npasses 1\n",
    ),
    (
        "C2",
        "message 1 0803070202010004d0000000000000000000000000000000060000\nmessage 2 080407020202000600000600000a0bPART080507020202010100000001010000000204d0000000000000000000000000000000060000\npasses 2\n",
    ),
    (
        "C3",
        "message 1 080507020301000200000000000003e80600000600000a0bPART08050702030101010000000101000000020200000000000003e8060000\nmessage 2 080507020302000200000000000003e80600000600000a0bPART08050702030201010000000101000000020200000000000003e8060000\npasses 2\n",
    ),
    (
        "C4",
        "message 1 0803070204010004d0000000000000000000000000000000060000\nmessage 2 0805070204020004d00000000000000000000000000000010600000600000a0bPART080607020402010100000001010000000204d000000000000000000000000000000104d0000000000000000000000000000000060000\nmessage 3 080407020403000600000600000a0bPART080607020403010100000001010000000204d000000000000000000000000000000004d0000000000000000000000000000001060000\npasses 3\n",
    ),
];

/// The words of a line, split at each blank.
fn words_of(alloc: Global, line: &str) -> Result<Vec<Vec<u8>>, Fail> {
    let mut words = Vec::new(alloc);
    for word in line.split(' ') {
        words.push(word.as_bytes().to_vec(alloc)?)?;
    }
    Ok(words)
}

/// The status of these words, and what they write.
fn run(alloc: Global, words: &Vec<Vec<u8>>) -> (u8, SureSink) {
    let mut input = SureSource::new(Vec::new(alloc));
    let mut out = SureSink::new(alloc);
    let status = run_offline(alloc, words, &mut input, &mut out);
    (status, out)
}

#[test]
fn undisturbed_walks(rt: HostRuntime) -> Result<(), Fail> {
    let alloc = rt.alloc();
    for (mech, output) in OUTPUTS {
        let output = output.replace(alloc, "PART", PART)?;
        let line = format!(in alloc; "walk {mech} 1 2 {PART}")?;
        let (status, out) = run(alloc, &words_of(alloc, line.as_str())?);
        assert_eq!(rt; status, 0, "{mech}");
        assert!(rt; out.written() == output.as_bytes(), "{mech}");
        let greatest = format!(in alloc; "walk {mech} 4294967295 1 {PART}")?;
        let (status, out) = run(alloc, &words_of(alloc, greatest.as_str())?);
        assert_eq!(rt; status, 0, "{mech}");
        let changed = output.replace(alloc, "01000000010100000002", "01ffffffff0100000001")?;
        assert!(rt; out.written() == changed.as_bytes(), "{mech}");
    }
    Ok(())
}

#[test]
fn a_script_is_replayed(rt: HostRuntime) -> Result<(), Fail> {
    let alloc = rt.alloc();
    let words = words_of(alloc, "replay")?;
    for (script, status, printed) in [
        ("", 0, ""),
        ("party 1 seq\nclock 1 5\n", 0, "clock 1 5\n"),
        (
            "party 1 seq\nclock 1 5\nfoo\n",
            5,
            "clock 1 5\nbad 3 Grammar\n",
        ),
    ] {
        let mut input = SureSource::new(script.as_bytes().to_vec(alloc)?);
        let mut out = SureSink::new(alloc);
        assert_eq!(rt; run_offline(alloc, &words, &mut input, &mut out), status);
        assert!(rt; out.written() == printed.as_bytes(), "{script}");
    }
    Ok(())
}

#[test]
fn words_that_are_no_command(rt: HostRuntime) -> Result<(), Fail> {
    let alloc = rt.alloc();
    let lines = [
        "",
        "walk",
        "walk E2 1 2",
        "walk E2 0 2 PART",
        "walk E2 01 2 PART",
        "walk E2 1 02 PART",
        "walk E2 4294967296 2 PART",
        "walk E2 99999999999999999999 2 PART",
        "walk E2 1 1 PART",
        "walk E2 +1 2 PART",
        "walk E2 1 -2 PART",
        "walk E2 1 2a PART",
        "walk E2 1  PART",
        "walk E2 1 2 PART PART",
        "walk E2 1 2 PART1",
        "walk E2 1 2 111111111111111111111111111111111111111111111111111111111111111",
        "walk E2 1 2 AA11111111111111111111111111111111111111111111111111111111111111",
        "walk E2 1 2 d011111111111111111111111111111111111111111111111111111111111111",
        "walk E2 1 2 d111111111111111111111111111111111111111111111111111111111111111",
        "walk E2 1 2 g111111111111111111111111111111111111111111111111111111111111111",
        "walk E7 1 2 PART",
        "walk E5 1 2 PART",
        "walk K3 1 2 PART",
        "walk E5 1 2 9 PART PART",
        "walk P 1 2 PART",
        "walk e2 1 2 PART",
        "Walk E2 1 2 PART",
        "replay replay",
        "Replay",
        "replay ",
        "sample 16",
        "serve 7000 2 3",
        "help",
        "--help",
        "--version",
        "-walk E2 1 2 PART",
    ];
    for line in lines {
        let full = line.replace(alloc, "PART", PART)?;
        let (status, out) = run(alloc, &words_of(alloc, full.as_str())?);
        assert_eq!(rt; status, 2, "{line}");
        assert!(rt; out.written().is_empty(), "{line}");
    }
    let mut words = words_of(alloc, "walk E2 1 2")?;
    words.push(vec![in alloc; 0xff; 64]?)?;
    let (status, out) = run(alloc, &words);
    assert_eq!(rt; status, 2);
    assert!(rt; out.written().is_empty());
    let (status, out) = run(alloc, &Vec::new(alloc));
    assert_eq!(rt; status, 2);
    assert!(rt; out.written().is_empty());
    Ok(())
}

#[test]
fn what_a_person_reads(rt: HostRuntime) {
    for status in [2, 3, 4, 5, 6, 7] {
        let line = reason(status);
        assert_eq!(rt; line.starts_with("usage: "), status == 2, "{status}");
        assert!(rt; !line.contains('\n'), "{status}");
    }
    assert_eq!(rt; status_of(&io::Error::from(io::ErrorKind::InvalidData)), 2);
    assert_eq!(rt; status_of(&io::Error::from(io::ErrorKind::OutOfMemory)), 7);
}

#[test]
fn a_write_that_fails(rt: HostRuntime) -> Result<(), Fail> {
    let alloc = rt.alloc();
    let line = format!(in alloc; "walk E2 1 2 {PART}")?;
    let mut input = SureSource::new(Vec::new(alloc));
    let mut out = MemSink::new(alloc, vec![in alloc; 1]?);
    let status = run_offline(
        alloc,
        &words_of(alloc, line.as_str())?,
        &mut input,
        &mut out,
    );
    assert_eq!(rt; status, 4);
    assert!(rt; out.written().is_empty());
    assert_eq!(rt; out.faults(), 1);
    Ok(())
}

#[test]
fn replays_that_end_early(rt: HostRuntime) -> Result<(), Fail> {
    let alloc = rt.alloc();
    let words = words_of(alloc, "replay")?;
    let long = vec![in alloc; b'\n'; 4097]?;
    let clock = b"party 1 seq\nclock 1 5\n".to_vec(alloc)?;
    for (text, reads, writes, status) in [(&clock, 1, 9, 3), (&clock, 9, 1, 4), (&long, 9, 9, 6)] {
        let mut input = MemSource::new(text.to_vec(alloc)?, vec![in alloc; reads]?);
        let mut out = MemSink::new(alloc, vec![in alloc; writes]?);
        assert_eq!(rt; run_offline(alloc, &words, &mut input, &mut out), status);
        assert!(rt; out.written().is_empty());
    }
    Ok(())
}

#[test]
fn commands_that_talk_to_others(rt: HostRuntime) -> Result<(), Fail> {
    let alloc = rt.alloc();
    for (line, online) in [
        ("serve 7000 2 3", true),
        ("connect", true),
        ("walk E2", false),
        ("", false),
        ("serves", false),
    ] {
        assert_eq!(rt; is_online(&words_of(alloc, line)?), online, "{line}");
    }
    assert!(rt; !is_online(&Vec::new(alloc)));
    Ok(())
}

/// Takes at most three bytes at a time, nothing at its fourth write, and fails from its fifth on.
#[derive(Drop)]
struct Slow {
    calls: u32,
    taken: [u8; 16],
    count: usize,
}

impl Write for Slow {
    fn write(&mut self, buf: &[u8]) -> io::Result<usize> {
        self.calls = self.calls.saturating_add(1);
        if self.calls == 4 {
            return Ok(0);
        }
        if self.calls > 4 {
            return Err(io::Error::from(io::ErrorKind::BrokenPipe));
        }
        let start = self.count;
        let count = buf.len().min(3).min(16usize.saturating_sub(start));
        for i in 0..count {
            self.taken[start + i] = buf[i];
        }
        self.count = start + count;
        Ok(count)
    }

    fn flush(&mut self) -> io::Result<()> {
        Ok(())
    }
}

#[test]
fn a_writer_as_a_sink(rt: HostRuntime) {
    let mut slow = Slow {
        calls: 0,
        taken: [0; 16],
        count: 0,
    };
    assert!(rt; write_whole(&mut slow, b"abcde"));
    assert!(rt; slow.count == 5 && &slow.taken[..5] == b"abcde".as_slice());
    slow.calls = 0;
    let mut out = Output::new(slow);
    assert!(rt; out.put(b"abcde").is_ok());
    assert_eq!(rt; out.faults(), 0);
    assert!(rt; out.put(b"fghij") == Err(PutFault::Failed));
    assert_eq!(rt; out.faults(), 1);
    assert!(rt; out.put(b"k") == Err(PutFault::Failed));
    assert_eq!(rt; out.faults(), 2);
}

/// Gives two bytes, then fails, then ends.
#[derive(Drop)]
struct Short {
    calls: u32,
}

impl Read for Short {
    fn read(&mut self, buf: &mut [u8]) -> io::Result<usize> {
        self.calls = self.calls.saturating_add(1);
        if self.calls == 1 && buf.len() >= 2 {
            buf[0] = b'a';
            buf[1] = b'b';
            return Ok(2);
        }
        if self.calls == 2 {
            return Err(io::Error::from(io::ErrorKind::Other));
        }
        Ok(0)
    }
}

#[test]
fn a_reader_as_a_source(rt: HostRuntime) {
    let mut input = Input::new(Short { calls: 0 });
    let mut buf = [0; 8];
    assert!(rt; input.read(&mut buf) == Ok(2));
    assert!(rt; buf[0] == b'a' && buf[1] == b'b');
    assert!(rt; input.read(&mut buf).is_err());
    assert_eq!(rt; input.faults(), 1);
    assert!(rt; input.read(&mut buf) == Ok(0));
}
