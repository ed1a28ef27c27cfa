use outside::{Failed, MemSink, MemSource, Sink, Source, SureSink, SureSource};
use std::alloc::Global;
use std::test::Fail;
use transcript_replay::replay;

/// Two parties of time stamps that share a part.
const BASE: &str = "party 1 time 5000\nparty 2 time 5000\npair 1 2 PART\n";

const PART: &str = "aaaaaaaaaaaaaaaaaaaaaaaaaaaaaaaaaaaaaaaaaaaaaaaaaaaaaaaaaaaaaaaa";

/// Scripts behind the base, and what they print. PART is the part of the base, and R:n0, R:n1 are the counted nonces.
const ROWS: [(&str, &str); 21] = [
    (
        "open E4 B 1 2\nopen E4 A 1 2\ngive 2 @1\ngive 1 @2\ngive 2 @3\n",
        "run 1\nsent 1 1 (G:01040100,R:n0,X:)\nrun 2\ntook 2 1\nsent 2 2 (G:01040200,X:,S[K:PART|(G:01040201,N:1,N:2,R:n1,R:n0,X:)])\ntook 1 2\nsent 3 1 (G:01040300,X:,S[K:PART|(G:01040301,N:1,N:2,R:n0,R:n1,X:)])\ndone 1 E4 B - partner 2\ntook 2 3\ndone 2 E4 A - partner 1\n",
    ),
    (
        "open E4 B 1 2\nopen E4 A 1 2\ngive 2 @1\ngive 2 @2\ngive 2 (G:01040300,X:,@2.2)\ngive 1 @2\ngive 2 @3\n",
        "run 1\nsent 1 1 (G:01040100,R:n0,X:)\nrun 2\ntook 2 1\nsent 2 2 (G:01040200,X:,S[K:PART|(G:01040201,N:1,N:2,R:n1,R:n0,X:)])\nrefused 4 WrongPass\nrefused 6 WrongShape 1\ntook 1 2\nsent 3 1 (G:01040300,X:,S[K:PART|(G:01040301,N:1,N:2,R:n0,R:n1,X:)])\ndone 1 E4 B - partner 2\ntook 2 3\ndone 2 E4 A - partner 1\n",
    ),
    (
        "open E4 B 1 2\nopen E2 A 1 2\ngive 2 (G:01020100,R:n0,X:)\ngive 1 @2\ngive 1 (G:01040200,X:,@2.2)\n",
        "run 1\nsent 1 1 (G:01040100,R:n0,X:)\nrun 2\ntook 2 1\nsent 2 2 (G:01020200,X:,S[K:PART|(G:01020201,N:1,N:2,R:n0,X:)])\ndone 2 E2 A - no-claim\nrefused 4 WrongPass\nrefused 6 WrongShape 1\n",
    ),
    (
        "open E2 B 2 1\nopen E2 A 1 2\ngive 2 @1\ngive 1 @2\n",
        "run 1\nsent 1 1 (G:01020100,R:n0,X:)\nrun 2\ntook 2 1\nsent 2 2 (G:01020200,X:,S[K:PART|(G:01020201,N:1,N:2,R:n0,X:)])\ndone 2 E2 A - no-claim\nrefused 7 WrongNames 1\n",
    ),
    (
        "open E1 A 1 2\nopen E1 B 1 2\nopen E1 B 1 2\ngive 2 @1\ngive 3 @1\n",
        "run 1\nsent 1 1 (G:01010100,X:,S[K:PART|(G:01010101,N:1,N:2,T:1,X:)])\ndone 1 E1 A - no-claim\nrun 2\nrun 3\ntook 2 1\ndone 2 E1 B - partner 1\nrefused 12 Repeated T:1\n",
    ),
    (
        "clock 1 10000\nopen E1 A 1 2\nopen E1 A 1 2\nopen E1 B 1 2\nopen E1 B 1 2\nclock 2 15000\ngive 3 @1\ngive 4 @1\nclock 2 15002\ngive 4 @2\n",
        "clock 1 10000\nrun 1\nsent 1 1 (G:01010100,X:,S[K:PART|(G:01010101,N:1,N:2,T:10000,X:)])\ndone 1 E1 A - no-claim\nrun 2\nsent 2 2 (G:01010100,X:,S[K:PART|(G:01010101,N:1,N:2,T:10001,X:)])\ndone 2 E1 A - no-claim\nrun 3\nrun 4\nclock 2 15000\ntook 3 1\ndone 3 E1 B - partner 1\nrefused 12 Repeated T:10000\nclock 2 15002\nrefused 11 Late Ta 15002\n",
    ),
    (
        "clock 1 10000\nopen E1 A 1 2\nopen E1 B 1 2\nclock 2 4999\ngive 2 @1\nclock 2 5000\ngive 2 @1\n",
        "clock 1 10000\nrun 1\nsent 1 1 (G:01010100,X:,S[K:PART|(G:01010101,N:1,N:2,T:10000,X:)])\ndone 1 E1 A - no-claim\nrun 2\nclock 2 4999\nrefused 10 Early Ta 4999\nclock 2 5000\ntook 2 1\ndone 2 E1 B - partner 1\n",
    ),
    (
        "open E2 B 1 2\ngive 1 (G:01020200,X:,S[K:PART|(G:01020201,N:1,N:2,R:n0,X:)])\n",
        "run 1\nsent 1 1 (G:01020100,R:n0,X:)\nrefused 20 NotDerivable\n",
    ),
    (
        "open E2 B 1 2\nopen E2 A 1 2\ngive 2 (G:01020100,R:n1,X:)\nopen E2 B 1 2\ngive 2 (G:01020100,R:n1,X:)\n",
        "run 1\nsent 1 1 (G:01020100,R:n0,X:)\nrun 2\nrefused 21 Unborn\nrun 3\nsent 2 3 (G:01020100,R:n1,X:)\ntook 2 1\nsent 3 2 (G:01020200,X:,S[K:PART|(G:01020201,N:1,N:2,R:n1,X:)])\ndone 2 E2 A - no-claim\n",
    ),
    (
        "open E2 A 1 7\nopen E2 A 1 1\n",
        "refused 30 UnknownParty\nrefused 32 SelfPeer\n",
    ),
    (
        "open E2 B 1 2\ndrop 1\ngive 1 @1\ngive 7 @1\ndrop 1\n",
        "run 1\nsent 1 1 (G:01020100,R:n0,X:)\ndropped 1\nrefused 2 EndedRun\nrefused 1 UnknownRun\nrefused 2 EndedRun\n",
    ),
    (
        "allow E2 X2 4 6869\nopen E2 B 1 2\nopen E2 A 1 2 X2=686f\ngive 2 @1\ngive 1 @2\n",
        "run 1\nsent 1 1 (G:01020100,R:n0,X:)\nrun 2\ntook 2 1\nsent 2 2 (G:01020200,X:,S[K:PART|(G:01020201,N:1,N:2,R:n0,X:686f)])\ndone 2 E2 A - no-claim\nrefused 14 TextRefused X2\n",
    ),
    ("party 3 seq\nopen E2 A 1 3\n", "refused 33 NoKey\n"),
    (
        "open C2 B 1 2\nopen C2 A 1 2\ngive 2 @1\ngive 1 @2",
        "run 1\nsent 1 1 (G:02020100,R:n0,X:)\nrun 2\ntook 2 1\nsent 2 2 (G:02020200,X:,X:,C[K:PART|(G:02020201,N:1,N:2,R:n0,X:)])\ndone 2 C2 A - no-claim\ntook 1 2\ndone 1 C2 B - partner 2\n",
    ),
    (
        "\n# a comment\nown eeeeeeeeeeeeeeeeeeeeeeeeeeeeeeeeeeeeeeeeeeeeeeeeeeeeeeeeeeeeeeee\n",
        "",
    ),
    ("clock 7 1\n", "refused 30 UnknownParty\n"),
    (
        "open E3 A 1 2\nopen E3 B 1 2\ngive 2 @1\ngive 1 @2\n",
        "run 1\nsent 1 1 (G:01030100,X:,S[K:PART|(G:01030101,N:1,N:2,T:1,X:)])\nrun 2\ntook 2 1\nsent 2 2 (G:01030200,X:,S[K:PART|(G:01030201,N:1,N:2,T:1,X:)])\ndone 2 E3 B - partner 1\ntook 1 2\ndone 1 E3 A - partner 2\n",
    ),
    (
        "open C1 A 1 2\nopen C1 B 1 2\ngive 2 @1\n",
        "run 1\nsent 1 1 (G:02010100,T:1,X:,X:,C[K:PART|(G:02010101,N:1,N:2,T:1,X:)])\ndone 1 C1 A - no-claim\nrun 2\ntook 2 1\ndone 2 C1 B - partner 1\n",
    ),
    (
        "open C3 A 1 2\nopen C3 B 1 2\ngive 2 @1\ngive 1 @2\n",
        "run 1\nsent 1 1 (G:02030100,T:1,X:,X:,C[K:PART|(G:02030101,N:1,N:2,T:1,X:)])\nrun 2\ntook 2 1\nsent 2 2 (G:02030200,T:1,X:,X:,C[K:PART|(G:02030201,N:1,N:2,T:1,X:)])\ndone 2 C3 B - partner 1\ntook 1 2\ndone 1 C3 A - partner 2\n",
    ),
    (
        "open C4 B 1 2\nopen C4 A 1 2\ngive 2 @1\ngive 1 @2\ngive 2 @3\n",
        "run 1\nsent 1 1 (G:02040100,R:n0,X:)\nrun 2\ntook 2 1\nsent 2 2 (G:02040200,R:n1,X:,X:,C[K:PART|(G:02040201,N:1,N:2,R:n1,R:n0,X:)])\ntook 1 2\nsent 3 1 (G:02040300,X:,X:,C[K:PART|(G:02040301,N:1,N:2,R:n0,R:n1,X:)])\ndone 1 C4 B - partner 2\ntook 2 3\ndone 2 C4 A - partner 1\n",
    ),
    (
        "open E2 B 1 2\nopen E2 A 1 2\ngive 2 @1\ngive 1 @2\n",
        "run 1\nsent 1 1 (G:01020100,R:n0,X:)\nrun 2\ntook 2 1\nsent 2 2 (G:01020200,X:,S[K:PART|(G:01020201,N:1,N:2,R:n0,X:)])\ndone 2 E2 A - no-claim\ntook 1 2\ndone 1 E2 B - partner 2\n",
    ),
];

/// Scripts with a bad line, and what they print.
const BAD: [(&str, &str); 15] = [
    (
        "party 1 time 5000\nparty 2 time 5000\npair 1 1 PART\n",
        "bad 3 Config\n",
    ),
    (
        "party 1 time 5000\nparty 2 time 5000\nfoo\n",
        "bad 3 Grammar\n",
    ),
    ("party 1 time 5000\nparty 1 seq\n", "bad 2 Config\n"),
    ("own PART\nown PART\n", "bad 2 Config\n"),
    ("party 1 seq\npair 1 2 PART\n", "bad 2 Config\n"),
    (
        "party 1 seq\nparty 2 seq\npair 1 2 PART\npair 2 1 bbbbbbbbbbbbbbbbbbbbbbbbbbbbbbbbbbbbbbbbbbbbbbbbbbbbbbbbbbbbbbbb\n",
        "bad 4 Config\n",
    ),
    (
        "party 1 seq\nclock 1 5\nown PART\n",
        "clock 1 5\nbad 3 Order\n",
    ),
    (
        "party 1 seq\nclock 1 5\nallow E2 X2 4 6869\n",
        "clock 1 5\nbad 3 Order\n",
    ),
    (
        "own d0aaaaaaaaaaaaaaaaaaaaaaaaaaaaaaaaaaaaaaaaaaaaaaaaaaaaaaaaaaaaaa\n",
        "bad 1 Config\n",
    ),
    ("give 1 @1\n", "bad 1 Reference\n"),
    (
        "party 1 seq\nclock 1 5\nparty 2 seq\nfoo\n",
        "clock 1 5\nbad 3 Order\n",
    ),
    (
        "party 1 seq\nclock 1 5\nparty 1 seq\n",
        "clock 1 5\nbad 3 Order\n",
    ),
    (
        "party 1 seq\nclock 1 5\nparty 2 time 600001\n",
        "clock 1 5\nbad 3 Grammar\n",
    ),
    ("\n\nfoo", "bad 3 Grammar\n"),
    (
        "party 1 seq\ndrop 1\nopen E2 B 1 2\ngive 1 @1.3\n",
        "refused 1 UnknownRun\nrefused 30 UnknownParty\nbad 4 Reference\n",
    ),
];

/// A run of E2 between two parties whose part the attacker has.
const REVEALED: &str =
    "party 1 time 5000\nparty 2 time 5000\npair 1 2 PART revealed\nopen E2 B 1 2\nopen E2 A 1 2\ngive 2 @1\ngive 1 @2\n";

/// Two parties of sequence numbers that share a part.
const SEQUENCE: &str = "party 1 seq\nparty 2 seq\npair 1 2 PART\n";

/// The text with the part and the nonces in their places.
fn filled(alloc: Global, text: &str) -> Result<String, Fail> {
    let text = text.replace(alloc, "PART", PART)?;
    let text = text.replace(alloc, "R:n0", "R:d0000000000000000000000000000000")?;
    Ok(text.replace(alloc, "R:n1", "R:d0000000000000000000000000000001")?)
}

/// The status of a script, and what it prints.
fn play(alloc: Global, script: &[u8]) -> Result<(u8, SureSink), Fail> {
    let mut input = SureSource::new(script.to_vec(alloc)?);
    let mut out = SureSink::new(alloc);
    let status = replay(alloc, &mut input, &mut out);
    Ok((status, out))
}

#[test]
fn scripts_print_what_is_answered(rt: HostRuntime) -> Result<(), Fail> {
    let alloc = rt.alloc();
    for (script, printed) in ROWS {
        let script = filled(alloc, format!(in alloc; "{BASE}{script}")?.as_str())?;
        let printed = filled(alloc, printed)?;
        let (status, out) = play(alloc, script.as_bytes())?;
        assert_eq!(rt; status, 0, "{script}");
        let written = str::from_utf8(out.written()).or(Err("no text"))?;
        assert_eq!(rt; written, printed.as_str(), "{script}");
    }
    let (status, out) = play(alloc, b"")?;
    assert_eq!(rt; status, 0);
    assert!(rt; out.written().is_empty());
    Ok(())
}

/// The lines of a token of E1 with that sequence number, which run and message of the same number sent.
fn token(alloc: Global, number: u32) -> Result<String, Fail> {
    Ok(format!(in alloc;
        "run {number}\nsent {number} {number} (G:01010100,X:,S[K:{PART}|(G:01010101,N:1,N:2,Q:{number},X:)])\ndone {number} E1 A - no-claim\n"
    )?)
}

/// A script that opens so many runs that say a token of E1, and three that take one, and then says the rest.
fn sequence(alloc: Global, tokens: u32, rest: &str) -> Result<(String, String), Fail> {
    let mut script = filled(alloc, SEQUENCE)?;
    let mut printed = String::new(alloc);
    let first = tokens.saturating_add(1);
    for number in 1..first {
        script.push_str("open E1 A 1 2\n")?;
        printed.push_str(token(alloc, number)?.as_str())?;
    }
    for number in first..first.saturating_add(3) {
        script.push_str("open E1 B 1 2\n")?;
        printed.push_str(format!(in alloc; "run {number}\n")?.as_str())?;
    }
    script.push_str(rest)?;
    Ok((script, printed))
}

#[test]
fn late_sequence_numbers(rt: HostRuntime) -> Result<(), Fail> {
    let alloc = rt.alloc();
    for (tokens, rest, answers) in [
        (
            2,
            "give 3 @2\ngive 4 @2\ngive 4 @1\ngive 5 @1\n",
            "took 3 1\ndone 3 E1 B - partner 2\nrefused 12 Repeated Q:2\ntook 4 1\ndone 4 E1 B - partner 1\nrefused 12 Repeated Q:1\n",
        ),
        (
            66,
            "give 67 @66\ngive 68 @2\ngive 68 @3\ngive 69 @3\n",
            "took 67 1\ndone 67 E1 B - partner 66\nrefused 11 Late Ta 66\ntook 68 1\ndone 68 E1 B - partner 3\nrefused 12 Repeated Q:3\n",
        ),
    ] {
        let (script, mut printed) = sequence(alloc, tokens, rest)?;
        printed.push_str(answers)?;
        let (status, out) = play(alloc, script.as_bytes())?;
        assert_eq!(rt; status, 0);
        assert!(rt; out.written() == printed.as_bytes(), "{rest}");
    }
    Ok(())
}

#[test]
fn stamps_are_of_the_receivers_kind(rt: HostRuntime) -> Result<(), Fail> {
    let alloc = rt.alloc();
    let script = filled(
        alloc,
        "party 1 time 5000\nparty 2 seq\npair 1 2 PART\nopen E1 A 1 2\nopen E1 A 1 2\nopen E1 B 1 2\nopen E1 B 1 2\ngive 3 @2\n",
    )?;
    let (status, out) = play(alloc, script.as_bytes())?;
    assert_eq!(rt; status, 0);
    assert!(rt;
        out.written()
            .ends_with(b"run 4\nrefused 9 WrongStampKind Ta\n")
    );
    Ok(())
}

#[test]
fn a_revealed_pair_leaves_no_claim(rt: HostRuntime) -> Result<(), Fail> {
    let alloc = rt.alloc();
    let script = filled(alloc, REVEALED)?;
    let printed = filled(
        alloc,
        "run 1\nsent 1 1 (G:01020100,R:n0,X:)\nrun 2\ntook 2 1\nsent 2 2 (G:01020200,X:,S[K:PART|(G:01020201,N:1,N:2,R:n0,X:)])\ndone 2 E2 A - no-claim\ntook 1 2\ndone 1 E2 B - no-claim\n",
    )?;
    let (status, out) = play(alloc, script.as_bytes())?;
    assert_eq!(rt; status, 0);
    assert!(rt; out.written() == printed.as_bytes());
    Ok(())
}

#[test]
fn the_table_of_runs_is_full(rt: HostRuntime) -> Result<(), Fail> {
    let alloc = rt.alloc();
    let mut script = filled(alloc, BASE)?;
    let mut printed = String::new(alloc);
    for number in 1..1025u32 {
        script.push_str("open E2 A 1 2\n")?;
        printed.push_str(format!(in alloc; "run {number}\n")?.as_str())?;
    }
    script.push_str("open E2 A 1 2\n")?;
    printed.push_str("refused 34 TableFull\n")?;
    let (status, out) = play(alloc, script.as_bytes())?;
    assert_eq!(rt; status, 0);
    assert!(rt; out.written() == printed.as_bytes());
    Ok(())
}

#[test]
fn bad_lines_are_named(rt: HostRuntime) -> Result<(), Fail> {
    let alloc = rt.alloc();
    for (script, printed) in BAD {
        let script = filled(alloc, script)?;
        let (status, out) = play(alloc, script.as_bytes())?;
        assert_eq!(rt; status, 5, "{script}");
        let written = str::from_utf8(out.written()).or(Err("no text"))?;
        assert_eq!(rt; written, printed, "{script}");
    }
    Ok(())
}

#[test]
fn scripts_have_limits(rt: HostRuntime) -> Result<(), Fail> {
    let alloc = rt.alloc();
    for (rest, status) in [("", 0), ("\n", 6), ("#", 6)] {
        let mut lines = vec![in alloc; b'\n'; 4096]?;
        lines.extend_from_slice(rest.as_bytes())?;
        let (found, out) = play(alloc, &lines)?;
        assert_eq!(rt; found, status);
        assert!(rt; out.written().is_empty());
    }
    let mut long = vec![in alloc; b'a'; 1_048_576]?;
    long[0] = b'#';
    let (status, out) = play(alloc, &long)?;
    assert_eq!(rt; status, 0);
    assert!(rt; out.written().is_empty());
    long.push(b'a')?;
    let (status, out) = play(alloc, &long)?;
    assert_eq!(rt; status, 6);
    assert!(rt; out.written().is_empty());
    Ok(())
}

/// A source that gives one byte at a time.
#[derive(Drop)]
struct ByteByByte {
    source: SureSource,
}

impl Source for ByteByByte {
    ghost use Rattle.std.specs.Prelude.{None};

    ghost left = { λ _. None };

    ghost fault_count = { λ _. 0 };

    fn faults(&self) -> u64 {
        0
    }

    fn read(&mut self, buf: &mut [u8]) -> Result<usize, Failed> {
        if buf.is_empty() {
            return Ok(0);
        }
        self.source.read(&mut buf[..1])
    }
}

/// The first of the scripts, with its base.
fn first_script(alloc: Global) -> Result<String, Fail> {
    filled(alloc, format!(in alloc; "{BASE}{}", ROWS[0].0)?.as_str())
}

#[test]
fn bytes_may_come_one_by_one(rt: HostRuntime) -> Result<(), Fail> {
    let alloc = rt.alloc();
    let script = first_script(alloc)?;
    let source = SureSource::new(script.as_bytes().to_vec(alloc)?);
    let mut input = ByteByByte { source };
    let mut out = SureSink::new(alloc);
    assert_eq!(rt; replay(alloc, &mut input, &mut out), 0);
    let printed = filled(alloc, ROWS[0].1)?;
    assert!(rt; out.written() == printed.as_bytes());
    Ok(())
}

#[test]
fn reads_may_fail(rt: HostRuntime) -> Result<(), Fail> {
    let alloc = rt.alloc();
    let script = first_script(alloc)?;
    for failing in [1, 2] {
        let mut input = MemSource::new(script.as_bytes().to_vec(alloc)?, vec![in alloc; failing]?);
        let mut out = SureSink::new(alloc);
        assert_eq!(rt; replay(alloc, &mut input, &mut out), 3);
        assert_eq!(rt; input.faults(), 1);
        assert!(rt; out.written().is_empty());
    }
    Ok(())
}

#[test]
fn writes_may_fail(rt: HostRuntime) -> Result<(), Fail> {
    let alloc = rt.alloc();
    let script = first_script(alloc)?;
    let (_, whole) = play(alloc, script.as_bytes())?;
    let mut status = 4;
    for failing in 1..7 {
        assert_eq!(rt; status, 4);
        let mut input = SureSource::new(script.as_bytes().to_vec(alloc)?);
        let mut out = MemSink::new(alloc, vec![in alloc; failing]?);
        status = replay(alloc, &mut input, &mut out);
        assert!(rt; whole.written().starts_with(out.written()));
        assert_eq!(rt; out.faults(), u64::from(status == 4));
    }
    assert_eq!(rt; status, 0);
    Ok(())
}

#[test]
fn the_line_that_names_a_bad_one_may_fail(rt: HostRuntime) -> Result<(), Fail> {
    let alloc = rt.alloc();
    let mut input = SureSource::new(b"no line\n".to_vec(alloc)?);
    let mut out = MemSink::new(alloc, vec![in alloc; 1]?);
    assert_eq!(rt; replay(alloc, &mut input, &mut out), 4);
    assert!(rt; out.written().is_empty());
    Ok(())
}
