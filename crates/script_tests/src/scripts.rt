use mech_rows::{Refusal, Slot};
use script_text::{BadLine, Line, print_refusal, print_term, read_line, read_term};
use std::alloc::Global;
use std::process::Abort;
use std::test::Fail;
use term_values::{OutOfMemory, Stamp, StampKind, Term, Why};

/// Texts that print as they are read.
const TERMS: [&str; 23] = [
    "N:1",
    "N:4294967295",
    "T:0",
    "T:18446744073709551615",
    "Q:18446744073709551615",
    "R:00112233445566778899aabbccddeeff",
    "F:00000000000000000000000000000000000000000000000000000000000000d1",
    "X:",
    "X:0aff",
    "G:01020200",
    "B:",
    "B:00",
    "()",
    "(())",
    "(N:1)",
    "(N:1,X:,())",
    "S[K:aaaaaaaaaaaaaaaaaaaaaaaaaaaaaaaaaaaaaaaaaaaaaaaaaaaaaaaaaaaaaaaa|N:1]",
    "C[K:aaaaaaaaaaaaaaaaaaaaaaaaaaaaaaaaaaaaaaaaaaaaaaaaaaaaaaaaaaaaaaaa|()]",
    "C[K:aaaaaaaaaaaaaaaaaaaaaaaaaaaaaaaaaaaaaaaaaaaaaaaaaaaaaaaaaaaaaaaa+bbbbbbbbbbbbbbbbbbbbbbbbbbbbbbbbbbbbbbbbbbbbbbbbbbbbbbbbbbbbbbbb|X:00]",
    "(G:01020100,R:d0000000000000000000000000000000,X:)",
    "(G:01020200,X:,S[K:aaaaaaaaaaaaaaaaaaaaaaaaaaaaaaaaaaaaaaaaaaaaaaaaaaaaaaaaaaaaaaaa|(G:01020201,N:1,N:2,R:d0000000000000000000000000000000,X:)])",
    "(G:01010100,X:,S[K:aaaaaaaaaaaaaaaaaaaaaaaaaaaaaaaaaaaaaaaaaaaaaaaaaaaaaaaaaaaaaaaa|(G:01010101,N:1,N:2,T:1,X:)])",
    "(((((((())))))))",
];

/// Texts that are no notation of a term.
const NO_TERMS: [&str; 44] = [
    "",
    "N:0",
    "N:01",
    "N:",
    "N:+1",
    "N:-1",
    "N:4294967296",
    "N:1 ",
    " N:1",
    "n:1",
    "N1",
    "T:00",
    "T:18446744073709551616",
    "Q:",
    "R:00112233445566778899aabbccddee",
    "R:00112233445566778899aabbccddeeff00",
    "R:00112233445566778899AABBCCDDEEFF",
    "F:00",
    "X:0",
    "X:0A",
    "X:0g",
    "X",
    "G:010202",
    "G:0102020000",
    "B:0",
    "(",
    ")",
    "(N:1",
    "(N:1,",
    "(N:1,)",
    "(,N:1)",
    "(N:1;N:2)",
    "()()",
    "S[N:1]",
    "S[K:aa|N:1]",
    "S(K:aaaaaaaaaaaaaaaaaaaaaaaaaaaaaaaaaaaaaaaaaaaaaaaaaaaaaaaaaaaaaaaa|N:1)",
    "S[K:aaaaaaaaaaaaaaaaaaaaaaaaaaaaaaaaaaaaaaaaaaaaaaaaaaaaaaaaaaaaaaaa|N:1",
    "S[K:aaaaaaaaaaaaaaaaaaaaaaaaaaaaaaaaaaaaaaaaaaaaaaaaaaaaaaaaaaaaaaaa+|N:1]",
    "K:aaaaaaaaaaaaaaaaaaaaaaaaaaaaaaaaaaaaaaaaaaaaaaaaaaaaaaaaaaaaaaaa",
    "N:1\r",
    "N:1\0",
    "N:\u{661}",
    "((((((((N:1))))))))",
    "((((((((()))))))))",
];

/// What an `@` gives where the one message sent is `(N:1,X:61,(N:2))`.
const REFERENCES: [(&str, Result<&str, BadLine>); 19] = [
    ("@1", Ok("(N:1,X:61,(N:2))")),
    ("@1.0", Ok("N:1")),
    ("@1.2", Ok("(N:2)")),
    ("(@1.1,@1.1)", Ok("(X:61,X:61)")),
    ("@1.3", Err(BadLine::Reference)),
    ("@0", Err(BadLine::Reference)),
    ("@2", Err(BadLine::Reference)),
    ("@2.0", Err(BadLine::Reference)),
    ("@18446744073709551616", Err(BadLine::Reference)),
    ("@1.18446744073709551616", Err(BadLine::Reference)),
    ("((((((((@2))))))))", Err(BadLine::Grammar)),
    ("(((((((@2)))))))", Err(BadLine::Reference)),
    ("@", Err(BadLine::Grammar)),
    ("@01", Err(BadLine::Grammar)),
    ("@1.", Err(BadLine::Grammar)),
    ("@1.00", Err(BadLine::Grammar)),
    ("@1.0.0", Err(BadLine::Grammar)),
    ("(@2,N:0)", Err(BadLine::Grammar)),
    ("(@2", Err(BadLine::Grammar)),
];

/// A text, and another so many times behind it, and a third.
fn joined(
    alloc: Global,
    first: &str,
    again: &str,
    count: usize,
    last: &str,
) -> Result<Vec<u8>, OutOfMemory> {
    let mut text = Vec::from_slice(alloc, first.as_bytes())?;
    for _ in 0..count {
        text.extend_from_slice(again.as_bytes())?;
    }
    text.extend_from_slice(last.as_bytes())?;
    Ok(text)
}

/// Reads the text and compares the printed form of what was read, or the reason.
fn expect_term(
    rt: &impl Abort,
    alloc: Global,
    text: &[u8],
    sent: &[Term],
    wanted: Result<&[u8], BadLine>,
) -> Result<(), Fail> {
    match (read_term(alloc, text, sent), wanted) {
        (Ok(term), Ok(printed)) => {
            assert_eq!(rt; print_term(alloc, &term)?.as_slice(), printed);
        }
        (Err(reason), Err(wanted)) => assert_eq!(rt; reason, wanted),
        _ => assert!(rt; false),
    }
    Ok(())
}

#[test]
fn terms_are_read_and_printed(rt: HostRuntime) -> Result<(), Fail> {
    for text in &TERMS {
        expect_term(&rt, rt.alloc(), text.as_bytes(), &[], Ok(text.as_bytes()))?;
    }
    for text in &NO_TERMS {
        expect_term(&rt, rt.alloc(), text.as_bytes(), &[], Err(BadLine::Grammar))?;
    }
    Ok(())
}

#[test]
fn a_term_past_the_spelling_is_no_term(rt: HostRuntime) -> Result<(), Fail> {
    let alloc = rt.alloc();
    let mut text = b"(B:".to_vec(alloc)?;
    let digits = vec![in alloc; b'0'; 8192]?;
    text.extend_from_slice(&digits)?;
    text.extend_from_slice(b",B:")?;
    text.extend_from_slice(&digits)?;
    text.push(b')')?;
    expect_term(&rt, alloc, &text, &[], Err(BadLine::Grammar))
}

#[test]
fn references_are_replaced(rt: HostRuntime) -> Result<(), Fail> {
    let first = read_term(rt.alloc(), b"(N:1,X:61,(N:2))", &[])?;
    let sent = vec![in rt.alloc(); first]?;
    for (text, wanted) in &REFERENCES {
        expect_term(
            &rt,
            rt.alloc(),
            text.as_bytes(),
            &sent,
            wanted.map(|t| t.as_bytes()),
        )?;
    }
    Ok(())
}

#[test]
fn sizes_are_bounded(rt: HostRuntime) -> Result<(), Fail> {
    let alloc = rt.alloc();
    let longest = joined(alloc, "X:", "00", 1024, "")?;
    expect_term(&rt, alloc, &longest, &[], Ok(&longest))?;
    let longer = joined(alloc, "X:", "00", 1025, "")?;
    expect_term(&rt, alloc, &longer, &[], Err(BadLine::Grammar))?;
    let most = joined(alloc, "(N:1", ",N:1", 31, ")")?;
    expect_term(&rt, alloc, &most, &[], Ok(&most))?;
    let more = joined(alloc, "(N:1", ",N:1", 32, ")")?;
    expect_term(&rt, alloc, &more, &[], Err(BadLine::Grammar))?;
    let blob = joined(alloc, "B:", "00", 4096, "")?;
    expect_term(&rt, alloc, &blob, &[], Ok(&blob))?;
    let wider = joined(alloc, "B:", "00", 4097, "")?;
    expect_term(&rt, alloc, &wider, &[], Err(BadLine::Grammar))?;
    let open = joined(alloc, "", "(", 1_048_576, "")?;
    expect_term(&rt, alloc, &open, &[], Err(BadLine::Grammar))?;
    let commas = joined(alloc, "(", "(),", 349_525, "())")?;
    expect_term(&rt, alloc, &commas, &[], Err(BadLine::Grammar))?;
    let blanks = joined(alloc, "give", " ", 1_048_576, "")?;
    assert!(rt; read_line(alloc, &blanks, &[]).err() == Some(BadLine::Grammar));
    Ok(())
}

/// Every refusal with its line.
const REFUSALS: [(Refusal, &str); 27] = [
    (Refusal::UnknownRun, "1 UnknownRun"),
    (Refusal::EndedRun, "2 EndedRun"),
    (
        Refusal::Malformed {
            place: 4,
            why: Why::ZeroName,
        },
        "3 Malformed 4 ZeroName",
    ),
    (Refusal::WrongPass, "4 WrongPass"),
    (Refusal::Unopened { part: 1 }, "5 Unopened 1"),
    (Refusal::WrongShape { part: 1 }, "6 WrongShape 1"),
    (Refusal::WrongNames { part: 1 }, "7 WrongNames 1"),
    (
        Refusal::WrongValue {
            part: 1,
            slot: Slot::Rb,
        },
        "8 WrongValue 1 Rb",
    ),
    (
        Refusal::WrongStampKind { slot: Slot::Ta },
        "9 WrongStampKind Ta",
    ),
    (
        Refusal::Early {
            slot: Slot::Ta,
            at: 4999,
        },
        "10 Early Ta 4999",
    ),
    (
        Refusal::Late {
            slot: Slot::Ta,
            at: 2,
        },
        "11 Late Ta 2",
    ),
    (
        Refusal::Repeated {
            stamp: Stamp::Seq(2),
        },
        "12 Repeated Q:2",
    ),
    (Refusal::StoreFull { count: 4096 }, "13 StoreFull 4096"),
    (Refusal::TextRefused { slot: Slot::X2 }, "14 TextRefused X2"),
    (Refusal::NotDerivable, "20 NotDerivable"),
    (Refusal::Unborn, "21 Unborn"),
    (Refusal::NoSecret, "22 NoSecret"),
    (Refusal::UnknownParty, "30 UnknownParty"),
    (Refusal::WrongKind, "31 WrongKind"),
    (Refusal::SelfPeer, "32 SelfPeer"),
    (Refusal::NoKey, "33 NoKey"),
    (Refusal::TableFull, "34 TableFull"),
    (Refusal::StampsSpent, "35 StampsSpent"),
    (Refusal::DrawFault, "36 DrawFault"),
    (Refusal::Moved { made: 1, held: 2 }, "37 Moved 1 2"),
    (Refusal::KeeperFault, "38 KeeperFault"),
    (Refusal::Memory, "40 Memory"),
];

#[test]
fn refusals_are_printed(rt: HostRuntime) -> Result<(), Fail> {
    for (refusal, line) in &REFUSALS {
        let printed = print_refusal(rt.alloc(), refusal)?;
        assert_eq!(rt; printed.as_slice(), line.as_bytes());
    }
    Ok(())
}

/// Lines that are read, with the place of what they say among the lines.
const LINES: [(&str, u8); 27] = [
    ("", 8),
    ("#", 8),
    ("# party 1", 8),
    ("#\t", 8),
    ("party 1 time 0", 0),
    ("party 4294967295 time 600000", 0),
    ("party\t7\ttime\t5000", 0),
    ("party 7 seq", 0),
    (
        "pair 1 2 aaaaaaaaaaaaaaaaaaaaaaaaaaaaaaaaaaaaaaaaaaaaaaaaaaaaaaaaaaaaaaaa",
        1,
    ),
    (
        "pair 1 2 aaaaaaaaaaaaaaaaaaaaaaaaaaaaaaaaaaaaaaaaaaaaaaaaaaaaaaaaaaaaaaaa revealed",
        1,
    ),
    (
        "own aaaaaaaaaaaaaaaaaaaaaaaaaaaaaaaaaaaaaaaaaaaaaaaaaaaaaaaaaaaaaaaa",
        2,
    ),
    ("allow E1 X1 0 -", 3),
    ("allow C4 X9 1024 00ff", 3),
    ("clock 1 0", 4),
    ("clock 1 18446744073709551615", 4),
    ("open E1 A 1 2", 5),
    ("open E2 B 2 1 X1=", 5),
    ("open E3 B 1 2 X3=00 X4=0aff", 5),
    ("open E4 B 1 2 X5= X1= X4=", 5),
    ("open C1 A 1 2 X2= X1=", 5),
    ("open C2 A 1 2 X3=", 5),
    ("open C3 A 1 2 X1=", 5),
    ("open C4 A 1 2 X2= X3=", 5),
    ("give 0 N:1", 6),
    ("give 4294967295 @1", 6),
    ("drop 0", 7),
    ("drop 4294967295", 7),
];

/// Lines with a fault of grammar, where one message was sent.
const NO_LINES: [&str; 65] = [
    " ",
    "\t",
    " #",
    "party",
    "party 0 seq",
    "party 01 seq",
    "party 4294967296 seq",
    "party 1 seq 5000",
    "party 1 time",
    "party 1 time 600001",
    "party 1 time 01",
    "party  1 seq",
    " party 1 seq",
    "party 1 seq ",
    "party 1 seq\r",
    "party 1 seq\0",
    "Party 1 seq",
    "party 1 time 5 5",
    "pair 1 2",
    "pair 1 2 aaaaaaaaaaaaaaaaaaaaaaaaaaaaaaaaaaaaaaaaaaaaaaaaaaaaaaaaaaaaaaa",
    "pair 1 2 aaaaaaaaaaaaaaaaaaaaaaaaaaaaaaaaaaaaaaaaaaaaaaaaaaaaaaaaaaaaaaaaa",
    "pair 1 2 AAAAAAAAAAAAAAAAAAAAAAAAAAAAAAAAAAAAAAAAAAAAAAAAAAAAAAAAAAAAAAAA",
    "pair 1 2 aaaaaaaaaaaaaaaaaaaaaaaaaaaaaaaaaaaaaaaaaaaaaaaaaaaaaaaaaaaaaaaa Revealed",
    "pair 1 2 aaaaaaaaaaaaaaaaaaaaaaaaaaaaaaaaaaaaaaaaaaaaaaaaaaaaaaaaaaaaaaaa revealed x",
    "own",
    "own -",
    "own aaaaaaaaaaaaaaaaaaaaaaaaaaaaaaaaaaaaaaaaaaaaaaaaaaaaaaaaaaaaaaaa x",
    "allow E5 X1 0 -",
    "allow E1 X0 0 -",
    "allow E1 X10 0 -",
    "allow E1 Ta 0 -",
    "allow E1 X1 1025 -",
    "allow E1 X1 00 -",
    "allow E1 X1 0 --",
    "allow E1 X1 0 0",
    "allow E1 X1 0 0A",
    "allow E1 X1 0",
    "clock 1",
    "clock 1 18446744073709551616",
    "clock 0 1",
    "open E5 A 1 2",
    "open K3 A 1 2",
    "open E1 P 1 2",
    "open E1 C 1 2",
    "open E1 A 1",
    "open E1 B 1 2 X1=",
    "open E1 A 1 2 X3=",
    "open E1 A 1 2 X1= X1=",
    "open E1 A 1 2 X1",
    "open E1 A 1 2 X1=0",
    "open E2 A 1 2 X1=",
    "open C4 B 1 2 X2=",
    "give 1",
    "give 4294967296 N:1",
    "give 1 N:01",
    "give 1 N:1 ",
    "give 01 @2",
    "give x @2",
    "give 1 (@2,N:0)",
    "drop",
    "drop -1",
    "drop 4294967296",
    "server 9 seq",
    "raw 1 00",
    "key 1 -",
];

/// The place of what a line says among the lines.
fn place(line: &Line) -> u8 {
    match line {
        Line::Party { .. } => 0,
        Line::Pair { .. } => 1,
        Line::Own { .. } => 2,
        Line::Allow { .. } => 3,
        Line::Clock { .. } => 4,
        Line::Open { .. } => 5,
        Line::Give { .. } => 6,
        Line::Drop { .. } => 7,
        Line::Empty => 8,
    }
}

#[test]
fn lines_are_read(rt: HostRuntime) -> Result<(), Fail> {
    let alloc = rt.alloc();
    let sent = vec![in alloc; read_term(alloc, b"N:1", &[])?]?;
    for (text, wanted) in &LINES {
        let line = read_line(alloc, text.as_bytes(), &sent)?;
        assert_eq!(rt; place(&line), *wanted);
    }
    for text in &NO_LINES {
        let reason = read_line(alloc, text.as_bytes(), &sent).err();
        assert!(rt; reason == Some(BadLine::Grammar));
    }
    let party = read_line(alloc, b"party 7 seq", &sent)?;
    assert!(rt;
        matches!(
            &party,
            Line::Party {
                kind: StampKind::Seq,
                window: 5000,
                ..
            }
        )
    );
    assert!(rt; read_line(alloc, b"#\xff\x00", &sent).is_ok());
    assert!(rt; read_line(alloc, b"drop \xff", &sent).err() == Some(BadLine::Grammar));
    assert!(rt; read_line(alloc, b"give 1 @2", &sent).err() == Some(BadLine::Reference));
    Ok(())
}
