//! Worked spellings and the borders of the grammar.

use std::alloc::Global;
use std::test::Fail;
use tagged_codec::{
    DecodeFault, Deframer, EncodeFault, FrameFault, decode, decode_whole, encode, encode_key, frame,
};
use term_values::{Bytes, Form, Items, Key, Part, Term, Why};

/// The challenge of a two-pass walk: its tag, a nonce and an empty text.
const CHALLENGE: [u8; 27] = [
    0x08, 0x03, 0x07, 0x01, 0x02, 0x01, 0x00, 0x04, 0xd0, 0, 0, 0, 0, 0, 0, 0, 0, 0, 0, 0, 0, 0, 0,
    0, 0x06, 0x00, 0x00,
];

/// The answer of the same walk: its tag, an empty text and a seal.
const ANSWER: [u8; 81] = [
    0x08, 0x03, 0x07, 0x01, 0x02, 0x02, 0x00, 0x06, 0x00, 0x00, 0x09, 0x0b, 0x11, 0x11, 0x11, 0x11,
    0x11, 0x11, 0x11, 0x11, 0x11, 0x11, 0x11, 0x11, 0x11, 0x11, 0x11, 0x11, 0x11, 0x11, 0x11, 0x11,
    0x11, 0x11, 0x11, 0x11, 0x11, 0x11, 0x11, 0x11, 0x11, 0x11, 0x11, 0x11, 0x08, 0x05, 0x07, 0x01,
    0x02, 0x02, 0x01, 0x01, 0x00, 0x00, 0x00, 0x01, 0x01, 0x00, 0x00, 0x00, 0x02, 0x04, 0xd0, 0, 0,
    0, 0, 0, 0, 0, 0, 0, 0, 0, 0, 0, 0, 0, 0x06, 0x00, 0x00,
];

fn tuple(items: Vec<Term>) -> Term {
    Term::of(Form::Tuple(Items::new(items)))
}

/// Tuples in one another, with so many levels in all.
fn nested(alloc: Global, levels: usize) -> Result<Term, Fail> {
    let mut term = tuple(Vec::new(alloc));
    for _ in 1..levels {
        let mut items = Vec::new(alloc);
        items.push(term)?;
        term = tuple(items);
    }
    Ok(term)
}

/// A tuple of empty tuples.
fn wide(alloc: Global, count: usize) -> Result<Term, Fail> {
    let mut items = Vec::new(alloc);
    for _ in 0..count {
        items.push(tuple(Vec::new(alloc)))?;
    }
    Ok(tuple(items))
}

/// A tuple of two blobs of these lengths.
fn blobs(alloc: Global, first: usize, second: usize) -> Result<Term, Fail> {
    let mut items = Vec::new(alloc);
    for length in [first, second] {
        let bytes = Vec::from_elem(alloc, 0x61, length)?;
        items.push(Term::of(Form::Blob(Bytes::new(bytes))))?;
    }
    Ok(tuple(items))
}

#[test]
fn reads_the_walk_again(rt: HostRuntime) -> Result<(), Fail> {
    for message in [CHALLENGE.as_slice(), ANSWER.as_slice()] {
        let (first, used) = decode(rt.alloc(), message)?;
        assert_eq!(rt; used, message.len());
        let whole = decode_whole(rt.alloc(), message)?;
        assert!(rt; first.same(&whole));
        let bytes = encode(rt.alloc(), &whole)?;
        assert_eq!(rt; bytes.as_slice(), message);
    }
    Ok(())
}

/// How many bytes the term's spelling has, where it has one.
fn length_of(alloc: Global, term: Result<Term, Fail>) -> Result<Option<usize>, Fail> {
    match encode(alloc, &term?) {
        Ok(bytes) => Ok(Some(bytes.len())),
        Err(EncodeFault::TooLarge) => Ok(None),
        Err(EncodeFault::Memory) => Err("memory".into()),
    }
}

#[test]
fn spells_within_the_limits(rt: HostRuntime) -> Result<(), Fail> {
    let alloc = rt.alloc();
    assert_eq!(rt; length_of(alloc, nested(alloc, 8))?, Some(16));
    assert_eq!(rt; length_of(alloc, nested(alloc, 9))?, None);
    assert_eq!(rt; length_of(alloc, wide(alloc, 32))?, Some(66));
    assert_eq!(rt; length_of(alloc, wide(alloc, 33))?, None);
    assert_eq!(rt; length_of(alloc, blobs(alloc, 4096, 0))?, Some(4104));
    assert_eq!(rt; length_of(alloc, blobs(alloc, 4097, 0))?, None);
    assert_eq!(rt; length_of(alloc, blobs(alloc, 4096, 4088))?, Some(8192));
    assert_eq!(rt; length_of(alloc, blobs(alloc, 4096, 4089))?, None);
    Ok(())
}

#[test]
fn spells_keys(rt: HostRuntime) -> Result<(), Fail> {
    let one = encode_key(rt.alloc(), &Key::One(Part([0x11; 32])))?;
    assert_eq!(rt; one.as_slice(), &ANSWER[11..44]);
    let two = encode_key(rt.alloc(), &Key::Two(Part([0x11; 32]), Part([0x22; 32])))?;
    assert_eq!(rt; two.len(), 65);
    assert_eq!(rt;
        (two[0], two[1], two[32], two[33], two[64]),
        (0x0c, 0x11, 0x11, 0x22, 0x22)
    );
    Ok(())
}

/// Where and why nothing is read.
fn fault_of(alloc: Global, bytes: &[u8]) -> Option<DecodeFault> {
    match decode(alloc, bytes) {
        Ok(_) => None,
        Err(fault) => Some(fault),
    }
}

/// The same where the bytes are to be one whole spelling.
fn whole_fault_of(alloc: Global, bytes: &[u8]) -> Option<DecodeFault> {
    match decode_whole(alloc, bytes) {
        Ok(_) => None,
        Err(fault) => Some(fault),
    }
}

fn malformed(place: usize, why: Why) -> Option<DecodeFault> {
    Some(DecodeFault::Malformed { place, why })
}

#[test]
fn proper_fronts_are_short(rt: HostRuntime) {
    for length in 0..81 {
        let front = &ANSWER[..length];
        assert_eq!(rt; fault_of(rt.alloc(), front), malformed(length, Why::Short));
        assert_eq!(rt;
            whole_fault_of(rt.alloc(), front),
            malformed(length, Why::Short)
        );
    }
}

/// The bytes that refuse a term, with the place and the reason.
const FAULTS: [(&[u8], usize, Why); 27] = [
    (&[], 0, Why::Short),
    (&[0x00], 0, Why::Kind),
    (&[0x0b], 0, Why::Kind),
    (&[0x0e], 0, Why::Kind),
    (&[0x09, 0x01], 1, Why::Kind),
    (&[0x0a, 0x0d], 1, Why::Kind),
    (&[0x08, 0x02, 0x08, 0x00, 0xff], 4, Why::Kind),
    (&[0x01, 0, 0, 0, 0], 4, Why::ZeroName),
    (&[0x08, 0x01, 0x01, 0, 0, 0, 0], 6, Why::ZeroName),
    (
        &[0x08, 0x02, 0x08, 0x00, 0x01, 0, 0, 0, 0, 0],
        8,
        Why::ZeroName,
    ),
    (&[0x01, 0, 0, 0], 4, Why::Short),
    (&[0x06, 0x05], 1, Why::LongText),
    (&[0x06, 0x04, 0x01], 2, Why::LongText),
    (&[0x08, 0x01, 0x06, 0xff, 0xff], 3, Why::LongText),
    (&[0x06, 0x04, 0x00], 3, Why::Short),
    (&[0x06, 0x04], 2, Why::Short),
    (&[0x0d, 0x11], 1, Why::LongBlob),
    (&[0x0d, 0x10, 0x01], 2, Why::LongBlob),
    (&[0x08, 0x01, 0x0d, 0xff, 0x00], 3, Why::LongBlob),
    (&[0x0d, 0x10, 0x00], 3, Why::Short),
    (&[0x08, 0x21], 1, Why::ManyItems),
    (&[0x08, 0xff], 1, Why::ManyItems),
    (&[0x08, 0x01, 0x08, 0x21], 3, Why::ManyItems),
    (&[0x08, 0x20], 2, Why::Short),
    (&[0x08, 0x01], 2, Why::Short),
    (&[0x09, 0x0c, 0x11], 3, Why::Short),
    (&[0x0d, 0x00, 0x02, 0x61], 4, Why::Short),
];

#[test]
fn tells_place_and_reason(rt: HostRuntime) {
    for (bytes, place, why) in FAULTS {
        assert_eq!(rt;
            fault_of(rt.alloc(), bytes),
            malformed(place, why),
            "of {bytes:?}"
        );
        assert_eq!(rt;
            whole_fault_of(rt.alloc(), bytes),
            malformed(place, why),
            "of {bytes:?}"
        );
    }
}

#[test]
fn reads_changed_challenges(rt: HostRuntime) -> Result<(), Fail> {
    let alloc = rt.alloc();
    assert_eq!(rt;
        whole_fault_of(alloc, &CHALLENGE[..26]),
        malformed(26, Why::Short)
    );
    let mut longer = CHALLENGE.to_vec(alloc)?;
    longer.push(0x00)?;
    assert_eq!(rt; whole_fault_of(alloc, &longer), malformed(27, Why::Extra));
    let mut text = CHALLENGE[..25].to_vec(alloc)?;
    text.extend_from_slice(&[0x04, 0x01])?;
    assert_eq!(rt; whole_fault_of(alloc, &text), malformed(26, Why::LongText));
    text.truncate(26);
    text.push(0x00)?;
    for _ in 0..1024 {
        text.push(0x61)?;
    }
    assert_eq!(rt; whole_fault_of(alloc, &text), None);
    let many = encode(alloc, &wide(alloc, 32)?)?;
    assert_eq!(rt; whole_fault_of(alloc, &many), None);
    Ok(())
}

#[test]
fn tells_bytes_that_are_left(rt: HostRuntime) {
    let cases: [(&[u8], usize); 3] = [
        (&[0x08, 0x00, 0x08], 2),
        (&[0x07, 1, 2, 3, 4, 5, 6], 5),
        (&[0x06, 0x00, 0x01, 0x61, 0x00], 4),
    ];
    for (bytes, used) in cases {
        assert_eq!(rt; fault_of(rt.alloc(), bytes), None);
        assert_eq!(rt;
            whole_fault_of(rt.alloc(), bytes),
            malformed(used, Why::Extra)
        );
    }
}

/// Seven tuples in one another, and these bytes at level 8.
fn at_level_eight(alloc: Global, bytes: &[u8]) -> Result<Vec<u8>, Fail> {
    let mut out = [0x08, 0x01].to_vec(alloc)?;
    for _ in 1..7 {
        out.extend_from_slice(&[0x08, 0x01])?;
    }
    out.extend_from_slice(bytes)?;
    Ok(out)
}

#[test]
fn tells_depth(rt: HostRuntime) -> Result<(), Fail> {
    let cases: [(&[u8], Option<DecodeFault>); 7] = [
        (&[0x09], malformed(14, Why::Deep)),
        (&[0x0a, 0x0b], malformed(14, Why::Deep)),
        (&[0x08, 0x01], malformed(15, Why::Deep)),
        (&[0x08, 0x20, 0x08, 0x00], malformed(15, Why::Deep)),
        (&[0x08, 0x21], malformed(15, Why::ManyItems)),
        (&[0x08, 0x00], None),
        (&[0x07, 1, 2, 3, 4], None),
    ];
    for (bytes, want) in cases {
        let all = at_level_eight(rt.alloc(), bytes)?;
        assert_eq!(rt; fault_of(rt.alloc(), &all), want);
    }
    Ok(())
}

/// A tuple of two blobs, of 4,096 bytes and of so many.
fn two_blobs(alloc: Global, second: u16) -> Result<Vec<u8>, Fail> {
    let mut out = [0x08, 0x02, 0x0d, 0x10, 0x00].to_vec(alloc)?;
    for _ in 0..4096 {
        out.push(0x61)?;
    }
    out.push(0x0d)?;
    out.extend_from_slice(&second.to_be_bytes())?;
    for _ in 0..second {
        out.push(0x61)?;
    }
    Ok(out)
}

#[test]
fn looks_at_so_many_bytes(rt: HostRuntime) -> Result<(), Fail> {
    let alloc = rt.alloc();
    let mut whole = two_blobs(alloc, 4088)?;
    assert_eq!(rt; whole.len(), 8192);
    assert_eq!(rt; whole_fault_of(alloc, &whole), None);
    whole.push(0x61)?;
    assert_eq!(rt; fault_of(alloc, &whole), None);
    assert_eq!(rt; whole_fault_of(alloc, &whole), malformed(8192, Why::Extra));
    let mut long = two_blobs(alloc, 4089)?;
    assert_eq!(rt; fault_of(alloc, &long), malformed(8192, Why::LongMessage));
    long.push(0x61)?;
    assert_eq!(rt;
        whole_fault_of(alloc, &long),
        malformed(8192, Why::LongMessage)
    );
    long.truncate(8192);
    assert_eq!(rt; fault_of(alloc, &long), malformed(8192, Why::Short));
    long.truncate(8191);
    assert_eq!(rt; fault_of(alloc, &long), malformed(8191, Why::Short));
    let longer = two_blobs(alloc, 4096)?;
    assert_eq!(rt; fault_of(alloc, &longer), malformed(8192, Why::LongMessage));
    Ok(())
}

/// The messages that the kept bytes hold.
fn take_all(deframer: &mut Deframer, taken: &mut Vec<Vec<u8>>) -> Result<(), Fail> {
    for _ in 0..4 {
        match deframer.next()? {
            Some(message) => taken.push(message)?,
            None => return Ok(()),
        }
    }
    Ok(())
}

#[test]
fn takes_frames_however_cut(rt: HostRuntime) -> Result<(), Fail> {
    let alloc = rt.alloc();
    let mut stream = frame(alloc, &CHALLENGE)?;
    stream.extend_from_slice(&frame(alloc, &[])?)?;
    stream.extend_from_slice(&frame(alloc, &ANSWER)?)?;
    assert_eq!(rt; stream.len(), 114);
    assert_eq!(rt;
        (stream[0], stream[1], stream[31], stream[32]),
        (0x00, 0x1b, 0x00, 0x51)
    );
    for cut in 0..=114 {
        let mut deframer = Deframer::new(alloc);
        let mut taken = Vec::new(alloc);
        deframer.feed(&stream[..cut])?;
        take_all(&mut deframer, &mut taken)?;
        deframer.feed(&stream[cut..])?;
        take_all(&mut deframer, &mut taken)?;
        assert_eq!(rt; taken.len(), 3);
        assert_eq!(rt; taken[0].as_slice(), CHALLENGE.as_slice());
        assert_eq!(rt; taken[1].len(), 0);
        assert_eq!(rt; taken[2].as_slice(), ANSWER.as_slice());
    }
    Ok(())
}

#[test]
fn refuses_long_frames(rt: HostRuntime) -> Result<(), Fail> {
    let mut deframer = Deframer::new(rt.alloc());
    deframer.feed(&[0x20, 0x00, 0x61])?;
    assert!(rt; deframer.next()?.is_none());
    let mut deframer = Deframer::new(rt.alloc());
    deframer.feed(&[0x00, 0x01, 0x61, 0x20])?;
    assert_eq!(rt; deframer.next()?.map(|m| m.len()), Some(1));
    assert!(rt; deframer.next()?.is_none());
    deframer.feed(&[0x01, 0x61])?;
    for _ in 0..2 {
        match deframer.next() {
            Ok(_) => assert!(rt; false),
            Err(fault) => assert_eq!(rt; fault, FrameFault::TooLong { length: 8193 }),
        }
    }
    Ok(())
}
