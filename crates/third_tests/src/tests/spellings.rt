//! The spellings of the words from which the messages of the tables are put together.

use std::alloc::Global;
use std::test::Fail;
use term_values::Part;

/// The counted part of that number.
pub fn part(number: u8) -> Part {
    let mut bytes = [0; 32];
    bytes[0] = 0xd0;
    bytes[31] = number;
    Part(bytes)
}

/// What these words are spelled as, one after the other:
///
/// - `3` is the kind and the count of a tuple of three items;
/// - `K8.2` is the tag of pass 2 of K8, and `K8.2.1` that of the first body in it, and so for E;
/// - `for-a` and `for-b` are the kind of a seal, and the key of that party and the third;
/// - `A`, `B`, `C` and `P` are the names 1, 2, 3 and 9, and `zero` is none;
/// - `N1` is the counted nonce 1, `F1` the counted part 1;
/// - `M5` is the time stamp 5, `Q5` the sequence number 5;
/// - `X1` is the text `1`, `X` the empty one, `no` is one that is allowed nowhere, and `long` none.
pub fn spelled(alloc: Global, words: &str) -> Result<Vec<u8>, Fail> {
    let mut bytes = Vec::new(alloc);
    for word in words.split(' ') {
        put(&mut bytes, word.as_bytes())?;
    }
    Ok(bytes)
}

/// Appends what a word is spelled as.
fn put(bytes: &mut Vec<u8>, word: &[u8]) -> Result<(), Fail> {
    match word {
        [] => {}
        b"A" => bytes.extend_from_slice(b"\x01\0\0\0\x01")?,
        b"B" => bytes.extend_from_slice(b"\x01\0\0\0\x02")?,
        b"C" => bytes.extend_from_slice(b"\x01\0\0\0\x03")?,
        b"P" => bytes.extend_from_slice(b"\x01\0\0\0\x09")?,
        b"X" => bytes.extend_from_slice(b"\x06\0\0")?,
        b"zero" => bytes.extend_from_slice(b"\x01\0\0\0\0")?,
        b"no" => bytes.extend_from_slice(b"\x06\0\x02no")?,
        b"long" => bytes.extend_from_slice(b"\x06\x04\x01")?,
        b"for-a" => put_seal(bytes, 0xaa)?,
        b"for-b" => put_seal(bytes, 0xbb)?,
        [b'N', n] => put_both(bytes, b"\x04\xd0\0\0\0\0\0\0\0\0\0\0\0\0\0\0", &[digit(*n)])?,
        [b'F', n] => put_both(bytes, b"\x05", part(digit(*n)).list())?,
        [b'M', n] => put_both(bytes, b"\x02\0\0\0\0\0\0\0", &[digit(*n)])?,
        [b'Q', n] => put_both(bytes, b"\x03\0\0\0\0\0\0\0", &[digit(*n)])?,
        [b'X', n] => put_both(bytes, b"\x06\0\x01", &[*n])?,
        [b'E', mech, b'.', pass] => put_tag(bytes, 1, *mech, *pass, b'0')?,
        [b'E', mech, b'.', pass, b'.', part] => put_tag(bytes, 1, *mech, *pass, *part)?,
        [b'K', mech, b'.', pass] => put_tag(bytes, 3, *mech, *pass, b'0')?,
        [b'K', mech, b'.', pass, b'.', part] => put_tag(bytes, 3, *mech, *pass, *part)?,
        [count] => put_both(bytes, b"\x08", &[digit(*count)])?,
        _ => return Err("no word of the tables".into()),
    }
    Ok(())
}

fn put_both(bytes: &mut Vec<u8>, front: &[u8], rest: &[u8]) -> Result<(), Fail> {
    bytes.extend_from_slice(front)?;
    bytes.extend_from_slice(rest)?;
    Ok(())
}

/// Appends the kind of a seal, and the key of the part that has this byte 32 times.
fn put_seal(bytes: &mut Vec<u8>, byte: u8) -> Result<(), Fail> {
    bytes.extend_from_slice(&[9, 11])?;
    bytes.extend_from_slice(&[byte; 32])?;
    Ok(())
}

fn put_tag(bytes: &mut Vec<u8>, family: u8, mech: u8, pass: u8, part: u8) -> Result<(), Fail> {
    let tag = [7, family, digit(mech), digit(pass), digit(part)];
    bytes.extend_from_slice(&tag)?;
    Ok(())
}

/// The number of a decimal digit.
fn digit(byte: u8) -> u8 {
    byte & 15
}
