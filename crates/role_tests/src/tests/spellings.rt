//! The spellings of the words from which the messages of the tables are put together.

use std::alloc::Global;
use std::test::Fail;

/// What the key of the part that both have is spelled as.
const KEY: &[u8] =
    b"\x0b\xaa\xaa\xaa\xaa\xaa\xaa\xaa\xaa\xaa\xaa\xaa\xaa\xaa\xaa\xaa\xaa\xaa\xaa\xaa\xaa\xaa\xaa\xaa\xaa\xaa\xaa\xaa\xaa\xaa\xaa\xaa\xaa";

/// What the key of another part is spelled as.
const ODD_KEY: &[u8] =
    b"\x0b\xbb\xbb\xbb\xbb\xbb\xbb\xbb\xbb\xbb\xbb\xbb\xbb\xbb\xbb\xbb\xbb\xbb\xbb\xbb\xbb\xbb\xbb\xbb\xbb\xbb\xbb\xbb\xbb\xbb\xbb\xbb\xbb";

/// What these words are spelled as, one after the other:
///
/// - `3` is the kind and the count of a tuple of three items;
/// - `E1.2` is the tag of pass 2 of E1, and `E1.2.1` that of the body in it;
/// - `seal` and `check` are their kinds and the key, `odd-seal` and `odd-check` the same with another key;
/// - `A`, `B` and `C` are the names 1, 2 and 3, and `zero` is none;
/// - `N1` is the counted nonce 1, `M5` the time stamp 5, `Q5` the sequence number 5;
/// - `X1` is the text `1`, `no` is one that is allowed nowhere, and `long` is none.
pub fn spelled(alloc: Global, words: &str) -> Result<Vec<u8>, Fail> {
    let mut bytes = Vec::new(alloc);
    for word in words.split(' ') {
        put(&mut bytes, word.as_bytes())?;
    }
    Ok(bytes)
}

/// Appends what a word is spelled as.
fn put(bytes: &mut Vec<u8>, word: &[u8]) -> Result<(), Fail> {
    match word {
        [] => {}
        b"A" => bytes.extend_from_slice(b"\x01\0\0\0\x01")?,
        b"B" => bytes.extend_from_slice(b"\x01\0\0\0\x02")?,
        b"C" => bytes.extend_from_slice(b"\x01\0\0\0\x03")?,
        b"zero" => bytes.extend_from_slice(b"\x01\0\0\0\0")?,
        b"no" => bytes.extend_from_slice(b"\x06\0\x02no")?,
        b"long" => bytes.extend_from_slice(b"\x06\x04\x01")?,
        b"seal" => put_both(bytes, b"\x09", KEY)?,
        b"check" => put_both(bytes, b"\x0a", KEY)?,
        b"odd-seal" => put_both(bytes, b"\x09", ODD_KEY)?,
        b"odd-check" => put_both(bytes, b"\x0a", ODD_KEY)?,
        [b'N', n] => put_both(bytes, b"\x04\xd0\0\0\0\0\0\0\0\0\0\0\0\0\0\0", &[digit(*n)])?,
        [b'M', n] => put_both(bytes, b"\x02\0\0\0\0\0\0\0", &[digit(*n)])?,
        [b'Q', n] => put_both(bytes, b"\x03\0\0\0\0\0\0\0", &[digit(*n)])?,
        [b'X', n] => put_both(bytes, b"\x06\0\x01", &[*n])?,
        [b'E', mech, b'.', pass] => put_tag(bytes, 1, *mech, *pass, b'0')?,
        [b'E', mech, b'.', pass, b'.', part] => put_tag(bytes, 1, *mech, *pass, *part)?,
        [b'C', mech, b'.', pass] => put_tag(bytes, 2, *mech, *pass, b'0')?,
        [b'C', mech, b'.', pass, b'.', part] => put_tag(bytes, 2, *mech, *pass, *part)?,
        [count] => put_both(bytes, b"\x08", &[digit(*count)])?,
        _ => return Err("no word of the tables".into()),
    }
    Ok(())
}

fn put_both(bytes: &mut Vec<u8>, front: &[u8], rest: &[u8]) -> Result<(), Fail> {
    bytes.extend_from_slice(front)?;
    bytes.extend_from_slice(rest)?;
    Ok(())
}

fn put_tag(bytes: &mut Vec<u8>, family: u8, mech: u8, pass: u8, part: u8) -> Result<(), Fail> {
    let tag = [7, family, digit(mech), digit(pass), digit(part)];
    bytes.extend_from_slice(&tag)?;
    Ok(())
}

/// The number of a decimal digit.
fn digit(byte: u8) -> u8 {
    byte & 15
}
