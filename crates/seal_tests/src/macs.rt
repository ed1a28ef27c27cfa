//! The published values of HMAC-SHA-256.

use seal_etm::{hmac_sha256, key_print};
use std::alloc::Global;
use std::test::Fail;
use term_values::{Key, Part};

/// Whether the check value of the input under the key has these digits.
fn has_value(alloc: Global, key: &[u8], input: &[u8], digits: &str) -> Result<bool, Fail> {
    let value = hmac_sha256(key, input)?;
    let text = hex::encode(alloc, &value)?;
    Ok(text.as_str() == digits)
}

/// RFC 4231, cases 1, 2, 3 and 4: keys of fewer than 64 bytes.
#[test]
fn published_values_under_short_keys(rt: HostRuntime) -> Result<(), Fail> {
    let alloc = rt.alloc();
    let mut rising = [0; 25];
    for i in 0..25usize {
        rising[i] = i as u8 + 1;
    }
    let rows: [(&[u8], &[u8], &str); 4] = [
        (
            &[0x0b; 20],
            b"Hi There",
            "b0344c61d8db38535ca8afceaf0bf12b881dc200c9833da726e9376c2e32cff7",
        ),
        (
            b"Jefe",
            b"what do ya want for nothing?",
            "5bdcc146bf60754e6a042426089575c75a003f089d2739839dec58b964ec3843",
        ),
        (
            &[0xaa; 20],
            &[0xdd; 50],
            "773ea91e36800e46854db8ebd09181a72959098b3ef8c122d9635514ced565fe",
        ),
        (
            &rising,
            &[0xcd; 50],
            "82558a389a443c0ea4cc819899f2083a85f0faa3e578f8077a2e3ff46729665b",
        ),
    ];
    for (key, input, digits) in rows {
        assert!(rt; has_value(alloc, key, input, digits)?);
    }
    Ok(())
}

/// RFC 4231, cases 6 and 7: keys of more than 64 bytes.
#[test]
fn published_values_under_long_keys(rt: HostRuntime) -> Result<(), Fail> {
    let alloc = rt.alloc();
    let first = b"Test Using Larger Than Block-Size Key - Hash Key First";
    let second = b"This is a test using a larger than block-size key and a larger than \
block-size data. The key needs to be hashed before being used by the HMAC algorithm.";
    let digits = "60e431591ee0b67f0d8a26aacbf5b77f8e0bc6213728c5140546040f0ee37f54";
    assert!(rt; has_value(alloc, &[0xaa; 131], first, digits)?);
    let digits = "9b09ffa71b942fcb27635fbcd5b0e944bfdc63644f0713938a7f51535c3a35e2";
    assert!(rt; has_value(alloc, &[0xaa; 131], second, digits)?);
    Ok(())
}

/// Keys at the border of a block; the values are those of another implementation of HMAC.
#[test]
fn keys_of_one_block(rt: HostRuntime) -> Result<(), Fail> {
    let alloc = rt.alloc();
    let digits = "ebef34e13d0a0fe04593d043bc7a865106db0604211d404c18206d862e5d7852";
    assert!(rt; has_value(alloc, &[0xaa; 64], b"Hi There", digits)?);
    let digits = "00af6c42340b99e2e1d9a1cdf1547be431fe2e9bab3215c68d013ba858891927";
    assert!(rt; has_value(alloc, &[0xaa; 65], b"Hi There", digits)?);
    Ok(())
}

/// The print of a key; the value is that of another implementation of SHA-256.
#[test]
fn prints(rt: HostRuntime) -> Result<(), Fail> {
    let alloc = rt.alloc();
    let print = key_print(alloc, &Key::One(Part([0xaa; 32])))?;
    let text = hex::encode(alloc, &print)?;
    assert!(rt; text.as_str() == "d8d732acb43e5301");
    Ok(())
}
