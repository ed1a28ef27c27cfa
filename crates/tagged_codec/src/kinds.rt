//! The bytes that begin the spelling of a term or of a key, and the limits of the grammar.

pub(crate) const NAME: u8 = 0x01;

pub(crate) const TIME: u8 = 0x02;

pub(crate) const SEQ: u8 = 0x03;

pub(crate) const NONCE: u8 = 0x04;

pub(crate) const PART: u8 = 0x05;

pub(crate) const TEXT: u8 = 0x06;

pub(crate) const TAG: u8 = 0x07;

pub(crate) const TUPLE: u8 = 0x08;

pub(crate) const SEAL: u8 = 0x09;

pub(crate) const CHECK: u8 = 0x0a;

pub(crate) const KEY_ONE: u8 = 0x0b;

pub(crate) const KEY_TWO: u8 = 0x0c;

pub(crate) const BLOB: u8 = 0x0d;

/// The most levels of a term.
pub(crate) const LEVELS_MAX: u32 = 8;
/// The most bytes of a spelling.
pub(crate) const SPELLING_MAX: usize = 8192;
/// The most items of a tuple.
pub(crate) const ITEMS_MAX: usize = 32;
/// The most bytes of a text.
pub(crate) const TEXT_MAX: usize = 1024;
/// The most bytes of a blob.
pub(crate) const BLOB_MAX: usize = 4096;
