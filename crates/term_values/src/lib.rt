//! Values and terms of the protocols.
#![tactic(auto)]

mod bytes;
mod items;
mod lengths;
mod small;
mod term;
mod why;

pub use bytes::{Bytes, LongText, Text};
pub use items::Items;
pub use small::{Key, Name, Nonce, Part, Stamp, StampKind, Tag};
/// Want of memory, the one answer that no clause ties to a cause.
pub use std::alloc::AllocError as OutOfMemory;
pub use term::{Form, Term};
pub use why::Why;
