//! The spelling of terms: one sequence of bytes for each term within the limits.
#![tactic(auto)]

mod decoding;
mod frames;
mod kinds;
mod laws;
mod reading;
mod writing;

pub use decoding::{DecodeFault, decode, decode_whole};
pub use frames::{Deframer, FrameFault, frame};
pub use laws::{
    cut_anyhow, fed_is_told, one_fault, one_form, one_whole_fault, some_fault, spelling_is_relation,
};
pub use writing::{EncodeFault, encode, encode_key};
