//! Sealing by encrypt-then-MAC over HMAC-SHA-256.
#![tactic(auto)]

mod etm;
mod hmac;
mod keys;
mod laws;

pub use etm::Etm;
pub use hmac::hmac_sha256;
pub use keys::key_print;
pub use laws::{blobs_alone_open_and_check, steps_are_over_blobs};
