//! Which received stamps are fit, and the stamps that were accepted.
#![tactic(auto)]

mod entry;
mod judged;
mod laws;
mod list_store;
mod ranked;
mod scans;
mod seen;
mod store;
mod tree;
mod verdict;
mod window_store;

pub use laws::{fit_stamps_are_new, verdicts_rest_on_what_is_kept};
pub use list_store::ListStore;
pub use store::Store;
pub use verdict::Verdict;
pub use window_store::WindowStore;
