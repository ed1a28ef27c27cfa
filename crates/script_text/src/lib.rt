//! Terms, script lines and refusals as text.
#![tactic(auto)]

mod bad;
mod line;
mod line_words;
mod lines;
mod printing;
mod reading;
mod refusals;
mod terms;

pub use bad::BadLine;
pub use line::Line;
pub use lines::{one_line, read_line};
pub use printing::{one_form, print_term};
pub use refusals::print_refusal;
pub use terms::{one_reading, read_term};
