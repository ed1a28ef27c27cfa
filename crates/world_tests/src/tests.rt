//! Worlds are played by tables: each row has what is done, and what the world answers.

mod acts;
mod configurations;
mod exchanges;
mod fixtures;
mod tables;
mod words;
mod worlds;
