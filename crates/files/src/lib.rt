// The study file: its records, the table book that answers charges from them, the intake that makes a study of it, and the
// writing of a study.
#![tactic(auto)]

pub mod intake;
pub mod laws;
pub mod record;
#[cfg(test)]
mod round_trip_tests;
pub mod table_book;
#[cfg(test)]
mod tests;
pub mod write;
