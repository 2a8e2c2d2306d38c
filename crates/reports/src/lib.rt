// What the programs print: the report of a plan and the refusal line.
#![tactic(auto)]

mod carried;
pub mod laws;
mod line;
mod place;
pub mod refusal_line;
pub mod report;
#[cfg(test)]
mod tests;
