// The trial: a study is solved with the money of one record of a file changed, and the file ends as it was.
#![tactic(auto)]

pub mod change;
mod changed;
pub mod laws;
#[cfg(test)]
mod tests;
pub mod trial;
