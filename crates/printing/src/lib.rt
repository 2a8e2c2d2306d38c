// What the programs print, made from the bytes of a study file.
#![tactic(auto)]

pub mod printed;
pub mod quotation;
pub mod solution;
pub mod study;
#[cfg(test)]
mod tests;
pub mod trial;
