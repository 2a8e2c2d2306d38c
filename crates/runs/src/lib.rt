// Whole runs of calls: any calls, one after another, on one study.
#![tactic(auto)]

pub mod call;
pub mod laws;
pub mod runs;
