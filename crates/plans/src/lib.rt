// What a plan is and costs: the definitions, and the laws that say what they come to.
#![tactic(auto)]

pub mod laws;
