// What a plan is, said a second way: a selection of options with rules that tie them.
#![tactic(auto)]

pub mod laws;
