// Postings and costs: what is posted, and the kinds of cost that sum and compare postings.
#![tactic(auto)]

pub mod kind;
pub mod money;
pub mod posting;
pub mod totals;
