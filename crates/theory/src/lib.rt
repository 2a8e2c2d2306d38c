// The solver's argument: from the laws of a cost kind to the search that answers the least and first plan.
#![tactic(auto)]

pub mod laws;
