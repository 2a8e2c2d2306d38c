// Planning: the survey of a book, the decision of a byte, and the price of a plan.
#![tactic(auto)]

mod checks;
pub mod decision;
mod draft;
pub mod laws;
pub mod price;
mod route;
pub mod start;
pub mod survey;
pub mod table;
pub mod totals;
