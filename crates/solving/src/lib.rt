// Solving: the least plan, first in reading order.
#![tactic(auto)]

mod allowed;
mod best;
mod bound;
mod choice;
mod find;
mod mark;
mod order;
mod pair;
mod problem;
mod reading;
mod search;
pub mod solve;
mod sum;
mod table;
mod tag;
mod taking;
mod walk;
mod working;
