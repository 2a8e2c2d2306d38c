// The study and what it is made of: components, questions and answers, the trait of charge books, refusals.
#![tactic(auto)]

pub mod answer;
pub mod book;
pub mod component;
pub mod question;
pub mod refusal;
pub mod study;
pub mod table;
