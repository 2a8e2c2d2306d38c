// The charge books: the price book, and the layers that stand over another book.
#![tactic(auto)]

mod echelon;
mod gross;
pub mod laws;
pub mod lent;
mod places;
pub mod price_book;
pub mod price_row;
pub mod ruling;
#[cfg(test)]
mod tests;
