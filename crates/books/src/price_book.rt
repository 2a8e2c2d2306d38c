// A price book: rows of prices and the yearly amounts of the resources, always within their ranges.
ghost use Rattle.std.specs.Prelude.{ℕ, ◌≤◌, vec_len, vec_capacity, slice_index};
ghost use Rattle.books.specs.PriceRows.{Rows, most_yearly};
ghost use Rattle.books.specs.Gross.{gross, most_gross};

use crate::price_row::PriceRow;

mod calls;
pub mod charges;

// Room for every row is reserved when a book is made, so that no later call needs memory.
// Stays: ghost fields and the definition `prices` beside them; an `impl Model` would show the prices alone, without the limits (d).
#[derive(Drop)]
pub struct PriceBook {
    rows: Vec<PriceRow>,
    yearly: [u64; 8],
    ghost room: { 60 ≤ vec_capacity rows },
    ghost count: { vec_len rows ≤ 60 },
    ghost ranges: { Rows rows.items },
    ghost bounded: { (i : ℕ) → gross rows.items i ≤ most_gross },
    ghost amounts: { (r : ℕ) → slice_index yearly r ≤ most_yearly },
}
