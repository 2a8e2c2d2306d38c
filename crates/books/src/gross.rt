// The gross price of a row: its net price and the gross prices of the rows under it.
ghost use Rattle.std.specs.Prelude.{◌≡◌, ℕ, ◌<◌, ◌≤◌, length};
ghost use Rattle.books.specs.Gross.{gross, most_gross};

use crate::price_row::PriceRow;

// The rows under a row have greater numbers.
pub(crate) fn gross_price(rows: &[PriceRow], row: usize) -> u32
    requires row { row < length rows.now }
    requires bounded { (i : ℕ) → gross rows.now i ≤ most_gross }
    ensures { result ≡ gross rows.now row }
{
    let mut sum = rows[row].net;
    for (after, other) in rows[row + 1..].iter().enumerate() {
        if other.is_under(row) {
            sum += gross_price(rows, row + 1 + after);
        }
    }
    sum
}
