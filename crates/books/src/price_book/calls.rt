// The calls that make a price book, and the gross prices read from it. A refused call leaves the book as it was.
ghost use Rattle.std.specs.Prelude.{◌≡◌, IfOk};
ghost use Rattle.books.specs.Gross.{gross_of};
ghost use Rattle.books.specs.Prices.{prices, no_prices, on_add, on_yearly};

use super::PriceBook;
use crate::gross::gross_price;
use crate::price_row::PriceRow;
use model::component::{is_entered, parent_of};
use model::refusal::Refusal;
use std::alloc::{AllocError, Global};

impl PriceBook {
    // A book with no row, and no yearly amount above 0.
    pub fn blank(heap: Global) -> Result<PriceBook, AllocError>
        ensures { IfOk result (λ b. prices b ≡ no_prices) }
    {
        let rows = Vec::with_capacity(heap, 60)?;
        Ok(PriceBook {
            rows,
            yearly: [0; 8],
        })
    }

    // Adds a row after the others, under the row of that number or, for 255, under none. Answers its number.
    pub fn add(
        &mut self,
        parent: u8,
        net: u32,
        repair_percent: u8,
        discard_percent: u8,
    ) -> Result<u8, Refusal>
        ensures { (result, prices self.new) ≡ on_add (prices self.old) parent net repair_percent discard_percent }
    {
        let number = self.rows.len();
        if number >= 60 {
            return Err(Refusal::PriceRowsFull);
        }
        let parent = parent_of(parent);
        if !is_entered(number, parent) {
            return Err(Refusal::UnknownPriceParent);
        }
        if !(1..=100_000).contains(&net) {
            return Err(Refusal::PriceOutOfRange);
        }
        if repair_percent > 100 || discard_percent > 125 {
            return Err(Refusal::PercentOutOfRange);
        }
        self.rows.push_reserved(PriceRow {
            parent,
            net,
            repair: repair_percent,
            discard: discard_percent,
        });
        Ok(number as u8)
    }

    // Sets the yearly amount of one resource.
    // Stays: tried as `get_mut`, by a match and by `?`; the book's limits after the lent place, and the answer, stay open (c).
    pub fn set_yearly(&mut self, resource: u8, cents: u64) -> Result<(), Refusal>
        ensures { (result, prices self.new) ≡ on_yearly (prices self.old) resource cents }
    {
        if resource > 7 || cents > 1_000_000_000_000 {
            return Err(Refusal::YearlyOutOfRange);
        }
        self.yearly[usize::from(resource)] = cents;
        Ok(())
    }

    // The gross price of a row in units of 100 cents, or nothing where there is no such row.
    pub fn gross(&self, row: u8) -> Option<u32>
        ensures { result ≡ gross_of (prices self.now).rows row }
    {
        let number = usize::from(row);
        (number < self.rows.len()).then(|| gross_price(self.rows.as_slice(), number))
    }
}
