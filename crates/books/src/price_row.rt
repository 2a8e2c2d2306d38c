// One row of a price book: what the component of its number costs.
ghost use Rattle.std.specs.Prelude.{◌≡◌};
ghost use Rattle.books.specs.Gross.{is_under};

// The net price is in units of 100 cents. The percents are of the net price for repair, of the gross price for discard.
#[derive(Clone, Copy)]
pub struct PriceRow {
    pub parent: Option<u8>,
    pub net: u32,
    pub repair: u8,
    pub discard: u8,
}

impl PriceRow {
    // Whether the row stands under the row of that number.
    pub(crate) fn is_under(&self, number: usize) -> bool
        ensures { result ≡ is_under number self.now }
    {
        self.parent
            .is_some_and(|parent| usize::from(parent) == number)
    }
}
