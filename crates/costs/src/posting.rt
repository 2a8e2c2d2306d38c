// A posting: one amount of a plan's cost, over a thousand years.
// Stays: a charge and a total have these two fields too, but a charge is per failure or a year, and a total is a sum (d).
#[derive(Clone, Copy, PartialEq, Eq, Debug)]
pub struct Posting {
    pub cents: i64,
    pub minutes: u64,
}
