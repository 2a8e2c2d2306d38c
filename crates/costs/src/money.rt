// The kind that counts money alone.
ghost use Rattle.std.specs.Prelude.{int_lt};
ghost use Rattle.costs.specs.Amounts.{money};
ghost use Rattle.costs.specs.Keeps.{money_laws};

use crate::kind::CostKind;
use crate::posting::Posting;

#[derive(Clone, Copy)]
pub struct Money;

impl CostKind for Money {
    type Cost = i64;

    ghost adding = { money };

    ghost lower = { int_lt };

    ghost laws = { money_laws };

    fn posting(&self, posting: Posting) -> i64 {
        posting.cents
    }

    fn sum(&self, a: i64, b: i64) -> i64 {
        a.saturating_add(b)
    }

    fn is_lower(&self, a: i64, b: i64) -> bool {
        a < b
    }
}
