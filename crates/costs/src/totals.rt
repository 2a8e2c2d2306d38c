// The kinds that count money and minutes both: money first, and minutes first.
ghost use Rattle.std.specs.Prelude.{◌≡◌, ℕ, ◌+◌, ◌≤◌};
ghost use Rattle.costs.specs.Postings.{most};
ghost use Rattle.costs.specs.Kinds.{SumOf};
ghost use Rattle.costs.specs.Amounts.{totals, both, cheaper, sooner};
ghost use Rattle.costs.specs.Keeps.{cheaper_laws, sooner_laws};

use crate::kind::CostKind;
use crate::posting::Posting;

// Money and minutes, each summed by itself.
#[derive(Clone, Copy, PartialEq, Eq, Debug)]
pub struct Total {
    pub cents: i64,
    pub minutes: u64,
}

impl From<Posting> for Total {
    ghost from_gives = { λ posting total. total ≡ totals.post posting };

    fn from(posting: Posting) -> Total {
        Total {
            cents: posting.cents,
            minutes: posting.minutes,
        }
    }
}

impl Total {
    fn plus(self, other: Total) -> Total
        ensures { (m n : ℕ) → SumOf totals m self → SumOf totals n other → m + n ≤ most → result ≡ both self other }
    {
        Total {
            cents: self.cents.saturating_add(other.cents),
            minutes: self.minutes.saturating_add(other.minutes),
        }
    }
}

// A kind that counts both says which of two totals is lower, and nothing more.
pub trait TotalOrder {
    ghost use Rattle.std.specs.Prelude.{Bool};
    ghost use Rattle.costs.specs.Kinds.{Laws};
    ghost use Rattle.costs.specs.Amounts.{totals};
    ghost use Rattle.costs.specs.declared.totals.Total.{Total};

    ghost lower: { Total → Total → Bool };

    // Whether the first total is lower than the second.
    fn orders(&self, a: Total, b: Total) -> bool
        ensures { result ≡ lower a b };

    ghost laws: { Laws totals lower };
}

impl<O: TotalOrder> CostKind for O {
    type Cost = Total;

    ghost adding = { totals };

    ghost lower = { O.TotalOrder.lower };

    ghost laws = { O.TotalOrder.laws };

    fn posting(&self, posting: Posting) -> Total {
        Total::from(posting)
    }

    fn sum(&self, a: Total, b: Total) -> Total {
        a.plus(b)
    }

    fn is_lower(&self, a: Total, b: Total) -> bool {
        self.orders(a, b)
    }
}

// Money decides, and minutes where the money is equal.
#[derive(Clone, Copy)]
pub struct MoneyThenMinutes;

impl TotalOrder for MoneyThenMinutes {
    ghost lower = { cheaper };

    ghost laws = { cheaper_laws };

    fn orders(&self, a: Total, b: Total) -> bool {
        (a.cents, a.minutes) < (b.cents, b.minutes)
    }
}

// Minutes decide, and money where the minutes are equal.
#[derive(Clone, Copy)]
pub struct MinutesThenMoney;

impl TotalOrder for MinutesThenMoney {
    ghost lower = { sooner };

    ghost laws = { sooner_laws };

    fn orders(&self, a: Total, b: Total) -> bool {
        (a.minutes, a.cents) < (b.minutes, b.cents)
    }
}
