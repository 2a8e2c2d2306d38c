// A cost kind: how postings become costs, how costs add, and which of two is lower.
ghost use Rattle.std.specs.Prelude.{◌≡◌, ℕ, ◌+◌, ◌≤◌, Bool};
ghost use Rattle.costs.specs.Postings.{Within, most};
ghost use Rattle.costs.specs.Kinds.{Adding, SumOf, Laws};

use crate::posting::Posting;

// The meaning of a kind is `adding` and `lower`; its calls give that meaning for sums of at most 256 postings.
pub trait CostKind {
    type Cost: Copy;

    ghost adding: { Adding Self.Cost };

    ghost lower: { Self.Cost → Self.Cost → Bool };

    // The cost of one posting.
    fn posting(&self, posting: Posting) -> Self::Cost
        ensures { Within posting → result ≡ adding.post posting };

    // The sum of two costs.
    fn sum(&self, a: Self::Cost, b: Self::Cost) -> Self::Cost
        ensures { (m n : ℕ) → SumOf adding m a → SumOf adding n b → m + n ≤ most → result ≡ adding.plus a b };

    // Whether the first cost is lower than the second.
    fn is_lower(&self, a: Self::Cost, b: Self::Cost) -> bool
        ensures { (m n : ℕ) → SumOf adding m a → SumOf adding n b → m ≤ most → n ≤ most → result ≡ lower a b };

    ghost laws: { Laws adding lower };
}
