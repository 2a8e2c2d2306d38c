// Sums of postings, as the walk holds them.
ghost use Rattle.std.specs.Prelude.{◌≡◌, Option};
ghost use Rattle.costs.specs.Kinds.{Adding};
ghost use Rattle.theory.specs.Amounts.{Amount, both, value};
ghost use Rattle.theory.specs.Options.{posted};
ghost use Rattle.solving.specs.Sums.{held, Posts, HoldsPosting, Joins};

use costs::kind::CostKind;
use costs::posting::Posting;

// Nothing is posted yet, or the postings have a cost, or something is used that is not open.
// Stays: the other form is `Result<Option<C>, Shut>`, which names none of the three cases (d).
#[derive(Clone, Copy)]
pub(crate) enum Sum<C: Copy> {
    Nothing,
    Cost(C),
    Closed,
}

// The sum of one posting, closed where there is none.
pub(crate) fn posted<K: CostKind>(kind: &K, posting: Option<Posting>) -> Sum<K::Cost>
    ensures { HoldsPosting K.adding posting result }
{
    match posting {
        Some(posting) => Sum::Cost(kind.posting(posting)),
        None => Sum::Closed,
    }
}

// The sum of two sums.
pub(crate) fn both<K: CostKind>(kind: &K, a: Sum<K::Cost>, b: Sum<K::Cost>) -> Sum<K::Cost>
    ensures { Joins K.adding a b result }
{
    match (a, b) {
        (Sum::Cost(c), Sum::Cost(d)) => Sum::Cost(kind.sum(c, d)),
        (Sum::Nothing, other) => other,
        (Sum::Closed, _) => Sum::Closed,
        (Sum::Cost(c), Sum::Nothing) => Sum::Cost(c),
        (Sum::Cost(_), Sum::Closed) => Sum::Closed,
    }
}

// The cost of a sum of postings, none where it is closed.
pub(crate) fn cost_of<C: Copy>(sum: Sum<C>) -> Option<C>
    ensures { (k : Adding C) (x : Amount) → Posts x → sum ≡ held k x → result ≡ value k x }
{
    match sum {
        Sum::Cost(c) => Some(c),
        Sum::Nothing | Sum::Closed => None,
    }
}
