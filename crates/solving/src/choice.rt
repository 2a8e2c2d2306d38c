// A choice for one component from one echelon on: a decision byte, and the sum that it posts.
ghost use Rattle.std.specs.Prelude.{◌≡◌, ℕ, ◌*◌, ◌<◌, ◌≤◌, not, ◌&&◌, ◌||◌, nat_lt};
ghost use Rattle.costs.specs.Kinds.{Adding, SumOf};
ghost use Rattle.costs.specs.Postings.{most};
ghost use Rattle.plans.specs.Orders.{rank};
ghost use Rattle.theory.specs.Amounts.{precedes};
ghost use Rattle.theory.specs.Choices.{better, no_way};
ghost use Rattle.solving.specs.Sums.{held_choice, Precedes, Betters, Leads};

use crate::sum::{Sum, both, posted};
use costs::kind::CostKind;
use planning::table::Choices;

// The byte, and the sum of what it and the components under it post.
#[derive(Clone, Copy)]
pub(crate) struct Choice<C: Copy> {
    pub byte: u8,
    pub sum: Sum<C>,
}

// Whether the cost a of a choice with byte x comes before the cost b of one with byte y. At equal cost the smaller byte comes
// first.
// Stays: one test for these and for `is_ahead`, handed the tie as a word (tried), makes bench/hard.study a seventh slower (b).
fn cost_precedes<K: CostKind>(kind: &K, a: K::Cost, x: u8, b: K::Cost, y: u8) -> bool
    ensures { (m n : ℕ) → SumOf K.adding m a → SumOf K.adding n b → m ≤ most → n ≤ most → result ≡ K.lower a b || (not (K.lower b a) && nat_lt (rank x) (rank y)) }
{
    kind.is_lower(a, b) || (!kind.is_lower(b, a) && x < y)
}

// Whether the first choice comes before the second, by cost and then by rank.
// Stays: a cost kind says which of two costs is lower and is no type with an order, so `<` cannot compare these (d).
fn precedes<K: CostKind>(kind: &K, a: Choice<K::Cost>, b: Choice<K::Cost>) -> bool
    ensures { Precedes K.adding K.lower a b result }
{
    match (a.sum, b.sum) {
        (Sum::Cost(c), Sum::Cost(d)) => cost_precedes(kind, c, a.byte, d, b.byte),
        (Sum::Cost(_), Sum::Closed) => true,
        _ => false,
    }
}

// Of two choices the one that comes first, the left one where neither does.
fn better<K: CostKind>(kind: &K, a: Choice<K::Cost>, b: Choice<K::Cost>) -> Choice<K::Cost>
    ensures { Betters K.adding K.lower a b result }
{
    if precedes(kind, b, a) { b } else { a }
}

// There is no way on past the last echelon.
pub(crate) fn no_way<C: Copy>() -> Choice<C>
    ensures { (k : Adding C) → result ≡ held_choice k no_way }
{
    Choice {
        byte: 0,
        sum: Sum::Closed,
    }
}

// The best way on from an echelon: discard here, repair here, or move to the next echelon and the best way on from there.
// The sum of the components under this one, if it is repaired here, is `under`.
pub(crate) fn way_on<K: CostKind>(
    kind: &K,
    choices: Choices,
    echelon: u8,
    under: Sum<K::Cost>,
    onward: Choice<K::Cost>,
) -> Choice<K::Cost>
    requires from_one { 1 ≤ echelon }
    requires to_four { echelon ≤ 4 }
    ensures { Leads K.adding K.lower choices echelon under onward result }
{
    let discarded = Choice {
        byte: 2 * echelon - 1,
        sum: posted(kind, choices.discard),
    };
    let repaired = Choice {
        byte: 2 * echelon,
        sum: both(kind, posted(kind, choices.repair), under),
    };
    let moved = Choice {
        byte: onward.byte,
        sum: both(kind, posted(kind, choices.moving), onward.sum),
    };
    better(kind, better(kind, discarded, repaired), moved)
}
