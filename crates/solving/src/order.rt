// Which of two plans with their costs comes before the other: by cost, and then by reading order.
ghost use Rattle.std.specs.Prelude.{◌≡◌, ◌≤◌, length, nat_lt};
ghost use Rattle.plans.specs.Orders.{rank};
ghost use Rattle.theory.specs.ReadingOrder.{row_number};
ghost use Rattle.solving.specs.Bounds.{Ahead};

use crate::best::Best;
use costs::kind::CostKind;

// Whether the first plan comes before the second in reading order: at the first component whose bytes differ, the byte of
// the lower rank comes first, and that is the smaller one.
fn reads_before(first: &[u8], second: &[u8]) -> bool
    requires { length first.now ≡ length second.now }
    ensures { result ≡ nat_lt (row_number rank 0 first.now) (row_number rank 0 second.now) }
{
    first < second
}

// Whether the first comes before the second. What has no cost comes before nothing.
// Stays: a cost kind says which of two costs is lower and is no type with an order, so `<` cannot compare these (d).
pub(crate) fn is_ahead<K: CostKind>(
    kind: &K,
    first: &Best<K::Cost>,
    second: &Best<K::Cost>,
    count: usize,
) -> bool
    requires { count ≤ 60 }
    ensures { Ahead K.adding K.lower count first.now second.now result }
{
    match (first.cost, second.cost) {
        (None, _) => false,
        (Some(_), None) => true,
        (Some(a), Some(b)) => {
            kind.is_lower(a, b)
                || (!kind.is_lower(b, a)
                    && reads_before(&first.plan[..count], &second.plan[..count]))
        }
    }
}
