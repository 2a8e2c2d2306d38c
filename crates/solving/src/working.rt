// The sums of the walk: the caller's working costs with a tag for each, one cell for each component and echelon.
ghost use Rattle.std.specs.Prelude.{◌≡◌, ◌*◌, ◌<◌, ◌≤◌, length, slice_index_or, slice_set};
ghost use Rattle.solving.specs.declared.sum.Sum.TheVariants.{Closed};
ghost use Rattle.solving.specs.Working.{view, Room, AddsAbove, AddsTop};

use crate::sum::{Sum, both};
use crate::tag::Tag;
use costs::kind::CostKind;

// Reads a cell.
pub(crate) fn sum_at<C: Copy>(tags: &[Tag], working: &[C], cell: usize) -> Sum<C>
    requires tag { cell < length tags.now }
    requires cost { cell < length working.now }
    ensures { result ≡ slice_index_or (view tags.now working.now) cell Closed }
{
    match tags[cell] {
        Tag::Nothing => Sum::Nothing,
        Tag::Cost => Sum::Cost(working[cell]),
        Tag::Closed => Sum::Closed,
    }
}

// Writes a cell.
fn put_sum<C: Copy>(tags: &mut [Tag], working: &mut [C], cell: usize, sum: Sum<C>)
    requires tag { cell < length tags.old }
    requires cost { cell < length working.old }
    ensures { view tags.new working.new ≡ slice_set (view tags.old working.old) cell sum }
{
    match sum {
        Sum::Nothing => tags[cell] = Tag::Nothing,
        Sum::Cost(c) => {
            tags[cell] = Tag::Cost;
            working[cell] = c;
        }
        Sum::Closed => tags[cell] = Tag::Closed,
    }
}

// Adds a sum to the parent's cell at an echelon, which counts from 0 here.
pub(crate) fn add_above<K: CostKind>(
    kind: &K,
    parent: Option<u8>,
    echelons: usize,
    echelon: usize,
    sum: Sum<K::Cost>,
    tags: &mut [Tag],
    working: &mut [K::Cost],
)
    requires tag { Room parent echelons echelon (length tags.old) }
    requires cost { Room parent echelons echelon (length working.old) }
    requires few { (echelons ≤ 4) × (echelon < 4) }
    ensures { AddsAbove K.adding parent echelons echelon sum (view tags.old working.old) (view tags.new working.new) }
{
    if let Some(parent) = parent {
        let cell = usize::from(parent) * echelons + echelon;
        let more = both(kind, sum_at(tags, working, cell), sum);
        put_sum(tags, working, cell, more);
    }
}

// Adds the sum of a top component to the total.
pub(crate) fn add_top<K: CostKind>(
    kind: &K,
    parent: Option<u8>,
    total: Sum<K::Cost>,
    sum: Sum<K::Cost>,
) -> Sum<K::Cost>
    ensures { AddsTop K.adding parent sum total result }
{
    match parent {
        Some(_) => total,
        None => both(kind, total, sum),
    }
}
