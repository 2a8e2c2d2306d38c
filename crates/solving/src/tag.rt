// What the tag of a working cost says.

// Nothing is posted yet, or the working cost is the sum, or the sum is closed.
// Stays: a list beside the costs that `solve` is lent; as one struct (tried) bench/hard.study takes a quarter longer (b).
#[derive(Clone, Copy)]
pub(crate) enum Tag {
    Nothing,
    Cost,
    Closed,
}
