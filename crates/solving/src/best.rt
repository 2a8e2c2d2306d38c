// A plan with its cost, or no plan.

// The bytes of the plan stand in the first places, one a component. Without a cost no plan is known.
// Stays: `Walks` says a walk's bytes also where it has no cost; an Option around both would have no place for them (d).
// Stays: the bytes lie in place for the most components, since a solve needs no memory (a).
#[derive(Clone, Copy)]
pub(crate) struct Best<C: Copy> {
    pub cost: Option<C>,
    pub plan: [u8; 60],
}
