// The rows of a study: a plain table with no invariant of its own.
ghost use Rattle.std.specs.Prelude.{◌≡◌, ◌<◌, vec_len, slice_index_or};
ghost use Rattle.std.specs.Borrow.{sem, follows};
ghost use Rattle.std.specs.Vec.{with_item};
ghost use Rattle.model.specs.contracts.table.Table.{the_row as table_row};
ghost use Rattle.model.specs.contracts.component.Component.{the_row as component_row};

use crate::component::Component;

// Stays: a named form (docs/DECISIONS.md): a row is lent by a table that has no invariant to keep while it is changed (a).
#[derive(Drop)]
pub struct Table {
    pub rows: Vec<Component>,
}

impl Table {
    // Lends one row to be changed. The table then has what was last written there, and its other rows as they were.
    pub(crate) fn row(&mut self, i: usize) -> &mut Component
        requires { i < vec_len self.old.rows }
        ensures* follows { sem 𝓛 (follows table_row component_row self.entry.ghost_name result.ghost_name (λ w. record { rows = with_item self.old.rows i w })) }
        ensures value { result.now ≡ slice_index_or self.old.rows.items i result.now }
    {
        &mut self.rows[i]
    }
}
