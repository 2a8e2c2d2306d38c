// A study: its echelons, its resources and its components, always within their limits.
ghost use Rattle.std.specs.Prelude.{◌*◌, ◌≤◌, vec_len, vec_capacity};
ghost use Rattle.model.specs.Components.{Rows};

use crate::table::Table;

mod calls;
mod reads;

// Room for every component is reserved when a study is made, so that no later call needs memory.
// Stays: ghost fields and the definition `model` beside them; an `impl Model` would show the model alone, without the limits (d).
#[derive(Drop)]
pub struct Study {
    echelons: u8,
    resources: u8,
    table: Table,
    ghost room: { 60 ≤ vec_capacity table.rows },
    ghost count: { vec_len table.rows ≤ 60 },
    ghost some_echelon: { 1 ≤ echelons },
    ghost few_echelons: { echelons ≤ 4 },
    ghost few_resources: { resources ≤ 8 },
    ghost few_pairs: { resources * echelons ≤ 16 },
    ghost rows: { Rows resources table.rows.items },
}
