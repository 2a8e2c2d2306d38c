// The bound of some marks: the plan of a walk, at its cost with the postings of the held pairs.
ghost use Rattle.std.specs.Prelude.{◌≡◌};
ghost use Rattle.model.specs.Studies.{model};
ghost use Rattle.planning.specs.Surveys.{by_echelon};
ghost use Rattle.solving.specs.Marked.{is_held, held_at};
ghost use Rattle.solving.specs.Bounds.{AddsHeld, Bounds};

use crate::best::Best;
use crate::mark::{Mark, Marks};
use crate::problem::Problem;
use crate::table::Table;
use crate::walk::walk;
use costs::kind::CostKind;
use planning::totals::plus_row;

fn is_held(mark: Mark) -> bool
    ensures { result ≡ is_held mark }
{
    mark == Mark::Held
}

// At which of the echelons 1 to 4 a resource is held.
fn held_at(line: &[Mark; 4]) -> [bool; 4]
    ensures { result ≡ by_echelon (held_at line.now) }
{
    line.map(is_held)
}

// Adds the held pairs, by resource.
// Stays: planning adds pairs so, each asked from the plan (`is_needed`) for its own resources; here a mark says it (d).
fn plus_held<K: CostKind>(
    problem: &Problem<K>,
    cost: Option<K::Cost>,
    marks: &Marks,
) -> Option<K::Cost>
    ensures { AddsHeld K.adding (model problem.now.study.now) problem.now.survey.now marks.now cost result }
{
    let mut sum = cost;
    let resources = usize::from(problem.study.resources());
    for (line, row) in marks[..resources].iter().zip(&problem.survey.resources) {
        sum = plus_row(problem.kind, sum, held_at(line), row);
    }
    sum
}

// What the walk found, with the postings of the held pairs, and without them where it found no plan.
pub(crate) fn bound<K: CostKind>(table: &mut Table<K>, marks: &Marks) -> Best<K::Cost>
    ensures bounds { Bounds K.adding K.lower (model table.old.problem.now.study.now) table.old.problem.now.survey.now marks.now result }
    ensures same { table.new.problem ≡ table.old.problem }
{
    let problem = table.problem;
    let found = walk(table, marks);
    match found.cost {
        None => found,
        Some(_) => Best {
            cost: plus_held(problem, found.cost, marks),
            ..found
        },
    }
}
