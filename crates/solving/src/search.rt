// The search over marks of pairs.
ghost use Rattle.std.specs.Prelude.{◌≡◌};
ghost use Rattle.model.specs.Studies.{model};
ghost use Rattle.solving.specs.Finds.{Searches};

use crate::best::Best;
use crate::bound::bound;
use crate::mark::{Mark, Marks};
use crate::order::is_ahead;
use crate::pair::{free_pair, marked};
use crate::table::Table;
use costs::kind::CostKind;

// What a search of the marks makes of the best so far. If the bound does not come before it, it stays. Otherwise, if the
// bound's plan needs no free pair, the bound is the new best; and if it needs one, that pair is held in one search and shut
// in another, which takes on what the first one found.
pub(crate) fn search<K: CostKind>(
    table: &mut Table<K>,
    marks: Marks,
    best: Best<K::Cost>,
) -> Best<K::Cost>
    ensures searches { Searches K.adding K.lower (model table.old.problem.now.study.now) table.old.problem.now.survey.now marks best result }
    ensures same { table.new.problem ≡ table.old.problem }
{
    let problem = table.problem;
    let found = bound(table, &marks);
    let count = problem.study.components().len();
    if !is_ahead(problem.kind, &found, &best, count) {
        return best;
    }
    match free_pair(problem.study, &found.plan[..count], &marks) {
        None => found,
        Some((resource, place)) => {
            let held = marked(marks, resource, place, Mark::Held);
            let shut = marked(marks, resource, place, Mark::Shut);
            let next = search(table, held, best);
            search(table, shut, next)
        }
    }
}
