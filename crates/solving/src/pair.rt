// The free pair that a search decides next, and the marks with one pair changed.
ghost use Rattle.std.specs.Prelude.{◌≡◌, ◌<◌};
ghost use Rattle.model.specs.Studies.{model};
ghost use Rattle.solving.specs.Marked.{marking};
ghost use Rattle.solving.specs.Chosen.{FreeInLine, FreePair};

use crate::mark::{Mark, Marks};
use model::study::Study;
use planning::totals::is_needed;

// The first place, one below the echelon, where the resource is free and the plan needs it.
fn free_in_line(study: &Study, plan: &[u8], resource: u8, line: &[Mark; 4]) -> Option<usize>
    ensures { FreeInLine (model study.now) plan.now resource line.now result }
{
    line.iter().zip(1..=study.echelons()).position(|(mark, echelon)| {
        *mark == Mark::Free && is_needed(study, plan, resource, echelon)
    })
}

// The first pair, by resource and place, that is free and that the plan needs.
pub(crate) fn free_pair(study: &Study, plan: &[u8], marks: &Marks) -> Option<(usize, usize)>
    ensures { FreePair (model study.now) plan.now marks.now result }
{
    marks.iter().zip(0..study.resources()).find_map(|(line, resource)| {
        free_in_line(study, plan, resource, line).map(|place| (usize::from(resource), place))
    })
}

// The marks with one pair marked anew.
pub(crate) fn marked(marks: Marks, resource: usize, place: usize, mark: Mark) -> Marks
    requires resource { resource < 8 }
    requires place { place < 4 }
    ensures { result ≡ marking marks resource place mark }
{
    // Stays: a named form, a row by value in a local, copied for each set tried.
    let mut next = marks;
    let mut line = next[resource];
    line[place] = mark;
    next[resource] = line;
    next
}
