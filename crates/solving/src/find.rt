// The search of all plans, which begins with no plan and with every open pair free.
ghost use Rattle.std.specs.Prelude.{◌≡◌};
ghost use Rattle.model.specs.Studies.{model};
ghost use Rattle.solving.specs.Least.{first_mark, first_line, FirstMarks, FindsLeast};

use crate::best::Best;
use crate::mark::{Mark, Marks};
use crate::search::search;
use crate::table::Table;
use costs::kind::CostKind;
use costs::posting::Posting;
use planning::table::{ByEchelon, Survey};

// What is open is free, and what is closed is shut.
fn first_mark(posting: Option<Posting>) -> Mark
    ensures { result ≡ first_mark posting }
{
    match posting {
        Some(_) => Mark::Free,
        None => Mark::Shut,
    }
}

// The marks of a row of postings.
fn first_line(row: ByEchelon<Option<Posting>>) -> [Mark; 4]
    ensures { result ≡ first_line row }
{
    row.map(first_mark)
}

// The marks that the search begins with, by resource.
fn first_marks(survey: &Survey) -> Marks
    ensures { FirstMarks survey.now 8 result }
{
    survey.resources.map(first_line)
}

// The least plan with its cost, the first in reading order; without a cost where there is no plan.
pub(crate) fn find<K: CostKind>(table: &mut Table<K>) -> Best<K::Cost>
    ensures { FindsLeast K.adding K.lower (model table.old.problem.now.study.now) table.old.problem.now.survey.now result }
{
    let marks = first_marks(table.problem.survey);
    let none = Best {
        cost: None,
        plan: [0; 60],
    };
    search(table, marks, none)
}
