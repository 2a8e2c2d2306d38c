// A walk: the least plan, first in reading order, among those that need no shut pair, counting option postings only.
ghost use Rattle.std.specs.Prelude.{◌≡◌, ◌≤◌, length};
ghost use Rattle.model.specs.Studies.{model};
ghost use Rattle.plans.specs.Questions.{count};
ghost use Rattle.solving.specs.Finds.{Walks};
ghost use Rattle.solving.specs.Steps.{TakesAll};
ghost use Rattle.solving.specs.Working.{cells, view};

use crate::allowed::shut_masks;
use crate::best::Best;
use crate::mark::Marks;
use crate::problem::Problem;
use crate::reading::read_off;
use crate::sum::{Sum, cost_of};
use crate::table::Table;
use crate::tag::Tag;
use crate::taking::take_component;
use crate::working::add_top;
use costs::kind::CostKind;

// Takes every component, from the last to the first, and answers the total of the top components.
fn take_all<K: CostKind>(
    problem: &Problem<K>,
    shut: &[u8; 4],
    tags: &mut [Tag],
    working: &mut [K::Cost],
    notes: &mut [[u8; 4]],
) -> Sum<K::Cost>
    requires tags { cells (model problem.now.study.now) ≤ length tags.old }
    requires working { cells (model problem.now.study.now) ≤ length working.old }
    requires notes { count (model problem.now.study.now) ≤ length notes.old }
    ensures { TakesAll K.adding K.lower (model problem.now.study.now) problem.now.survey.now shut.now (view tags.old working.old) notes.new result }
{
    let mut total = Sum::Nothing;
    // Stays: the number also says which row and which cells are the component's, so the notes are indexed by it too (d).
    for (number, component) in problem.study.components().iter().enumerate().rev() {
        let taken = take_component(problem, shut, number, tags, working);
        total = add_top(problem.kind, component.parent, total, taken.first);
        notes[number] = taken.bytes;
    }
    total
}

// Takes every component, and reads the plan off the notes.
pub(crate) fn walk<K: CostKind>(table: &mut Table<K>, marks: &Marks) -> Best<K::Cost>
    ensures walks { Walks K.adding K.lower (model table.old.problem.now.study.now) table.old.problem.now.survey.now marks.now result }
    ensures same { table.new.problem ≡ table.old.problem }
{
    let problem = table.problem;
    let shut = shut_masks(marks, problem.study.resources());
    // Stays: tables for the most components and echelons, since a walk needs no memory (a).
    let mut tags = [Tag::Nothing; 240];
    let mut notes = [[0; 4]; 60];
    let mut plan = [0; 60];
    let total = take_all(problem, &shut, &mut tags, table.working, &mut notes);
    read_off(problem.study, &notes, &mut plan);
    Best {
        cost: cost_of(total),
        plan,
    }
}
