// Taking one component: the best way on from each echelon is noted, and added to the sums of its parent.
ghost use Rattle.std.specs.Prelude.{◌<◌, ◌≤◌, length};
ghost use Rattle.model.specs.Studies.{model};
ghost use Rattle.plans.specs.Questions.{count};
ghost use Rattle.solving.specs.Working.{cells, view};
ghost use Rattle.solving.specs.Steps.{TakesOne};

use crate::allowed::allowed;
use crate::choice::{no_way, way_on};
use crate::problem::Problem;
use crate::sum::Sum;
use crate::tag::Tag;
use crate::working::{add_above, sum_at};
use costs::kind::CostKind;

// The sum of the best way on from the first echelon, and the byte noted for each echelon.
#[derive(Clone, Copy)]
pub(crate) struct Taken<C: Copy> {
    pub first: Sum<C>,
    pub bytes: [u8; 4],
}

// Takes one component, when those after it are taken.
pub(crate) fn take_component<K: CostKind>(
    problem: &Problem<K>,
    shut: &[u8; 4],
    number: usize,
    tags: &mut [Tag],
    working: &mut [K::Cost],
) -> Taken<K::Cost>
    requires entered { number < count (model problem.now.study.now) }
    requires tags { cells (model problem.now.study.now) ≤ length tags.old }
    requires working { cells (model problem.now.study.now) ≤ length working.old }
    ensures { TakesOne K.adding K.lower (model problem.now.study.now) problem.now.survey.now shut.now number (view tags.old working.old) (view tags.new working.new) result }
{
    // Stays: handed on beside its number, the component would need one more clause, that it is the one of that number (d).
    let component = problem.study.components()[number];
    let row = &problem.survey.options[number];
    let echelons = usize::from(problem.study.echelons());
    let mut bytes = [0; 4];
    let mut onward = no_way();
    // Stays: one number for the row, the masks, the cell and the byte noted, four lists of which two are written.
    for echelon in (0..echelons).rev() {
        let choices = allowed(row[echelon], component.needs, shut[echelon]);
        let under = sum_at(tags, working, number * echelons + echelon);
        onward = way_on(problem.kind, choices, echelon as u8 + 1, under, onward);
        add_above(
            problem.kind,
            component.parent,
            echelons,
            echelon,
            onward.sum,
            tags,
            working,
        );
        bytes[echelon] = onward.byte;
    }
    Taken {
        first: onward.sum,
        bytes,
    }
}
