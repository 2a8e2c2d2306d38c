// What is solved: a study with the survey of a book, by a cost kind.
ghost use Rattle.std.specs.Prelude.{◌≤◌};
ghost use Rattle.model.specs.Studies.{model};
ghost use Rattle.plans.specs.Questions.{count};

use model::study::Study;
use planning::table::Survey;

#[derive(Drop)]
pub(crate) struct Problem<'a, K> {
    pub kind: &'a K,
    pub study: &'a Study,
    pub survey: &'a Survey,
    ghost some_component: { 1 ≤ count (model study.now) },
}
