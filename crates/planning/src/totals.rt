// The cost of a plan: the postings of all that it uses, summed in the order of the survey.
ghost use Rattle.std.specs.Prelude.{◌≡◌, [], ◌∷◌, None};
ghost use Rattle.model.specs.declared.question.Question.TheVariants.{OfResource};
ghost use Rattle.model.specs.Books.{Book, KeepsLimits};
ghost use Rattle.model.specs.Studies.{model};
ghost use Rattle.plans.specs.Questions.{option_questions, pair_questions};
ghost use Rattle.plans.specs.Postings.{summed};
ghost use Rattle.plans.specs.Uses.{uses};
ghost use Rattle.plans.specs.Plans.{postings};
ghost use Rattle.planning.specs.Surveys.{Keeps};
ghost use Rattle.planning.specs.Sums.{Adds, AddsUsed, if_used, at_echelon, of_component, of_resource, used_at};

use crate::draft::Draft;
use crate::route::Route;
use crate::table::{ByEchelon, Choices};
use costs::kind::CostKind;
use costs::posting::Posting;
use model::question::RepairOption;
use model::study::Study;

impl Draft<'_> {
    // The sum of the plan's postings, none where it uses nothing.
    pub(crate) fn total<K: CostKind>(&self, kind: &K) -> Option<K::Cost>
        ensures { (b : Book) → KeepsLimits b → Keeps (model self.now.study.now) b self.now.survey.now → result ≡ summed K.adding (postings (model self.now.study.now) b self.now.plan.now) }
    {
        self.plus_pairs(kind, self.options_total(kind))
    }

    // The sum of the postings of options, by component.
    fn options_total<K: CostKind>(&self, kind: &K) -> Option<K::Cost>
        ensures { AddsUsed K.adding (model self.now.study.now) self.now.survey.now self.now.plan.now None (option_questions (model self.now.study.now)) result }
    {
        let mut sum = None;
        for (number, component) in self.study.components().iter().enumerate() {
            let route = Route::of(component, self.plan, number);
            sum = plus_component(kind, sum, route, &self.survey.options[number]);
        }
        sum
    }

    // Adds the postings of pairs of a resource and an echelon, by resource.
    fn plus_pairs<K: CostKind>(&self, kind: &K, options: Option<K::Cost>) -> Option<K::Cost>
        ensures { AddsUsed K.adding (model self.now.study.now) self.now.survey.now self.now.plan.now options (pair_questions (model self.now.study.now)) result }
    {
        let mut sum = options;
        for (resource, row) in (0..self.study.resources()).zip(&self.survey.resources) {
            sum = self.plus_resource(kind, sum, resource, row);
        }
        sum
    }

    // Adds a resource at those of the echelons 1 to 4 where it is needed.
    fn plus_resource<K: CostKind>(
        &self,
        kind: &K,
        sum: Option<K::Cost>,
        resource: u8,
        row: &ByEchelon<Option<Posting>>,
    ) -> Option<K::Cost>
        ensures { Adds K.adding sum (of_resource (λ e. uses (model self.now.study.now) self.now.plan.now (OfResource resource e)) row.now) result }
    {
        let needed = [1, 2, 3, 4].map(|echelon| is_needed(
            self.study, self.plan, resource, echelon,
        ));
        plus_row(kind, sum, needed, row)
    }
}

// Adds what a component uses at the echelons 1 to 4.
// Stays: kind and sum go side by side here and below; tried as a struct with `add(&mut self, ..)`; its loops were not proved (c).
// Stays: the four echelons by name; over a zip the edit of one was refused, but so was the same edit with the right number (d).
fn plus_component<K: CostKind>(
    kind: &K,
    sum: Option<K::Cost>,
    route: Route,
    row: &ByEchelon<Choices>,
) -> Option<K::Cost>
    ensures { Adds K.adding sum (of_component route.start route.byte row.now) result }
{
    let [first, second, third, fourth] = *row;
    let sum = plus_echelon(kind, sum, route, 1, first);
    let sum = plus_echelon(kind, sum, route, 2, second);
    let sum = plus_echelon(kind, sum, route, 3, third);
    plus_echelon(kind, sum, route, 4, fourth)
}

// Adds what a component uses at one echelon: discard, repair, move.
fn plus_echelon<K: CostKind>(
    kind: &K,
    sum: Option<K::Cost>,
    route: Route,
    echelon: u8,
    choices: Choices,
) -> Option<K::Cost>
    ensures { Adds K.adding sum (at_echelon route.start route.byte echelon choices) result }
{
    let discards = route.uses(echelon, RepairOption::Discard);
    let repairs = route.uses(echelon, RepairOption::Repair);
    let moves = route.uses(echelon, RepairOption::Move);
    let sum = plus_used(kind, sum, discards, choices.discard);
    let sum = plus_used(kind, sum, repairs, choices.repair);
    plus_used(kind, sum, moves, choices.moving)
}

// Adds the postings of a resource at those of the echelons 1 to 4 where it is used.
pub fn plus_row<K: CostKind>(
    kind: &K,
    sum: Option<K::Cost>,
    used: ByEchelon<bool>,
    row: &ByEchelon<Option<Posting>>,
) -> Option<K::Cost>
    ensures { Adds K.adding sum (of_resource (used_at used) row.now) result }
{
    let mut total = sum;
    for (used, posting) in used.iter().zip(row) {
        total = plus_used(kind, total, *used, *posting);
    }
    total
}

// Whether some component needs the resource at that echelon.
pub fn is_needed(study: &Study, plan: &[u8], resource: u8, echelon: u8) -> bool
    ensures { result ≡ uses (model study.now) plan.now (OfResource resource echelon) }
{
    study.components().iter().enumerate().any(|(number, component)| {
        let route = Route::of(component, plan, number);
        route.needs(echelon, resource)
    })
}

// Adds the posting of what is used, where it is open.
pub fn plus_used<K: CostKind>(
    kind: &K,
    sum: Option<K::Cost>,
    used: bool,
    posting: Option<Posting>,
) -> Option<K::Cost>
    ensures { Adds K.adding sum (if_used used posting) result }
{
    match posting {
        Some(posting) if used => plus(kind, sum, posting),
        _ => sum,
    }
}

// Adds one posting to a sum. An empty sum has no cost of its own.
fn plus<K: CostKind>(kind: &K, sum: Option<K::Cost>, posting: Posting) -> Option<K::Cost>
    ensures { Adds K.adding sum (posting ∷ []) result }
{
    let next = kind.posting(posting);
    Some(sum.map_or(next, |so_far| kind.sum(so_far, next)))
}
