// The questions that pricing puts to each component in turn.
ghost use Rattle.std.specs.Prelude.{◌≡◌, ◌≤◌, Ok};
ghost use Rattle.model.specs.Books.{Book};
ghost use Rattle.model.specs.Studies.{model};
ghost use Rattle.plans.specs.Prices.{first_objection, or_refuse};
ghost use Rattle.planning.specs.Objections.{first_failed};
ghost use Rattle.planning.specs.OpenRows.{posted_where, choices_open, options_open, resource_open, resources_open};
ghost use Rattle.planning.specs.Surveys.{Keeps};

use crate::draft::Draft;
use crate::route::{OPTIONS, Route};
use crate::table::{ByEchelon, Choices, Survey};
use costs::posting::Posting;
use model::refusal::Refusal;

// Whether what is used has a posting, and so is open.
fn posted_where(used: bool, posting: Option<Posting>) -> bool
    ensures { result ≡ posted_where used posting }
{
    !used || posting.is_some()
}

// Whether the options that the component uses at that echelon are open.
fn choices_open(route: Route, echelon: u8, choices: Choices) -> bool
    ensures { result ≡ choices_open route echelon choices }
{
    OPTIONS.iter().all(|option| posted_where(route.uses(echelon, *option), choices.of(*option)))
}

// Whether every option that the component uses is open.
// Stays: `1..5` here and below; tried as `1..=4`, but std has no `YieldsList-from_range` for such a range (c).
fn options_open(route: Route, row: &ByEchelon<Choices>) -> bool
    ensures { result ≡ options_open route row.now }
{
    (1..5).zip(row).all(|(echelon, choices)| choices_open(route, echelon, *choices))
}

// Whether that resource is open wherever the component needs it.
fn resource_open(route: Route, resource: u8, row: &ByEchelon<Option<Posting>>) -> bool
    ensures { result ≡ resource_open route resource row.now }
{
    (1..5).zip(row).all(|(echelon, posting)| posted_where(route.needs(echelon, resource), *posting))
}

// Whether every resource that the component needs is open.
fn resources_open(route: Route, survey: &Survey, resources: u8) -> bool
    requires { resources ≤ 8 }
    ensures { result ≡ resources_open route survey.now.resources resources }
{
    (0..resources)
        .zip(&survey.resources)
        .all(|(resource, row)| resource_open(route, resource, row))
}

// The first question that a component fails, by its way in the plan and whether its options and resources are open.
fn first_failed(
    component: u8,
    echelons: u8,
    route: Route,
    options: bool,
    resources: bool,
) -> Result<(), Refusal>
    requires { echelons ≤ 4 }
    ensures { result ≡ or_refuse (first_failed component echelons route options resources) (Ok tt) }
{
    if route.byte > 2 * echelons {
        return Err(Refusal::ByteTooLarge { component });
    }
    if (route.byte != 0) != (route.start != 0) {
        return Err(Refusal::ReachMismatch { component });
    }
    if route.last() < route.start {
        return Err(Refusal::BeforeStart { component });
    }
    if !options {
        return Err(Refusal::OptionClosed { component });
    }
    if !resources {
        return Err(Refusal::ResourceClosed { component });
    }
    Ok(())
}

impl Draft<'_> {
    // Objects to the first component that fails a question, by number; nothing where pricing goes on.
    pub(crate) fn first_objection(&self) -> Result<(), Refusal>
        ensures { (b : Book) → Keeps (model self.now.study.now) b self.now.survey.now → result ≡ or_refuse (first_objection (model self.now.study.now) b self.now.plan.now) (Ok tt) }
    {
        for (number, component) in self.study.components().iter().enumerate() {
            let route = Route::of(component, self.plan, number);
            let options = options_open(route, &self.survey.options[number]);
            let resources = resources_open(route, self.survey, self.study.resources());
            first_failed(
                number as u8,
                self.study.echelons(),
                route,
                options,
                resources,
            )?;
        }
        Ok(())
    }
}
