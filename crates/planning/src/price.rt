// The price of a plan.
ghost use Rattle.std.specs.Prelude.{◌≡◌};
ghost use Rattle.model.specs.Studies.{model};
ghost use Rattle.plans.specs.Prices.{priced, Ready, AcceptsExactlyPlans};

use crate::draft::Draft;
use crate::survey::survey;
use costs::kind::CostKind;
use model::book::ChargeBook;
use model::refusal::Refusal;
use model::study::Study;

// The cost of the plan that the first bytes give, one for each component, or the first question that fails. It only reads.
pub fn price<B: ChargeBook, K: CostKind>(
    study: &Study,
    book: &B,
    kind: &K,
    plan: &[u8],
) -> Result<K::Cost, Refusal>
    ensures answer { result ≡ priced K.adding (model study.now) (B.meaning book.now) plan.now }
    ensures accepts_exactly_plans { Ready (model study.now) (B.meaning book.now) plan.now → AcceptsExactlyPlans K.adding (model study.now) (B.meaning book.now) plan.now result }
{
    let count = study.components().len();
    if count == 0 {
        return Err(Refusal::NoComponent);
    }
    if plan.len() < count {
        return Err(Refusal::ShortPlan);
    }
    let survey = survey(study, book)?;
    let draft = Draft {
        study,
        survey: &survey,
        plan: &plan[..count],
    };
    draft.first_objection()?;
    draft.total(kind).ok_or(Refusal::NoComponent)
}
