// The least plan of a study.
ghost use Rattle.std.specs.Prelude.{◌≡◌, length};
ghost use Rattle.model.specs.Studies.{model};
ghost use Rattle.solutions.specs.Solved.{solved};
ghost use Rattle.solutions.specs.Promises.{Ready, SolvesLeast};

use crate::find::find;
use crate::problem::Problem;
use crate::table::Table;
use costs::kind::CostKind;
use model::book::ChargeBook;
use model::refusal::Refusal;
use model::study::Study;
use planning::survey::survey;

// The cost of the least plan, the first in reading order, whose bytes are written into the first places of `plan`, one for
// each component; or the first question that fails, and then nothing is written into `plan`. The list of working costs
// needs one for each component and echelon, and may hold anything before and after.
// Stays: the costs are a bare list of the caller's, since a solve needs no memory of its own.
pub fn solve<B: ChargeBook, K: CostKind>(
    study: &Study,
    book: &B,
    kind: &K,
    plan: &mut [u8],
    working: &mut [K::Cost],
) -> Result<K::Cost, Refusal>
    ensures answer { result ≡ (solved K.adding K.lower (model study.now) (B.meaning book.now) (length working.old) plan.old).answer }
    ensures place { plan.new ≡ (solved K.adding K.lower (model study.now) (B.meaning book.now) (length working.old) plan.old).place }
    ensures solves_least { Ready (model study.now) (B.meaning book.now) (length working.old) plan.old → SolvesLeast K.adding K.lower (model study.now) (B.meaning book.now) plan.new result }
{
    let count = study.components().len();
    if count == 0 {
        return Err(Refusal::NoComponent);
    }
    if plan.len() < count {
        return Err(Refusal::ShortPlan);
    }
    if working.len() < count * usize::from(study.echelons()) {
        return Err(Refusal::ShortWorking);
    }
    let survey = survey(study, book)?;
    let problem = Problem {
        kind,
        study,
        survey: &survey,
    };
    let mut table = Table {
        problem: &problem,
        working,
    };
    let found = find(&mut table);
    let cost = found.cost.ok_or(Refusal::NoPlan)?;
    plan[..count].copy_from_slice(&found.plan[..count]);
    Ok(cost)
}
