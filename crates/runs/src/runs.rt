// Calls made one after another, each answered where it stands.
ghost use Rattle.std.specs.Prelude.{◌≡◌, MatchResult};
ghost use Rattle.model.specs.Studies.{model, blank_study};
ghost use Rattle.runs.specs.Runs.{Step, Run};

use crate::call::Call;
use costs::kind::CostKind;
use model::book::ChargeBook;
use model::study::Study;
use planning::price::price;
use solving::solve::solve;
use std::alloc::{AllocError, Global};

// Makes one call, and puts its answer in its place.
pub fn make<B: ChargeBook, K: CostKind>(study: &mut Study, kind: &K, call: &mut Call<B, K::Cost>)
    ensures { Step B.meaning K.adding K.lower (model study.old) call.old call.new (model study.new) }
{
    match call {
        Call::Open {
            echelons,
            resources,
            answer,
        } => *answer = Some(study.open(*echelons, *resources)),
        Call::Enter {
            parent,
            needs,
            rate,
            answer,
        } => *answer = Some(study.enter(*parent, *needs, *rate)),
        Call::Require {
            component,
            needs,
            answer,
        } => *answer = Some(study.require(*component, *needs)),
        Call::Strike { answer } => *answer = Some(study.strike()),
        Call::Price { book, plan, answer } => {
            *answer = Some(price(study, book, kind, plan.as_slice()));
        }
        Call::Solve {
            book,
            plan,
            working,
            answer,
        } => {
            let place = plan.as_mut_slice();
            *answer = Some(solve(study, book, kind, place, working.as_mut_slice()));
        }
    }
}

// Makes the calls one after another.
pub fn run<B: ChargeBook, K: CostKind>(study: &mut Study, kind: &K, calls: &mut [Call<B, K::Cost>])
    ensures { Run B.meaning K.adding K.lower (model study.old) calls.old calls.new (model study.new) }
{
    for call in calls.iter_mut() {
        make(study, kind, call);
    }
}

// Makes the calls on a new blank study. Want of memory shows before the first call, and then none is made.
pub fn run_on_blank<B: ChargeBook, K: CostKind>(
    heap: Global,
    kind: &K,
    calls: &mut [Call<B, K::Cost>],
) -> Result<Study, AllocError>
    ensures { MatchResult result (λ study. Run B.meaning K.adding K.lower blank_study calls.old calls.new (model study)) (λ _. calls.new ≡ calls.old) }
{
    let mut study = Study::blank(heap)?;
    run(&mut study, kind, calls);
    Ok(study)
}
