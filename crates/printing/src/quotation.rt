// What quote prints: the report of a priced plan, or the line of the refusal.
ghost use Rattle.std.specs.Prelude.{◌≡◌, IfOk, Ok};
ghost use Rattle.model.specs.Studies.{model};
ghost use Rattle.printing.specs.Shown.{shown, Prints};
ghost use Rattle.printing.specs.Quoted.{quoted_for, quoted};

use crate::printed::{Printed, in_full, report_plan};
use crate::study::study_of;
use costs::money::Money;
use files::intake::IntakeError;
use files::table_book::TableBook;
use model::study::Study;
use planning::price::price;
use std::alloc::{AllocError, Global};

// Prices the plan by money with the table book of the file.
fn quote_study(
    heap: Global,
    study: &Study,
    file: &[u8],
    plan: &[u8],
) -> Result<Vec<u8>, IntakeError>
    ensures { Prints result (quoted_for file.now plan.now (Ok (model study.now))) }
{
    let cents = price(study, &TableBook { bytes: file }, &Money, plan)?;
    report_plan(heap, study, plan, cents)
}

// Takes the file in, and prices the plan for the study that it makes.
pub fn quote_plan(heap: Global, file: &[u8], plan: &[u8]) -> Result<Printed, AllocError>
    ensures { IfOk result (λ q. shown q ≡ quoted file.now plan.now) }
{
    let text = study_of(heap, file).and_then(|study| quote_study(heap, &study, file, plan));
    in_full(heap, text)
}
