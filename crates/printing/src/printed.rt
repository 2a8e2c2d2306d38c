// What a program prints: the report of a plan, or the line of a refusal.
ghost use Rattle.std.specs.Prelude.{◌≡◌, ◌≤◌, length, IfOk, Ok};
ghost use Rattle.model.specs.Studies.{model};
ghost use Rattle.plans.specs.Questions.{count};
ghost use Rattle.reports.specs.Reports.{report_text};
ghost use Rattle.printing.specs.Shown.{shown, Prints, text_of, followed_by};

use files::intake::IntakeError;
use model::study::Study;
use reports::refusal_line::refusal_line;
use reports::report::report;
use std::alloc::{AllocError, Global};

// A report, or what a refusal is among: it may stand after a report, where a program prints two texts.
pub type Printed = Result<Vec<u8>, Vec<u8>>;

// The bytes, whichever they are.
pub(crate) fn text_of(printed: &Printed) -> &[u8]
    ensures { result.now ≡ text_of (shown printed.now) }
{
    match printed {
        Ok(text) | Err(text) => text.as_slice(),
    }
}

// One text after another.
pub(crate) fn followed_by(
    heap: Global,
    first: &Printed,
    second: &Printed,
) -> Result<Printed, AllocError>
    ensures { IfOk result (λ q. shown q ≡ followed_by (shown first.now) (shown second.now)) }
{
    let mut text = text_of(first).to_vec(heap)?;
    text.extend_from_slice(text_of(second))?;
    Ok(if first.is_ok() && second.is_ok() {
        Ok(text)
    } else {
        Err(text)
    })
}

// The text of a report as it is, or a refusal as its line; what is left to fail is memory.
pub(crate) fn in_full(
    heap: Global,
    text: Result<Vec<u8>, IntakeError>,
) -> Result<Printed, AllocError>
    ensures { (wanted : _) → Prints text wanted → IfOk result (λ q. shown q ≡ wanted) }
{
    match text {
        Ok(text) => Ok(Ok(text)),
        Err(IntakeError::Refused(why)) => Ok(Err(refusal_line(heap, &why)?)),
        Err(IntakeError::OutOfMemory) => Err(AllocError),
    }
}

// Room for the report of any study: 16 bytes for each of 60 components, and 32 more.
// Stays: a report is written into a place before its length is known; a vector of that room would only be cut again (d).
const LONGEST_REPORT: usize = 992;

// The report of a plan that was priced.
pub(crate) fn report_plan(
    heap: Global,
    study: &Study,
    plan: &[u8],
    cents: i64,
) -> Result<Vec<u8>, IntakeError>
    requires { count (model study.now) ≤ length plan.now }
    ensures { Prints result (Ok (report_text (model study.now) plan.now cents)) }
{
    let mut place = [0; LONGEST_REPORT];
    let length = report(study, plan, cents, &mut place)?;
    Ok(place[0..length].to_vec(heap)?)
}
