// What lora prints with --try: the report of the trial, and then the report of the file as it is; or the lines of refusals.
ghost use Rattle.std.specs.Prelude.{◌≡◌, IfOk, Ok};
ghost use Rattle.model.specs.Studies.{model};
ghost use Rattle.printing.specs.Shown.{shown, Prints};
ghost use Rattle.printing.specs.Trials.{trial_text, tried_for, tried_and_solved};

use crate::printed::{Printed, followed_by, in_full, report_plan};
use crate::solution::solve_study;
use crate::study::study_of;
use files::intake::IntakeError;
use model::study::Study;
use std::alloc::{AllocError, Global};
use trials::change::Change;
use trials::trial::trial;

// The trial of a change.
// Stays: one body with `solve_study` but for the call; a closure's `F.pre` and `F.post` would be longer than what they save (d).
fn try_change(
    heap: Global,
    study: &Study,
    file: &mut [u8],
    change: Change,
) -> Result<Vec<u8>, IntakeError>
    ensures text { Prints result (trial_text file.old change.record change.cents (model study.now)) }
    ensures file { file.new ≡ file.old }
{
    // Stays: places for the largest study, 60 components and 4 echelons, need no length worked out (d).
    let mut plan = [0; 60];
    let mut working = [0; 240];
    let cents = trial(study, file, change, &mut plan, &mut working)?;
    report_plan(heap, study, &plan, cents)
}

// The trial, and then the file as it is.
fn try_and_solve(
    heap: Global,
    study: &Study,
    file: &mut [u8],
    change: Change,
) -> Result<Printed, AllocError>
    ensures text { IfOk result (λ q. shown q ≡ tried_for file.old change.record change.cents (Ok (model study.now))) }
    ensures file { file.new ≡ file.old }
{
    let tried = in_full(heap, try_change(heap, study, file, change))?;
    let solved = in_full(heap, solve_study(heap, study, file))?;
    followed_by(heap, &tried, &solved)
}

// Takes the file in, and tries the change of a record for the study that it makes. The file is as before.
// Stays: a study gives two texts that are already in full, a refusal one line, so that `and_then` has no one type for both (d).
pub fn try_file(heap: Global, file: &mut [u8], change: Change) -> Result<Printed, AllocError>
    ensures text { IfOk result (λ q. shown q ≡ tried_and_solved file.old change.record change.cents) }
    ensures file { file.new ≡ file.old }
{
    match study_of(heap, file) {
        Ok(study) => try_and_solve(heap, &study, file, change),
        Err(why) => in_full(heap, Err(why)),
    }
}
