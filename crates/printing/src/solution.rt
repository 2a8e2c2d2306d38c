// What lora prints: the report of the least plan, or the line of the refusal.
ghost use Rattle.std.specs.Prelude.{◌≡◌, IfOk, Ok};
ghost use Rattle.model.specs.Studies.{model};
ghost use Rattle.printing.specs.Shown.{shown, Prints};
ghost use Rattle.printing.specs.Solutions.{solution_for, solution};

use crate::printed::{Printed, in_full, report_plan};
use crate::study::study_of;
use costs::money::Money;
use files::intake::IntakeError;
use files::table_book::TableBook;
use model::study::Study;
use solving::solve::solve;
use std::alloc::{AllocError, Global};

// Solves the study by money with the table book of the file.
pub(crate) fn solve_study(heap: Global, study: &Study, file: &[u8]) -> Result<Vec<u8>, IntakeError>
    ensures { Prints result (solution_for file.now (Ok (model study.now))) }
{
    // Stays: places for the largest study, 60 components and 4 echelons, need no length worked out (d).
    let mut plan = [0; 60];
    let mut working = [0; 240];
    let book = TableBook { bytes: file };
    let cents = solve(study, &book, &Money, &mut plan, &mut working)?;
    report_plan(heap, study, &plan, cents)
}

// Takes the file in, and solves the study that it makes.
pub fn solve_file(heap: Global, file: &[u8]) -> Result<Printed, AllocError>
    ensures { IfOk result (λ q. shown q ≡ solution file.now) }
{
    let text = study_of(heap, file).and_then(|study| solve_study(heap, &study, file));
    in_full(heap, text)
}
