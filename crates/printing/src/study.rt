// The study that a file makes.
ghost use Rattle.model.specs.Studies.{model};
ghost use Rattle.files.specs.Intakes.{taken_in};
ghost use Rattle.printing.specs.Taken.{Answers};

use files::intake::{IntakeError, intake};
use model::study::Study;
use std::alloc::Global;

// How many bytes a program reads of a study file: one more than the longest has, so that a longer one is refused, and not cut.
pub const MOST_READ: u64 = 65_521;

// Takes the file in, and answers its study.
pub(crate) fn study_of(heap: Global, file: &[u8]) -> Result<Study, IntakeError>
    ensures { Answers model (λ why. why) result (taken_in file.now) }
{
    let mut study = Study::blank(heap)?;
    intake(&mut study, heap, file)?;
    Ok(study)
}
