// Reading the plan off the notes of a walk, from the first component to the last.
ghost use Rattle.std.specs.Prelude.{◌≡◌, ◌≤◌, length};
ghost use Rattle.model.specs.Studies.{model};
ghost use Rattle.plans.specs.Questions.{count};
ghost use Rattle.solving.specs.Steps.{noted_at, ReadsOff};

use model::study::Study;
use planning::start::start_under;

// The byte noted for a start.
fn noted_at(bytes: [u8; 4], start: u8) -> u8
    ensures { result ≡ noted_at bytes start }
{
    match start {
        1..=4 => bytes[usize::from(start) - 1],
        _ => 0,
    }
}

// Writes the byte of each component.
pub(crate) fn read_off(study: &Study, notes: &[[u8; 4]], plan: &mut [u8])
    requires notes { count (model study.now) ≤ length notes.now }
    requires plan { count (model study.now) ≤ length plan.old }
    ensures { ReadsOff (model study.now) notes.now (count (model study.now)) plan.new }
{
    // Stays: the plan is read at the parent and written at the number within one turn, so the number is needed anyway.
    for (number, component) in study.components().iter().enumerate() {
        let start = start_under(plan, component.parent);
        plan[number] = noted_at(notes[number], start);
    }
}
