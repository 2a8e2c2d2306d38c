// What the survey keeps of a book's answers: the postings of all that is open.
ghost use Rattle.std.specs.Prelude.{◌≡◌};
ghost use Rattle.planning.specs.Surveys.{choice};

use costs::posting::Posting;
use model::question::RepairOption;

// What is kept for each of the echelons 1 to 4.
pub type ByEchelon<T> = [T; 4];

// The postings of one component at one echelon, none where the option is not open.
// Stays: two types, though `Needs` has these fields too: they would share `of` alone, and contracts on studies name `Needs` (d).
#[derive(Clone, Copy)]
pub struct Choices {
    pub discard: Option<Posting>,
    pub repair: Option<Posting>,
    pub moving: Option<Posting>,
}

impl Choices {
    // What is kept of one option.
    pub(crate) fn of(self, option: RepairOption) -> Option<Posting>
        ensures { result ≡ choice self option }
    {
        match option {
            RepairOption::Discard => self.discard,
            RepairOption::Repair => self.repair,
            RepairOption::Move => self.moving,
        }
    }
}

// A row for each component, and one for each resource: its posting, none where it is not open.
// Stays: rows for the most that a study may have, since a survey needs no memory and cannot fail for want of it (a).
#[derive(Clone, Copy)]
pub struct Survey {
    pub options: [ByEchelon<Choices>; 60],
    pub resources: [ByEchelon<Option<Posting>>; 8],
}
