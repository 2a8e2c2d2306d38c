// What a charge book is asked.
ghost use Rattle.std.specs.Prelude.{◌≡◌};
ghost use Rattle.model.specs.Letters.{letter};

// What can be done with a failed component at an echelon. Move takes it one echelon up.
#[derive(Clone, Copy, PartialEq, Eq, Debug)]
pub enum RepairOption {
    Discard,
    Repair,
    Move,
}

// The charge of one option of a component at an echelon, or of a resource at an echelon.
#[derive(Clone, Copy, PartialEq, Eq, Debug)]
pub enum Question {
    OfOption {
        component: u8,
        echelon: u8,
        option: RepairOption,
    },
    OfResource {
        resource: u8,
        echelon: u8,
    },
}

impl RepairOption {
    // The option's letter: D, R or M.
    // Stays: the variants count from 0, as places of marks do, so that `as` cannot give their letters too (d).
    pub fn letter(self) -> char
        ensures { result ≡ letter self }
    {
        match self {
            RepairOption::Discard => 'D',
            RepairOption::Repair => 'R',
            RepairOption::Move => 'M',
        }
    }
}
