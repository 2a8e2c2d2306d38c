// Why a call was refused: the question that failed, with what it speaks of.
ghost use Rattle.std.specs.Prelude.{◌≡◌, ◌++◌, Some, codes, decimal};
ghost use Rattle.model.specs.declared.refusal.Refusal.TheVariants.{BookFault};
ghost use Rattle.model.specs.Refusals.{said};

use crate::answer::Fault;
use std::error::Error;
use std::fmt;

#[derive(Clone, Copy, PartialEq, Eq, Debug)]
pub enum Refusal {
    EchelonCount,
    ResourceCount,
    StudyFull,
    UnknownParent,
    TooDeep,
    UnknownResource,
    RateOutOfRange,
    UnknownComponent,
    NoComponent,
    ShortPlan,
    ShortWorking,
    BookFault(Fault),
    NoPlan,
    ByteTooLarge { component: u8 },
    ReachMismatch { component: u8 },
    BeforeStart { component: u8 },
    OptionClosed { component: u8 },
    ResourceClosed { component: u8 },
    PriceRowsFull,
    UnknownPriceParent,
    PriceOutOfRange,
    PercentOutOfRange,
    YearlyOutOfRange,
    RulingOutOfRange,
    FileLength,
    RecordKind { record: u16 },
    RecordContent { record: u16 },
    ComponentNumber { record: u16 },
    RecordRefused { record: u16, number: u8 },
    ShortPlace,
    NoChargeRecord,
    ShortReportPlace,
}

impl From<Fault> for Refusal {
    ghost from_gives = { λ fault refusal. refusal ≡ BookFault fault };

    fn from(fault: Fault) -> Refusal {
        Refusal::BookFault(fault)
    }
}

// For a program that stops at a refusal; the line that programs print says all that a refusal carries.
impl fmt::Display for Refusal {
    ghost output = { λ r. Some (codes "the question of number " ++ (decimal (said r).number ++ codes " failed")) };

    fn fmt<W: fmt::Write>(&self, f: &mut fmt::Formatter<W>) -> fmt::Result {
        write!(f, "the question of number {} failed", self.number())
    }
}

impl Error for Refusal {}

impl Refusal {
    // The number of the question that failed.
    // Stays: `as` gives no number where variants carry what the refusal speaks of (d).
    pub fn number(&self) -> u8
        ensures { result ≡ (said self.now).number }
    {
        match self {
            Refusal::EchelonCount => 1,
            Refusal::ResourceCount => 2,
            Refusal::StudyFull => 3,
            Refusal::UnknownParent => 4,
            Refusal::TooDeep => 5,
            Refusal::UnknownResource => 6,
            Refusal::RateOutOfRange => 7,
            Refusal::UnknownComponent => 8,
            Refusal::NoComponent => 9,
            Refusal::ShortPlan => 10,
            Refusal::ShortWorking => 11,
            Refusal::BookFault(_) => 12,
            Refusal::NoPlan => 13,
            Refusal::ByteTooLarge { .. } => 14,
            Refusal::ReachMismatch { .. } => 15,
            Refusal::BeforeStart { .. } => 16,
            Refusal::OptionClosed { .. } => 17,
            Refusal::ResourceClosed { .. } => 18,
            Refusal::PriceRowsFull => 21,
            Refusal::UnknownPriceParent => 22,
            Refusal::PriceOutOfRange => 23,
            Refusal::PercentOutOfRange => 24,
            Refusal::YearlyOutOfRange => 25,
            Refusal::RulingOutOfRange => 26,
            Refusal::FileLength => 31,
            Refusal::RecordKind { .. } => 32,
            Refusal::RecordContent { .. } => 33,
            Refusal::ComponentNumber { .. } => 34,
            Refusal::RecordRefused { .. } => 35,
            Refusal::ShortPlace => 36,
            Refusal::NoChargeRecord => 37,
            Refusal::ShortReportPlace => 38,
        }
    }
}
