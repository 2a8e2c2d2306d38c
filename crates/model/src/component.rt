// A component, as it was entered.
ghost use Rattle.std.specs.Prelude.{◌≡◌};
ghost use Rattle.model.specs.Components.{need, needs_resource, parent_of, is_entered};

use crate::question::RepairOption;

// The resources that each option needs: bit r of a mask, counted from the lowest, is set where resource r is needed.
#[derive(Clone, Copy, Default, PartialEq, Eq, Debug)]
pub struct Needs {
    pub discard: u8,
    pub repair: u8,
    pub moving: u8,
}

// A top component has no parent and is at indenture level 1, any other one level deeper than its parent. The rate is in
// failures per thousand years.
#[derive(Clone, Copy, PartialEq, Eq, Debug)]
pub struct Component {
    pub parent: Option<u8>,
    pub level: u8,
    pub needs: Needs,
    pub rate: u32,
}

// The number that marks a component without a parent.
// Stays: a record holds this number, and `enter` and a price book's `add` are handed what the record holds (a).
pub const NO_PARENT: u8 = 255;

// The parent that a number names: none for 255.
pub fn parent_of(number: u8) -> Option<u8>
    ensures { result ≡ parent_of number }
{
    (number != NO_PARENT).then_some(number)
}

// Whether there is no parent, or the parent is one of the first `count` that were entered.
pub fn is_entered(count: usize, parent: Option<u8>) -> bool
    ensures { result ≡ is_entered count parent }
{
    parent.is_none_or(|number| usize::from(number) < count)
}

impl Needs {
    // The mask of one option.
    pub fn of(self, option: RepairOption) -> u8
        ensures { result ≡ need self option }
    {
        match option {
            RepairOption::Discard => self.discard,
            RepairOption::Repair => self.repair,
            RepairOption::Move => self.moving,
        }
    }

    // Whether the option needs that resource.
    pub fn includes(self, option: RepairOption, resource: u8) -> bool
        ensures { result ≡ needs_resource self option resource }
    {
        resource < 8 && (self.of(option) >> resource) % 2 == 1
    }
}
