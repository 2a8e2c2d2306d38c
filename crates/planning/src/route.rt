// The way of one component in a plan: the echelon where it starts, its byte, and the resources that it needs on the way.
ghost use Rattle.std.specs.Prelude.{◌≡◌};
ghost use Rattle.plans.specs.Starts.{byte, final, start_under};
ghost use Rattle.plans.specs.Uses.{uses_at};
ghost use Rattle.planning.specs.OpenRows.{needs_on, needs_resource_on};

use crate::start::{byte_of, start_under};
use model::component::{Component, Needs};
use model::question::RepairOption;

// The start is 0 where the component is not reached.
// Stays: 0 is what `start_under` says there, as the byte 0 of a plan does; every contract on plans speaks of that number (a).
#[derive(Clone, Copy)]
pub(crate) struct Route {
    pub start: u8,
    pub byte: u8,
    pub needs: Needs,
}

// All that can be done with a component.
pub(crate) const OPTIONS: [RepairOption; 3] = [
    RepairOption::Discard,
    RepairOption::Repair,
    RepairOption::Move,
];

impl Route {
    // Reads the way of a component, by its number, off the plan.
    pub(crate) fn of(component: &Component, plan: &[u8], number: usize) -> Route
        ensures start { result.start ≡ start_under plan.now component.now.parent }
        ensures byte { result.byte ≡ byte plan.now number }
        ensures needs { result.needs ≡ component.now.needs }
    {
        Route {
            start: start_under(plan, component.parent),
            byte: byte_of(plan, number),
            needs: component.needs,
        }
    }

    // The final echelon, where the component is discarded or repaired.
    pub(crate) fn last(self) -> u8
        ensures { result ≡ final self.byte }
    {
        self.byte.div_ceil(2)
    }

    // Whether the component uses that option at that echelon.
    pub(crate) fn uses(self, echelon: u8, option: RepairOption) -> bool
        ensures { result ≡ uses_at self.start self.byte echelon option }
    {
        let twice = 2 * u16::from(echelon);
        self.start >= 1
            && match option {
                RepairOption::Discard => u16::from(self.byte) + 1 == twice,
                RepairOption::Repair => u16::from(self.byte) == twice,
                RepairOption::Move => self.start <= echelon && echelon < self.last(),
            }
    }

    // Whether the component uses that option at that echelon, and the option needs that resource.
    fn needs_by(self, echelon: u8, resource: u8, option: RepairOption) -> bool
        ensures { result ≡ needs_on self resource echelon option }
    {
        self.uses(echelon, option) && self.needs.includes(option, resource)
    }

    // Whether the component needs that resource at that echelon.
    // Stays: as `any` over OPTIONS (tried) a call takes a quarter more steps and bench/hard.study a tenth longer (b).
    pub(crate) fn needs(self, echelon: u8, resource: u8) -> bool
        ensures { result ≡ needs_resource_on self resource echelon }
    {
        self.needs_by(echelon, resource, RepairOption::Discard)
            || self.needs_by(echelon, resource, RepairOption::Repair)
            || self.needs_by(echelon, resource, RepairOption::Move)
    }
}
