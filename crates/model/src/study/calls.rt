// The calls that make a study. A refused call leaves it as it was.
ghost use Rattle.std.specs.Prelude.{◌≡◌, true, IfOk, vec_len};
ghost use Rattle.model.specs.Components.{is_entered, level_under, names_below};
ghost use Rattle.model.specs.Studies.{model, blank_study, on_open, on_enter, on_require, on_strike};

use super::Study;
use crate::component::{Component, Needs, is_entered, parent_of};
use crate::refusal::Refusal;
use crate::table::Table;
use std::alloc::{AllocError, Global};

impl Study {
    // A study of one echelon, with no resource and no component.
    pub fn blank(heap: Global) -> Result<Study, AllocError>
        ensures { IfOk result (λ s. model s ≡ blank_study) }
    {
        let rows = Vec::with_capacity(heap, 60)?;
        Ok(Study {
            echelons: 1,
            resources: 0,
            table: Table { rows },
        })
    }

    // Sets echelons and resources, and empties the study.
    pub fn open(&mut self, echelons: u8, resources: u8) -> Result<(), Refusal>
        ensures { (result, model self.new) ≡ on_open (model self.old) echelons resources }
    {
        if !(1..=4).contains(&echelons) {
            return Err(Refusal::EchelonCount);
        }
        if resources > 8 || resources * echelons > 16 {
            return Err(Refusal::ResourceCount);
        }
        self.echelons = echelons;
        self.resources = resources;
        self.table.rows.clear();
        Ok(())
    }

    // Enters a component after the others, under the parent of that number or, for 255, at the top. Answers its number.
    pub fn enter(&mut self, parent: u8, needs: Needs, rate: u32) -> Result<u8, Refusal>
        ensures { (result, model self.new) ≡ on_enter (model self.old) parent needs rate }
    {
        let number = self.table.rows.len();
        if number >= 60 {
            return Err(Refusal::StudyFull);
        }
        let parent = parent_of(parent);
        if !is_entered(number, parent) {
            return Err(Refusal::UnknownParent);
        }
        let level = self.level_under(parent);
        if level > 5 {
            return Err(Refusal::TooDeep);
        }
        if !self.covers(needs) {
            return Err(Refusal::UnknownResource);
        }
        if !(1..=1_000_000).contains(&rate) {
            return Err(Refusal::RateOutOfRange);
        }
        self.table.rows.push_reserved(Component {
            parent,
            level,
            needs,
            rate,
        });
        Ok(number as u8)
    }

    // Replaces the needs of one component, all three at once.
    pub fn require(&mut self, component: u8, needs: Needs) -> Result<(), Refusal>
        ensures { (result, model self.new) ≡ on_require (model self.old) component needs }
    {
        let number = usize::from(component);
        if number >= self.table.rows.len() {
            return Err(Refusal::UnknownComponent);
        }
        if !self.covers(needs) {
            return Err(Refusal::UnknownResource);
        }
        self.table.row(number).needs = needs;
        Ok(())
    }

    // Removes the component that was entered last.
    pub fn strike(&mut self) -> Result<(), Refusal>
        ensures { (result, model self.new) ≡ on_strike (model self.old) }
    {
        self.table.rows.pop().ok_or(Refusal::NoComponent)?;
        Ok(())
    }

    // Whether the needs name only resources of the study.
    fn covers(&self, needs: Needs) -> bool
        ensures { result ≡ names_below self.now.resources needs }
    {
        let end = 1u16 << self.resources;
        [needs.discard, needs.repair, needs.moving]
            .iter()
            .all(|mask| u16::from(*mask) < end)
    }

    // The indenture level of a component with that parent.
    fn level_under(&self, parent: Option<u8>) -> u8
        requires { is_entered (vec_len self.now.table.rows) parent ≡ true }
        ensures { result ≡ level_under self.now.table.rows.items parent }
    {
        parent.map_or(1, |number| self.table.rows[usize::from(number)].level + 1)
    }
}
