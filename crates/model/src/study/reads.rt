// What can be read of a study.
ghost use Rattle.std.specs.Prelude.{◌≡◌};
ghost use Rattle.model.specs.Studies.{model};

use super::Study;
use crate::component::Component;

impl Study {
    // The number of echelons, 1 to 4.
    pub fn echelons(&self) -> u8
        ensures { result ≡ (model self.now).echelons }
    {
        self.echelons
    }

    // The number of resources, 0 to 8.
    pub fn resources(&self) -> u8
        ensures { result ≡ (model self.now).resources }
    {
        self.resources
    }

    // The components in the order of their numbers, at most 60.
    pub fn components(&self) -> &[Component]
        ensures { result.now ≡ (model self.now).components }
    {
        self.table.rows.as_slice()
    }
}
