// A problem with the list of working costs that it is solved in.
ghost use Rattle.std.specs.Prelude.{◌≤◌, length};
ghost use Rattle.model.specs.Studies.{model};
ghost use Rattle.solving.specs.Working.{cells};

use crate::problem::Problem;
use costs::kind::CostKind;

// There is a working cost for each component and echelon.
#[derive(Drop)]
pub(crate) struct Table<'a, K: CostKind> {
    pub problem: &'a Problem<'a, K>,
    pub working: &'a mut [K::Cost],
    ghost room: { cells (model problem.now.study.now) ≤ length working.now },
}
