// Which options are allowed at an echelon: those that need no resource that is shut there. Echelons count from 0 here.
ghost use Rattle.std.specs.Prelude.{◌≡◌, ◌<◌, ◌≤◌};
ghost use Rattle.theory.specs.Marks.{unless};
ghost use Rattle.solving.specs.Allowed.{bit_of, shut_mask, shut_masks, is_barred, allowed_choices};

use crate::mark::{Mark, Marks};
use costs::posting::Posting;
use model::component::Needs;
use model::question::RepairOption;
use planning::table::Choices;

// The bit of a resource, where its mark shuts it.
fn bit(mark: Mark, resource: usize) -> u8
    requires { resource < 8 }
    ensures { result ≡ bit_of mark resource }
{
    u8::from(mark == Mark::Shut) << resource
}

// The mask of the resources that are shut at the echelon.
fn shut_mask(marks: &Marks, echelon: usize, resources: u8) -> u8
    requires echelon { echelon < 4 }
    requires resources { resources ≤ 8 }
    ensures { result ≡ shut_mask marks.now echelon resources }
{
    let mut mask = 0;
    for (resource, line) in marks[..usize::from(resources)].iter().enumerate() {
        mask |= bit(line[echelon], resource);
    }
    mask
}

// That mask for each echelon.
pub(crate) fn shut_masks(marks: &Marks, resources: u8) -> [u8; 4]
    requires { resources ≤ 8 }
    ensures { result ≡ shut_masks marks.now resources }
{
    std::array::from_fn(|echelon| shut_mask(marks, echelon, resources))
}

// A posting, unless its option needs a resource of the mask.
fn unless_shut(
    posting: Option<Posting>,
    needs: Needs,
    option: RepairOption,
    shut: u8,
) -> Option<Posting>
    ensures { result ≡ unless (is_barred needs option shut) posting }
{
    // Stays: with `posting.filter(..)` a solve of bench/hard.study takes a sixth longer.
    if needs.of(option) & shut != 0 {
        None
    } else {
        posting
    }
}

// The postings of the options that are allowed, by the mask of an echelon.
pub(crate) fn allowed(choices: Choices, needs: Needs, shut: u8) -> Choices
    ensures { result ≡ allowed_choices choices needs shut }
{
    Choices {
        discard: unless_shut(choices.discard, needs, RepairOption::Discard, shut),
        repair: unless_shut(choices.repair, needs, RepairOption::Repair, shut),
        moving: unless_shut(choices.moving, needs, RepairOption::Move, shut),
    }
}
