// One record of a study file: 24 bytes, of which the first is the kind letter. Numbers are big-endian.
ghost use Rattle.std.specs.Prelude.{◌≡◌, ◌+◌, ◌≤◌, length, take, drop};
ghost use Rattle.files.specs.Records.{option_of, number_at, charge_at};

use model::answer::Charge;
use model::question::RepairOption;

// The length of a record.
pub const RECORD_LENGTH: usize = 24;

// The bytes of a record.
pub(crate) type Record = [u8; RECORD_LENGTH];

// The option that a letter names: D, R or M.
pub fn option_of(letter: u8) -> Option<RepairOption>
    ensures { result ≡ option_of letter }
{
    // Stays: a named form, the byte as a character decided by the literals.
    match letter as char {
        'D' => Some(RepairOption::Discard),
        'R' => Some(RepairOption::Repair),
        'M' => Some(RepairOption::Move),
        _ => None,
    }
}

// The N bytes of a number, from byte `from` on.
fn bytes<const N: usize>(rest: &[u8], from: usize) -> [u8; N]
    requires { from + N ≤ length rest.now }
    ensures { result ≡ take N (drop from rest.now) }
{
    *rest[from..].first_chunk().unwrap()
}

// The rate of a component, in a record's bytes from the fifth on.
pub(crate) fn rate(rest: &[u8; 20]) -> u32
    ensures { result ≡ number_at «rest».now 4 4 }
{
    u32::from_be_bytes(bytes(rest, 4))
}

// A charge, in a record's bytes from the fifth on.
pub(crate) fn charge(rest: &[u8; 20]) -> Charge
    ensures { result ≡ charge_at «rest».now 4 }
{
    Charge {
        cents: i64::from_be_bytes(bytes(rest, 4)),
        minutes: u64::from_be_bytes(bytes(rest, 12)),
    }
}
