// Where a component starts, as a plan says: read off its parent's byte.
ghost use Rattle.std.specs.Prelude.{◌≡◌};
ghost use Rattle.plans.specs.Starts.{byte, repaired_at, start_under};

// The byte of a component; 0 past the end of the plan.
pub(crate) fn byte_of(plan: &[u8], number: usize) -> u8
    ensures { result ≡ byte plan.now number }
{
    plan.get(number).copied().unwrap_or(0)
}

// The echelon at which a byte repairs, 0 where it does not.
// Stays: 0 is what the definition of `repaired_at` says there, and what the byte 0 of a plan says too (a).
fn repaired_at(byte: u8) -> u8
    ensures { result ≡ repaired_at byte }
{
    if byte % 2 == 0 { byte / 2 } else { 0 }
}

// The echelon where a component with that parent starts, 0 where the plan does not reach it.
// Stays: 0, not None, is what the definition of `start_under` says there, on which the contracts of plans stand (a).
pub fn start_under(plan: &[u8], parent: Option<u8>) -> u8
    ensures { result ≡ start_under plan.now parent }
{
    parent.map_or(1, |parent| repaired_at(byte_of(plan, usize::from(parent))))
}
