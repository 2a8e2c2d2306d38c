// What a byte of a plan decides.
ghost use Rattle.std.specs.Prelude.{◌≡◌};
ghost use Rattle.planning.specs.Decisions.{decided};

// Stays: a named form of docs/DECISIONS.md, an Option around the pair of echelon and option number.
// The final echelon and the option's number there, 0 for discard and 1 for repair; none for a byte that is no decision.
pub fn decision(byte: u8) -> Option<(u8, u8)>
    ensures { result ≡ decided byte }
{
    match byte {
        1..=8 => Some(((byte + 1) / 2, (byte + 1) % 2)),
        _ => None,
    }
}
