// The refusal line: `refused`, the number of the question that failed, and what the refusal carries.
ghost use Rattle.std.specs.Prelude.{◌≡◌, ◌≤◌, length, IfOk};
ghost use Rattle.reports.specs.Lines.{refusal_line};
ghost use Rattle.reports.specs.RefusalBytes.{in_40_bytes};
ghost use Rattle.reports.specs.Reports.{at_front};

use crate::place::Writer;
use model::refusal::Refusal;
use std::alloc::{AllocError, Global};

// Puts the line at the front of a place of 40 bytes, and answers where it ends.
fn put_refusal(place: &mut [u8; 40], refusal: &Refusal) -> usize
    ensures holds { place.new ≡ at_front (refusal_line refusal.now) place.old }
    ensures ends { result ≡ length (refusal_line refusal.now) }
    ensures few { result ≤ 40 }
{
    let mut writer = Writer::new(place);
    writer.bytes(b"refused");
    writer.word(refusal.number());
    writer.carried(refusal);
    writer.bytes(b"\n");
    writer.end()
}

// The line of a refusal as 40 bytes, with byte 10 at its end and zeros after that.
pub fn refusal_bytes(refusal: &Refusal) -> [u8; 40]
    ensures line { result ≡ in_40_bytes (refusal_line refusal.now) }
    ensures fits { length (refusal_line refusal.now) ≤ 40 }
{
    let mut bytes = [0; 40];
    put_refusal(&mut bytes, refusal);
    bytes
}

// The line of a refusal, with byte 10 at its end.
// Stays: (d) the bytes are those that `refusal_bytes` puts with no heap; a `Display` for `format!` would say them twice.
pub fn refusal_line(heap: Global, refusal: &Refusal) -> Result<Vec<u8>, AllocError>
    ensures { IfOk result (λ line. line.items ≡ refusal_line refusal.now) }
{
    let mut line = [0; 40];
    let end = put_refusal(&mut line, refusal);
    line[..end].to_vec(heap)
}
