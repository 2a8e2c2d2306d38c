// Writing a study as a file of N and C records into a place that the caller has.
ghost use Rattle.std.specs.Prelude.{◌≡◌, length};
ghost use Rattle.model.specs.Studies.{model};
ghost use Rattle.files.specs.Writes.{encoded, on_write};

use crate::record::RECORD_LENGTH;
use model::component::{NO_PARENT, Needs};
use model::refusal::Refusal;
use model::study::Study;

// An N names no needs.
const NO_NEEDS: Needs = Needs {
    discard: 0,
    repair: 0,
    moving: 0,
};

// Fills the 24 bytes of an N or a C: the kind letter, bytes 1 and 2, the needs and the rate; all else is 0.
fn encode(place: &mut [u8], kind: u8, first: u8, second: u8, needs: Needs, rate: u32)
    requires { length place.old ≡ 24 }
    ensures { place.new ≡ encoded kind first second needs rate }
{
    let Needs {
        discard,
        repair,
        moving,
    } = needs;
    let [a, b, c, d] = rate.to_be_bytes();
    place.copy_from_slice(&[
        kind, first, second, discard, repair, moving, 0, 0, a, b, c, d, 0, 0, 0, 0, 0, 0, 0, 0, 0,
        0, 0, 0,
    ]);
}

// Writes the study's N and C records, one after another, into the front of the place. Answers how many bytes they are. What
// stands beyond them stays, and so does a place that is too short.
pub fn write(study: &Study, place: &mut [u8]) -> Result<usize, Refusal>
    ensures { (result, place.new) ≡ on_write (model study.now) place.old }
{
    let components = study.components();
    let length = RECORD_LENGTH * (components.len() + 1);
    if place.len() < length {
        return Err(Refusal::ShortPlace);
    }
    encode(
        &mut place[..RECORD_LENGTH],
        b'N',
        study.echelons(),
        study.resources(),
        NO_NEEDS,
        0,
    );
    for (i, component) in components.iter().enumerate() {
        // Stays: a middle part is lent by its bounds, a named form; chunks lent in turn tell nothing of the place afterwards.
        let at = i + 1;
        encode(
            &mut place[RECORD_LENGTH * at..RECORD_LENGTH * at + RECORD_LENGTH],
            b'C',
            i as u8,
            component.parent.unwrap_or(NO_PARENT),
            component.needs,
            component.rate,
        );
    }
    Ok(length)
}
