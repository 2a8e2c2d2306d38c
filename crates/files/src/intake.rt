// The intake: it makes a study of a file, record by record, and refuses the file at the first question that fails.
ghost use Rattle.std.specs.Prelude.{◌≡◌, ◌+◌, ◌≤◌, is_some};
ghost use Rattle.std.specs.Option.{unwrap_or};
ghost use Rattle.model.specs.Studies.{Model, model};
ghost use Rattle.files.specs.Records.{blank, is_filled};
ghost use Rattle.files.specs.declared.intake.IntakeError.TheVariants.{Refused, OutOfMemory as out-of-memory};
ghost use Rattle.files.specs.Intakes.{state, next_stage, accepted, on_study, on_record, leaving, TakenIn};

use crate::record::{Record, option_of, rate};
use model::component::Needs;
use model::refusal::Refusal;
use model::study::Study;
use std::alloc::{AllocError, Global};

// How many records the longest file has.
const MOST_RECORDS: usize = 2_730;

// Why a file makes no study: it is refused, or memory is wanting.
#[derive(Clone, Copy, PartialEq, Eq, Debug)]
pub enum IntakeError {
    Refused(Refusal),
    OutOfMemory,
}

impl From<Refusal> for IntakeError {
    ghost from_gives = { λ why r. r ≡ Refused why };

    fn from(why: Refusal) -> IntakeError {
        IntakeError::Refused(why)
    }
}

impl From<AllocError> for IntakeError {
    ghost from_gives = { λ _ r. r ≡ out-of-memory };

    fn from(_error: AllocError) -> IntakeError {
        IntakeError::OutOfMemory
    }
}

// Which kinds of record may come: N; then C, T or F; after the first T or F only these.
#[derive(Clone, Copy)]
enum Stage {
    Opening,
    Components,
    Charges,
}

// How far a file has been read.
#[derive(Drop)]
struct Reading {
    stage: Stage,
    study: Study,
}

// Whether the `count` bytes from byte `from` on are 0.
fn is_blank(record: &Record, from: usize, count: usize) -> bool
    requires { from + count ≤ 24 }
    ensures { result ≡ blank «record».now from count }
{
    record[from..from + count].iter().all(|byte| *byte == 0)
}

// Whether the bytes that a record of its kind does not use are 0, and the letter of a T is that of an option.
fn is_filled(record: &Record) -> bool
    ensures { result ≡ is_filled «record».now }
{
    // Stays: the kind letters are the file format's.
    match record[0] {
        b'N' => is_blank(record, 3, 21),
        b'C' => is_blank(record, 6, 2) && is_blank(record, 12, 12),
        b'T' => option_of(record[3]).is_some() && is_blank(record, 4, 4),
        _ => is_blank(record, 3, 5),
    }
}

// What record number `at` comes to, by what the study answered to its call: where the study refused, the record is refused.
fn on_answer<A: Drop>(at: u16, answer: Result<A, Refusal>) -> Result<(), Refusal>
    ensures { (s : Model) → leaving result s ≡ accepted at (answer, s) }
{
    // Stays: (a) a refusal within a refusal would need heap; its number is what the line prints.
    answer.map(|_| ()).map_err(|why| Refusal::RecordRefused {
        record: at,
        number: why.number(),
    })
}

// Has the study do what record number `at` says: N opens it, C enters a component, T and F leave it.
fn put(study: &mut Study, at: u16, record: &Record) -> Result<(), Refusal>
    ensures { leaving result (model study.new) ≡ on_study (model study.old) at «record».now }
{
    // Stays: tried on the array itself, of which the borrow checker does not cover a rest.
    let [kind, number, echelon, letter, rest @ ..] = record.as_slice() else {
        return Ok(());
    };
    match *kind {
        b'N' => on_answer(at, study.open(*number, *echelon)),
        b'C' if usize::from(*number) != study.components().len() => Err(Refusal::ComponentNumber {
            record: at,
        }),
        b'C' => {
            let needs = Needs {
                discard: *letter,
                repair: rest[0],
                moving: rest[1],
            };
            on_answer(
                at,
                study.enter(*echelon, needs, rate(rest.as_array().unwrap())),
            )
        }
        _ => Ok(()),
    }
}

impl Reading {
    // Whether a record of that kind may come. If so, the stage moves on.
    fn admits(&mut self, kind: u8) -> bool
        ensures answer { result ≡ is_some (next_stage self.old.stage kind) }
        ensures moves { self.new.stage ≡ unwrap_or (next_stage self.old.stage kind) self.old.stage }
        ensures keeps { self.new.study ≡ self.old.study }
    {
        // Stays: a named form, the stage matched together with the kind letter.
        match (self.stage, kind) {
            (Stage::Opening, b'N') => {
                self.stage = Stage::Components;
                true
            }
            (Stage::Components, b'C') => true,
            (Stage::Components | Stage::Charges, b'T' | b'F') => {
                self.stage = Stage::Charges;
                true
            }
            _ => false,
        }
    }

    // Takes in record number `at`.
    fn take_in(&mut self, at: u16, record: &Record) -> Result<(), Refusal>
        ensures { leaving result (state self.new) ≡ on_record (state self.old) at «record».now }
    {
        if !self.admits(record[0]) {
            return Err(Refusal::RecordKind { record: at });
        }
        if !is_filled(record) {
            return Err(Refusal::RecordContent { record: at });
        }
        put(&mut self.study, at, record)
    }
}

// Puts the study that the file makes in the place of `study`. Where the file is refused or memory is wanting, the study stays.
pub fn intake(study: &mut Study, heap: Global, file: &[u8]) -> Result<(), IntakeError>
    ensures { TakenIn file.now (model study.old) result (model study.new) }
{
    let (records, tail) = file.as_chunks();
    if !tail.is_empty() || !(1..=MOST_RECORDS).contains(&records.len()) {
        return Err(IntakeError::Refused(Refusal::FileLength));
    }
    let mut reading = Reading {
        stage: Stage::Opening,
        study: Study::blank(heap)?,
    };
    for (at, record) in records.iter().enumerate() {
        reading.take_in(at as u16, record)?;
    }
    *study = reading.study;
    Ok(())
}
