// A small file, each refusal of the intake, and the table book's answers.
use crate::intake::{IntakeError, intake};
use crate::table_book::TableBook;
use model::answer::{Answer, Cause, Charge, Fault};
use model::book::ChargeBook;
use model::question::{Question, RepairOption};
use model::study::Study;
use std::alloc::{AllocError, Global};
use std::test::Fail;

// Two echelons and one resource; a top component of rate 2,000 (7 × 256 + 208) whose repair needs the resource; its repair
// at echelon 1, for -2 cents and 258 minutes; the resource at echelon 2, for 256 cents.
const N: &[u8] = b"N\x02\x01\0\0\0\0\0\0\0\0\0\0\0\0\0\0\0\0\0\0\0\0\0";

const C: &[u8] = b"C\0\xff\0\x01\0\0\0\0\0\x07\xd0\0\0\0\0\0\0\0\0\0\0\0\0";

const T: &[u8] = b"T\0\x01R\0\0\0\0\xff\xff\xff\xff\xff\xff\xff\xfe\0\0\0\0\0\0\x01\x02";

const F: &[u8] = b"F\0\x02\0\0\0\0\0\0\0\0\0\0\0\x01\0\0\0\0\0\0\0\0\0";

// An F that uses a byte that is to be 0, and charges -1 cent; a C that needs a resource which the study lacks.
const BAD_F: &[u8] = b"F\x01\x02R\0\0\0\0\xff\xff\xff\xff\xff\xff\xff\xff\0\0\0\0\0\0\0\0";

const BAD_C: &[u8] = b"C\0\xff\0\x02\0\0\0\0\0\0\x01\0\0\0\0\0\0\0\0\0\0\0\0";

fn joined(heap: Global, records: &[&[u8]]) -> Result<Vec<u8>, AllocError> {
    let mut file = Vec::new(heap);
    for record in records {
        file.extend_from_slice(record)?;
    }
    Ok(file)
}

// The number of the refusal, where the file is refused.
fn refusal(heap: Global, records: &[&[u8]]) -> Result<Option<u8>, AllocError> {
    let file = joined(heap, records)?;
    let mut study = Study::blank(heap)?;
    match intake(&mut study, heap, file.as_slice()) {
        Ok(()) => Ok(None),
        Err(IntakeError::Refused(why)) => Ok(Some(why.number())),
        Err(IntakeError::OutOfMemory) => Err(AllocError),
    }
}

#[test]
fn accepts(rt: HostRuntime) -> Result<(), Fail> {
    let file = joined(rt.alloc(), &[N, C, T, F])?;
    let mut study = Study::blank(rt.alloc())?;
    intake(&mut study, rt.alloc(), file.as_slice())?;
    assert!(rt; study.components().len() == 1);
    assert_eq!(rt; study.components()[0].rate, 2_000);
    Ok(())
}

#[test]
fn refuses(rt: HostRuntime) -> Result<(), Fail> {
    let cases = [
        (&b"N"[..], &b""[..], 31),
        (T, C, 32),
        (BAD_F, F, 33),
        (C, C, 34),
        (BAD_C, F, 35),
    ];
    for (second, third, number) in cases {
        assert_eq!(rt; refusal(rt.alloc(), &[N, second, third])?, Some(number));
    }
    Ok(())
}

// The file has two charges for the discard, and its tail is shorter than a record.
#[test]
fn answers(rt: HostRuntime) -> Result<(), Fail> {
    let discard: &[u8] = b"T\0\x01D\0\0\0\0\0\0\0\0\0\0\0\0\0\0\0\0\0\0\0\0";
    let file = joined(rt.alloc(), &[T, discard, F, discard, BAD_F, b"F\0\x03"])?;
    let book = TableBook {
        bytes: file.as_slice(),
    };
    let twice = Question::OfOption {
        component: 0,
        echelon: 1,
        option: RepairOption::Discard,
    };
    let negative = Question::OfResource {
        resource: 1,
        echelon: 2,
    };
    let cases = [
        (
            Question::OfOption {
                component: 0,
                echelon: 1,
                option: RepairOption::Repair,
            },
            Answer::Charged(Charge {
                cents: -2,
                minutes: 258,
            }),
        ),
        (
            Question::OfResource {
                resource: 0,
                echelon: 2,
            },
            Answer::Charged(Charge {
                cents: 256,
                minutes: 0,
            }),
        ),
        (
            Question::OfResource {
                resource: 0,
                echelon: 3,
            },
            Answer::Barred,
        ),
        (
            twice,
            Answer::Faulty(Fault {
                cause: Cause::EnteredTwice,
                letter: 'T',
                height: 0,
                question: twice,
            }),
        ),
        (
            negative,
            Answer::Faulty(Fault {
                cause: Cause::BeyondLimits,
                letter: 'T',
                height: 0,
                question: negative,
            }),
        ),
    ];
    for (question, answer) in cases {
        assert_eq!(rt; book.ask(question), answer);
    }
    Ok(())
}
