// Trials on a small file: T and F records, the first and the last of them, records that cannot be tried, and amounts at and
// beyond each limit.
use crate::change::Change;
use crate::trial::trial;
use files::intake::intake;
use model::refusal::Refusal;
use model::study::Study;
use std::process::Abort;
use std::test::Fail;

// One echelon and one resource; a top component of rate 1 whose repair needs the resource; discard for 9 cents, repair for 5,
// and the resource for 2 a year, which a thousand years make 2,000.
const FILE: [u8; 120] = *b"N\x01\x01\0\0\0\0\0\0\0\0\0\0\0\0\0\0\0\0\0\0\0\0\0\
C\0\xff\0\x01\0\0\0\0\0\0\x01\0\0\0\0\0\0\0\0\0\0\0\0\
T\0\x01D\0\0\0\0\0\0\0\0\0\0\0\x09\0\0\0\0\0\0\0\0\
T\0\x01R\0\0\0\0\0\0\0\0\0\0\0\x05\0\0\0\0\0\0\0\0\
F\0\x01\0\0\0\0\0\0\0\0\0\0\0\0\x02\0\0\0\0\0\0\0\0";

// What a trial answers: the byte of the plan and the cost, or the number of the refusal, where the plan's byte stays 0. The
// file has to be as before.
fn tried(
    rt: &impl Abort,
    study: &Study,
    record: usize,
    cents: i64,
) -> Result<Result<(u8, i64), u8>, Fail> {
    let mut file = FILE;
    let mut plan = [0];
    let mut working = [0];
    let answer = trial(
        study,
        &mut file,
        Change { record, cents },
        &mut plan,
        &mut working,
    );
    assert!(rt; file == FILE, "the file is as before");
    let [byte] = plan;
    assert!(rt; answer.is_ok() || byte == 0, "a refusal leaves the plan");
    Ok(answer.map(|cost| (byte, cost)).map_err(|why| why.number()))
}

#[test]
fn tries(rt: HostRuntime) -> Result<(), Fail> {
    let mut study = Study::blank(rt.alloc())?;
    intake(&mut study, rt.alloc(), &FILE)?;
    let cases = [
        // the discard, which is the first record of a charge: as it stands, dearer, and a scrap return
        (2, 9, Ok((1, 9))),
        (2, 3_000, Ok((2, 2_005))),
        (2, -7, Ok((1, -7))),
        // the repair, and the resource, which is the last record: at the limits and beyond them
        (3, -1_000_000_000, Ok((2, -999_998_000))),
        (3, -1_000_000_001, Err(12)),
        (3, 1_000_000_000, Ok((1, 9))),
        (3, 1_000_000_001, Err(12)),
        (4, 0, Ok((2, 5))),
        (4, -1, Err(12)),
        (4, 1_000_000_000_000, Ok((1, 9))),
        (4, 1_000_000_000_001, Err(12)),
        (4, i64::MIN, Err(12)),
        // no T or F: the N, the C, past the end, and far past it
        (0, 1, Err(37)),
        (1, 1, Err(37)),
        (5, 1, Err(37)),
        (usize::MAX, 1, Err(37)),
    ];
    for (record, cents, answer) in cases {
        assert_eq!(rt; tried(&rt, &study, record, cents)?, answer);
    }
    Ok(())
}

// A tail that is shorter than a record cannot be tried, and the questions of solve come after the record's.
#[test]
fn asks_in_order(rt: HostRuntime) -> Result<(), Fail> {
    let study = Study::blank(rt.alloc())?;
    let mut file = FILE;
    let change = Change {
        record: 4,
        cents: 1,
    };
    let mut plan = [];
    let mut working = [];
    let short = &mut file[0..119];
    assert_eq!(rt;
        trial(&study, short, change, &mut plan, &mut working),
        Err(Refusal::NoChargeRecord)
    );
    assert_eq!(rt;
        trial(&study, &mut file, change, &mut plan, &mut working),
        Err(Refusal::NoComponent)
    );
    Ok(())
}
