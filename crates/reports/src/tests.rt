// Reports of deep and of mixed trees, of the longest lines and of no component; refusals; and lines of refusals.
use crate::refusal_line::refusal_bytes;
use crate::report::report;
use model::answer::{Cause, Fault};
use model::component::Needs;
use model::question::{Question, RepairOption};
use model::refusal::Refusal;
use model::study::Study;
use std::alloc::Global;
use std::process::Abort;
use std::test::Fail;

const NONE: Needs = Needs {
    discard: 0,
    repair: 0,
    moving: 0,
};

// A study with a component under each of these parents.
fn study_of(heap: Global, parents: &[u8]) -> Result<Study, Fail> {
    let mut study = Study::blank(heap)?;
    study.open(4, 0)?;
    for parent in parents {
        study.enter(*parent, NONE, 1)?;
    }
    Ok(study)
}

// The report is this text, and the place beyond stays.
fn shows(rt: &impl Abort, study: &Study, plan: &[u8], cents: i64, text: &[u8]) -> Result<(), Fail> {
    let mut place = [b'#'; 200];
    let length = report(study, plan, cents, &mut place)?;
    assert!(rt; length < 200);
    assert!(rt; &place[0..length] == text);
    assert!(rt; place[length] == b'#');
    Ok(())
}

#[test]
fn deep_tree(rt: HostRuntime) -> Result<(), Fail> {
    let study = study_of(rt.alloc(), &[255, 0, 1, 2, 3])?;
    let text = b"0 R4\n  1 R4\n    2 R4\n      3 R4\n        4 D4\ntotal -1\n";
    shows(&rt, &study, &[8, 8, 8, 8, 7], -1, text)
}

#[test]
fn mixed_numbers(rt: HostRuntime) -> Result<(), Fail> {
    let study = study_of(rt.alloc(), &[255, 255, 0, 1, 0, 1])?;
    let text = b"0 D1\n  2 D2\n  4 -\n1 R1\n  3 R2\n  5 -\ntotal 100\n";
    shows(&rt, &study, &[1, 2, 3, 4, 0, 9, 7], 100, text)
}

#[test]
fn no_component(rt: HostRuntime) -> Result<(), Fail> {
    let study = study_of(rt.alloc(), &[])?;
    shows(&rt, &study, &[], i64::MIN, b"total -9223372036854775808\n")
}

// Four lines of 5, 7, 9 and 11 bytes; 6 of 13 and 50 of 14; and the total, of 27.
#[test]
fn longest_lines(rt: HostRuntime) -> Result<(), Fail> {
    let mut study = study_of(rt.alloc(), &[255, 0, 1, 2])?;
    for _ in 4..60 {
        study.enter(3, NONE, 1)?;
    }
    let mut place = [0; 992];
    assert_eq!(rt; report(&study, &[8; 60], i64::MIN, &mut place), Ok(837));
    Ok(())
}

#[test]
fn refused_reports(rt: HostRuntime) -> Result<(), Fail> {
    let study = study_of(rt.alloc(), &[255, 0])?;
    let mut place = [b'#'; 63];
    assert_eq!(rt;
        report(&study, &[4], 0, &mut place),
        Err(Refusal::ShortPlan)
    );
    assert_eq!(rt;
        report(&study, &[4, 4], 0, &mut place),
        Err(Refusal::ShortReportPlace)
    );
    assert!(rt; place[0] == b'#');
    Ok(())
}

#[test]
fn refusal_lines(rt: HostRuntime) {
    let record = refusal_bytes(&Refusal::RecordRefused {
        record: 65_535,
        number: 7,
    });
    assert!(rt; &record[0..20] == b"refused 35 65535 7\n\0".as_slice());
    let fault = refusal_bytes(&Refusal::BookFault(Fault {
        cause: Cause::EnteredTwice,
        letter: 'T',
        height: 0,
        question: Question::OfOption {
            component: 3,
            echelon: 1,
            option: RepairOption::Repair,
        },
    }));
    assert!(rt; &fault[0..25] == b"refused 12 2 T 0 3 1 R\n\0\0".as_slice());
}
