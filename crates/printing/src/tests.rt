// What is printed for a small file: the least plan, and a trial of it.
use crate::printed::{Printed, text_of};
use crate::solution::solve_file;
use crate::trial::try_file;
use std::process::Abort;
use std::test::Fail;
use trials::change::Change;

// One echelon and one resource; a top component of rate 1 whose repair needs the resource; discard for 9 cents, repair for 5,
// and the resource for 2 a year, which a thousand years make 2,000.
const FILE: [u8; 120] = *b"N\x01\x01\0\0\0\0\0\0\0\0\0\0\0\0\0\0\0\0\0\0\0\0\0\
C\0\xff\0\x01\0\0\0\0\0\0\x01\0\0\0\0\0\0\0\0\0\0\0\0\
T\0\x01D\0\0\0\0\0\0\0\0\0\0\0\x09\0\0\0\0\0\0\0\0\
T\0\x01R\0\0\0\0\0\0\0\0\0\0\0\x05\0\0\0\0\0\0\0\0\
F\0\x01\0\0\0\0\0\0\0\0\0\0\0\0\x02\0\0\0\0\0\0\0\0";

// What is printed has these bytes: Ok for reports, Err where there is a refusal among them.
fn shows(rt: &impl Abort, printed: &Printed, wanted: Result<&[u8], &[u8]>) {
    assert!(rt; printed.is_ok() == wanted.is_ok());
    let (Ok(text) | Err(text)) = wanted;
    assert!(rt; text_of(printed) == text);
}

// The change of a record, counted from 0, to those cents.
fn change(record: usize, cents: i64) -> Change {
    Change { record, cents }
}

#[test]
fn prints(rt: HostRuntime) -> Result<(), Fail> {
    shows(&rt, &solve_file(rt.alloc(), &FILE)?, Ok(b"0 D1\ntotal 9\n"));
    shows(
        &rt,
        &solve_file(rt.alloc(), &FILE[0..48])?,
        Err(b"refused 13\n"),
    );
    Ok(())
}

// A dearer discard makes the repair the least plan; a record that is no charge is refused, and then the file is solved all the
// same; and a file that is refused makes no study to try anything for.
#[test]
fn prints_trials(rt: HostRuntime) -> Result<(), Fail> {
    let mut file = FILE;
    let dearer = try_file(rt.alloc(), &mut file, change(2, 3_000))?;
    shows(&rt, &dearer, Ok(b"0 R1\ntotal 2005\n0 D1\ntotal 9\n"));
    let refused = try_file(rt.alloc(), &mut file, change(1, 0))?;
    shows(&rt, &refused, Err(b"refused 37\n0 D1\ntotal 9\n"));
    let beyond = try_file(rt.alloc(), &mut file, change(4, -1))?;
    shows(
        &rt,
        &beyond,
        Err(b"refused 12 1 T 0 0 1 F\n0 D1\ntotal 9\n"),
    );
    let short = try_file(rt.alloc(), &mut file[0..23], change(0, 0))?;
    shows(&rt, &short, Err(b"refused 31\n"));
    assert!(rt; file == FILE);
    Ok(())
}
