// A study that is written and read back, what stands beyond the file, and a place that is too short.
use crate::intake::intake;
use crate::write::write;
use model::component::Needs;
use model::study::Study;
use std::test::Fail;

// Five levels, each component under the one before, of rate 66,051 (bytes 0, 1, 2, 3).
#[test]
fn reads_back(rt: HostRuntime) -> Result<(), Fail> {
    let mut study = Study::blank(rt.alloc())?;
    study.open(4, 4)?;
    for parent in [255, 0, 1, 2, 3] {
        let needs = Needs {
            discard: 1,
            repair: 9,
            moving: 6,
        };
        study.enter(parent, needs, 66_051)?;
    }
    let mut place = [7; 144];
    assert_eq!(rt; write(&study, &mut place)?, 144);
    let mut back = Study::blank(rt.alloc())?;
    intake(&mut back, rt.alloc(), &place)?;
    assert!(rt; back.components().len() == 5);
    assert!(rt; back.components() == study.components());
    Ok(())
}

// A blank study is one N, of 24 bytes.
#[test]
fn keeps_the_rest(rt: HostRuntime) -> Result<(), Fail> {
    let study = Study::blank(rt.alloc())?;
    let mut short = [7; 23];
    let answer = write(&study, &mut short).map_err(|why| why.number());
    assert_eq!(rt; answer, Err(36));
    assert_eq!(rt; short[0], 7);
    let mut long = [7; 25];
    assert_eq!(rt; write(&study, &mut long)?, 24);
    assert_eq!(rt; long[0], b'N');
    assert_eq!(rt; long[24], 7);
    Ok(())
}
