use super::*;
use std::test::*;

#[test]
#[tactic(auto, using(crate::proofs::Places::put_same))]
fn a_snapshot_between_two_versions_reads_the_older_one(rt: HostRuntime) -> Result<(), Fail> {
    let mut log = UndoLog::new(rt.alloc());
    let one = log.push(None, 1, None).ok().ok_or("memory")?;
    let three = log.push(Some(one), 3, None).ok().ok_or("memory")?;
    assert_eq!(rt; log.newest_for(Some(three), 2), Some(one));
    log.trim(3);
    assert_eq!(rt; log.newest_for(Some(three), 2), None);
    let again = log.push(None, 4, None).ok().ok_or("memory")?;
    assert_eq!(rt; again, one);
    Ok(())
}
