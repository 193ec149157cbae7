//! Each device once, with ample memory.
use super::*;
use std::alloc::Global;
use std::process::Abort;
use std::rt::Files;
use std::test::Fail;

// Writes and reads back, through the bound.
fn round_trip<D: Device>(rt: &impl Abort, device: &mut D) -> Result<(), Fail> {
    write_synced(device, 1, 2, b"bytes")?;
    let mut out = [9u8; 10];
    assert_eq!(rt; device.len(1)?, 7);
    assert_eq!(rt; device.read(1, 0, &mut out)?, 7);
    assert_eq!(rt; out, [0, 0, b'b', b'y', b't', b'e', b's', 9, 9, 9]);
    assert_eq!(rt; device.len(2)?, 0);
    Ok(())
}

fn memory(alloc: Global, changes: &[u64], looks: &[u64]) -> Result<MemDevice, Fail> {
    Ok(MemDevice::new(alloc, changes.to_vec(alloc)?, looks.to_vec(alloc)?))
}

#[test]
fn memory_keeps_what_is_written(rt: HostRuntime) -> Result<(), Fail> {
    let mut device = memory(rt.alloc(), &[], &[])?;
    round_trip(&rt, &mut device)?;
    assert_eq!(rt; device.restarted().bytes(1), b"\0\0bytes".as_slice());
    Ok(())
}

#[test]
fn a_listed_call_fails(rt: HostRuntime) -> Result<(), Fail> {
    let mut device = memory(rt.alloc(), &[2], &[1])?;
    assert!(rt; device.len(0).is_err());
    device.write(0, 0, b"ab")?;
    assert!(rt; device.write(0, 0, b"xy").is_err());
    assert_eq!(rt; device.bytes(0), b"ab".as_slice());
    assert_eq!(rt; device.starved(), 0);
    Ok(())
}

fn tear(stands: u64, filler: Option<u8>) -> Tear {
    Tear { stands, filler }
}

// A device whose file 1 holds `abcd`, with two writes that no sync follows: over these bytes and past them.
fn two_unsynced(alloc: Global, changes: &[u64]) -> Result<TearingDevice, Fail> {
    let mut files = memory(alloc, changes, &[])?;
    files.set(1, b"abcd".to_vec(alloc)?);
    let mut device = TearingDevice::new(alloc, files, tear(1, Some(b'?')))?;
    device.write(1, 0, b"WXYZ")?;
    device.write(2, 0, b"new")?;
    Ok(device)
}

#[test]
fn a_stop_leaves_old_or_new_or_any_bytes(rt: HostRuntime) -> Result<(), Fail> {
    let alloc = rt.alloc();
    let old = two_unsynced(alloc, &[])?.stopped(&[])?;
    assert_eq!(rt; old.bytes(1), b"abcd".as_slice());
    assert_eq!(rt; old.bytes(2), b"".as_slice());
    let short = two_unsynced(alloc, &[])?.stopped(&[tear(2, None), tear(1, None)])?;
    assert_eq!(rt; short.bytes(1), b"WXcd".as_slice());
    assert_eq!(rt; short.bytes(2), b"n".as_slice());
    let filled = two_unsynced(alloc, &[])?.stopped(&[tear(2, Some(b'?')), tear(0, Some(0))])?;
    assert_eq!(rt; filled.bytes(1), b"WX??".as_slice());
    assert_eq!(rt; filled.bytes(2), b"\0\0\0".as_slice());
    let whole = two_unsynced(alloc, &[])?.stopped(&[tear(4, None), tear(9, Some(b'?'))])?;
    assert_eq!(rt; whole.bytes(1), b"WXYZ".as_slice());
    assert_eq!(rt; whole.bytes(2), b"new".as_slice());
    Ok(())
}

#[test]
fn a_sync_settles_its_file_alone(rt: HostRuntime) -> Result<(), Fail> {
    let alloc = rt.alloc();
    let mut device = two_unsynced(alloc, &[])?;
    device.sync(1)?;
    assert_eq!(rt; device.bytes(2), b"new".as_slice());
    let settled = device.stopped(&[tear(1, None)])?;
    assert_eq!(rt; settled.bytes(1), b"WXYZ".as_slice());
    assert_eq!(rt; settled.bytes(2), b"n".as_slice());
    let mut failing = two_unsynced(alloc, &[3])?;
    assert!(rt; failing.sync(1).is_err());
    assert_eq!(rt; failing.starved(), 0);
    assert_eq!(rt;
        failing.stopped(&[tear(1, None)])?.bytes(1),
        b"Wbcd".as_slice()
    );
    Ok(())
}

#[test]
fn a_failing_write_tears(rt: HostRuntime) -> Result<(), Fail> {
    let alloc = rt.alloc();
    let mut device = two_unsynced(alloc, &[3])?;
    assert!(rt; device.write(1, 2, b"123").is_err());
    assert_eq!(rt; device.starved(), 0);
    assert_eq!(rt; device.bytes(1), b"WX1??".as_slice());
    let tears = [tear(0, None), tear(0, None), tear(2, None)];
    assert_eq!(rt; device.stopped(&tears)?.bytes(1), b"ab1?".as_slice());
    Ok(())
}

#[test]
fn a_tearing_device_reads_what_is_written(rt: HostRuntime) -> Result<(), Fail> {
    let alloc = rt.alloc();
    round_trip(
        &rt,
        &mut TearingDevice::new(alloc, memory(alloc, &[], &[])?, tear(0, None))?,
    )
}

#[test]
fn files_keep_what_is_written(rt: HostRuntime) -> Result<(), Fail> {
    let dir = std::env::temp_dir(&rt)?;
    let name = format!(in rt.alloc(); "{}/q1", dir.as_str())?;
    let _ = rt.remove_file(name.as_str());
    let mut device = FileDevice::new(rt.clone()?, dir.as_str(), b'q')?;
    assert_eq!(rt; device.len(1)?, 0);
    round_trip(&rt, &mut device)?;
    let mut reopened = FileDevice::new(rt.clone()?, dir.as_str(), b'q')?;
    let mut out = [9u8; 3];
    assert_eq!(rt; reopened.read(1, 4, &mut out)?, 3);
    assert_eq!(rt; out, *b"tes");
    rt.remove_file(name.as_str())?;
    Ok(())
}

#[test]
fn a_directory_is_not_made(rt: HostRuntime) -> Result<(), Fail> {
    let mut device = FileDevice::new(rt, "no/such/place", b'q')?;
    assert_eq!(rt; device.len(0)?, 0);
    assert!(rt; device.write(0, 0, b"x").is_err());
    assert_eq!(rt; device.len(0)?, 0);
    Ok(())
}
