//! Scripts on a store: the runs of each row are played one after another on one disk.

use super::*;
use crate::flushed_rows::FLUSHED;
use crate::generated_rows::GENERATED;
use crate::opened_rows::OPENED;
use crate::tests::{empty_disk, joined, words};
use sk_device::{Device, MemDevice};
use sk_outcome::Outcome;
use sk_outside::{MemSink, MemSource};
use std::alloc::{AllocError, Global};
use std::process::Abort;
use std::test::Fail;

/// Sets a byte of a file that is there.
pub(crate) struct Spoil {
    pub(crate) file: u8,
    pub(crate) at: usize,
    pub(crate) byte: u8,
}

/// One run, on the disk as the run before it left it, with perhaps a byte spoilt.
pub(crate) struct Play {
    pub(crate) spoil: Option<Spoil>,
    pub(crate) words: &'static [&'static str],
    pub(crate) script: &'static [&'static str],
    pub(crate) status: u8,
    pub(crate) text: &'static [&'static str],
}

/// Runs on one disk, which is empty at first. In the first of them the calls fail that are numbered here, from 1:
/// `changes` numbers writes and syncs, `looks` the others.
pub(crate) struct Series {
    pub(crate) changes: &'static [u64],
    pub(crate) looks: &'static [u64],
    pub(crate) plays: &'static [Play],
}

pub(crate) const RUN: &[&str] = &["run", "d"];

// A transaction over both engines, and a look at both tables.

pub(crate) const CROSS: &[&str] = &[
    "TABLE a MEMORY id INT, v INT\n",
    "TABLE c STORAGE id INT, v INT\n",
    "1: BEGIN\n",
    "1: INSERT INTO a VALUES (1, 10)\n",
    "1: INSERT INTO c VALUES (1, 20)\n",
    "1: COMMIT\n",
];

pub(crate) const READS: &[&str] = &["1: SELECT * FROM a\n", "1: SELECT * FROM c\n"];

pub(crate) const CROSS_TEXT: &[&str] = &[
    "1: OK 1.1\n",
    "1: COUNT 1\n",
    "1: COUNT 1\n",
    "1: COMMITTED\n",
    "ACK 1.1\n",
    "FLUSH 1 1\n",
    "ORDER 1.1 1 1\n",
    "TX 1.1 cross 0 0 0 committed 1 1 acked\n",
    "CUT 1 1\n",
];

pub(crate) const READS_TEXT: &[&str] = &[
    "1: ROW 1, 10\n",
    "1: ROWS 1\n",
    "1: ROW 1, 20\n",
    "1: ROWS 1\n",
    "ACK 1.1\n",
    "ACK 1.2\n",
    "FLUSH 1 1\n",
    "TX 1.1 memory 1 - 0 committed - - acked\n",
    "TX 1.2 storage - 1 0 committed - - acked\n",
    "CUT 1 1\n",
];

pub(crate) const NO_ROWS_TEXT: &[&str] = &[
    "1: ROWS 0\n",
    "1: ROWS 0\n",
    "ACK 1.1\n",
    "ACK 1.2\n",
    "FLUSH 0 0\n",
    "TX 1.1 memory 0 - 0 committed - - acked\n",
    "TX 1.2 storage - 0 0 committed - - acked\n",
    "CUT 0 0\n",
];

/// What a script prints on a disk, and what it leaves.
pub(crate) fn played<D: Device + Drop>(
    alloc: Global,
    texts: &[&str],
    script: &[&str],
    disk: D,
) -> Result<(Outcome<D>, MemSink), AllocError> {
    let script = joined(alloc, script)?;
    let words = words(alloc, texts)?;
    let mut source = MemSource::new(script.as_bytes().to_vec(alloc)?, Vec::new(alloc));
    let mut sink = MemSink::new(alloc, 4096, Vec::new(alloc))?;
    let outcome = run_script(alloc, &words, &mut source, &mut sink, disk);
    Ok((outcome, sink))
}

fn spoilt(alloc: Global, disk: MemDevice, spoil: &Spoil) -> Result<MemDevice, AllocError> {
    let mut disk = disk;
    if spoil.file < 8 {
        let mut bytes = disk.bytes(spoil.file).to_vec(alloc)?;
        if spoil.at < bytes.len() {
            bytes[spoil.at] = spoil.byte;
        }
        disk.set(spoil.file, bytes);
    }
    Ok(disk)
}

fn play_series(rt: &impl Abort, alloc: Global, series: &Series) -> Result<(), Fail> {
    let mut disk = MemDevice::new(
        alloc,
        series.changes.to_vec(alloc)?,
        series.looks.to_vec(alloc)?,
    );
    for play in series.plays {
        if let Some(spoil) = &play.spoil {
            disk = spoilt(alloc, disk, spoil)?;
        }
        let (outcome, sink) = played(alloc, play.words, play.script, disk)?;
        assert_eq!(rt; outcome.status, play.status);
        assert_eq!(rt; sink.bytes(), joined(alloc, play.text)?.as_bytes());
        disk = outcome.disk.restarted();
    }
    Ok(())
}

#[test]
fn rows_of_stores(rt: HostRuntime) -> Result<(), Fail> {
    let alloc = rt.alloc();
    for series in &FLUSHED {
        play_series(&rt, alloc, series)?;
    }
    for series in &OPENED {
        play_series(&rt, alloc, series)?;
    }
    for series in &GENERATED {
        play_series(&rt, alloc, series)?;
    }
    Ok(())
}

/// The record of the transaction in the storage log ..
const STORE: [u8; 38] = [
    0, 1, 0, 0, 0, 1, 1, 0, 0, 0, 1, 0, 0, 0, 1, 0, 0, 0, 1, 0, 1, 1, 0, 0, 0, 0, 0, 0, 0, 1, 0, 0,
    0, 0, 0, 0, 0, 20,
];

/// .. and its group in the anchor log.
const ANCHOR: [u8; 60] = [
    1, 0, 0, 0, 54, 0, 0, 0, 1, 0, 0, 0, 1, 0, 0, 0, 38, 0, 0, 0, 1, 0, 1, 0, 0, 0, 1, 1, 0, 0, 0,
    1, 0, 0, 0, 1, 0, 0, 0, 1, 0, 0, 1, 0, 0, 0, 0, 0, 0, 0, 1, 0, 0, 0, 0, 0, 0, 0, 10, 0,
];

#[test]
fn files_of_a_store(rt: HostRuntime) -> Result<(), Fail> {
    let alloc = rt.alloc();
    let (outcome, _) = played(alloc, RUN, CROSS, empty_disk(alloc))?;
    assert_eq!(rt; outcome.disk.bytes(1), STORE.as_slice());
    assert_eq!(rt; outcome.disk.bytes(2), ANCHOR.as_slice());
    Ok(())
}
