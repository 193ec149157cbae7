//! What a stop leaves of writes and syncs that were done.
ghost use Rattle.std.specs.Prelude.{◌≡◌, ℕ, reverse, drop, IfOk, OnOk};
ghost use Rattle.std.specs.List.{list_any};
ghost use Rattle.sk_device.specs.Changes.{syncs, rewritten, cut_short, first_tear, left_by, Remains};
ghost use Rattle.sk_device.specs.Memory.{memory_image, IsSure};

use crate::MemDevice;
use crate::change::{Change, Written};
use crate::tear::{Tear, torn};
use std::alloc::{AllocError, Global};

/// The files after a stop, in a device without failing calls.
///
/// The changes are made again in the files of `base`. A write that is followed by a sync of its file
/// stands whole. Each other one, in order, is cut short by the next tear.
pub(crate) fn remains(
    alloc: Global,
    base: MemDevice,
    log: &[Change],
    tears: &[Tear],
) -> Result<MemDevice, AllocError>
    ensures left { IfOk result (λ device. Remains (memory_image base) (reverse log.now) (memory_image device)) }
    ensures chosen { IfOk result (λ device. memory_image device ≡ left_by log.now tears.now (memory_image base)) }
    ensures sure { IfOk result (λ device. IsSure device) }
{
    let mut device = base;
    let mut open = tears;
    let mut done = 0;
    'changes: while done < log.len() {
        match &log[done] {
            Change::Wrote(write) => {
                if is_synced(&log[done + 1..], write.file) {
                    redo(&mut device, write)?;
                } else {
                    redo_torn(alloc, &mut device, write, &first(open))?;
                    open = rest(open);
                }
            }
            Change::Synced(_) => {}
        }
        done += 1;
    }
    Ok(device.restarted())
}

// Whether one of these changes is a sync of this file.
fn is_synced(changes: &[Change], file: u8) -> bool
    ensures { result ≡ list_any (syncs file) changes.now }
{
    changes.iter().any(|change| matches!(change, Change::Synced(synced) if *synced == file))
}

// The first tear, or one that leaves nothing.
fn first(tears: &[Tear]) -> Tear
    ensures { result ≡ first_tear tears.now }
{
    match tears {
        [tear, ..] => *tear,
        [] => Tear {
            stands: 0,
            filler: None,
        },
    }
}

// What is behind the first tear.
fn rest(tears: &[Tear]) -> &[Tear]
    ensures { result.now ≡ drop 1 tears.now }
{
    match tears.split_first() {
        Some((_, rest)) => rest,
        None => tears,
    }
}

// Makes a write again.
fn redo(device: &mut MemDevice, write: &Written) -> Result<(), AllocError>
    ensures { OnOk result ((file : ℕ) → memory_image device.new file ≡ rewritten write.now (memory_image device.old) file) }
{
    device.put(write.file, write.at, &write.bytes)
}

// Makes a write again, cut short.
fn redo_torn(
    alloc: Global,
    device: &mut MemDevice,
    write: &Written,
    tear: &Tear,
) -> Result<(), AllocError>
    ensures { OnOk result ((file : ℕ) → memory_image device.new file ≡ cut_short write.now tear.now (memory_image device.old) file) }
{
    let bytes = torn(alloc, tear, &write.bytes)?;
    device.put(write.file, write.at, &bytes)
}
