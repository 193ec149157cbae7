//! The writes and syncs that a device keeps.
ghost use Rattle.std.specs.Prelude.{◌<◌, ◌≤◌, length};
ghost use Rattle.sk_device.specs.Disk.{Image, with_bytes, Torn};

/// A write: which file, from which place on, how many bytes were to be written, and those that stand.
#[derive(Drop)]
pub struct Written {
    pub(crate) file: u8,
    pub(crate) at: u64,
    pub(crate) size: usize,
    pub(crate) bytes: Vec<u8>,
    ghost in_range: { file < 8 },
    ghost fits: { length bytes.items ≤ size },
    // Whatever stood there, what stands now is one of the images that a stop may leave.
    ghost torn: { (was : Image) → Torn file at size was (with_bytes file at bytes.items was) },
}

/// A change that was done.
#[derive(Drop)]
pub enum Change {
    Wrote(Written),
    /// A sync of this file.
    Synced(u8),
}
