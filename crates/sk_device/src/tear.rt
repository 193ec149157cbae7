//! What is left of a write that is cut short.
ghost use Rattle.std.specs.Prelude.{◌≡◌, ◌≤◌, IfOk, length, take};
ghost use Rattle.sk_device.specs.Changes.{standing};

use std::alloc::{AllocError, Global};

/// What stands in the range of a write that is cut short.
#[derive(Clone, Copy, Drop)]
pub struct Tear {
    /// How many of its first bytes stand, or more for all of them.
    pub stands: u64,
    /// What is in place of each of the others: this byte, or what was there before.
    pub filler: Option<u8>,
}

/// The bytes that stand in place of these.
pub(crate) fn torn(alloc: Global, tear: &Tear, bytes: &[u8]) -> Result<Vec<u8>, AllocError>
    ensures items { IfOk result (λ left. left.items ≡ standing tear.now bytes.now) }
    ensures no_longer { IfOk result (λ left. length left.items ≤ length bytes.now) }
{
    let front = front_of(bytes, tear.stands);
    let mut left = front.to_vec(alloc)?;
    if let Some(filler) = tear.filler {
        left.resize(bytes.len(), filler)?;
    }
    Ok(left)
}

// The first `count` bytes, or all of them.
fn front_of(bytes: &[u8], count: u64) -> &[u8]
    ensures { result.now ≡ take count bytes.now }
{
    if count < bytes.len() as u64 {
        &bytes[..count as usize]
    } else {
        bytes
    }
}
