//! The bytes of a batch.

ghost use Rattle.std.specs.Prelude.{◌≡◌, ◌≢◌, ◌<◌, ◌≤◌, ◌+◌, ◌^◌, ℕ, IfOk, IfErr, OnOk, Some, None, length};
ghost use Rattle.sk_log.specs.Growth.{group_text};
ghost use Rattle.sk_log.specs.Spelled.{body_bytes};
ghost use Rattle.sk_cut.specs.Batches.{AreBytes, CanBeSpelled, HasRoom, Refuses, stored_text, body_text, full_length};
ghost use Rattle.sk_model.specs.declared.receipt.FlushFault.TheVariants as fault;

use crate::pipeline::Batch;
use crate::writing::full_length;
use sk_log::{Ends, group_text, put_body, put_records};
use sk_model::FlushFault;
use std::alloc::Global;

/// The bytes of a batch: of the storage log, of a group's body, and of the group.
#[derive(Drop)]
pub struct Texts {
    /// Its records of the storage log.
    pub store: Vec<u8>,
    /// The body of its group.
    pub body: Vec<u8>,
    /// What goes behind the gate: the body's length, the body, and the next gate.
    pub group: Vec<u8>,
}

fn stored_text(alloc: Global, batch: &Batch) -> Result<Vec<u8>, FlushFault>
    requires { CanBeSpelled batch.now }
    ensures ok { IfOk result (λ text. text.items ≡ stored_text batch.now) }
    ensures err { IfErr result (λ e. e ≡ fault.NoMemory) }
{
    let mut text = Vec::new(alloc);
    put_records(&mut text, true, batch.store.as_slice())?;
    Ok(text)
}

/// Where the storage log ends behind these bytes.
fn end_behind(logmax: u32, ends: &Ends, store: &[u8]) -> Result<u32, FlushFault>
    ensures ok { IfOk result (λ end. end ≡ ends.now.store_end + length store.now) }
    ensures fits { OnOk result (0 < length store.now → ends.now.store_end + length store.now ≤ logmax) }
    ensures full { IfErr result (λ e. (0 < length store.now) × (logmax < ends.now.store_end + length store.now) × (e ≡ fault.LogFull (ends.now.store_end + length store.now))) }
{
    if store.is_empty() {
        return Ok(ends.store_end);
    }
    let length = ends.store_end as u64 + store.len() as u64;
    if length > logmax as u64 {
        return Err(FlushFault::LogFull { length });
    }
    Ok(length as u32)
}

fn body_text(alloc: Global, end: u32, batch: &Batch) -> Result<Vec<u8>, FlushFault>
    requires { CanBeSpelled batch.now }
    ensures ok { IfOk result (λ text. text.items ≡ body_bytes batch.now.cut end batch.now.mem) }
    ensures err { IfErr result (λ e. e ≡ fault.NoMemory) }
{
    let mut text = Vec::new(alloc);
    put_body(&mut text, &batch.cut, end, batch.mem.as_slice())?;
    Ok(text)
}

fn group_of(alloc: Global, body: &[u8]) -> Result<Vec<u8>, FlushFault>
    requires { length body.now < 2 ^ 32 }
    ensures ok { IfOk result (λ text. text.items ≡ group_text body.now) }
    ensures err { IfErr result (λ e. e ≡ fault.NoMemory) }
{
    Ok(group_text(alloc, body)?)
}

/// The bytes of the batch behind these ends.
pub fn spelled(alloc: Global, logmax: u32, ends: &Ends, batch: &Batch) -> Result<Texts, FlushFault>
    requires { CanBeSpelled batch.now }
    ensures store { IfOk result (λ t. t.store.items ≡ stored_text batch.now) }
    ensures body { IfOk result (λ t. t.body.items ≡ body_text ends.now batch.now) }
    ensures group { IfOk result (λ t. t.group.items ≡ group_text t.body.items) }
    // Full exactly where a log would grow too long.
    ensures fits { OnOk result (full_length logmax ends.now (stored_text batch.now) (body_text ends.now batch.now) ≡ None) }
    ensures full { IfErr result (Refuses (full_length logmax ends.now (stored_text batch.now) (body_text ends.now batch.now))) }
    ensures room { OnOk result (HasRoom ends.now (stored_text batch.now) (body_text ends.now batch.now)) }
    ensures only { IfErr result (λ e. e ≢ fault.Device) }
{
    let store = stored_text(alloc, batch)?;
    let end = end_behind(logmax, ends, &store)?;
    let body = body_text(alloc, end, batch)?;
    if let Some(length) = full_length(logmax, ends, &store, &body) {
        return Err(FlushFault::LogFull { length });
    }
    let group = group_of(alloc, &body)?;
    Ok(Texts { store, body, group })
}

/// Each of them is a byte. It does nothing.
pub fn are_bytes(bytes: &[u8])
    ensures { AreBytes bytes.now }
{
    let _len = bytes.len();
}
