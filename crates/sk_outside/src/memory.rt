//! Sources and a sink in memory, whose calls fail as a list says.
ghost use Rattle.std.specs.Prelude.{◌≡◌, ◌↔◌, [], ◌≤◌, Some, IsTrue, IsErr, IfOk, length, take, min, vec_len, vec_capacity};
ghost use Rattle.std.specs.Io.{ReadsAtMost, WritesAtMost};
ghost use Rattle.std.specs.Io.KnownBytes.{ReadConsumes, WriteAppends};
ghost use Rattle.sk_outside.specs.Causes.{HasCause};
ghost use Rattle.sk_outside.specs.Pieces.{TakesSome};
ghost use Rattle.sk_outside.specs.Calls.{made_of, fails_of, next_fails, Counts};

use crate::{CallList, Failed, Sink, Source};
use std::alloc::{AllocError, Global};

/// Bytes that are read from the front, by calls of which a list says which fail.
#[derive(Drop)]
pub struct MemSource {
    bytes: Vec<u8>,
    at: usize,
    calls: CallList,
    faults: u64,
    ghost within: { at ≤ vec_len bytes },
}

impl MemSource {
    ghost use Rattle.sk_outside.specs.Memory.{source_left, source_calls, source_faults};

    /// A source of these bytes. The read with number n, from 1, fails where n is in `fails`.
    pub fn new(bytes: Vec<u8>, fails: Vec<u64>) -> Self
        ensures left { source_left result ≡ bytes.items }
        ensures fails { fails_of (source_calls result) ≡ fails.items }
        ensures made { made_of (source_calls result) ≡ 0 }
        ensures faults { source_faults result ≡ 0 }
    {
        MemSource {
            bytes,
            at: 0,
            calls: CallList::new(fails),
            faults: 0,
        }
    }
}

impl Source for MemSource {
    ghost use Rattle.sk_outside.specs.Memory.{source_left, source_calls, source_faults};

    ghost left = { λ s. Some (source_left s) };

    ghost faults = { λ s. source_faults s };

    /// Fails exactly where the list has this call's number. Else it gives as many bytes as are
    /// left and fit.
    fn read(&mut self, out: &mut [u8]) -> Result<usize, Failed>
        ensures bound { ReadsAtMost result out.new }
        ensures bytes { ReadConsumes (Some (source_left self.old)) (Some (source_left self.new)) result out.new }
        ensures cause { HasCause (source_faults self.old) (source_faults self.new) result }
        ensures exact { IsErr result ↔ IsTrue (next_fails (source_calls self.old)) }
        ensures counts { Counts (source_calls self.old) (source_calls self.new) }
        ensures gives { IfOk result (λ given. given ≡ min (length (source_left self.old)) (length out.old)) }
    {
        if self.calls.next_fails() {
            self.faults = self.faults.saturating_add(1);
            return Err(Failed);
        }
        let count = give(&self.bytes[self.at..], out);
        self.at += count;
        Ok(count)
    }
}

/// Bytes that are read from the front, by calls that never fail.
#[derive(Drop)]
pub struct SureSource {
    bytes: Vec<u8>,
    at: usize,
    ghost within: { at ≤ vec_len bytes },
}

impl SureSource {
    ghost use Rattle.sk_outside.specs.Memory.{sure_left};

    /// A source of these bytes.
    pub fn new(bytes: Vec<u8>) -> Self
        ensures { sure_left result ≡ bytes.items }
    {
        SureSource { bytes, at: 0 }
    }
}

impl Source for SureSource {
    ghost use Rattle.sk_outside.specs.Memory.{sure_left};

    ghost left = { λ s. Some (sure_left s) };

    // It stays, so no read fails.
    ghost faults = { λ _. 0 };

    fn read(&mut self, out: &mut [u8]) -> Result<usize, Failed> {
        let count = give(&self.bytes[self.at..], out);
        self.at += count;
        Ok(count)
    }
}

// Copies as much of the bytes as fits into the front of `out`.
fn give(bytes: &[u8], out: &mut [u8]) -> usize
    ensures within { result ≤ length bytes.now }
    ensures fits { result ≤ length out.new }
    ensures given { take result out.new ≡ take result bytes.now }
    ensures all { result ≡ min (length bytes.now) (length out.old) }
{
    let count = bytes.len().min(out.len());
    out[..count].copy_from_slice(&bytes[..count]);
    count
}

/// Room for bytes, of a size that is fixed when it is made, with a list of the writes that fail.
#[derive(Drop)]
pub struct MemSink {
    bytes: Vec<u8>,
    room: usize,
    calls: CallList,
    faults: u64,
    ghost within: { vec_len bytes ≤ room },
    ghost taken: { room ≤ vec_capacity bytes },
}

impl MemSink {
    ghost use Rattle.sk_outside.specs.Memory.{sink_bytes, sink_calls, sink_faults, room_of};

    /// Takes `room` bytes of memory, and none later. The write with number n, from 1, fails where
    /// n is in `fails`.
    pub fn new(alloc: Global, room: usize, fails: Vec<u64>) -> Result<Self, AllocError>
        ensures bytes { IfOk result (λ k. sink_bytes k ≡ []) }
        ensures room { IfOk result (λ k. room_of k ≡ room) }
        ensures fails { IfOk result (λ k. fails_of (sink_calls k) ≡ fails.items) }
        ensures made { IfOk result (λ k. made_of (sink_calls k) ≡ 0) }
        ensures faults { IfOk result (λ k. sink_faults k ≡ 0) }
    {
        Ok(MemSink {
            bytes: Vec::with_capacity(alloc, room)?,
            room,
            calls: CallList::new(fails),
            faults: 0,
        })
    }

    /// The bytes that were written.
    pub fn bytes(&self) -> &[u8]
        ensures { result.now ≡ sink_bytes self.now }
    {
        &self.bytes
    }
}

impl Sink for MemSink {
    ghost use Rattle.sk_outside.specs.Memory.{sink_bytes, sink_calls, sink_faults, room_of, Refuses};

    ghost written = { λ k. Some (sink_bytes k) };

    ghost faults = { λ k. sink_faults k };

    /// Takes as many bytes as still fit. Fails exactly where the list has this call's number, or
    /// where the piece is not empty and no byte fits.
    fn write(&mut self, piece: &[u8]) -> Result<usize, Failed>
        ensures bound { WritesAtMost result piece.now }
        ensures some { TakesSome result piece.now }
        ensures bytes { WriteAppends (Some (sink_bytes self.old)) (Some (sink_bytes self.new)) result piece.now }
        ensures cause { HasCause (sink_faults self.old) (sink_faults self.new) result }
        ensures exact { IsErr result ↔ Refuses self.old piece.now }
        ensures counts { Counts (sink_calls self.old) (sink_calls self.new) }
        ensures most { IfOk result (λ taken. taken ≡ min (length piece.now) (room_of self.old)) }
    {
        let fails = self.calls.next_fails();
        let count = piece.len().min(self.room - self.bytes.len());
        if fails || (count == 0 && !piece.is_empty()) {
            self.faults = self.faults.saturating_add(1);
            return Err(Failed);
        }
        match self.bytes.extend_from_slice(&piece[..count]) {
            Ok(()) => Ok(count),
            Err(_) => unreachable!(),
        }
    }
}
