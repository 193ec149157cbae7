//! A source read to its end, and a text written whole.
ghost use Rattle.std.specs.Prelude.{◌≡◌, ◌≤◌, ◌<◌, Some, IfOk, OnOk, OnErr, IfSome, IsErrOf, length, take, drop};
ghost use Rattle.std.specs.Io.KnownBytes.{Appends, Consumes, IsAtEnd};
ghost use Rattle.sk_outside.specs.Causes.{Rose, HasCause};
ghost use Rattle.sk_outside.specs.declared.whole.ReadError.TheVariants.{Memory};
ghost use Rattle.sk_outside.specs.Pieces.{AppendsFront, ConsumesAtMost};

use crate::{Failed, Sink, Source};
use std::alloc::{AllocError, Global};

/// The most bytes that `read_whole` takes: one past the longest script.
pub const MOST: usize = 16_777_217;

// The bytes of one read.
const PIECE: usize = 4096;

/// Why a source was not read to its end.
#[derive(Clone, Copy, Debug, PartialEq, Eq)]
pub enum ReadError {
    /// The source failed.
    Failed,
    /// There was no memory for the bytes.
    Memory,
}

impl From<AllocError> for ReadError {
    ghost from_gives = { λ _ e. e ≡ Memory };

    fn from(_: AllocError) -> Self {
        ReadError::Memory
    }
}

/// Reads to the end of the source, or its first `MOST` bytes where it has more.
///
/// `ReadError::Failed` comes only where the source's count of faults rose. After an error the
/// source has lost at most `MOST` bytes, and they are gone.
pub fn read_whole<S: Source>(alloc: Global, source: &mut S) -> Result<Vec<u8>, ReadError>
    ensures bytes { IfOk result (λ bytes. IfSome (S.left source.old) (λ left. bytes.items ≡ take MOST left)) }
    ensures rest { OnOk result (IfSome (S.left source.old) (λ left. S.left source.new ≡ Some (drop MOST left))) }
    ensures ended { IfOk result (λ bytes. length bytes.items < MOST → IsAtEnd (S.left source.new)) }
    ensures taken { IfOk result (λ bytes. Consumes (S.left source.old) (S.left source.new) bytes.items) }
    ensures most { IfOk result (λ bytes. length bytes.items ≤ MOST) }

    // whatever it answers
    ensures within { ConsumesAtMost MOST (S.left source.old) (S.left source.new) }

    ensures failed { IsErrOf result ReadError.Failed → Rose (S.faults source.old) (S.faults source.new) }
    ensures later { S.faults source.old ≤ S.faults source.new }
{
    let mut bytes = Vec::new(alloc);
    let mut piece = [0u8; PIECE];
    'turns: while bytes.len() < MOST {
        let room = PIECE.min(MOST - bytes.len());
        match source.read(&mut piece[..room]) {
            Ok(0) => return Ok(bytes),
            Ok(count) => bytes.extend_from_slice(&piece[..count])?,
            Err(Failed) => return Err(ReadError::Failed),
        }
    }
    Ok(bytes)
}

/// Writes the whole text, or a front part of it where the sink fails.
///
/// No write is made of an empty text.
pub fn write_whole<K: Sink>(sink: &mut K, text: &[u8]) -> Result<(), Failed>
    ensures all { OnOk result (Appends (K.written sink.old) (K.written sink.new) text.now) }
    ensures front { OnErr result (AppendsFront (K.written sink.old) (K.written sink.new) text.now) }
    ensures cause { HasCause (K.faults sink.old) (K.faults sink.new) result }
{
    let mut at = 0;
    'turns: while at < text.len() {
        at += sink.write(&text[at..])?;
    }
    Ok(())
}
