//! A source and a sink over the readers and writers of std.
ghost use Rattle.std.specs.Prelude.{◌≡◌};
ghost use Rattle.sk_outside.specs.Streams.{reader_of, writer_of, source_count, sink_count};

use crate::{Failed, Sink, Source};
use std::io::{Read, Write};

/// Any reader of std. It tells what the reader tells: of standard input, nothing.
///
/// Each error of the reader is a fault, one of kind `Interrupted` too.
#[derive(Drop)]
pub struct StdSource<R> {
    reader: R,
    faults: u64,
}

impl<R> StdSource<R> {
    /// A source over this reader, which has not failed yet.
    pub fn new(reader: R) -> Self
        ensures reader { reader_of result ≡ reader }
        ensures faults { source_count result ≡ 0 }
    {
        StdSource { reader, faults: 0 }
    }
}

impl<R: Read> Source for StdSource<R> {
    ghost left = { λ s. R.remaining (reader_of s) };

    ghost faults = { λ s. source_count s };

    fn read(&mut self, out: &mut [u8]) -> Result<usize, Failed> {
        match self.reader.read(out) {
            Ok(count) => Ok(count),
            Err(_) => {
                self.faults = self.faults.saturating_add(1);
                Err(Failed)
            }
        }
    }
}

/// Any writer of std. It tells what the writer tells, and does not flush it.
///
/// Each error of the writer is a fault, one of kind `Interrupted` too, and so is a write that takes
/// no byte of a piece that is not empty.
#[derive(Drop)]
pub struct StdSink<W> {
    writer: W,
    faults: u64,
}

impl<W> StdSink<W> {
    /// A sink over this writer, which has not failed yet.
    pub fn new(writer: W) -> Self
        ensures writer { writer_of result ≡ writer }
        ensures faults { sink_count result ≡ 0 }
    {
        StdSink { writer, faults: 0 }
    }
}

impl<W: Write> Sink for StdSink<W> {
    ghost written = { λ k. W.contents (writer_of k) };

    ghost faults = { λ k. sink_count k };

    fn write(&mut self, piece: &[u8]) -> Result<usize, Failed> {
        match self.writer.write(piece) {
            Ok(count) if count > 0 || piece.is_empty() => Ok(count),
            _ => {
                self.faults = self.faults.saturating_add(1);
                Err(Failed)
            }
        }
    }
}
