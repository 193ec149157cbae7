//! Where bytes go to.
ghost use Rattle.std.specs.Prelude.{List, ℕ};
ghost use Rattle.std.specs.declared.option.Option.{Option};
ghost use Rattle.std.specs.Io.{WritesAtMost};
ghost use Rattle.std.specs.Io.KnownBytes.{WriteAppends};
ghost use Rattle.sk_outside.specs.Causes.{HasCause};
ghost use Rattle.sk_outside.specs.Pieces.{TakesSome};

use crate::Failed;

/// What takes bytes one after another, and counts how often it failed.
pub trait Sink {
    /// The bytes that were written, where that is told.
    ghost written: { Self → Option (List ℕ) };

    /// How often it has failed. It is a `u64`, so it stays at the greatest one.
    ghost faults: { Self → ℕ };

    /// Writes a front part of the piece, and says how many bytes it took.
    ///
    /// It takes at least one byte of a piece that is not empty, or fails. `Err(Failed)` adds
    /// nothing, and comes only where the count of faults rose.
    fn write(&mut self, piece: &[u8]) -> Result<usize, Failed>
        ensures bound { WritesAtMost result piece.now }
        ensures some { TakesSome result piece.now }
        ensures bytes { WriteAppends (written self.old) (written self.new) result piece.now }
        ensures cause { HasCause (faults self.old) (faults self.new) result };
}
