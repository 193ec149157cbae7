//! Where bytes come from.
ghost use Rattle.std.specs.Prelude.{List, ℕ};
ghost use Rattle.std.specs.declared.option.Option.{Option};
ghost use Rattle.std.specs.Io.{ReadsAtMost};
ghost use Rattle.std.specs.Io.KnownBytes.{ReadConsumes};
ghost use Rattle.sk_outside.specs.Causes.{HasCause};

use crate::Failed;

/// What gives bytes one after another, and counts how often it failed.
pub trait Source {
    /// The bytes that are left to read, where that is told.
    ghost left: { Self → Option (List ℕ) };

    /// How often it has failed. It is a `u64`, so it stays at the greatest one.
    ghost faults: { Self → ℕ };

    /// Reads into the front of `out`, and says how many bytes it gave.
    ///
    /// `Ok(0)` for a buffer that is not empty is the end. `Err(Failed)` takes no byte, and comes
    /// only where the count of faults rose.
    fn read(&mut self, out: &mut [u8]) -> Result<usize, Failed>
        ensures bound { ReadsAtMost result out.new }
        ensures bytes { ReadConsumes (left self.old) (left self.new) result out.new }
        ensures cause { HasCause (faults self.old) (faults self.new) result };
}
