//! A device as the crates above see it.
ghost use Rattle.std.specs.Prelude.{ℕ, ◌<◌, length};
ghost use Rattle.std.specs.Io.{ReadsAtMost};
ghost use Rattle.sk_outside.specs.Causes.{HasCause};
ghost use Rattle.sk_device.specs.Disk.{Disk, Torn, Looks, Steps};
ghost use Rattle.sk_device.specs.Calls.{Measures, Gives, Writes, Settles};

use sk_outside::Failed;

/// A disk of the files 0 to 7, which counts how often it failed. Places and lengths are in bytes.
///
/// Each call answers `Err(Failed)` only where the count of faults rose. A failing `write` leaves any
/// bytes in its range and past the old end. Every other failing call changes no byte.
pub trait Device {
    /// What it tells of its disk: what reads give, and what a stop at any moment may leave.
    ghost disk: { Disk Self };

    /// How often it has failed. It is a `u64`, so it stays at the greatest one.
    ghost faults: { Self → ℕ };

    /// How long the file is. A missing file is empty.
    fn len(&mut self, file: u8) -> Result<u64, Failed>
        requires { file < 8 }
        ensures len { Measures disk self.old file result }
        ensures looks { Looks disk self.old self.new }
        ensures cause { HasCause (faults self.old) (faults self.new) result };

    /// Reads into the front of `out` from the place `at` on, and says how many bytes were there:
    /// fewer than fit only at the end of the file.
    fn read(&mut self, file: u8, at: u64, out: &mut [u8]) -> Result<usize, Failed>
        requires { file < 8 }
        ensures bound { ReadsAtMost result out.new }
        ensures bytes { Gives disk self.old file at out.new result }
        ensures looks { Looks disk self.old self.new }
        ensures cause { HasCause (faults self.old) (faults self.new) result };

    /// Writes the bytes at the place `at`, and zeros into a gap between the old end and that place.
    ///
    /// Until a sync of the file, a stop may leave any bytes in the range and past the old end.
    fn write(&mut self, file: u8, at: u64, bytes: &[u8]) -> Result<(), Failed>
        requires { file < 8 }
        ensures written { Writes disk file at bytes.now self.old self.new result }
        ensures torn { Torn file at (length bytes.now) ((disk).seen self.old) ((disk).seen self.new) }
        ensures steps { Steps disk (Torn file at (length bytes.now)) self.old self.new }
        ensures cause { HasCause (faults self.old) (faults self.new) result };

    /// Settles the file: after it, a stop leaves of the file what a read gives.
    fn sync(&mut self, file: u8) -> Result<(), Failed>
        requires { file < 8 }
        ensures settled { Settles disk file self.new result }
        ensures looks { Looks disk self.old self.new }
        ensures cause { HasCause (faults self.old) (faults self.new) result };
}

/// A write and a sync of the same file. Where the write fails, there is no sync.
pub fn write_synced<D: Device>(
    device: &mut D,
    file: u8,
    at: u64,
    bytes: &[u8],
) -> Result<(), Failed>
    requires { file < 8 }
    ensures written { Writes D.disk file at bytes.now device.old device.new result }
    ensures settled { Settles D.disk file device.new result }
    ensures torn { Torn file at (length bytes.now) ((D.disk).seen device.old) ((D.disk).seen device.new) }
    ensures steps { Steps D.disk (Torn file at (length bytes.now)) device.old device.new }
    ensures cause { HasCause (D.faults device.old) (D.faults device.new) result }
{
    device.write(file, at, bytes)?;
    device.sync(file)
}
