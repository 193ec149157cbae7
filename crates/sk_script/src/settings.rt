//! What a script sets.

ghost use Rattle.std.specs.Prelude.{◌≡◌, []};
ghost use Rattle.sk_script.specs.Options as spec;

use crate::script::{OptionLine, Script};

/// The number of each option, be it set by a line or not.
#[derive(Clone, Copy, Debug, PartialEq, Eq)]
pub struct Settings {
    /// How many partitions of points are kept.
    pub partitions: u32,
    /// How many points a partition has.
    pub points: u32,
    /// How many frames the pages of the storage engine have.
    pub frames: u32,
    /// How long a log may be, in bytes.
    pub logmax: u32,
    /// The number from which the memory engine counts.
    pub startm: u32,
    /// The number from which the storage engine counts.
    pub starts: u32,
}

/// The number that the first line of this name sets, or else the other.
fn number_or(other: u32, lines: &[OptionLine], name: &[u8]) -> u32
    ensures { result ≡ spec.number_or other lines.now name.now }
{
    let mut rest = lines;
    while let [line, more @ ..] = rest {
        if line.name.as_slice() == name {
            return line.number;
        }
        rest = more;
    }
    other
}

impl Script {
    /// The number of each option.
    #[tactic(auto, using(crate::proofs::Choices::in_range), unfolding(crate::specs::Options::settings_of))]
    pub fn settings(&self) -> Settings
        ensures numbers { result ≡ spec.settings_of self.now.options }

        // Of a script that was read, each number is in its option's range.
        ensures range { spec.CanSet [] self.now.options → spec.AreInRange result }
    {
        let lines = self.options.as_slice();
        Settings {
            partitions: number_or(8, lines, b"partitions"),
            points: number_or(256, lines, b"points"),
            frames: number_or(32, lines, b"frames"),
            logmax: number_or(2_147_483_647, lines, b"logmax"),
            startm: number_or(0, lines, b"startm"),
            starts: number_or(0, lines, b"starts"),
        }
    }
}
