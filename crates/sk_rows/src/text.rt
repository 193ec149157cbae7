//! Texts.

ghost use Rattle.std.specs.Prelude.{◌≡◌, ◌↔◌, List, ℕ, IfOk, IfErr, IsTrue, is_ok};
ghost use Rattle.std.specs.Str.{bytes_eq};
ghost use Rattle.sk_rows.specs.Text.{ArePrintable, are_printable};

use crate::copies::Copies;
use crate::memory::NoMemory;
use std::alloc::Global;
use std::marker::Model;

/// A text of the bytes 32 to 126.
///
/// Contracts see the list of its bytes.
#[derive(Debug, Drop)]
pub struct Txt {
    bytes: Vec<u8>,
}

impl Model for Txt {
    ghost Value = { List ℕ };

    ghost view = { λ t. t.bytes.items };

    ghost invariant = { λ t. ArePrintable t.bytes.items };
}

#[tactic(auto, unfolding(crate::specs::Text::are_printable))]
fn are_all_printable(bytes: &[u8]) -> bool
    ensures value { result ≡ are_printable bytes.now }
    ensures all { IsTrue result ↔ ArePrintable bytes.now }
{
    bytes.iter().all(|b| 32 <= *b && *b <= 126)
}

impl Txt {
    /// The text of these bytes, which are handed back where one is out of range.
    pub fn from_vec(bytes: Vec<u8>) -> Result<Txt, Vec<u8>>
        ensures ok { IfOk result (λ t. (t ≡ bytes.items) × ArePrintable bytes.items) }
        ensures err { IfErr result (λ back. (back ≡ bytes) × (¬ ArePrintable bytes.items)) }
        ensures value { are_printable bytes.items ≡ is_ok result }
    {
        if are_all_printable(bytes.as_slice()) {
            Ok(Txt { bytes })
        } else {
            Err(bytes)
        }
    }

    /// A copy of these bytes as a text.
    pub fn from_slice(alloc: Global, bytes: &[u8]) -> Result<Txt, NoMemory>
        requires { ArePrintable bytes.now }
        ensures { IfOk result (λ t. t ≡ bytes.now) }
    {
        Ok(Txt {
            bytes: Vec::from_slice(alloc, bytes)?,
        })
    }

    /// The bytes as a vector.
    pub fn into_vec(self) -> Vec<u8>
        ensures { result.items ≡ self }
    {
        let Txt { bytes } = self;
        bytes
    }

    /// The bytes as a slice.
    pub fn as_slice(&self) -> &[u8]
        ensures value { result.now ≡ self.now }
        ensures printable { ArePrintable self.now }
    {
        self.bytes.as_slice()
    }

    /// Whether two texts have the same bytes.
    pub fn is_same(&self, other: &Txt) -> bool
        ensures same { IsTrue result ↔ (self.now ≡ other.now) }
        ensures value { result ≡ bytes_eq self.now other.now }
    {
        self.bytes.as_slice() == other.bytes.as_slice()
    }
}

impl Copies for Txt {
    fn copy(&self, alloc: Global) -> Result<Txt, NoMemory> {
        let bytes = Vec::from_slice(alloc, self.bytes.as_slice())?;
        Ok(Txt { bytes })
    }
}
