//! The root: which entry holds, and what it says.
ghost use Rattle.std.specs.Prelude.{◌≡◌, ◌+◌, ◌<◌, ◌≤◌, length, take, drop, IfOk, IfSome, IsTrue};
ghost use Rattle.sk_codec.specs.Reading.{ReadsAs, IsPlace, rest_of};
ghost use Rattle.sk_model.specs.Numbers.{greatest_number};
ghost use Rattle.sk_log.specs.Stores.{is_open, sequence_of, holding, byte_in, entry_at, root_of};

use sk_codec::{Fault, ReadFault, Rest, What, u8_at, u32_at, u32_in, u64_at, wrong};
use sk_model::{GREATEST_NUMBER, Point};

fn is_open(root: &[u8], at: usize) -> bool
    requires { at ≤ 24 }
    ensures value { result ≡ is_open root.now at }
    ensures whole { IsTrue result → at + 24 ≤ length root.now }
{
    at + 24 <= root.len() && root[at] == 1
}

fn sequence_of(root: &[u8], at: usize) -> u32
    requires low { at ≤ 24 }
    requires whole { at + 24 ≤ length root.now }
    ensures { result ≡ sequence_of root.now at }
{
    let (_, rest) = root.split_at(at + 4);
    let (front, _) = rest.split_at(4);
    u32::from_be_bytes([front[0], front[1], front[2], front[3]])
}

/// The place of the entry that holds, 0 or 24, or none where no entry is open. Two open entries of one sequence are a fault.
#[tactic(auto, unfolding(crate::specs::Stores::holding))]
pub fn holding(root: &[u8]) -> Result<Option<u64>, Fault>
    ensures value { result ≡ holding root.now }
    ensures there { IfOk result (λ o. IfSome o (λ at. (at ≤ 24) × (at + 24 ≤ length root.now))) }
{
    if is_open(root, 0) {
        if is_open(root, 24) {
            let first = sequence_of(root, 0);
            let second = sequence_of(root, 24);
            if first == second {
                Err(Fault {
                    file: 0,
                    place: 28,
                    what: What::Order,
                })
            } else if first < second {
                Ok(Some(24))
            } else {
                Ok(Some(0))
            }
        } else {
            Ok(Some(0))
        }
    } else if is_open(root, 24) {
        Ok(Some(24))
    } else {
        Ok(None)
    }
}

/// What an open root entry says.
#[derive(Clone, Copy, Debug, PartialEq, Eq)]
pub struct Root {
    /// The set of files, 0 or 1.
    pub set: u8,
    /// Of two open entries the one with the greater sequence holds.
    pub sequence: u32,
    /// The cut of the image.
    pub cut: Point,
    /// The length of the image, in bytes.
    pub size: u64,
}

#[tactic(auto, unfolding(crate::specs::Stores::byte_in))]
fn byte_in(low: u8, high: u8, what: What, rest: Rest<'_>) -> Result<(u8, Rest<'_>), ReadFault>
    requires { IsPlace rest.place rest.bytes.now }
    ensures value { ReadsAs (λ x. (x.0, rest_of x.1)) result (byte_in low high what (rest_of rest.entry)) }
    ensures within { IfOk result (λ x. x.0 ≤ high) }
    ensures place { IfOk result (λ x. IsPlace x.1.place x.1.bytes.now) }
{
    let (n, after) = u8_at(rest)?;
    if n < low || n > high {
        return Err(wrong(what, rest));
    }
    Ok((n, after))
}

fn behind_gate(root: &[u8], at: usize) -> &[u8]
    requires low { at ≤ 24 }
    requires whole { at + 24 ≤ length root.now }
    ensures { result.now ≡ take 23 (drop (at + 1) root.now) }
{
    root.split_at(at + 1).1.split_at(23).0
}

/// What the root entry at this place says, which is open, or its first wrong field.
#[tactic(auto, unfolding(crate::specs::Stores::entry_at))]
pub fn entry_at(root: &[u8], at: usize) -> Result<Root, ReadFault>
    requires low { at ≤ 24 }
    requires whole { at + 24 ≤ length root.now }
    ensures value { ReadsAs root_of result (entry_at root.now at) }
    ensures set { IfOk result (λ x. x.set < 2) }
    ensures cut { IfOk result (λ x. (x.cut.a ≤ greatest_number) × (x.cut.b ≤ greatest_number)) }
{
    let rest = Rest {
        file: 0,
        place: at as u64 + 1,
        bytes: behind_gate(root, at),
    };
    let (_, after) = byte_in(1, 1, What::Format, rest)?;
    let (set, after) = byte_in(0, 1, What::Tag, after)?;
    let (_, after) = byte_in(0, 0, What::Tag, after)?;
    let (sequence, after) = u32_at(after)?;
    let (a, after) = u32_in(0, GREATEST_NUMBER, after)?;
    let (b, after) = u32_in(0, GREATEST_NUMBER, after)?;
    let (size, _) = u64_at(after)?;
    let cut = Point {
        a,
        b,
        commit: false,
    };
    Ok(Root {
        set,
        sequence,
        cut,
        size,
    })
}
