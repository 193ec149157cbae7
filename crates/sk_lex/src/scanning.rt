//! A line as tokens.

ghost use Rattle.std.specs.Prelude.{◌≡◌, ◌≤◌, ◌<◌, ◌^◌, length, All, IfOk};
ghost use Rattle.sk_rows.specs.Memory.{Gives};
ghost use Rattle.sk_lex.specs.Scanning as spec;
ghost use Rattle.sk_lex.specs.Spans.{AreCut, IsBlank, IsPlaced, end_of, reach, slice};

use crate::front::{Misfit, front};
use crate::token::{LexFault, Token, TokenList};
use sk_rows::NoMemory;
use std::alloc::Global;

/// Why the tokens of a line end before it does. Places are counted from 1.
#[derive(Clone, Copy, Debug, PartialEq, Eq)]
pub enum ScanFault {
    /// A byte that fits no token.
    BadByte {
        /// Where the token begins that holds it, counted from 0.
        from: u32,
        /// Where the byte stands.
        place: u32,
    },
    /// A text that is not ended.
    OpenText {
        /// Where its quote stands.
        place: u32,
    },
}

/// The tokens up to the first fault, and that fault.
#[derive(Drop)]
pub struct Scanned {
    /// The tokens before the fault, or all.
    pub tokens: TokenList,
    /// The fault, if there is one.
    pub fault: Option<ScanFault>,
}

/// The tokens of a line that begin before a place, up to its first fault, and that fault if it begins there too.
///
/// `most` is that place, counted from 0. A token that begins before it is read whole, and nothing behind that.
#[tactic(auto, unfolding(crate::specs::Scanning::scan))]
pub fn scan(alloc: Global, line: &[u8], most: u32) -> Result<Scanned, NoMemory>
    requires { length line.now < 2 ^ 31 }
    ensures value { IfOk result (λ s. (s.tokens, s.fault) ≡ spec.begun most (spec.scan line.now)) }
    ensures spans { IfOk result (λ s. AreCut line.now 0 s.tokens) }
    ensures whole { IfOk result (λ s. length line.now ≤ most → IsBlank (slice line.now (end_of 0 s.tokens) (reach (length line.now) s.fault))) }
    ensures before { IfOk result (λ s. All (λ t. t.from < reach (length line.now) s.fault) s.tokens) }
    ensures begun { IfOk result (λ s. All (λ t. t.from < most) s.tokens) }
    ensures placed { IfOk result (λ s. IsPlaced s.fault) }
{
    let mut found = TokenList::new(alloc);
    let mut at: u32 = 0;
    let mut z = line;
    while let [b, ..] = z {
        if at >= most {
            return Ok(Scanned {
                tokens: found,
                fault: None,
            });
        }
        if *b == b' ' {
            at += 1;
            z = &z[1..];
        } else {
            match front(alloc, z) {
                Ok((word, len)) => {
                    let to = at + len as u32;
                    found.push(Token { word, from: at, to })?;
                    at = to;
                    z = &z[len..];
                }
                Err(Misfit::Bad(n)) => {
                    let fault = ScanFault::BadByte {
                        from: at,
                        place: at + n as u32 + 1,
                    };
                    return Ok(Scanned {
                        tokens: found,
                        fault: Some(fault),
                    });
                }
                Err(Misfit::Open) => {
                    let fault = ScanFault::OpenText { place: at + 1 };
                    return Ok(Scanned {
                        tokens: found,
                        fault: Some(fault),
                    });
                }
                Err(Misfit::NoMemory) => return Err(NoMemory),
            }
        }
    }
    Ok(Scanned {
        tokens: found,
        fault: None,
    })
}

/// All tokens of a line up to its first fault, and that fault.
#[tactic(auto, using(crate::proofs::Begun::scan_of_line))]
fn scan_whole(alloc: Global, line: &[u8]) -> Result<Scanned, NoMemory>
    requires { length line.now < 2 ^ 31 }
    ensures value { IfOk result (λ s. (s.tokens, s.fault) ≡ spec.scan line.now) }
    ensures spans { IfOk result (λ s. AreCut line.now 0 s.tokens) }
    ensures whole { IfOk result (λ s. IsBlank (slice line.now (end_of 0 s.tokens) (reach (length line.now) s.fault))) }
    ensures before { IfOk result (λ s. All (λ t. t.from < reach (length line.now) s.fault) s.tokens) }
{
    scan(alloc, line, line.len() as u32)
}

/// The tokens of a line, or its first fault.
#[tactic(auto, unfolding(crate::specs::Scanning::tokens))]
pub fn tokens(alloc: Global, line: &[u8]) -> Result<TokenList, LexFault>
    requires { length line.now < 2 ^ 31 }
    ensures value { Gives spec.wants_memory result (spec.tokens line.now) }
    ensures spans { IfOk result (λ ts. AreCut line.now 0 ts) }
    ensures whole { IfOk result (λ ts. IsBlank (slice line.now (end_of 0 ts) (length line.now))) }
    ensures before { IfOk result (λ ts. All (λ t. t.from < length line.now) ts) }
{
    let Scanned { tokens, fault } = scan_whole(alloc, line)?;
    match fault {
        None => Ok(tokens),
        Some(ScanFault::BadByte { place, .. }) => Err(LexFault::BadByte { place }),
        Some(ScanFault::OpenText { place }) => Err(LexFault::OpenText { place }),
    }
}
