//! How far a line can be read.

ghost use Rattle.std.specs.Prelude.{◌≡◌, ◌≤◌, length, drop, false, IfOk};
ghost use Rattle.sk_script.specs.Legible as spec;
ghost use Rattle.sk_script.specs.Limits.{longest_line, longest_script};
ghost use Rattle.sk_script.specs.Lines.{IsLine};

use crate::limits::LONGEST_LINE;
use sk_lex::{ScanFault, Scanned, Token, TokenList, Word, scan};
use sk_rows::{LONGEST_TEXT, NoMemory, Txt};
use std::alloc::Global;

/// The front of a line, up to the first byte that may not stand there.
#[derive(Drop)]
pub struct Legible {
    /// The tokens that begin in it.
    pub tokens: TokenList,
    /// How many bytes it has.
    pub end: u32,
    /// Whether there is such a byte.
    pub spoilt: bool,
}

fn behind(line: &[u8], count: usize) -> &[u8]
    ensures value { result.now ≡ drop count line.now }
    ensures shorter { length result.now ≤ length line.now }
{
    if count <= line.len() {
        &line[count..]
    } else {
        &line[line.len()..]
    }
}

/// How many bytes a text holds, which goes on with these behind its opening quote.
fn held(mut bytes: &[u8]) -> usize
    requires { length bytes.now ≤ longest_script }
    ensures { result ≡ spec.held_from false 0 bytes.entry.now }
{
    let mut n = 0;
    let mut is_second = false;
    while let [b, rest @ ..] = bytes {
        if *b == b'\'' {
            if is_second {
                n += 1;
            }
            is_second = !is_second;
        } else if is_second {
            return n;
        } else {
            n += 1;
        }
        bytes = rest;
    }
    n
}

/// Whether the text whose quote stands there is too long.
#[tactic(auto, unfolding(crate::specs::Legible::is_long))]
fn is_long(line: &[u8], from: u32) -> bool
    requires { length line.now ≤ longest_script }
    ensures { result ≡ spec.is_long from line.now }
{
    held(behind(line, from as usize + 1)) > LONGEST_TEXT
}

/// How many bytes stand before the first that fits no token.
fn reach(line: &[u8], fault: Option<ScanFault>) -> usize
    requires { length line.now ≤ longest_script }
    ensures { result ≡ spec.reach line.now fault }
{
    match fault {
        None => line.len(),
        Some(ScanFault::OpenText { place }) => place.saturating_sub(1) as usize,
        Some(ScanFault::BadByte { from, place }) => {
            if is_long(line, from) {
                from as usize
            } else {
                place.saturating_sub(1) as usize
            }
        }
    }
}

fn capped(n: usize) -> u32
    ensures value { result ≡ spec.capped n }
    ensures short { result ≤ longest_line }
{
    if n < LONGEST_LINE {
        n as u32
    } else {
        LONGEST_LINE as u32
    }
}

/// Where a text begins that holds a byte which no text may hold.
fn open_from(fault: Option<ScanFault>, end: u32) -> Option<u32>
    ensures { result ≡ spec.open_from fault end }
{
    match fault {
        Some(ScanFault::BadByte { from, .. }) => { if from < end { Some(from) } else { None } }
        _ => None,
    }
}

/// The tokens with a text behind them that begins there, and that is read as an empty one.
fn with_text(
    alloc: Global,
    mut tokens: TokenList,
    from: Option<u32>,
    end: u32,
) -> Result<TokenList, NoMemory>
    ensures { IfOk result (λ r. r ≡ spec.with_text tokens end from) }
{
    if let Some(from) = from {
        let word = Word::Text(Txt::from_slice(alloc, b"")?);
        tokens.push(Token {
            word,
            from,
            to: end,
        })?;
    }
    Ok(tokens)
}

/// The front of a line that can be read. `long` says that a byte stands behind the line which may not be there.
#[tactic(auto, unfolding(crate::specs::Legible::legible))]
pub fn legible_front(alloc: Global, line: &[u8], long: bool) -> Result<Legible, NoMemory>
    requires { length line.now ≤ longest_script }
    ensures value { IfOk result (λ r. r ≡ spec.legible long line.now) }
    ensures ordered { IfOk result (λ r. IsLine r.tokens r.end) }
{
    let Scanned { tokens, fault } = scan(alloc, line, LONGEST_LINE as u32)?;
    let end = capped(reach(line, fault));
    Ok(Legible {
        tokens: with_text(alloc, tokens, open_from(fault, end), end)?,
        end,
        spoilt: long || line.len() > LONGEST_LINE || fault.is_some(),
    })
}
