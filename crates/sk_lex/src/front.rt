//! The token at the front of some bytes.

ghost use Rattle.std.specs.Prelude.{◌≡◌, ◌≤◌, ◌<◌, ◌+◌, ◌^◌, ◌≢◌, length, map, take, true, false, [], IfOk, IfSome, option_map};
ghost use Rattle.std.specs.Str.{str_eq_ignore_ascii_case};
ghost use Rattle.sk_rows.specs.Text.{ArePrintable};
ghost use Rattle.sk_lex.specs.Front as spec;
ghost use Rattle.sk_rows.specs.Memory.{Gives};
ghost use Rattle.sk_lex.specs.Front.{wants_memory};

use crate::token::{Keyword, WORDS, Word};
use sk_rows::{NoMemory, Txt};
use std::alloc::{AllocError, AllocFailed, Global};

/// A kind of bytes.
#[derive(Clone, Copy, Debug)]
enum Class {
    /// Letters of either case, digits and `_`.
    Letters,
    Digits,
    /// What a text may hold.
    Printable,
    Quote,
}

/// Why no token stands at the front.
#[derive(Clone, Copy, Debug)]
pub enum Misfit {
    /// The byte that is so far from the front fits no token.
    Bad(usize),
    /// A text is not ended.
    Open,
    /// Memory was wanted and refused.
    NoMemory,
}

impl From<NoMemory> for Misfit {
    ghost use Rattle.std.specs.Prelude.{◌≡◌};
    ghost use Rattle.sk_lex.specs.declared.front.Misfit.TheVariants as misfit;

    ghost from_gives = { λ _ e. e ≡ misfit.NoMemory };

    fn from(_e: NoMemory) -> Misfit {
        Misfit::NoMemory
    }
}

fn is_letter(b: u8) -> bool
    ensures { result ≡ spec.is_letter b }
{
    (65 <= b && b <= 90) || (97 <= b && b <= 122) || b == b'_'
}

fn is_digit(b: u8) -> bool
    ensures { result ≡ spec.is_digit b }
{
    48 <= b && b <= 57
}

fn is_in(class: Class, b: u8) -> bool
    ensures { result ≡ spec.is_in class b }
{
    match class {
        Class::Letters => is_letter(b) || is_digit(b),
        Class::Digits => is_digit(b),
        Class::Printable => 32 <= b && b <= 126,
        Class::Quote => b == b'\'',
    }
}

#[tactic(auto, unfolding(crate::specs::Front::run, crate::specs::Front::begins))]
fn run(class: Class, z: &[u8]) -> usize
    ensures value { result ≡ spec.run class z.now }
    ensures within { result ≤ length z.now }
    ensures moves { spec.begins class z.now ≡ true → 1 ≤ result }
{
    let mut n = 0;
    while n < z.len() && is_in(class, z[n]) {
        n += 1;
    }
    n
}

fn same_word(a: &[u8], b: &[u8]) -> bool
    ensures { result ≡ str_eq_ignore_ascii_case a.now b.now }
{
    a.eq_ignore_ascii_case(b)
}

fn lookup(mut table: &[(&[u8], Keyword)], word: &[u8]) -> Option<Keyword>
    ensures { result ≡ spec.lookup (map (λ k. (k.0.now, k.1)) table.entry.now) word.now }
{
    while let [entry, rest @ ..] = table {
        if same_word(entry.0, word) {
            return Some(entry.1);
        }
        table = rest;
    }
    None
}

#[tactic(auto, using(crate::proofs::Keywords::looked_up))]
fn keyword(word: &[u8]) -> Option<Keyword>
    ensures { result ≡ spec.keyword word.now }
{
    lookup(&WORDS, word)
}

fn name(alloc: Global, bytes: &[u8]) -> Result<Txt, NoMemory>
    requires { ArePrintable bytes.now }
    ensures { IfOk result (λ t. t ≡ bytes.now) }
{
    Txt::from_slice(alloc, bytes)
}

#[tactic(auto, using(crate::proofs::Words::word_printable), unfolding(crate::specs::Front::word_at))]
fn word_at(alloc: Global, z: &[u8]) -> Result<(Word, usize), Misfit>
    requires { spec.begins Class.Letters z.now ≡ true }
    ensures value { Gives wants_memory result (spec.word_at z.now) }
    ensures within { spec.IsWithin (length z.now) result }
{
    let n = run(Class::Letters, z);
    let bytes = &z[..n];
    match keyword(bytes) {
        Some(k) => Ok((Word::Key(k), n)),
        None => Ok((Word::Name(name(alloc, bytes)?), n)),
    }
}

/// The number that the digits are, if it is below 2 ^ 64.
#[tactic(auto, using(crate::proofs::Amounts::too_large, crate::proofs::Amounts::fits))]
fn number(mut digits: &[u8]) -> Option<u64>
    ensures { result ≡ spec.number digits.entry.now }
{
    let mut n: u64 = 0;
    while let [b, rest @ ..] = digits {
        let Some(tens) = n.checked_mul(10) else {
            return None;
        };
        let Some(sum) = tens.checked_add(u64::from(b.saturating_sub(48))) else {
            return None;
        };
        n = sum;
        digits = rest;
    }
    Some(n)
}

#[tactic(auto, unfolding(crate::specs::Front::number_at))]
fn number_at(z: &[u8]) -> Result<(Word, usize), Misfit>
    requires { spec.begins Class.Digits z.now ≡ true }
    ensures value { Gives wants_memory result (spec.number_at z.now) }
    ensures within { spec.IsWithin (length z.now) result }
{
    let n = run(Class::Digits, z);
    match number(&z[..n]) {
        Some(value) => Ok((Word::Number(value), n)),
        None => Err(Misfit::Bad(0)),
    }
}

/// What a text holds behind its opening quote, and how many bytes of it there are with both quotes.
fn text_from(alloc: Global, mut z: &[u8]) -> Result<Option<(Vec<u8>, usize)>, NoMemory>
    requires { length z.now < 2 ^ 63 }
    ensures value { IfOk result (λ r. option_map (λ p. (p.0.items, p.1)) r ≡ spec.text_from false [] 1 z.entry.now) }
    ensures within { IfOk result (λ r. IfSome r (λ p. (1 ≤ p.1) × (p.1 ≤ length z.entry.now + 1))) }
{
    let mut found = Vec::new(alloc);
    let mut at = 1;
    let mut is_second = false;
    while let [b, rest @ ..] = z {
        if *b == b'\'' {
            if is_second {
                found.push(*b)?;
            }
            is_second = !is_second;
        } else if is_second {
            return Ok(Some((found, at)));
        } else {
            found.push(*b)?;
        }
        at += 1;
        z = rest;
    }
    if is_second {
        Ok(Some((found, at)))
    } else {
        Ok(None)
    }
}

#[tactic(auto, unfolding(crate::specs::Front::text_at))]
fn text_at(alloc: Global, z: &[u8]) -> Result<(Word, usize), Misfit>
    requires { length z.now < 2 ^ 63 }
    ensures value { Gives wants_memory result (spec.text_at z.now) }
    ensures within { spec.IsWithin (length z.now) result }
{
    let [_, rest @ ..] = z else {
        return Err(Misfit::Bad(0));
    };
    let Some((found, len)) = text_from(alloc, rest)? else {
        return Err(Misfit::Open);
    };
    match Txt::from_vec(found) {
        Ok(text) => Ok((Word::Text(text), len)),
        Err(_) => Err(Misfit::Bad(1 + run(Class::Printable, rest))),
    }
}

#[tactic(auto, unfolding(crate::specs::Front::is_single))]
fn is_single(b: u8) -> bool
    ensures { result ≡ spec.is_single b }
{
    (40 <= b && b <= 45) || (58 <= b && b <= 62)
}

#[tactic(auto, unfolding(crate::specs::Front::is_pair))]
fn is_pair(b: u8, c: u8) -> bool
    ensures value { result ≡ spec.is_pair b c }
    ensures some { result ≡ true → c ≢ 0 }
{
    (b == b'<' && (c == b'=' || c == b'>')) || (b == b'>' && c == b'=')
}

fn first(z: &[u8]) -> u8
    ensures value { result ≡ spec.first z.now }
    ensures some { result ≢ 0 → 1 ≤ length z.now }
{
    match z {
        [] => 0,
        [b, ..] => *b,
    }
}

#[tactic(auto, unfolding(crate::specs::Front::mark_at))]
fn mark_at(z: &[u8]) -> Result<(Word, usize), Misfit>
    ensures value { Gives wants_memory result (spec.mark_at z.now) }
    ensures within { spec.IsWithin (length z.now) result }
{
    let [b, rest @ ..] = z else {
        return Err(Misfit::Bad(0));
    };
    let c = first(rest);
    if is_pair(*b, c) {
        Ok((Word::Mark(*b, c), 2))
    } else if is_single(*b) {
        Ok((Word::Mark(*b, 0), 1))
    } else {
        Err(Misfit::Bad(0))
    }
}

#[tactic(auto, unfolding(crate::specs::Front::begins))]
fn begins(class: Class, z: &[u8]) -> bool
    ensures { result ≡ spec.begins class z.now }
{
    match z {
        [] => false,
        [b, ..] => is_in(class, *b),
    }
}

/// The token at the front of the bytes, and its length.
#[tactic(auto, unfolding(crate::specs::Front::front))]
pub fn front(alloc: Global, z: &[u8]) -> Result<(Word, usize), Misfit>
    requires { length z.now < 2 ^ 63 }
    ensures value { Gives wants_memory result (spec.front z.now) }
    ensures within { spec.IsWithin (length z.now) result }
{
    if begins(Class::Digits, z) {
        number_at(z)
    } else if begins(Class::Letters, z) {
        word_at(alloc, z)
    } else if begins(Class::Quote, z) {
        text_at(alloc, z)
    } else {
        mark_at(z)
    }
}
