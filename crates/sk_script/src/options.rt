//! Lines that set an option.

ghost use Rattle.std.specs.Prelude.{◌≡◌, map, IfOk};
ghost use Rattle.sk_rows.specs.Memory.{Gives};
ghost use Rattle.sk_script.specs.Lines.{IsLine, wants};
ghost use Rattle.sk_script.specs.Options as spec;

use crate::body::misfit;
use crate::script::OptionLine;
use sk_lex::{Token, Word};
use sk_parse::ParseFault;
use sk_rows::{Copies, NoMemory, Txt};
use std::alloc::Global;

/// The options, and the least and the greatest number of each.
pub const CHOICES: [(&[u8], u32, u32); 6] = [
    (b"partitions", 2, 64),
    (b"points", 2, 4096),
    (b"frames", 1, 64),
    (b"logmax", 32, 2_147_483_647),
    (b"startm", 0, 2_147_483_646),
    (b"starts", 0, 2_147_483_646),
];

fn range_in(mut choices: &[(&[u8], u32, u32)], name: &[u8]) -> Option<(u32, u32)>
    ensures { result ≡ spec.range_in (map (λ c. (c.0.now, c.1, c.2)) choices.entry.now) name.now }
{
    while let [choice, rest @ ..] = choices {
        if choice.0 == name {
            return Some((choice.1, choice.2));
        }
        choices = rest;
    }
    None
}

/// Between which numbers the option of this name stands, if there is one.
#[tactic(auto, using(crate::proofs::Choices::ranged))]
fn range_of(name: &[u8]) -> Option<(u32, u32)>
    ensures { result ≡ spec.range_of name.now }
{
    range_in(&CHOICES, name)
}

fn has_option(name: &Txt, lines: &[OptionLine]) -> bool
    ensures { result ≡ spec.has_option name.now lines.now }
{
    lines.iter().any(|o| o.name.is_same(name))
}

/// The name of an option that none of these lines sets.
fn new_option(alloc: Global, lines: &[OptionLine], word: &Word) -> Result<Option<Txt>, NoMemory>
    ensures { IfOk result (λ r. r ≡ spec.new_option lines.now word.now) }
{
    match word {
        Word::Name(t) => {
            if range_of(t.as_slice()).is_some() && !has_option(t, lines) {
                Ok(Some(t.copy(alloc)?))
            } else {
                Ok(None)
            }
        }
        _ => Ok(None),
    }
}

/// The number that a word is, if the option of this name may have it.
fn number_of(name: &Txt, word: &Word) -> Option<u32>
    ensures { result ≡ spec.number_of name.now word.now }
{
    match word {
        Word::Number(n) => match range_of(name.as_slice()) {
            Some((least, most)) if least as u64 <= *n && *n <= most as u64 => Some(*n as u32),
            _ => None,
        },
        _ => None,
    }
}

/// The option that stands behind the word SET, in the line of this number behind these others.
#[tactic(auto, using(crate::proofs::Rising::line_behind), unfolding(crate::specs::Options::option_line))]
pub fn option_line(
    alloc: Global,
    lines: &[OptionLine],
    line: u32,
    tokens: &[Token],
    end: u32,
) -> Result<OptionLine, ParseFault>
    requires { IsLine tokens.now end }
    ensures { Gives wants result (spec.option_line lines.now line tokens.now end) }
{
    let [first, behind @ ..] = tokens else {
        return Err(misfit(tokens, end));
    };
    let Some(name) = new_option(alloc, lines, &first.word)? else {
        return Err(misfit(tokens, end));
    };
    let [second, rest @ ..] = behind else {
        return Err(misfit(behind, end));
    };
    let Some(number) = number_of(&name, &second.word) else {
        return Err(misfit(behind, end));
    };
    if !rest.is_empty() {
        return Err(misfit(rest, end));
    }
    Ok(OptionLine { line, name, number })
}
