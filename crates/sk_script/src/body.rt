//! Lines that say something: those of sessions, FLUSH and STOP.

ghost use Rattle.std.specs.Prelude.{◌≡◌, ◌≤◌, length};
ghost use Rattle.std.specs.List.{prefix_len};
ghost use Rattle.sk_parse.specs.Statements.{place_of};
ghost use Rattle.sk_rows.specs.Memory.{Gives};
ghost use Rattle.sk_script.specs.Body as spec;
ghost use Rattle.sk_script.specs.Lines.{IsLine, wants};

use crate::limits::MOST_SESSIONS;
use crate::script::Line;
use sk_lex::{Keyword, Token, Word};
use sk_parse::{ParseFault, statement};
use std::alloc::Global;

/// The fault that the first of the tokens does not fit, or that there is none.
pub fn misfit(tokens: &[Token], end: u32) -> ParseFault
    requires { IsLine tokens.now end }
    ensures { result ≡ ParseFault.Unexpected (place_of end tokens.now) }
{
    match tokens {
        [] => ParseFault::Unexpected { place: end + 1 },
        [t, ..] => ParseFault::Unexpected { place: t.from + 1 },
    }
}

/// The session that a word names.
fn session_of(word: &Word) -> Option<u16>
    ensures { result ≡ spec.session_of word.now }
{
    match word {
        Word::Number(n) => {
            if 1 <= *n && *n <= MOST_SESSIONS {
                Some(*n as u16)
            } else {
                None
            }
        }
        _ => None,
    }
}

fn is_mark(byte: u8, word: &Word) -> bool
    ensures { result ≡ spec.is_mark byte word.now }
{
    match word {
        Word::Mark(a, b) => *a == byte && *b == 0,
        _ => false,
    }
}

fn is_step(word: &Word) -> bool
    ensures { result ≡ spec.is_step word.now }
{
    match word {
        Word::Key(Keyword::Step) => true,
        _ => false,
    }
}

/// How many tokens stand before the first semicolon.
fn statement_len(tokens: &[Token]) -> usize
    ensures value { result ≡ prefix_len spec.goes_on tokens.now }
    ensures within { result ≤ length tokens.now }
{
    let mut n = 0;
    while n < tokens.len() && !is_mark(b';', &tokens[n].word) {
        n += 1;
    }
    n
}

/// What a line says by its first word, where it is of no session.
fn command_of(word: &Word) -> Option<Line>
    ensures { result ≡ spec.command_of word.now }
{
    match word {
        Word::Key(Keyword::Flush) => Some(Line::Flush),
        Word::Key(Keyword::Stop) => Some(Line::Stop),
        _ => None,
    }
}

/// What was found, with nothing behind it.
fn alone(found: Line, rest: &[Token], end: u32) -> Result<Line, ParseFault>
    requires { IsLine rest.now end }
    ensures { result ≡ spec.alone (Ok found) rest.now }
{
    if rest.is_empty() {
        Ok(found)
    } else {
        Err(misfit(rest, end))
    }
}

/// STEP alone, or a statement.
#[tactic(auto, using(crate::proofs::Rising::line_behind), unfolding(crate::specs::Body::phrase))]
fn phrase(alloc: Global, session: u16, tokens: &[Token], end: u32) -> Result<Line, ParseFault>
    requires { IsLine tokens.now end }
    ensures { Gives wants result (spec.phrase session tokens.now end) }
{
    match tokens {
        [first, rest @ ..] if is_step(&first.word) => alone(Line::Step { session }, rest, end),
        _ => {
            let statement = statement(alloc, tokens, end)?;
            Ok(Line::Says { session, statement })
        }
    }
}

/// What is said before a semicolon, with nothing behind that.
#[tactic(auto, unfolding(crate::specs::Body::closed))]
fn closed(
    alloc: Global,
    session: u16,
    tokens: &[Token],
    end: u32,
    rest: &[Token],
    rest_end: u32,
) -> Result<Line, ParseFault>
    requires before { IsLine tokens.now end }
    requires behind { IsLine rest.now rest_end }
    ensures { Gives wants result (spec.closed session tokens.now end rest.now) }
{
    let found = phrase(alloc, session, tokens, end)?;
    alone(found, rest, rest_end)
}

/// What is said, with or without a semicolon behind it.
#[tactic(auto, using(crate::proofs::Rising::line_behind), unfolding(crate::specs::Body::said))]
fn said(alloc: Global, session: u16, tokens: &[Token], end: u32) -> Result<Line, ParseFault>
    requires { IsLine tokens.now end }
    ensures { Gives wants result (spec.said session tokens.now end) }
{
    let n = statement_len(tokens);
    match &tokens[n..] {
        [] => phrase(alloc, session, tokens, end),
        [mark, rest @ ..] => closed(alloc, session, &tokens[..n], mark.from, rest, end),
    }
}

/// What a line says: FLUSH or STOP alone, or what the session says whose number stands in front.
#[tactic(auto, using(crate::proofs::Rising::line_behind), unfolding(crate::specs::Body::body))]
pub fn body(alloc: Global, tokens: &[Token], end: u32) -> Result<Line, ParseFault>
    requires { IsLine tokens.now end }
    ensures { Gives wants result (spec.body tokens.now end) }
{
    let [first, behind @ ..] = tokens else {
        return Err(misfit(tokens, end));
    };
    if let Some(command) = command_of(&first.word) {
        return alone(command, behind, end);
    }
    let Some(session) = session_of(&first.word) else {
        return Err(misfit(tokens, end));
    };
    let [colon, words @ ..] = behind else {
        return Err(misfit(behind, end));
    };
    if !is_mark(b':', &colon.word) {
        return Err(misfit(behind, end));
    }
    said(alloc, session, words, end)
}
