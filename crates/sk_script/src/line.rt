//! One line of a script.

ghost use Rattle.std.specs.Prelude.{◌≡◌, ◌≤◌, length};
ghost use Rattle.sk_rows.specs.Memory.{Gives};
ghost use Rattle.sk_script.specs.Limits.{longest_line, longest_script};
ghost use Rattle.sk_script.specs.Body.{rest_of as rest_of_tokens};
ghost use Rattle.sk_script.specs.Script as spec;
ghost use Rattle.sk_script.specs.Lines.{IsLine, wants};

use crate::body::body;
use crate::header::table_line;
use crate::legible::{Legible, legible_front};
use crate::limits::LONGEST_LINE;
use crate::options::option_line;
use crate::script::{Script, ScriptLine, TableLine};
use sk_lex::{Keyword, Token, Word};
use sk_parse::ParseFault;
use std::alloc::Global;

/// Whether a line holds nothing, or nothing but a comment.
fn is_passed_over(mut line: &[u8]) -> bool
    ensures { result ≡ spec.is_passed_over line.entry.now }
{
    while let [b, rest @ ..] = line {
        if *b != b' ' {
            return *b == b'#';
        }
        line = rest;
    }
    true
}

/// How many bytes from the front a script may hold, of those that a line may have.
fn good_len(line: &[u8]) -> usize
    ensures value { result ≡ spec.good_len line.now }
    ensures short { result ≤ longest_line }
{
    let mut n = 0;
    while n < line.len() && 32 <= line[n] && line[n] <= 126 {
        n += 1;
    }
    n.min(LONGEST_LINE)
}

/// The script, if nothing stands in the line which it passes over that may not be there.
#[tactic(auto, unfolding(crate::specs::Script::passed))]
fn passed(script: Script, line: &[u8], long: bool) -> Result<Script, ParseFault>
    ensures { Gives wants result (spec.passed long script line.now) }
{
    let good = good_len(line);
    if long || good < line.len() {
        Err(ParseFault::Unexpected {
            place: good as u32 + 1,
        })
    } else {
        Ok(script)
    }
}

/// What a line does.
#[derive(Clone, Copy, Debug, PartialEq, Eq)]
pub enum Kind {
    /// It makes a table.
    Table,
    /// It sets an option.
    Option,
    /// It says something.
    Body,
}

fn kind_by(word: &Word) -> Kind
    ensures { result ≡ spec.kind_by word.now }
{
    match word {
        Word::Key(Keyword::Table) => Kind::Table,
        Word::Key(Keyword::Set) => Kind::Option,
        _ => Kind::Body,
    }
}

/// What a line does by its first word. Behind one that says something each does.
fn kind_of(lines: &[ScriptLine], tokens: &[Token]) -> Kind
    ensures { result ≡ spec.kind_of lines.now tokens.now }
{
    match (lines, tokens) {
        ([], [t, ..]) => kind_by(&t.word),
        _ => Kind::Body,
    }
}

/// The fault behind the front of a line, if there is one.
fn behind(front: &Legible) -> Result<(), ParseFault>
    requires { front.now.end ≤ longest_line }
    ensures { result ≡ spec.behind front.now }
{
    if front.spoilt {
        Err(ParseFault::Unexpected {
            place: front.end + 1,
        })
    } else {
        Ok(())
    }
}

#[tactic(auto, unfolding(crate::specs::Script::with_table))]
fn with_table(
    alloc: Global,
    script: Script,
    number: u32,
    front: &Legible,
) -> Result<Script, ParseFault>
    requires { IsLine front.now.tokens front.now.end }
    ensures { Gives wants result (spec.with_table script number front.now) }
{
    let Script {
        mut tables,
        options,
        lines,
    } = script;
    let table = table_line(alloc, tables.as_slice(), front.tokens.as_slice(), front.end)?;
    behind(front)?;
    if tables
        .push(TableLine {
            line: number,
            table,
        })
        .is_err()
    {
        return Err(ParseFault::NoMemory);
    }
    Ok(Script {
        tables,
        options,
        lines,
    })
}

/// The tokens behind the first.
fn rest_of(tokens: &[Token]) -> &[Token]
    ensures { result.now ≡ rest_of_tokens tokens.now }
{
    match tokens {
        [] => tokens,
        [_, rest @ ..] => rest,
    }
}

#[tactic(auto, unfolding(crate::specs::Script::with_option))]
fn with_option(
    alloc: Global,
    script: Script,
    number: u32,
    front: &Legible,
) -> Result<Script, ParseFault>
    requires { IsLine front.now.tokens front.now.end }
    ensures { Gives wants result (spec.with_option script number front.now) }
{
    let Script {
        tables,
        mut options,
        lines,
    } = script;
    let words = rest_of(front.tokens.as_slice());
    let option = option_line(alloc, options.as_slice(), number, words, front.end)?;
    behind(front)?;
    if options.push(option).is_err() {
        return Err(ParseFault::NoMemory);
    }
    Ok(Script {
        tables,
        options,
        lines,
    })
}

#[tactic(auto, unfolding(crate::specs::Script::with_body))]
fn with_body(
    alloc: Global,
    script: Script,
    number: u32,
    front: &Legible,
) -> Result<Script, ParseFault>
    requires { IsLine front.now.tokens front.now.end }
    ensures { Gives wants result (spec.with_body script number front.now) }
{
    let Script {
        tables,
        options,
        mut lines,
    } = script;
    let what = body(alloc, front.tokens.as_slice(), front.end)?;
    behind(front)?;
    if lines.push(ScriptLine { line: number, what }).is_err() {
        return Err(ParseFault::NoMemory);
    }
    Ok(Script {
        tables,
        options,
        lines,
    })
}

/// The script with one more line, or the place of the line's first fault.
///
/// `long` says that a byte stands behind the line which may not be there.
#[tactic(auto, unfolding(crate::specs::Script::with_line))]
pub fn with_line(
    alloc: Global,
    script: Script,
    number: u32,
    line: &[u8],
    long: bool,
) -> Result<Script, ParseFault>
    requires { length line.now ≤ longest_script }
    ensures { Gives wants result (spec.with_line long script number line.now) }
{
    if is_passed_over(line) {
        return passed(script, line, long);
    }
    let Ok(front) = legible_front(alloc, line, long) else {
        return Err(ParseFault::NoMemory);
    };
    match kind_of(script.lines.as_slice(), front.tokens.as_slice()) {
        Kind::Table => with_table(alloc, script, number, &front),
        Kind::Option => with_option(alloc, script, number, &front),
        Kind::Body => with_body(alloc, script, number, &front),
    }
}
