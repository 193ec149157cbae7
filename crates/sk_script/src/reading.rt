//! A script, line by line.

ghost use Rattle.std.specs.Prelude.{◌≡◌, ◌+◌, ◌≤◌, ◌<◌, [], ◌∷◌, length, map, IfSome, IfNone, IfOk, take, true};
ghost use Rattle.std.specs.Option.{option_copied};
ghost use Rattle.std.specs.List.{prefix_len, AllByRecursion};
ghost use Rattle.sk_rows.specs.Memory.{Gives};
ghost use Rattle.sk_script.specs.Faults.{IsAnswer};
ghost use Rattle.sk_script.specs.Limits.{longest_script};
ghost use Rattle.sk_script.specs.Options.{CanSet};
ghost use Rattle.sk_script.specs.Rules.{IsSession, session_in};
ghost use Rattle.sk_script.specs.Script as spec;
ghost use Rattle.sk_script.specs.Tables.{CanAdd};
ghost use Rattle.sk_script.specs.Texts.{says_short};

use crate::limits::LONGEST_SCRIPT;
use crate::line::with_line;
use crate::script::{OptionLineList, Script, ScriptFault, ScriptLineList, TableLineList};
use sk_parse::ParseFault;
use std::alloc::Global;

/// How many bytes stand before the first line end.
fn line_len(bytes: &[u8]) -> usize
    ensures value { result ≡ prefix_len spec.goes_on bytes.now }
    ensures within { result ≤ length bytes.now }
{
    let mut n = 0;
    while n < bytes.len() && bytes[n] != b'\n' {
        n += 1;
    }
    n
}

/// The first line with what stands before its end, and what stands behind that, if it is ended.
#[tactic(auto, using(crate::proofs::Cuts::one_piece))]
fn split_line(bytes: &[u8]) -> Option<(&[u8], &[u8])>
    ensures cut { IfSome result (λ r. spec.pieces bytes.now ≡ r.0.now ∷ spec.pieces r.1.now) }
    ensures within { IfSome result (λ r. length r.0.now ≤ length bytes.now) }
    ensures shorter { IfSome result (λ r. length r.1.now < length bytes.now) }
    ensures open { IfNone result (spec.pieces bytes.now ≡ bytes.now ∷ []) }
{
    let end = line_len(bytes);
    if end < bytes.len() {
        Some((&bytes[..end], &bytes[end + 1..]))
    } else {
        None
    }
}

#[tactic(auto, unfolding(crate::specs::Script::before))]
fn before<'a>(text: &[u8], bytes: &'a [u8]) -> Option<&'a [u8]>
    ensures value { option_copied result ≡ spec.before text.now bytes.now }
    ensures within { IfSome result (λ r. length r.now ≤ length bytes.now) }
{
    bytes.strip_suffix(text)
}

/// A line without the return that belongs to its end.
fn without_return(line: &[u8]) -> &[u8]
    ensures value { result.now ≡ spec.without_return line.now }
    ensures within { length result.now ≤ length line.now }
{
    match before(b"\r", line) {
        Some(rest) => rest,
        None => line,
    }
}

/// The fault of a line, as one of the script.
fn at(line: u32, fault: ParseFault) -> ScriptFault
    ensures { result ≡ spec.at line fault }
{
    match fault {
        ParseFault::Unexpected { place } => ScriptFault::At { line, place },
        ParseFault::NoMemory => ScriptFault::NoMemory,
    }
}

/// The script with a last line that is not ended.
#[tactic(auto, unfolding(crate::specs::Script::with_last))]
fn with_last(
    alloc: Global,
    script: Script,
    number: u32,
    line: &[u8],
    long: bool,
) -> Result<Script, ScriptFault>
    requires { length line.now ≤ longest_script }
    ensures { Gives spec.wants result (spec.with_last long script number line.now) }
{
    if line.is_empty() && !long {
        return Ok(script);
    }
    match with_line(alloc, script, number, line, long) {
        Ok(next) => Ok(next),
        Err(fault) => Err(at(number, fault)),
    }
}

/// Reads lines up to the end of the bytes, where `long` says that there were more of them.
#[tactic(auto, using(crate::proofs::Cuts::one_line))]
fn read_lines(alloc: Global, bytes: &[u8], long: bool) -> Result<Script, ScriptFault>
    requires { length bytes.now ≤ longest_script }
    ensures { Gives spec.wants result (spec.read_from long spec.nothing 1 (spec.pieces bytes.now)) }
{
    let mut rest = bytes;
    let mut script = Script {
        tables: TableLineList::new(alloc),
        options: OptionLineList::new(alloc),
        lines: ScriptLineList::new(alloc),
    };
    let mut number: u32 = 1;
    'lines: while let Some((first, more)) = split_line(rest) {
        match with_line(alloc, script, number, without_return(first), false) {
            Ok(next) => script = next,
            Err(fault) => return Err(at(number, fault)),
        }
        rest = more;
        number += 1;
    }
    with_last(alloc, script, number, rest, long)
}

/// At most so many bytes from the front.
fn front(bytes: &[u8], most: usize) -> &[u8]
    ensures value { result.now ≡ take most bytes.now }
    ensures within { length result.now ≤ most }
{
    if bytes.len() > most {
        &bytes[..most]
    } else {
        bytes
    }
}

/// Reads the bytes up to the limit of scripts.
#[tactic(auto, unfolding(crate::specs::Script::script_of))]
fn read_front(alloc: Global, bytes: &[u8]) -> Result<Script, ScriptFault>
    ensures { Gives spec.wants result (spec.script_of bytes.now) }
{
    let long = bytes.len() > LONGEST_SCRIPT;
    read_lines(alloc, front(bytes, LONGEST_SCRIPT), long)
}

/// The script that the bytes are, or its first fault: that of the first line with one, at its least place.
///
/// Faults are a token that does not fit, passes a limit or repeats a name, a byte that is not allowed, a text that is
/// not ended, the end of a line where more was to come, and what passes the limits of a line or of the script.
#[tactic(auto, using(crate::proofs::Takings::given_tables, crate::proofs::Takings::given_options, crate::proofs::Saying::given_sessions, crate::proofs::Saying::given_texts, crate::proofs::ScriptFaults::answered))]
pub fn read_script(alloc: Global, bytes: &[u8]) -> Result<Script, ScriptFault>
    ensures exact { Gives spec.wants result (spec.script_of bytes.now) }

    // The script by the rules of its grammar, or the first fault by them.
    ensures grammar { IsAnswer bytes.now result }

    // A catalog takes its tables, one after another.
    ensures tables { IfOk result (λ script. CanAdd [] (map (λ l. l.table) script.tables)) }

    // Each option that it sets is in its range, and none is set twice.
    ensures options { IfOk result (λ script. CanSet [] script.options) }

    // Each line that is of a session is of one from 1 to 64.
    ensures sessions { IfOk result (λ script. AllByRecursion (λ l. IfSome (session_in l.what) IsSession) script.lines) }

    // Each text that a statement may write has at most 255 bytes.
    ensures texts { IfOk result (λ script. AllByRecursion (λ l. says_short l.what ≡ true) script.lines) }
{
    read_front(alloc, bytes)
}
