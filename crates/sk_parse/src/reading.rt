//! Statements.

ghost use Rattle.std.specs.Prelude.{◌≡◌, ◌<◌, ◌≤◌, ◌+◌, All};
ghost use Rattle.sk_rows.specs.Memory.{Gives};
ghost use Rattle.sk_parse.specs.Input.{Reads};
ghost use Rattle.sk_parse.specs.Places.{IsAnswer};
ghost use Rattle.sk_parse.specs.Statements as spec;

use crate::cursor::{Cursor, Sign};
use crate::expression::expr;
use crate::fault::{Fault, ParseFault};
use crate::listed::{Parses, listed};
use crate::marks::{CLOSE, EQUALS, OPEN, STAR};
use crate::terms::name;
use sk_lex::{Keyword, Token};
use sk_rows::{Begun, Expr, NameList, SetItem, Statement, Txt};
use std::alloc::Global;

fn key(k: Keyword) -> Sign
    ensures { result ≡ Sign.Key k }
{
    Sign::Key(k)
}

#[tactic(auto, unfolding(crate::specs::Statements::condition))]
fn condition(alloc: Global, cursor: &mut Cursor<'_>) -> Result<Option<Expr>, Fault>
    ensures { Reads (spec.condition cursor.old) result cursor.new }
{
    if cursor.eat(key(Keyword::Where)) {
        Ok(Some(expr(alloc, cursor)?))
    } else {
        Ok(None)
    }
}

#[tactic(auto, unfolding(crate::specs::Statements::begin))]
fn begin(cursor: &mut Cursor<'_>) -> Statement
    ensures { spec.begin cursor.old ≡ Ok (result, cursor.new) }
{
    if cursor.eat(key(Keyword::Memory)) {
        Statement::Begin(Begun::Mem)
    } else if cursor.eat(key(Keyword::Storage)) {
        Statement::Begin(Begun::Store)
    } else {
        Statement::Begin(Begun::Cross)
    }
}

#[tactic(auto, unfolding(crate::specs::Statements::insert))]
fn insert(alloc: Global, cursor: &mut Cursor<'_>) -> Result<Statement, Fault>
    ensures { Reads (spec.insert cursor.old) result cursor.new }
{
    cursor.expect(key(Keyword::Into))?;
    let table = name(alloc, cursor)?;
    cursor.expect(key(Keyword::Values))?;
    cursor.expect(OPEN)?;
    let values = listed(alloc, cursor)?;
    cursor.expect(CLOSE)?;
    Ok(Statement::Insert { table, values })
}

#[tactic(auto, unfolding(crate::specs::Statements::select_list))]
fn select_list(alloc: Global, cursor: &mut Cursor<'_>) -> Result<Option<NameList>, Fault>
    ensures { Reads (spec.select_list cursor.old) result cursor.new }
{
    if cursor.eat(STAR) {
        Ok(None)
    } else {
        Ok(Some(listed(alloc, cursor)?))
    }
}

#[tactic(auto, unfolding(crate::specs::Statements::select))]
fn select(alloc: Global, cursor: &mut Cursor<'_>) -> Result<Statement, Fault>
    ensures { Reads (spec.select cursor.old) result cursor.new }
{
    let columns = select_list(alloc, cursor)?;
    cursor.expect(key(Keyword::From))?;
    let table = name(alloc, cursor)?;
    let cond = condition(alloc, cursor)?;
    Ok(Statement::Select {
        table,
        columns,
        cond,
    })
}

#[tactic(auto, unfolding(crate::specs::Statements::set_item))]
fn set_item(alloc: Global, cursor: &mut Cursor<'_>) -> Result<SetItem, Fault>
    ensures { Reads (spec.set_item cursor.old) result cursor.new }
{
    let column = name(alloc, cursor)?;
    cursor.expect(EQUALS)?;
    let value = expr(alloc, cursor)?;
    Ok(SetItem { column, value })
}

impl Parses for SetItem {
    ghost use Rattle.sk_parse.specs.Statements.{set_item as set_item_of};

    ghost parser = { set_item_of };

    fn parse(alloc: Global, cursor: &mut Cursor<'_>) -> Result<SetItem, Fault> {
        set_item(alloc, cursor)
    }
}

#[tactic(auto, unfolding(crate::specs::Statements::update))]
fn update(alloc: Global, cursor: &mut Cursor<'_>) -> Result<Statement, Fault>
    ensures { Reads (spec.update cursor.old) result cursor.new }
{
    let table = name(alloc, cursor)?;
    cursor.expect(key(Keyword::Set))?;
    let sets = listed(alloc, cursor)?;
    let cond = condition(alloc, cursor)?;
    Ok(Statement::Update { table, sets, cond })
}

#[tactic(auto, unfolding(crate::specs::Statements::delete))]
fn delete(alloc: Global, cursor: &mut Cursor<'_>) -> Result<Statement, Fault>
    ensures { Reads (spec.delete cursor.old) result cursor.new }
{
    cursor.expect(key(Keyword::From))?;
    let table = name(alloc, cursor)?;
    let cond = condition(alloc, cursor)?;
    Ok(Statement::Delete { table, cond })
}

#[tactic(auto, unfolding(crate::specs::Statements::said))]
fn said(alloc: Global, cursor: &mut Cursor<'_>) -> Result<Statement, Fault>
    ensures { Reads (spec.said cursor.old) result cursor.new }
{
    match cursor.key() {
        Some(Keyword::Begin) => {
            cursor.skip();
            Ok(begin(cursor))
        }
        Some(Keyword::Commit) => {
            cursor.skip();
            Ok(Statement::Commit)
        }
        Some(Keyword::Rollback) => {
            cursor.skip();
            Ok(Statement::Rollback)
        }
        Some(Keyword::Insert) => {
            cursor.skip();
            insert(alloc, cursor)
        }
        Some(Keyword::Select) => {
            cursor.skip();
            select(alloc, cursor)
        }
        Some(Keyword::Update) => {
            cursor.skip();
            update(alloc, cursor)
        }
        Some(Keyword::Delete) => {
            cursor.skip();
            delete(alloc, cursor)
        }
        _ => Err(cursor.refuse()),
    }
}

#[tactic(auto, unfolding(crate::specs::Statements::whole))]
fn whole(alloc: Global, cursor: &mut Cursor<'_>) -> Result<Statement, Fault>
    ensures { Reads (spec.whole cursor.old) result cursor.new }
{
    let found = said(alloc, cursor)?;
    if cursor.left() == 0 {
        Ok(found)
    } else {
        Err(cursor.refuse())
    }
}

/// The place of the token that is the first of so many that are left.
#[tactic(auto, unfolding(crate::specs::Statements::place))]
fn place(tokens: &[Token], end: u32, left: usize) -> u32
    requires short { end < 4294967295 }
    requires before { All (λ t. t.from < end) tokens.now }
    ensures value { result ≡ spec.place tokens.now end left }
    ensures some { 1 ≤ result }
    ensures within { result ≤ end + 1 }
{
    match tokens.get(tokens.len().saturating_sub(left)) {
        Some(token) => token.from + 1,
        None => end + 1,
    }
}

#[tactic(auto, unfolding(crate::specs::Statements::statement))]
fn answer(alloc: Global, tokens: &[Token], end: u32) -> Result<Statement, ParseFault>
    requires short { end < 4294967295 }
    requires before { All (λ t. t.from < end) tokens.now }
    ensures exact { Gives spec.wants_memory result (spec.statement tokens.now end) }
    ensures place { spec.IsPlace end result }
{
    let mut cursor = Cursor::new(tokens);
    match whole(alloc, &mut cursor) {
        Ok(found) => Ok(found),
        Err(Fault::Left(left)) => Err(ParseFault::Unexpected {
            place: place(tokens, end, left),
        }),
        Err(Fault::NoMemory) => Err(ParseFault::NoMemory),
    }
}

/// The statement that all of the tokens are, or the place of the first that does not fit or passes a limit.
///
/// `end` is the length of the line. The place behind the end is answered where the line ends too early.
#[tactic(auto, using(crate::proofs::Answered::answered))]
pub fn statement(alloc: Global, tokens: &[Token], end: u32) -> Result<Statement, ParseFault>
    requires short { end < 4294967295 }
    requires before { All (λ t. t.from < end) tokens.now }
    ensures exact { Gives spec.wants_memory result (spec.statement tokens.now end) }
    ensures place { spec.IsPlace end result }
    ensures grammar { IsAnswer tokens.now end result }
{
    answer(alloc, tokens, end)
}
