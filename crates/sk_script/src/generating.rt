//! The script that a seed and a number of transfers give.

ghost use Rattle.std.specs.Prelude.{◌≡◌, ◌++◌, ◌∷◌, [], map, take, drop, true, IfOk, IfSome, OnOk, None, Some};
ghost use Rattle.std.specs.List.{AllByRecursion};
ghost use Rattle.sk_rows.specs.Text.{ArePrintable};
ghost use Rattle.sk_script.specs.Generated as spec;
ghost use Rattle.sk_script.specs.Options.{CanSet};
ghost use Rattle.sk_script.specs.Rules.{IsSession, session_in};
ghost use Rattle.sk_script.specs.Tables.{CanAdd};
ghost use Rattle.sk_script.specs.Texts.{says_short};

use crate::drawing::{Transfer, transfers};
use crate::script::{
    Line, OptionLineList, Script, ScriptLine, ScriptLineList, TableLine, TableLineList,
};
use sk_rows::{
    Begun, Boxed, Column, ColumnList, Expr, List, NoMemory, Op, SetItem, SetList, Sort, Statement,
    Table, Txt, Value, ValueList,
};
use std::alloc::Global;

fn text(alloc: Global, bytes: &[u8]) -> Result<Txt, NoMemory>
    requires { ArePrintable bytes.now }
    ensures { IfOk result (λ t. t ≡ bytes.now) }
{
    Txt::from_slice(alloc, bytes)
}

fn int(n: u32) -> Value
    ensures { result ≡ spec.int n }
{
    Value::Int(n as i64)
}

// ---- statements

/// A column and a number, with an operator between.
fn operation(alloc: Global, op: Op, column: &[u8], n: u32) -> Result<Expr, NoMemory>
    requires { ArePrintable column.now }
    ensures { IfOk result (λ e. e ≡ Expr.Two op (Expr.Col column.now) (Expr.Lit (spec.int n))) }
{
    let left = Expr::Col(text(alloc, column)?);
    let right = Expr::Lit(int(n));
    Ok(Expr::Two(op, Boxed::new(alloc, left)?, Boxed::new(alloc, right)?))
}

fn changed(alloc: Global, op: Op, row: u32, n: u32) -> Result<Statement, NoMemory>
    ensures { IfOk result (λ s. s ≡ spec.changed op row n) }
{
    let column = text(alloc, b"qty")?;
    let value = operation(alloc, op, b"qty", n)?;
    Ok(Statement::Update {
        table: text(alloc, b"stock")?,
        sets: SetList::of_one(alloc, SetItem { column, value })?,
        cond: Some(operation(alloc, Op::Eq, b"id", row)?),
    })
}

fn ordered(alloc: Global, of: Transfer) -> Result<Statement, NoMemory>
    ensures { IfOk result (λ s. s ≡ spec.order of) }
{
    let mut values = ValueList::new(alloc);
    values.push(int(of.number))?;
    values.push(int(of.from))?;
    values.push(int(of.count))?;
    Ok(Statement::Insert {
        table: text(alloc, b"orders")?,
        values,
    })
}

fn stock_row(alloc: Global, row: u32) -> Result<Statement, NoMemory>
    ensures { IfOk result (λ s. s ≡ spec.stock_row row) }
{
    let mut values = ValueList::new(alloc);
    values.push(int(row))?;
    values.push(int(1000))?;
    Ok(Statement::Insert {
        table: text(alloc, b"stock")?,
        values,
    })
}

// ---- lines

/// What a transfer says in one pass over its round.
#[derive(Clone, Copy, Debug)]
pub enum Pass {
    Begins,
    Takes,
    Gives,
    Orders,
    Commits,
}

fn said(alloc: Global, pass: Pass, of: Transfer) -> Result<Statement, NoMemory>
    ensures { IfOk result (λ s. s ≡ spec.said pass of) }
{
    match pass {
        Pass::Begins => Ok(Statement::Begin(Begun::Cross)),
        Pass::Takes => changed(alloc, Op::Sub, of.from, of.count),
        Pass::Gives => changed(alloc, Op::Add, of.to, of.count),
        Pass::Orders => ordered(alloc, of),
        Pass::Commits => Ok(Statement::Commit),
    }
}

fn put(lines: &mut List<Line>, line: Line) -> Result<(), NoMemory>
    ensures { OnOk result (lines.new ≡ lines.old ++ line ∷ []) }
{
    lines.push(line)?;
    Ok(())
}

fn put_said(alloc: Global, lines: &mut List<Line>, pass: Pass, of: Transfer) -> Result<(), NoMemory>
    ensures { OnOk result (lines.new ≡ lines.old ++ spec.line_of pass of ∷ []) }
{
    let session = (of.number.saturating_sub(1) % 8 + 1) as u16;
    let statement = said(alloc, pass, of)?;
    put(lines, Line::Says { session, statement })
}

fn put_pass(
    alloc: Global,
    lines: &mut List<Line>,
    pass: Pass,
    round: &[Transfer],
) -> Result<(), NoMemory>
    ensures { OnOk result (lines.new ≡ lines.old ++ map (spec.line_of pass) round.now) }
{
    for of in round {
        put_said(alloc, lines, pass, *of)?;
    }
    Ok(())
}

#[tactic(auto, unfolding(crate::specs::Generated::round))]
fn put_round(alloc: Global, lines: &mut List<Line>, round: &[Transfer]) -> Result<(), NoMemory>
    ensures { OnOk result (lines.new ≡ lines.old ++ spec.round round.now) }
{
    put_pass(alloc, lines, Pass::Begins, round)?;
    put_pass(alloc, lines, Pass::Takes, round)?;
    put_pass(alloc, lines, Pass::Gives, round)?;
    put_pass(alloc, lines, Pass::Orders, round)?;
    put_pass(alloc, lines, Pass::Commits, round)?;
    put(lines, Line::Flush)
}

/// The first eight and the others.
fn parted(all: &[Transfer]) -> (&[Transfer], &[Transfer])
    ensures first { result.0.now ≡ take 8 all.now }
    ensures others { result.1.now ≡ drop 8 all.now }
{
    if all.len() > 8 {
        (&all[..8], &all[8..])
    } else {
        (all, &all[all.len()..])
    }
}

fn put_rounds(
    alloc: Global,
    lines: &mut List<Line>,
    count: u32,
    all: &[Transfer],
) -> Result<(), NoMemory>
    ensures { OnOk result (lines.new ≡ lines.old ++ spec.rounds count all.now) }
{
    let mut rest = all;
    for _round in 0..count {
        let (round, others) = parted(rest);
        put_round(alloc, lines, round)?;
        rest = others;
    }
    Ok(())
}

fn put_stock(alloc: Global, lines: &mut List<Line>, count: u32) -> Result<(), NoMemory>
    ensures { OnOk result (lines.new ≡ lines.old ++ spec.stocked 1 count) }
{
    for i in 0..count {
        let statement = stock_row(alloc, i + 1)?;
        put(
            lines,
            Line::Says {
                session: 1,
                statement,
            },
        )?;
    }
    Ok(())
}

/// The lines that give the rows of stock.
#[tactic(auto, unfolding(crate::specs::Generated::opening))]
fn put_opening(alloc: Global, lines: &mut List<Line>) -> Result<(), NoMemory>
    ensures { OnOk result (lines.new ≡ lines.old ++ spec.opening) }
{
    put(
        lines,
        Line::Says {
            session: 1,
            statement: Statement::Begin(Begun::Store),
        },
    )?;
    put_stock(alloc, lines, 16)?;
    put(
        lines,
        Line::Says {
            session: 1,
            statement: Statement::Commit,
        },
    )
}

fn put_last(alloc: Global, lines: &mut List<Line>) -> Result<(), NoMemory>
    ensures { OnOk result (lines.new ≡ lines.old ++ spec.closing ∷ []) }
{
    let statement = Statement::Select {
        table: text(alloc, b"stock")?,
        columns: None,
        cond: None,
    };
    put(
        lines,
        Line::Says {
            session: 1,
            statement,
        },
    )
}

#[tactic(auto, unfolding(crate::specs::Generated::lines))]
fn lines(alloc: Global, seed: u32, n: u32) -> Result<List<Line>, NoMemory>
    ensures { IfOk result (λ all. all ≡ spec.lines seed n) }
{
    let mut lines = List::new(alloc);
    let all = transfers(alloc, seed, n)?;
    put_opening(alloc, &mut lines)?;
    put_rounds(
        alloc,
        &mut lines,
        ((n as u64 + 7) / 8) as u32,
        all.as_slice(),
    )?;
    put_last(alloc, &mut lines)?;
    Ok(lines)
}

// ---- the script

/// The lines with their numbers, from this number on.
fn numbered(alloc: Global, first: u32, lines: List<Line>) -> Result<ScriptLineList, NoMemory>
    ensures { IfOk result (λ all. all ≡ spec.numbered first lines) }
{
    let mut all = ScriptLineList::new(alloc);
    let mut number = first;
    for what in lines.into_vec() {
        all.push(ScriptLine { line: number, what })?;
        let Some(next) = number.checked_add(1) else {
            return Err(NoMemory);
        };
        number = next;
    }
    Ok(all)
}

fn whole_number(alloc: Global, name: &[u8]) -> Result<Column, NoMemory>
    requires { ArePrintable name.now }
    ensures { IfOk result (λ c. c ≡ spec.whole_number name.now) }
{
    Ok(Column {
        name: text(alloc, name)?,
        sort: Sort::Int,
    })
}

fn orders_table(alloc: Global) -> Result<Table, NoMemory>
    ensures { IfOk result (λ t. t ≡ spec.orders_table) }
{
    let mut columns = ColumnList::new(alloc);
    columns.push(whole_number(alloc, b"id")?)?;
    columns.push(whole_number(alloc, b"item")?)?;
    columns.push(whole_number(alloc, b"qty")?)?;
    Ok(Table {
        name: text(alloc, b"orders")?,
        store: false,
        columns,
    })
}

fn stock_table(alloc: Global) -> Result<Table, NoMemory>
    ensures { IfOk result (λ t. t ≡ spec.stock_table) }
{
    let mut columns = ColumnList::new(alloc);
    columns.push(whole_number(alloc, b"id")?)?;
    columns.push(whole_number(alloc, b"qty")?)?;
    Ok(Table {
        name: text(alloc, b"stock")?,
        store: true,
        columns,
    })
}

/// Both tables, and all lines.
#[tactic(auto, unfolding(crate::specs::Generated::generated))]
fn made(alloc: Global, seed: u32, n: u32) -> Result<Script, NoMemory>
    ensures { IfOk result (λ script. script ≡ spec.generated seed n) }
{
    let mut tables = TableLineList::new(alloc);
    tables.push(TableLine {
        line: 1,
        table: orders_table(alloc)?,
    })?;
    tables.push(TableLine {
        line: 2,
        table: stock_table(alloc)?,
    })?;
    Ok(Script {
        tables,
        options: OptionLineList::new(alloc),
        lines: numbered(alloc, 3, lines(alloc, seed, n)?)?,
    })
}

/// The script of so many transfers that the seed gives: two tables, the rows of stock, the transfers in rounds of eight with a flush
/// behind each round, and a look at the stock.
///
/// Want of memory is answered too where there are more lines than a line's number can count.
pub fn generate(alloc: Global, seed: u32, n: u32) -> Result<Script, NoMemory>
    ensures exact { IfOk result (λ script. script ≡ spec.generated seed n) }

    // So it can be played, as a script that was read can: a catalog takes its tables, and it sets no option out of its range.
    ensures tables { IfOk result (λ script. CanAdd [] (map (λ l. l.table) script.tables)) }
    ensures options { IfOk result (λ script. CanSet [] script.options) }

    // Its lines are of sessions from 1 to 64, and write no text that is too long for a row.
    ensures sessions { IfOk result (λ script. AllByRecursion (λ l. IfSome (session_in l.what) IsSession) script.lines) }
    ensures texts { IfOk result (λ script. AllByRecursion (λ l. says_short l.what ≡ true) script.lines) }
{
    made(alloc, seed, n)
}
