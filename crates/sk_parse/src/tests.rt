use crate::{ParseFault, can_be_printed, print, statement};
use sk_lex::tokens;
use sk_rows::{Expr, Op, Statement};
use std::test::Fail;

fn read(rt: &HostRuntime, line: &[u8]) -> Option<Result<Statement, ParseFault>> {
    if line.len() > 1000 {
        return None;
    }
    let end = line.len() as u32;
    match tokens(rt.alloc(), line) {
        Ok(all) => Some(statement(rt.alloc(), all.as_slice(), end)),
        Err(_) => None,
    }
}

/// The place of the fault, or 0 where there is none.
fn place(rt: &HostRuntime, line: &[u8]) -> u32 {
    match read(rt, line) {
        Some(Err(ParseFault::Unexpected { place })) => place,
        Some(Ok(_)) => 0,
        _ => 9999,
    }
}

#[test]
fn faults(rt: HostRuntime) {
    let rows: [(&[u8], u32); 17] = [
        (b"SELECT FROM a", 8),
        (b"SELECT * FROM a WHERE", 22),
        (b"SELECT * FROM a WHERE v < - 9223372036854775809", 29),
        (b"SELECT * FROM a WHERE v < - 9223372036854775808", 0),
        (b"SELECT * FROM a WHERE v < 9223372036854775808", 27),
        (b"SELECT a, B FROM a", 11),
        (b"INSERT INTO a VALUES (1, 'x', TRUE)", 0),
        (b"INSERT INTO a VALUES ()", 23),
        (b"UPDATE a SET v = v + 1, w = (v) WHERE NOT id = 1 = 2", 50),
        (b"DELETE FROM select", 13),
        (b"COMMIT 1", 8),
        (b"begin Memory", 0),
        (b"BEGIN storage memory", 15),
        (b"DELETE FROM a WHERE v < (1 + 2", 31),
        (b"ROLLBACK, ", 9),
        (
            b"SELECT * FROM a WHERE v = 'it''s' AND NOT (w OR FALSE) OR v * 2 - 1 >= 3",
            0,
        ),
        (b"", 1),
    ];
    for row in rows.iter() {
        assert_eq!(rt; place(&rt, row.0), row.1);
    }
}

/// A condition in so many parentheses.
fn nested(rt: &HostRuntime, depth: u32) -> Result<Vec<u8>, Fail> {
    let mut line = b"DELETE FROM a WHERE ".to_vec(rt.alloc())?;
    for _ in 0..depth {
        line.push(b'(')?;
    }
    line.push(b'v')?;
    for _ in 0..depth {
        line.push(b')')?;
    }
    Ok(line)
}

#[test]
fn nesting(rt: HostRuntime) -> Result<(), Fail> {
    let deep = nested(&rt, 64)?;
    assert_eq!(rt; place(&rt, deep.as_slice()), 0);
    let deeper = nested(&rt, 65)?;
    assert_eq!(rt; place(&rt, deeper.as_slice()), 85);
    Ok(())
}

/// The operator at the top of the condition, and whether that on its left is the same.
fn top(s: &Statement) -> Option<(Op, bool)> {
    match s {
        Statement::Delete {
            cond: Some(Expr::Two(o, a, _)),
            ..
        } => match a.get() {
            Expr::Two(p, _, _) => Some((*o, *p == *o)),
            _ => Some((*o, false)),
        },
        _ => None,
    }
}

#[test]
fn groups_to_the_left(rt: HostRuntime) {
    match read(&rt, b"DELETE FROM a WHERE v - 1 - 2 = 3 AND b AND c OR d") {
        Some(Ok(s)) => assert!(rt; top(&s) == Some((Op::Or, false))),
        _ => assert!(rt; false),
    }
    match read(&rt, b"DELETE FROM a WHERE v - 1 - 2") {
        Some(Ok(s)) => assert!(rt; top(&s) == Some((Op::Sub, true))),
        _ => assert!(rt; false),
    }
}

fn prints(rt: &HostRuntime, line: &[u8], wanted: &[u8]) -> bool {
    match read(rt, line) {
        Some(Ok(s)) => {
            if !can_be_printed(&s) {
                return false;
            }
            match print(rt.alloc(), &s) {
                Ok(text) => text.as_slice() == wanted,
                Err(_) => false,
            }
        }
        _ => false,
    }
}

#[test]
fn printed(rt: HostRuntime) {
    let rows: [(&[u8], &[u8]); 8] = [
        (b"delete from a", b"DELETE FROM a"),
        (
            b"DELETE FROM a WHERE ((v) + 1) * -2 <> ((3 - (4 - v))) AND (NOT (b OR c = 'it''s'))",
            b"DELETE FROM a WHERE ( v + 1 ) * - 2 <> 3 - ( 4 - v ) AND NOT ( b OR c = 'it''s' )",
        ),
        (b"begin Memory", b"BEGIN MEMORY"),
        (b"Commit", b"COMMIT"),
        (b"ROLLBACK", b"ROLLBACK"),
        (
            b"insert into a values(007,'x',TRUE)",
            b"INSERT INTO a VALUES ( 7 , 'x' , TRUE )",
        ),
        (
            b"SELECT id,v FROM a WHERE v<3",
            b"SELECT id , v FROM a WHERE v < 3",
        ),
        (
            b"UPDATE a SET v=v+1,w=FALSE WHERE NOT w",
            b"UPDATE a SET v = v + 1 , w = FALSE WHERE NOT w",
        ),
    ];
    for row in rows.iter() {
        assert!(rt; prints(&rt, row.0, row.1));
    }
}
