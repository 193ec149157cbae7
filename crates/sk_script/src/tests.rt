use crate::{Line, Script, ScriptFault, Settings, generate, place, read_script, transfers_of};
use sk_rows::{Sort, Statement};
use std::test::Fail;

/// The line and the place of the first fault, or 0 and 0 where there is none.
fn fault(rt: &HostRuntime, bytes: &[u8]) -> (u32, u32) {
    match read_script(rt.alloc(), bytes) {
        Ok(_) => (0, 0),
        Err(ScriptFault::At { line, place }) => (line, place),
        Err(ScriptFault::NoMemory) => (9999, 9999),
    }
}

#[test]
fn faults(rt: HostRuntime) {
    let rows: [(&[u8], u32, u32); 33] = [
        (b"1: SELEC", 1, 4),
        (b"TABLE a MEMORY id BOOL", 1, 16),
        (b"", 0, 0),
        // a bad byte and an open text, behind words that do not fit and behind words that do
        (b"1: SELEC 'ab", 1, 4),
        (b"1: 'ab\x01c'", 1, 4),
        (b"1: INSERT INTO a VALUES ('ab\x01c', 'x'", 1, 29),
        (b"1: INSERT INTO a VALUES ('ab\x01c", 1, 26),
        (b"1: BEGIN\x01", 1, 9),
        (b"99999999999999999999: COMMIT", 1, 1),
        // the line of a session
        (b"1: COMMIT ; x", 1, 13),
        (b"1: COMMIT;;", 1, 11),
        (b"1: ; SELECT", 1, 4),
        (b"1: SELECT * FROM ;", 1, 18),
        (b"1:", 1, 3),
        (b"1 COMMIT", 1, 3),
        (b"CHECKPOINT", 1, 1),
        // FLUSH and STOP
        (b"FLUSH;", 1, 6),
        (b"STOP 1", 1, 6),
        (b"1: FLUSH", 1, 4),
        (b"FLUSH\nSET points 2", 2, 1),
        (b"STOP\n1: X", 2, 4),
        // the line of a table
        (
            b"TABLE a MEMORY id INT, v INT\nTABLE a STORAGE id INT",
            2,
            7,
        ),
        (b"1: COMMIT\nTABLE a MEMORY id INT", 2, 1),
        (b"TABLE a MEMORY id INT, id TEXT", 1, 24),
        (b"TABLE a MEMORY id BOOL, x $", 1, 16),
        (b"TABLE a DISK id INT", 1, 9),
        (b"TABLE table MEMORY id INT", 1, 7),
        (b"TABLE a MEMORY id INT;", 1, 22),
        // returns and comments
        (b"# \x01", 1, 3),
        (b"1: COMMIT\r", 1, 10),
        (b"1: COM\rMIT\n", 1, 4),
        (b"1: COMMIT\r\r\n", 1, 10),
        (b"1: COMMIT\r\n1: X\n1: Y", 2, 4),
    ];
    for row in rows.iter() {
        assert!(rt; fault(&rt, row.0) == (row.1, row.2));
    }
}

#[test]
fn faults_of_sessions(rt: HostRuntime) {
    let rows: [(&[u8], u32, u32); 14] = [
        (b"0: COMMIT", 1, 1),
        (b"1: COMMIT", 0, 0),
        (b"64: COMMIT", 0, 0),
        (b"065: COMMIT", 1, 1),
        (b"64: BEGIN\n65: COMMIT", 2, 1),
        (b"18446744073709551615: COMMIT", 1, 1),
        (b"7: STEP", 0, 0),
        (b"7: sTEp ;", 0, 0),
        (b"7: STEP x", 1, 9),
        (b"7: STEP STEP", 1, 9),
        (b"7: STEP ; x", 1, 11),
        (b"STEP", 1, 1),
        (b"65: STEP", 1, 1),
        (b"1: SELECT * FROM step", 1, 18),
    ];
    for row in rows.iter() {
        assert!(rt; fault(&rt, row.0) == (row.1, row.2));
    }
}

#[test]
fn faults_of_options(rt: HostRuntime) {
    let rows: [(&[u8], u32, u32); 24] = [
        (b"SET partitions 2\nSET points 4096", 0, 0),
        (b"SET partitions 1", 1, 16),
        (b"SET partitions 65", 1, 16),
        (b"SET points 1", 1, 12),
        (b"SET points 4097", 1, 12),
        (b"SET frames 0", 1, 12),
        (b"SET frames 65", 1, 12),
        (b"SET logmax 31", 1, 12),
        (b"SET logmax 2147483648", 1, 12),
        (b"SET startm 2147483647", 1, 12),
        (b"SET starts 2147483647", 1, 12),
        (b"SET starts 4294967296", 1, 12),
        (
            b"set startm 2147483646\nSET starts 2147483646\nSET logmax 2147483647",
            0,
            0,
        ),
        (
            b"SET frames 00064\nTABLE a MEMORY id INT\nSET logmax 32",
            0,
            0,
        ),
        (b"SET frames 1\nSET frames 1", 2, 5),
        (b"SET Frames 1", 1, 5),
        (b"SET rooms 99", 1, 5),
        (b"SET", 1, 4),
        (b"SET frames", 1, 11),
        (b"SET frames 'x'", 1, 12),
        (b"SET frames 1;", 1, 13),
        (b"SET frames 1 \x01", 1, 14),
        (b"1: COMMIT\nSET frames 1", 2, 1),
        (b"TABLE frames MEMORY points INT", 0, 0),
    ];
    for row in rows.iter() {
        assert!(rt; fault(&rt, row.0) == (row.1, row.2));
    }
}

/// `front`, so many times `byte`, and `back`.
fn long_line(
    rt: &HostRuntime,
    front: &[u8],
    count: u32,
    byte: u8,
    back: &[u8],
) -> Result<Vec<u8>, Fail> {
    let mut line = front.to_vec(rt.alloc())?;
    for _ in 0..count {
        line.push(byte)?;
    }
    for b in back {
        line.push(*b)?;
    }
    Ok(line)
}

#[test]
fn limits_of_lines(rt: HostRuntime) -> Result<(), Fail> {
    let full = long_line(&rt, b"1: COMMIT", 4087, b' ', b"\r\n1: X")?;
    assert!(rt; fault(&rt, full.as_slice()) == (2, 4));
    let longer = long_line(&rt, b"1: COMMIT", 4088, b' ', b"")?;
    assert!(rt; fault(&rt, longer.as_slice()) == (1, 4097));
    let comment = long_line(&rt, b" #", 4095, b'x', b"")?;
    assert!(rt; fault(&rt, comment.as_slice()) == (1, 4097));
    let across = long_line(&rt, b"1: SELECT * FROM a WHERE", 4070, b' ', b"select")?;
    assert!(rt; fault(&rt, across.as_slice()) == (1, 4095));
    let text = long_line(&rt, b"1: INSERT INTO a VALUES ('", 256, b'x', b"\x01'")?;
    assert!(rt; fault(&rt, text.as_slice()) == (1, 26));
    Ok(())
}

/// Whether the script is one comment, a table of two columns, and two lines of session 1, the numbers being those.
fn is_small(script: &Script, numbers: (u32, u32, u32)) -> bool {
    let tables = script.tables.as_slice();
    let lines = script.lines.as_slice();
    match (tables, lines) {
        ([t], [a, b]) => {
            t.line == numbers.0
                && t.table.name.as_slice() == b"a".as_slice()
                && t.table.store
                && t.table.columns.len() == 2
                && a.line == numbers.1
                && matches!(
                    a.what,
                    Line::Says {
                        session: 1,
                        statement: Statement::Commit
                    }
                )
                && b.line == numbers.2
                && matches!(
                    b.what,
                    Line::Says {
                        session: 1,
                        statement: Statement::Delete { .. }
                    }
                )
        }
        _ => false,
    }
}

#[test]
fn scripts(rt: HostRuntime) {
    let rows: [(&[u8], (u32, u32, u32)); 3] = [
        (
            b"TABLE a STORAGE id INT, v TEXT\n1: COMMIT\n1: DELETE FROM a\n",
            (1, 2, 3),
        ),
        (
            b"# one\r\n\n  table a Storage id int , v BOOL\r\n01:commit;\n   \n1 : delete from a ;",
            (3, 4, 6),
        ),
        (
            b"TABLE a STORAGE id TEXT, v TEXT\n #\n1: COMMIT;\r\n1: DELETE FROM a WHERE v = 'it''s'",
            (1, 3, 4),
        ),
    ];
    for row in rows.iter() {
        match read_script(rt.alloc(), row.0) {
            Ok(script) => assert!(rt; is_small(&script, row.1)),
            Err(_) => assert!(rt; false),
        }
    }
    match read_script(rt.alloc(), b"") {
        Ok(script) => assert!(rt; script.tables.is_empty() && script.lines.is_empty()),
        Err(_) => assert!(rt; false),
    }
}

#[test]
fn options(rt: HostRuntime) {
    let text: &[u8] =
        b"SET points 9\nTABLE a MEMORY id INT\n\nSET startm 7\n3: STEP\nflush\n64: STEP;\n sToP ";
    let Ok(script) = read_script(rt.alloc(), text) else {
        assert!(rt; false);
        return;
    };
    let [points, startm] = script.options.as_slice() else {
        assert!(rt; false);
        return;
    };
    assert!(rt; points.line == 1 && points.name.as_slice() == b"points".as_slice());
    assert!(rt; startm.line == 4 && startm.number == 7);
    let [step, flush, last, stop] = script.lines.as_slice() else {
        assert!(rt; false);
        return;
    };
    assert!(rt; step.line == 5 && matches!(step.what, Line::Step { session: 3 }));
    assert!(rt; flush.line == 6 && matches!(flush.what, Line::Flush));
    assert!(rt; last.line == 7 && matches!(last.what, Line::Step { session: 64 }));
    assert!(rt; stop.line == 8 && matches!(stop.what, Line::Stop));
    let wanted = Settings {
        partitions: 8,
        points: 9,
        frames: 32,
        logmax: 2_147_483_647,
        startm: 7,
        starts: 0,
    };
    assert!(rt; script.settings() == wanted);
}

/// Words of a command line.
fn words_of(rt: &HostRuntime, texts: &[&str]) -> Result<Vec<String>, Fail> {
    let mut words = Vec::new(rt.alloc());
    for text in texts {
        words.push(String::from_str(rt.alloc(), *text)?)?;
    }
    Ok(words)
}

#[test]
fn places(rt: HostRuntime) -> Result<(), Fail> {
    let run = words_of(&rt, &["run", "d"])?;
    assert!(rt; place(run.as_slice()) == Some("d"));
    assert!(rt; transfers_of(run.as_slice()).is_none());
    assert!(rt; place(&[]).is_none());
    let rows: [(&str, &str, Option<(u32, u32)>); 9] = [
        ("1", "200", Some((1, 200))),
        ("0", "0", Some((0, 0))),
        ("65536", "100000", Some((65_536, 100_000))),
        ("65537", "1", None),
        ("1", "100001", None),
        ("01", "1", None),
        ("1", "00", None),
        ("+1", "1", None),
        ("", "99999999999999999999999999", None),
    ];
    for row in rows.iter() {
        let words = words_of(&rt, &["gen", row.0, row.1, "d"])?;
        assert!(rt; transfers_of(words.as_slice()) == row.2);
        assert!(rt; place(words.as_slice()).is_some() == row.2.is_some());
    }
    Ok(())
}

#[test]
fn generated(rt: HostRuntime) -> Result<(), Fail> {
    let none = generate(rt.alloc(), 1, 0)?;
    assert!(rt; none.tables.len() == 2 && none.options.is_empty() && none.lines.len() == 19);

    // nine transfers are a round of eight and one of one, and a flush stands behind each
    let script = generate(rt.alloc(), 1, 9)?;
    let lines = script.lines.as_slice();
    assert!(rt; lines.len() == 19 + 9 * 5 + 2);
    for (i, line) in lines.iter().enumerate() {
        assert!(rt; line.line as usize == i + 3);
        assert!(rt; matches!(line.what, Line::Flush) == (i == 18 + 40 || i == 18 + 46));
    }
    Ok(())
}
