//! Scripts of several sessions, with their texts.

use super::*;
use crate::tests::{empty_disk, joined, words};
use sk_outside::{MemSink, MemSource};
use std::test::Fail;

struct Row {
    script: &'static [&'static str],
    text: &'static [&'static str],
}

// The anchor of session 1 is before the commit of session 2, so its reads of the storage engine are too.
const SKEW: &[&str] = &[
    "TABLE a MEMORY id INT, v INT\n",
    "TABLE c STORAGE id INT, v INT\n",
    "1: BEGIN\n",
    "1: SELECT * FROM a\n",
    "2: BEGIN\n",
    "2: INSERT INTO a VALUES (1, 10)\n",
    "2: INSERT INTO c VALUES (1, 20)\n",
    "2: COMMIT\n",
    "1: SELECT * FROM c\n",
    "1: COMMIT\n",
];

const SKEW_TEXT: &[&str] = &[
    "1: OK 1.1\n",
    "1: ROWS 0\n",
    "2: OK 2.1\n",
    "2: COUNT 1\n",
    "2: COUNT 1\n",
    "2: COMMITTED\n",
    "1: ROWS 0\n",
    "1: COMMITTED\n",
    "ACK 2.1\n",
    "ACK 1.1\n",
    "FLUSH 1 1\n",
    "ORDER 2.1 1 1\n",
    "TX 1.1 cross 0 0 0 committed - - acked\n",
    "TX 2.1 cross 0 0 0 committed 1 1 acked\n",
    "CUT 1 1\n",
];

// A selection for an anchor that others have passed in the storage engine alone sees what stood there.
const OLDER_ANCHOR: &[&str] = &[
    "TABLE a MEMORY id INT, v INT\n",
    "TABLE c STORAGE id INT, v INT\n",
    "1: BEGIN\n",
    "2: INSERT INTO c VALUES (1, 1)\n",
    "3: BEGIN\n",
    "2: INSERT INTO a VALUES (1, 1)\n",
    "1: SELECT * FROM c\n",
    "3: SELECT * FROM c\n",
    "1: COMMIT\n",
    "3: COMMIT\n",
];

const OLDER_ANCHOR_TEXT: &[&str] = &[
    "1: OK 1.1\n",
    "2: COUNT 1\n",
    "3: OK 3.1\n",
    "2: COUNT 1\n",
    "1: ROW 1, 1\n",
    "1: ROWS 1\n",
    "3: ROW 1, 1\n",
    "3: ROWS 1\n",
    "1: COMMITTED\n",
    "3: COMMITTED\n",
    "ACK 2.1\n",
    "ACK 2.2\n",
    "ACK 1.1\n",
    "ACK 3.1\n",
    "FLUSH 1 1\n",
    "ORDER 2.1 - 1\n",
    "ORDER 2.2 1 -\n",
    "TX 1.1 cross 0 1 1 committed - - acked\n",
    "TX 2.1 storage - 0 0 committed - 1 acked\n",
    "TX 2.2 memory 0 - 0 committed 1 - acked\n",
    "TX 3.1 cross 0 1 1 committed - - acked\n",
    "CUT 1 1\n",
];

// The selection of session 2 is past the storage number of session 1's commit.
const FAILED_CHECK: &[&str] = &[
    "TABLE a MEMORY id INT, v INT\n",
    "TABLE c STORAGE id INT, v INT\n",
    "1: BEGIN\n",
    "1: INSERT INTO a VALUES (1, 1)\n",
    "1: INSERT INTO c VALUES (1, 1)\n",
    "1: STEP\n",
    "1: STEP\n",
    "1: STEP\n",
    "2: BEGIN\n",
    "2: SELECT * FROM c\n",
    "1: COMMIT\n",
];

const FAILED_CHECK_TEXT: &[&str] = &[
    "1: OK 1.1\n",
    "1: COUNT 1\n",
    "1: COUNT 1\n",
    "1: STEP close m\n",
    "1: STEP close s\n",
    "1: STEP draw m 1\n",
    "2: OK 2.1\n",
    "2: ROWS 0\n",
    "1: CHECKFAILED 1 0 drew 1 1\n",
    "FLUSH 1 1\n",
    "TX 1.1 cross 0 0 0 checkfailed 1 1 -\n",
    "TX 2.1 cross 1 0 0 rolledback - - -\n",
    "CUT 1 1\n",
];

// A reader past the snapshot of a commit that is under way waits; the statement can be tried again.
const BUSY: &[&str] = &[
    "TABLE a MEMORY id INT, v INT\n",
    "TABLE c STORAGE id INT, v INT\n",
    "1: BEGIN\n",
    "1: INSERT INTO a VALUES (1, 1)\n",
    "1: STEP\n",
    "1: STEP\n",
    "2: BEGIN\n",
    "2: SELECT * FROM a\n",
    "1: STEP\n",
    "2: SELECT * FROM a\n",
];

const BUSY_TEXT: &[&str] = &[
    "1: OK 1.1\n",
    "1: COUNT 1\n",
    "1: STEP close m\n",
    "1: STEP draw m 1\n",
    "2: OK 2.1\n",
    "2: BUSY 1.1\n",
    "1: COMMITTED\n",
    "2: ROW 1, 1\n",
    "2: ROWS 1\n",
    "ACK 1.1\n",
    "FLUSH 1 0\n",
    "ORDER 1.1 1 -\n",
    "TX 1.1 cross 0 - 0 committed 1 - acked\n",
    "TX 2.1 cross 1 - 1 rolledback - - -\n",
    "CUT 1 0\n",
];

// A reader that was open before the commit closed sees what was before it.
const FLOOR: &[&str] = &[
    "TABLE a MEMORY id INT, v INT\n",
    "TABLE c STORAGE id INT, v INT\n",
    "2: BEGIN\n",
    "1: BEGIN\n",
    "1: INSERT INTO a VALUES (1, 1)\n",
    "1: STEP\n",
    "1: STEP\n",
    "2: SELECT * FROM a\n",
    "1: STEP\n",
    "2: SELECT * FROM a\n",
];

const FLOOR_TEXT: &[&str] = &[
    "2: OK 2.1\n",
    "1: OK 1.1\n",
    "1: COUNT 1\n",
    "1: STEP close m\n",
    "1: STEP draw m 1\n",
    "2: ROWS 0\n",
    "1: COMMITTED\n",
    "2: ROWS 0\n",
    "ACK 1.1\n",
    "FLUSH 1 0\n",
    "ORDER 1.1 1 -\n",
    "TX 1.1 cross 0 - 0 committed 1 - acked\n",
    "TX 2.1 cross 0 - 0 rolledback - - -\n",
    "CUT 1 0\n",
];

// A row that another transaction has open cannot be written.
const TWO_WRITERS: &[&str] = &[
    "TABLE a MEMORY id INT, v INT\n",
    "TABLE c STORAGE id INT, v INT\n",
    "1: INSERT INTO a VALUES (1, 5)\n",
    "1: BEGIN MEMORY\n",
    "2: BEGIN MEMORY\n",
    "1: UPDATE a SET v = 6 WHERE id = 1\n",
    "2: UPDATE a SET v = 7 WHERE id = 1\n",
    "1: ROLLBACK\n",
    "2: SELECT * FROM a\n",
    "2: ROLLBACK\n",
];

const TWO_WRITERS_TEXT: &[&str] = &[
    "1: COUNT 1\n",
    "1: OK 1.2\n",
    "2: OK 2.1\n",
    "1: COUNT 1\n",
    "2: CONFLICT 1.2 open\n",
    "1: ROLLEDBACK\n",
    "2: ERR ended\n",
    "2: ROLLEDBACK\n",
    "ACK 1.1\n",
    "FLUSH 1 0\n",
    "ORDER 1.1 1 -\n",
    "TX 1.1 memory 0 - 0 committed 1 - acked\n",
    "TX 1.2 memory 1 - 1 rolledback - - -\n",
    "TX 2.1 memory 1 - 1 conflict - - -\n",
    "CUT 1 0\n",
];

// Nor can one that was committed past the own snapshot.
const PAST: &[&str] = &[
    "TABLE a MEMORY id INT, v INT\n",
    "TABLE c STORAGE id INT, v INT\n",
    "1: INSERT INTO a VALUES (1, 5)\n",
    "1: BEGIN MEMORY\n",
    "2: UPDATE a SET v = 6 WHERE id = 1\n",
    "1: UPDATE a SET v = 7 WHERE id = 1\n",
];

const PAST_TEXT: &[&str] = &[
    "1: COUNT 1\n",
    "1: OK 1.2\n",
    "2: COUNT 1\n",
    "1: CONFLICT 2.1 past 2 1\n",
    "ACK 1.1\n",
    "ACK 2.1\n",
    "FLUSH 2 0\n",
    "ORDER 1.1 1 -\n",
    "ORDER 2.1 2 -\n",
    "TX 1.1 memory 0 - 0 committed 1 - acked\n",
    "TX 1.2 memory 1 - 1 conflict - - -\n",
    "TX 2.1 memory 1 - 1 committed 2 - acked\n",
    "CUT 2 0\n",
];

// Each reads what the other writes, and both commit.
const WRITE_SKEW: &[&str] = &[
    "TABLE a MEMORY id INT, v INT\n",
    "TABLE c STORAGE id INT, v INT\n",
    "1: BEGIN\n",
    "1: INSERT INTO a VALUES (1, 10)\n",
    "1: INSERT INTO c VALUES (1, 20)\n",
    "1: COMMIT\n",
    "1: BEGIN\n",
    "2: BEGIN\n",
    "1: SELECT * FROM c\n",
    "2: SELECT * FROM a\n",
    "1: UPDATE a SET v = 0\n",
    "2: UPDATE c SET v = 0\n",
    "1: COMMIT\n",
    "2: COMMIT\n",
];

const WRITE_SKEW_TEXT: &[&str] = &[
    "1: OK 1.1\n",
    "1: COUNT 1\n",
    "1: COUNT 1\n",
    "1: COMMITTED\n",
    "1: OK 1.2\n",
    "2: OK 2.1\n",
    "1: ROW 1, 20\n",
    "1: ROWS 1\n",
    "2: ROW 1, 10\n",
    "2: ROWS 1\n",
    "1: COUNT 1\n",
    "2: COUNT 1\n",
    "1: COMMITTED\n",
    "2: COMMITTED\n",
    "ACK 1.1\n",
    "ACK 1.2\n",
    "ACK 2.1\n",
    "FLUSH 2 2\n",
    "ORDER 1.1 1 1\n",
    "ORDER 2.1 - 2\n",
    "ORDER 1.2 2 -\n",
    "TX 1.1 cross 0 0 0 committed 1 1 acked\n",
    "TX 1.2 cross 1 1 1 committed 2 - acked\n",
    "TX 2.1 cross 1 1 1 committed - 2 acked\n",
    "CUT 2 2\n",
];

// The ring has eight points; the eighth selection gives up the oldest four.
const RECYCLED: &[&str] = &[
    "SET partitions 2\n",
    "SET points 4\n",
    "TABLE a MEMORY id INT, v INT\n",
    "TABLE c STORAGE id INT, v INT\n",
    "1: BEGIN\n",
    "2: INSERT INTO a VALUES (1, 0)\n",
    "2: BEGIN\n",
    "2: SELECT * FROM c\n",
    "2: COMMIT\n",
    "2: INSERT INTO a VALUES (2, 0)\n",
    "2: BEGIN\n",
    "2: SELECT * FROM c\n",
    "2: COMMIT\n",
    "2: INSERT INTO a VALUES (3, 0)\n",
    "2: BEGIN\n",
    "2: SELECT * FROM c\n",
    "2: COMMIT\n",
    "2: INSERT INTO a VALUES (4, 0)\n",
    "2: BEGIN\n",
    "2: SELECT * FROM c\n",
    "2: COMMIT\n",
    "2: INSERT INTO a VALUES (5, 0)\n",
    "2: BEGIN\n",
    "2: SELECT * FROM c\n",
    "2: COMMIT\n",
    "2: INSERT INTO a VALUES (6, 0)\n",
    "2: BEGIN\n",
    "2: SELECT * FROM c\n",
    "2: COMMIT\n",
    "2: INSERT INTO a VALUES (7, 0)\n",
    "2: BEGIN\n",
    "2: SELECT * FROM c\n",
    "2: COMMIT\n",
    "2: INSERT INTO a VALUES (8, 0)\n",
    "2: BEGIN\n",
    "2: SELECT * FROM c\n",
    "2: COMMIT\n",
    "1: SELECT * FROM c\n",
];

const RECYCLED_TEXT: &[&str] = &[
    "1: OK 1.1\n",
    "2: COUNT 1\n",
    "2: OK 2.2\n",
    "2: ROWS 0\n",
    "2: COMMITTED\n",
    "2: COUNT 1\n",
    "2: OK 2.4\n",
    "2: ROWS 0\n",
    "2: COMMITTED\n",
    "2: COUNT 1\n",
    "2: OK 2.6\n",
    "2: ROWS 0\n",
    "2: COMMITTED\n",
    "2: COUNT 1\n",
    "2: OK 2.8\n",
    "2: ROWS 0\n",
    "2: COMMITTED\n",
    "2: COUNT 1\n",
    "2: OK 2.10\n",
    "2: ROWS 0\n",
    "2: COMMITTED\n",
    "2: COUNT 1\n",
    "2: OK 2.12\n",
    "2: ROWS 0\n",
    "2: COMMITTED\n",
    "2: COUNT 1\n",
    "2: OK 2.14\n",
    "2: ROWS 0\n",
    "2: COMMITTED\n",
    "2: COUNT 1\n",
    "2: OK 2.16\n",
    "2: ROWS 0\n",
    "2: COMMITTED\n",
    "1: RECYCLED 0 4 0\n",
    "ACK 2.1\n",
    "ACK 2.2\n",
    "ACK 2.3\n",
    "ACK 2.4\n",
    "ACK 2.5\n",
    "ACK 2.6\n",
    "ACK 2.7\n",
    "ACK 2.8\n",
    "ACK 2.9\n",
    "ACK 2.10\n",
    "ACK 2.11\n",
    "ACK 2.12\n",
    "ACK 2.13\n",
    "ACK 2.14\n",
    "ACK 2.15\n",
    "ACK 2.16\n",
    "FLUSH 8 0\n",
    "ORDER 2.1 1 -\n",
    "ORDER 2.3 2 -\n",
    "ORDER 2.5 3 -\n",
    "ORDER 2.7 4 -\n",
    "ORDER 2.9 5 -\n",
    "ORDER 2.11 6 -\n",
    "ORDER 2.13 7 -\n",
    "ORDER 2.15 8 -\n",
    "TX 1.1 cross 0 - 0 recycled - - -\n",
    "TX 2.1 memory 0 - 0 committed 1 - acked\n",
    "TX 2.2 cross 1 0 1 committed - - acked\n",
    "TX 2.3 memory 1 - 1 committed 2 - acked\n",
    "TX 2.4 cross 2 0 2 committed - - acked\n",
    "TX 2.5 memory 2 - 2 committed 3 - acked\n",
    "TX 2.6 cross 3 0 3 committed - - acked\n",
    "TX 2.7 memory 3 - 3 committed 4 - acked\n",
    "TX 2.8 cross 4 0 4 committed - - acked\n",
    "TX 2.9 memory 4 - 4 committed 5 - acked\n",
    "TX 2.10 cross 5 0 5 committed - - acked\n",
    "TX 2.11 memory 5 - 5 committed 6 - acked\n",
    "TX 2.12 cross 6 0 6 committed - - acked\n",
    "TX 2.13 memory 6 - 6 committed 7 - acked\n",
    "TX 2.14 cross 7 0 7 committed - - acked\n",
    "TX 2.15 memory 7 - 7 committed 8 - acked\n",
    "TX 2.16 cross 8 0 8 committed - - acked\n",
    "CUT 8 0\n",
];

// The counter of the memory engine has one number left.
const SPENT: &[&str] = &[
    "SET startm 2147483646\n",
    "TABLE a MEMORY id INT, v INT\n",
    "TABLE c STORAGE id INT, v INT\n",
    "1: INSERT INTO a VALUES (1, 1)\n",
    "1: INSERT INTO a VALUES (2, 2)\n",
];

const SPENT_TEXT: &[&str] = &[
    "1: COUNT 1\n",
    "1: SPENT memory\n",
    "ACK 1.1\n",
    "FLUSH 2147483647 0\n",
    "ORDER 1.1 2147483647 -\n",
    "TX 1.1 memory 2147483646 - 0 committed 2147483647 - acked\n",
    "TX 1.2 memory 2147483647 - 1 spent - - -\n",
    "CUT 2147483647 0\n",
];

// Steps of one session between lines of another; what is under way at the end takes its steps.
const STEPS: &[&str] = &[
    "TABLE a MEMORY id INT, v INT\n",
    "TABLE c STORAGE id INT, v INT\n",
    "64: BEGIN\n",
    "64: INSERT INTO a VALUES (1, 1)\n",
    "64: INSERT INTO c VALUES (1, 1)\n",
    "64: STEP\n",
    "64: COMMIT;\n",
    "1: BEGIN\n",
    "1: INSERT INTO a VALUES (2, 2)\n",
    "1: INSERT INTO c VALUES (2, 2)\n",
    "1: STEP\n",
    "1: STEP\n",
    "1: INSERT INTO a VALUES (3, 3)\n",
    "2: STEP\n",
];

const STEPS_TEXT: &[&str] = &[
    "64: OK 64.1\n",
    "64: COUNT 1\n",
    "64: COUNT 1\n",
    "64: STEP close m\n",
    "64: COMMITTED\n",
    "1: OK 1.1\n",
    "1: COUNT 1\n",
    "1: COUNT 1\n",
    "1: STEP close m\n",
    "1: STEP close s\n",
    "1: ERR committing\n",
    "2: ERR notransaction\n",
    "ACK 64.1\n",
    "ACK 1.1\n",
    "FLUSH 2 2\n",
    "ORDER 64.1 1 1\n",
    "ORDER 1.1 2 2\n",
    "TX 1.1 cross 1 1 1 committed 2 2 acked\n",
    "TX 64.1 cross 0 0 0 committed 1 1 acked\n",
    "CUT 2 2\n",
];

const ROWS: [Row; 11] = [
    Row {
        script: SKEW,
        text: SKEW_TEXT,
    },
    Row {
        script: OLDER_ANCHOR,
        text: OLDER_ANCHOR_TEXT,
    },
    Row {
        script: FAILED_CHECK,
        text: FAILED_CHECK_TEXT,
    },
    Row {
        script: BUSY,
        text: BUSY_TEXT,
    },
    Row {
        script: FLOOR,
        text: FLOOR_TEXT,
    },
    Row {
        script: TWO_WRITERS,
        text: TWO_WRITERS_TEXT,
    },
    Row {
        script: PAST,
        text: PAST_TEXT,
    },
    Row {
        script: WRITE_SKEW,
        text: WRITE_SKEW_TEXT,
    },
    Row {
        script: RECYCLED,
        text: RECYCLED_TEXT,
    },
    Row {
        script: SPENT,
        text: SPENT_TEXT,
    },
    Row {
        script: STEPS,
        text: STEPS_TEXT,
    },
];

#[test]
fn rows_of_sessions(rt: HostRuntime) -> Result<(), Fail> {
    let alloc = rt.alloc();
    for row in &ROWS {
        let script = joined(alloc, row.script)?;
        let mut source = MemSource::new(script.as_bytes().to_vec(alloc)?, Vec::new(alloc));
        let mut sink = MemSink::new(alloc, 4096, Vec::new(alloc))?;
        let words = words(alloc, &["run", "d"])?;
        let outcome = run_script(alloc, &words, &mut source, &mut sink, empty_disk(alloc));
        assert_eq!(rt; outcome.status, 0);
        assert_eq!(rt; sink.bytes(), joined(alloc, row.text)?.as_bytes());
    }
    Ok(())
}
