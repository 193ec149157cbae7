use super::*;
use sk_device::MemDevice;
use sk_outcome::Outcome;
use sk_outside::{Failed, MemSink, MemSource, Sink, Source};
use std::alloc::{AllocError, Global};
use std::fmt::Write;
use std::test::Fail;

// The scripts of examples/, with their texts.

const FIRST: &[&str] = &[
    "TABLE a MEMORY id INT, v INT\n",
    "1: BEGIN MEMORY\n",
    "1: INSERT INTO a VALUES (1, 10)\n",
    "1: SELECT * FROM a WHERE id = 1\n",
    "1: COMMIT\n",
];

const FIRST_TEXT: &[&str] = &[
    "1: OK 1.1\n",
    "1: COUNT 1\n",
    "1: ROW 1, 10\n",
    "1: ROWS 1\n",
    "1: COMMITTED\n",
    "ACK 1.1\n",
    "FLUSH 1 0\n",
    "ORDER 1.1 1 -\n",
    "TX 1.1 memory 0 - 0 committed 1 - acked\n",
    "CUT 1 0\n",
];

const TWO_ENGINES: &[&str] = &[
    "# Orders are kept in memory, stock on pages; one transaction changes both.\n",
    "TABLE orders MEMORY id INT, item TEXT, paid BOOL\n",
    "TABLE stock STORAGE item TEXT, pieces INT\n",
    "1: INSERT INTO stock VALUES ('pear', 1)\n",
    "1: INSERT INTO stock VALUES ('apple', 5)\n",
    "\n",
    "1: BEGIN\n",
    "1: UPDATE stock SET pieces = pieces - 2 WHERE item = 'apple'\n",
    "1: INSERT INTO orders VALUES (1, 'apple', FALSE)\n",
    "1: COMMIT\n",
    "\n",
    "# What is rolled back is gone from both.\n",
    "1: BEGIN\n",
    "1: DELETE FROM stock WHERE item = 'apple'\n",
    "1: INSERT INTO orders VALUES (2, 'apple', TRUE)\n",
    "1: SELECT item FROM stock\n",
    "1: ROLLBACK\n",
    "\n",
    "1: BEGIN MEMORY\n",
    "1: UPDATE orders SET paid = TRUE\n",
    "1: COMMIT\n",
    "1: SELECT * FROM stock\n",
    "1: SELECT paid, id FROM orders WHERE NOT item = 'pear'\n",
];

const TWO_ENGINES_TEXT: &[&str] = &[
    "1: COUNT 1\n",
    "1: COUNT 1\n",
    "1: OK 1.3\n",
    "1: COUNT 1\n",
    "1: COUNT 1\n",
    "1: COMMITTED\n",
    "1: OK 1.4\n",
    "1: COUNT 1\n",
    "1: COUNT 1\n",
    "1: ROW 'pear'\n",
    "1: ROWS 1\n",
    "1: ROLLEDBACK\n",
    "1: OK 1.5\n",
    "1: COUNT 1\n",
    "1: COMMITTED\n",
    "1: ROW 'apple', 3\n",
    "1: ROW 'pear', 1\n",
    "1: ROWS 2\n",
    "1: ROW TRUE, 1\n",
    "1: ROWS 1\n",
    "ACK 1.1\n",
    "ACK 1.2\n",
    "ACK 1.3\n",
    "ACK 1.5\n",
    "ACK 1.6\n",
    "ACK 1.7\n",
    "FLUSH 2 3\n",
    "ORDER 1.1 - 1\n",
    "ORDER 1.2 - 2\n",
    "ORDER 1.3 1 3\n",
    "ORDER 1.5 2 -\n",
    "TX 1.1 storage - 0 0 committed - 1 acked\n",
    "TX 1.2 storage - 1 1 committed - 2 acked\n",
    "TX 1.3 cross 0 2 2 committed 1 3 acked\n",
    "TX 1.4 cross 1 3 3 rolledback - - -\n",
    "TX 1.5 memory 1 - 3 committed 2 - acked\n",
    "TX 1.6 storage - 3 3 committed - - acked\n",
    "TX 1.7 memory 2 - 4 committed - - acked\n",
    "CUT 2 3\n",
];

const REFUSALS: &[&str] = &[
    "# What is refused, and what goes on behind it.\n",
    "TABLE a MEMORY id INT, v INT\n",
    "TABLE w STORAGE k TEXT, b TEXT, c TEXT, d TEXT, e TEXT\n",
    "1: INSERT INTO a VALUES (1, 9223372036854775807)\n",
    "1: SELECT * FROM z\n",
    "1: SELECT z FROM a\n",
    "1: UPDATE a SET id = 2\n",
    "1: INSERT INTO a VALUES (2)\n",
    "1: SELECT * FROM a WHERE v\n",
    "1: UPDATE a SET v = v + 1\n",
    "1: INSERT INTO a VALUES (1, 0)\n",
    "1: COMMIT\n",
    "\n",
    "1: BEGIN STORAGE\n",
    "1: SELECT * FROM a\n",
    "1: INSERT INTO w VALUES ('k', 'it''s', '', '', '')\n",
    "1: COMMIT\n",
    "\n",
    "1: BEGIN\n",
    "1: BEGIN\n",
    "1: INSERT INTO a VALUES (1, 0)\n",
    "1: INSERT INTO a VALUES (-2, 0)\n",
    "1: SELECT * FROM a\n",
    "1: COMMIT\n",
];

const REFUSALS_TEXT: &[&str] = &[
    "1: COUNT 1\n",
    "1: ERR table\n",
    "1: ERR column\n",
    "1: ERR key\n",
    "1: ERR type\n",
    "1: ERR type\n",
    "1: ERR overflow\n",
    "1: ERR duplicate\n",
    "1: ERR notransaction\n",
    "1: OK 1.4\n",
    "1: ERR engine\n",
    "1: COUNT 1\n",
    "1: COMMITTED\n",
    "1: OK 1.5\n",
    "1: ERR intransaction\n",
    "1: ERR duplicate\n",
    "1: COUNT 1\n",
    "1: ROW -2, 0\n",
    "1: ROW 1, 9223372036854775807\n",
    "1: ROWS 2\n",
    "1: COMMITTED\n",
    "ACK 1.1\n",
    "ACK 1.4\n",
    "ACK 1.5\n",
    "FLUSH 2 1\n",
    "ORDER 1.4 - 1\n",
    "ORDER 1.1 1 -\n",
    "ORDER 1.5 2 -\n",
    "TX 1.1 memory 0 - 0 committed 1 - acked\n",
    "TX 1.2 memory 1 - 2 rolledback - - -\n",
    "TX 1.3 memory 1 - 2 rolledback - - -\n",
    "TX 1.4 storage - 0 0 committed - 1 acked\n",
    "TX 1.5 cross 1 - 2 committed 2 - acked\n",
    "CUT 2 1\n",
];

// Refused statements that take no snapshot, a row that is written and gone, rows that stay as they are, a transaction open at the end.
const ENDINGS: &[&str] = &[
    "TABLE s STORAGE id INT, v INT\n",
    "1: INSERT INTO s VALUES (1, 1)\n",
    "1: BEGIN\n",
    "1: SELECT zz FROM s\n",
    "1: INSERT INTO s VALUES (1, 5)\n",
    "1: ROLLBACK\n",
    "1: BEGIN\n",
    "1: SELECT zz FROM s\n",
    "1: COMMIT\n",
    "1: BEGIN STORAGE\n",
    "1: INSERT INTO s VALUES (2, 2)\n",
    "1: DELETE FROM s WHERE id = 2\n",
    "1: COMMIT\n",
    "1: UPDATE s SET v = v\n",
    "1: DELETE FROM s WHERE id = 99\n",
    "1: BEGIN\n",
    "1: INSERT INTO s VALUES (7, 7)\n",
];

const ENDINGS_TEXT: &[&str] = &[
    "1: COUNT 1\n",
    "1: OK 1.2\n",
    "1: ERR column\n",
    "1: ERR duplicate\n",
    "1: ROLLEDBACK\n",
    "1: OK 1.3\n",
    "1: ERR column\n",
    "1: COMMITTED\n",
    "1: OK 1.4\n",
    "1: COUNT 1\n",
    "1: COUNT 1\n",
    "1: COMMITTED\n",
    "1: COUNT 1\n",
    "1: COUNT 0\n",
    "1: OK 1.7\n",
    "1: COUNT 1\n",
    "ACK 1.1\n",
    "ACK 1.3\n",
    "ACK 1.4\n",
    "ACK 1.5\n",
    "ACK 1.6\n",
    "FLUSH 0 3\n",
    "ORDER 1.1 - 1\n",
    "ORDER 1.4 - 2\n",
    "ORDER 1.5 - 3\n",
    "TX 1.1 storage - 0 0 committed - 1 acked\n",
    "TX 1.2 cross 0 1 1 rolledback - - -\n",
    "TX 1.3 cross 0 - 0 committed - - acked\n",
    "TX 1.4 storage - 1 1 committed - 2 acked\n",
    "TX 1.5 storage - 2 2 committed - 3 acked\n",
    "TX 1.6 storage - 3 3 committed - - acked\n",
    "TX 1.7 cross 0 3 3 rolledback - - -\n",
    "CUT 0 3\n",
];

const ROOM: usize = 4096;

pub(crate) fn joined(alloc: Global, lines: &[&str]) -> Result<String, AllocError> {
    let mut text = String::new(alloc);
    for line in lines {
        text.push_str(line)?;
    }
    Ok(text)
}

pub(crate) fn words(alloc: Global, texts: &[&str]) -> Result<Vec<String>, AllocError> {
    let mut words = Vec::new(alloc);
    for text in texts {
        words.push(joined(alloc, &[*text])?)?;
    }
    Ok(words)
}

/// A disk on which every call succeeds, without files.
pub(crate) fn empty_disk(alloc: Global) -> MemDevice {
    MemDevice::new(alloc, Vec::new(alloc), Vec::new(alloc))
}

struct Row {
    words: &'static [&'static str],
    script: &'static [&'static str],
    status: u8,
    text: &'static [&'static str],
}

const ROWS: [Row; 11] = [
    Row {
        words: &["run", "d"],
        script: FIRST,
        status: 0,
        text: FIRST_TEXT,
    },
    Row {
        words: &["run", "d"],
        script: TWO_ENGINES,
        status: 0,
        text: TWO_ENGINES_TEXT,
    },
    Row {
        words: &["run", "d"],
        script: REFUSALS,
        status: 0,
        text: REFUSALS_TEXT,
    },
    Row {
        words: &["run", "d"],
        script: ENDINGS,
        status: 0,
        text: ENDINGS_TEXT,
    },
    Row {
        words: &["run", "d"],
        script: &["1: SELEC\n"],
        status: 3,
        text: &["FAULT script 1 4\n"],
    },
    Row {
        words: &["run", "d"],
        script: &["# no key\r\n", "TABLE a MEMORY id BOOL"],
        status: 3,
        text: &["FAULT script 2 16\n"],
    },
    Row {
        words: &["run", "d"],
        script: &["2: COMMIT\n", "1: SELEC\n"],
        status: 3,
        text: &["FAULT script 2 4\n"],
    },
    Row {
        words: &["run", "d"],
        script: &["65: COMMIT\n"],
        status: 3,
        text: &["FAULT script 1 1\n"],
    },
    Row {
        words: &["run", "d"],
        script: &["1: COMMIT\n"],
        status: 0,
        text: &["1: ERR notransaction\n", "FLUSH 0 0\n", "CUT 0 0\n"],
    },
    Row {
        words: &["run", "d"],
        script: &[],
        status: 0,
        text: &["FLUSH 0 0\n", "CUT 0 0\n"],
    },
    Row {
        words: &["--help"],
        script: FIRST,
        status: 2,
        text: &["FAULT usage\n"],
    },
];

#[test]
fn worked_rows(rt: HostRuntime) -> Result<(), Fail> {
    let alloc = rt.alloc();
    for row in &ROWS {
        let script = joined(alloc, row.script)?;
        let mut source = MemSource::new(script.as_bytes().to_vec(alloc)?, Vec::new(alloc));
        let mut sink = MemSink::new(alloc, ROOM, Vec::new(alloc))?;
        let words = words(alloc, row.words)?;
        let outcome = run_script(alloc, &words, &mut source, &mut sink, empty_disk(alloc));
        assert_eq!(rt; outcome.status, row.status);
        assert_eq!(rt; sink.bytes(), joined(alloc, row.text)?.as_bytes());
    }
    Ok(())
}

fn first_run<S: Source, K: Sink>(
    alloc: Global,
    source: &mut S,
    sink: &mut K,
) -> Result<Outcome<MemDevice>, AllocError> {
    let words = words(alloc, &["run", "d"])?;
    Ok(run_script(alloc, &words, source, sink, empty_disk(alloc)))
}

fn first_script(alloc: Global) -> Result<Vec<u8>, AllocError> {
    joined(alloc, ROWS[0].script)?.as_bytes().to_vec(alloc)
}

fn repeated(alloc: Global, piece: &str, times: u32) -> Result<String, AllocError> {
    let mut text = String::new(alloc);
    for _ in 0..times {
        text.push_str(piece)?;
    }
    Ok(text)
}

fn numbered(alloc: Global, front: &str, back: &str) -> Result<String, AllocError> {
    let mut text = String::new(alloc);
    for id in 1..=100u32 {
        write!(text, "{front}{id}{back}")?;
    }
    Ok(text)
}

/// A hundred rows, 64 NOTs, a line of 4,096 bytes, texts of 255 bytes and a row with four of them, which takes 1,030 bytes in a file.
fn ordinary_script(alloc: Global) -> Result<String, AllocError> {
    let rows = numbered(alloc, "1: INSERT INTO a VALUES (", ", 7)\n")?;
    let long = repeated(alloc, "k", 255)?;
    let nots = repeated(alloc, "NOT ", 64)?;
    let zeros = repeated(alloc, " + 0", 1016)?;
    joined(
        alloc,
        &[
            "TABLE a MEMORY id INT, v INT\nTABLE w STORAGE k TEXT, b TEXT, c TEXT, d TEXT, e TEXT\n",
            "1: BEGIN\n",
            rows.as_str(),
            "1: INSERT INTO w VALUES ('",
            long.as_str(),
            "', '', '', '', '')\n1: COMMIT\n1: INSERT INTO w VALUES ('', '",
            long.as_str(),
            "', '",
            long.as_str(),
            "', '",
            long.as_str(),
            "', '",
            long.as_str(),
            "')\n1: UPDATE a SET v = v + 1\n1: SELECT v, id FROM a WHERE ",
            nots.as_str(),
            "id > 99\n1: SELECT v FROM a WHERE id = 50",
            zeros.as_str(),
            "\n1: SELECT k FROM w\n1: SELECT * FROM a\n",
        ],
    )
}

fn ordinary_text(alloc: Global) -> Result<String, AllocError> {
    let counts = repeated(alloc, "1: COUNT 1\n", 101)?;
    let long = repeated(alloc, "k", 255)?;
    let rows = numbered(alloc, "1: ROW ", ", 8\n")?;
    joined(
        alloc,
        &[
            "1: OK 1.1\n",
            counts.as_str(),
            "1: COMMITTED\n1: ERR size\n1: COUNT 100\n",
            "1: ROW 8, 100\n1: ROWS 1\n1: ROW 8\n1: ROWS 1\n1: ROW '",
            long.as_str(),
            "'\n1: ROWS 1\n",
            rows.as_str(),
            "1: ROWS 100\nACK 1.1\nACK 1.3\nACK 1.4\nACK 1.5\nACK 1.6\nACK 1.7\nFLUSH 2 1\n",
            "ORDER 1.1 1 1\nORDER 1.3 2 -\n",
            "TX 1.1 cross 0 0 0 committed 1 1 acked\nTX 1.2 storage - 1 1 rolledback - - -\n",
            "TX 1.3 memory 1 - 1 committed 2 - acked\nTX 1.4 memory 2 - 2 committed - - acked\n",
            "TX 1.5 memory 2 - 2 committed - - acked\nTX 1.6 storage - 1 1 committed - - acked\n",
            "TX 1.7 memory 2 - 2 committed - - acked\nCUT 2 1\n",
        ],
    )
}

// What an ordinary script asks for is there, so that its run does not end for want of memory.
#[test]
fn an_ordinary_script(rt: HostRuntime) -> Result<(), Fail> {
    let alloc = rt.alloc();
    let script = ordinary_script(alloc)?;
    let mut source = MemSource::new(script.as_bytes().to_vec(alloc)?, Vec::new(alloc));
    let mut sink = MemSink::new(alloc, 2 * ROOM, Vec::new(alloc))?;
    let outcome = first_run(alloc, &mut source, &mut sink)?;
    assert_eq!(rt; outcome.status, 0);
    assert_eq!(rt; sink.bytes(), ordinary_text(alloc)?.as_bytes());
    Ok(())
}

#[test]
fn a_source_that_fails(rt: HostRuntime) -> Result<(), Fail> {
    let alloc = rt.alloc();
    let mut source = MemSource::new(first_script(alloc)?, [1u64].to_vec(alloc)?);
    let mut sink = MemSink::new(alloc, ROOM, Vec::new(alloc))?;
    let outcome = first_run(alloc, &mut source, &mut sink)?;
    assert_eq!(rt; outcome.status, 4);
    assert_eq!(rt; sink.bytes(), b"FAULT read\n".as_slice());
    Ok(())
}

#[test]
fn a_sink_that_fails(rt: HostRuntime) -> Result<(), Fail> {
    let alloc = rt.alloc();
    let mut source = MemSource::new(first_script(alloc)?, Vec::new(alloc));
    let mut sink = MemSink::new(alloc, ROOM, [1u64].to_vec(alloc)?)?;
    let outcome = first_run(alloc, &mut source, &mut sink)?;
    assert_eq!(rt; outcome.status, 5);
    assert!(rt; sink.bytes().is_empty());
    Ok(())
}

/// Gives one byte a call.
#[derive(Drop)]
struct SlowSource {
    inner: MemSource,
}

impl Source for SlowSource {
    ghost use Rattle.std.specs.Prelude.{Some};
    ghost use Rattle.sk_outside.specs.Memory.{source_left, source_faults};

    ghost left = { λ s. Some (source_left s.inner) };

    ghost faults = { λ s. source_faults s.inner };

    fn read(&mut self, out: &mut [u8]) -> Result<usize, Failed> {
        if out.is_empty() {
            return self.inner.read(out);
        }
        self.inner.read(&mut out[..1])
    }
}

/// Takes one byte a call.
#[derive(Drop)]
struct SlowSink {
    inner: MemSink,
}

impl Sink for SlowSink {
    ghost use Rattle.std.specs.Prelude.{Some};
    ghost use Rattle.sk_outside.specs.Memory.{sink_bytes, sink_faults};

    ghost written = { λ k. Some (sink_bytes k.inner) };

    ghost faults = { λ k. sink_faults k.inner };

    fn write(&mut self, piece: &[u8]) -> Result<usize, Failed> {
        if piece.is_empty() {
            return self.inner.write(piece);
        }
        self.inner.write(&piece[..1])
    }
}

#[test]
fn a_byte_a_call(rt: HostRuntime) -> Result<(), Fail> {
    let alloc = rt.alloc();
    let mut source = SlowSource {
        inner: MemSource::new(first_script(alloc)?, Vec::new(alloc)),
    };
    let mut sink = SlowSink {
        inner: MemSink::new(alloc, ROOM, Vec::new(alloc))?,
    };
    let outcome = first_run(alloc, &mut source, &mut sink)?;
    assert_eq!(rt; outcome.status, 0);
    assert_eq!(rt; sink.inner.bytes(), joined(alloc, ROWS[0].text)?.as_bytes());
    Ok(())
}
