//! A store after a stop at any call on its disk, and a store in real files.

use super::*;
use crate::store_rows::{CROSS, CROSS_TEXT, NO_ROWS_TEXT, READS, READS_TEXT, RUN, played};
use crate::tests::joined;
use sk_device::{FileDevice, MemDevice, Tear, TearingDevice};
use sk_outcome::Outcome;
use std::alloc::Global;
use std::rt::Files;
use std::test::Fail;

// The second flush is the one behind the last line.
const TWO_FLUSHES: &[&str] = &[
    "TABLE a MEMORY id INT, v INT\n",
    "TABLE c STORAGE id INT, v INT\n",
    "1: BEGIN\n",
    "1: INSERT INTO a VALUES (1, 10)\n",
    "1: INSERT INTO c VALUES (1, 20)\n",
    "1: COMMIT\n",
    "FLUSH\n",
    "2: BEGIN\n",
    "2: UPDATE a SET v = 11\n",
    "2: INSERT INTO c VALUES (2, 22)\n",
    "2: COMMIT\n",
];

// Whether a store is there or not.
const AGAIN: &[&str] = &[
    "TABLE a MEMORY id INT, v INT\n",
    "TABLE c STORAGE id INT, v INT\n",
    "1: SELECT * FROM a\n",
    "1: SELECT * FROM c\n",
];

// What that prints behind the second flush.
const SECOND_TEXT: &[&str] = &[
    "1: ROW 1, 11\n",
    "1: ROWS 1\n",
    "1: ROW 1, 20\n",
    "1: ROW 2, 22\n",
    "1: ROWS 2\n",
    "ACK 1.1\n",
    "ACK 1.2\n",
    "FLUSH 2 2\n",
    "TX 1.1 memory 2 - 0 committed - - acked\n",
    "TX 1.2 storage - 2 0 committed - - acked\n",
    "CUT 2 2\n",
];

/// How many writes and syncs the run above makes: seven to open, ten to make the store, six for each flush.
const CALLS: u64 = 29;

/// What a stop leaves of the writes that no sync follows, and whether a gate of which it leaves this is open.
#[derive(Drop)]
struct Stop {
    tear: Tear,
    opens: bool,
}

const STOPS: [Stop; 4] = [
    Stop {
        tear: Tear {
            stands: 0,
            filler: None,
        },
        opens: false,
    },
    Stop {
        tear: Tear {
            stands: 9999,
            filler: None,
        },
        opens: true,
    },
    Stop {
        tear: Tear {
            stands: 0,
            filler: Some(7),
        },
        opens: false,
    },
    Stop {
        tear: Tear {
            stands: 0,
            filler: Some(1),
        },
        opens: true,
    },
];

/// The last two calls of each flush write a gate and sync it.
fn is_gate(call: u64) -> bool {
    matches!(call, 22 | 23 | 28 | 29)
}

/// The run of two flushes, of whose writes and syncs the one of this number fails, so that the run ends there.
fn stopped_at(alloc: Global, call: u64, tear: Tear) -> Result<Outcome<TearingDevice>, Fail> {
    let files = MemDevice::new(alloc, [call].to_vec(alloc)?, Vec::new(alloc));
    let disk = TearingDevice::new(alloc, files, tear)?;
    let (outcome, _) = played(alloc, RUN, TWO_FLUSHES, disk)?;
    Ok(outcome)
}

/// The text of the next run, where the store holds the flushes that were told, and perhaps the next one.
fn next_text(told: u32, more: bool) -> &'static [&'static str] {
    match (told, more) {
        (0, false) => NO_ROWS_TEXT,
        (0, true) | (1, false) => READS_TEXT,
        _ => SECOND_TEXT,
    }
}

#[test]
fn a_stop_at_each_call(rt: HostRuntime) -> Result<(), Fail> {
    let alloc = rt.alloc();
    for call in 1..=CALLS + 1 {
        for stop in &STOPS {
            let outcome = stopped_at(alloc, call, stop.tear)?;
            assert_eq!(rt; outcome.status, if call <= CALLS { 6 } else { 0 });
            let text = next_text(outcome.cut.a, stop.opens && is_gate(call));
            let image = outcome.disk.stopped(&[stop.tear, stop.tear])?;
            let (again, sink) = played(alloc, RUN, AGAIN, image)?;
            assert_eq!(rt; again.status, 0);
            assert_eq!(rt; sink.bytes(), joined(alloc, text)?.as_bytes());
        }
    }
    Ok(())
}

fn removed(rt: &impl Files, alloc: Global, dir: &str) -> Result<(), Fail> {
    for file in 0..7u8 {
        let name = format!(in alloc; "{dir}/s{file}")?;
        let _ = rt.remove_file(name.as_str());
    }
    Ok(())
}

#[test]
fn a_store_in_real_files(rt: HostRuntime) -> Result<(), Fail> {
    let alloc = rt.alloc();
    let dir = std::env::temp_dir(&rt)?;
    removed(&rt, alloc, dir.as_str())?;
    for (script, text) in [(CROSS, CROSS_TEXT), (READS, READS_TEXT)] {
        let disk = FileDevice::new(rt.clone()?, dir.as_str(), b's')?;
        let (outcome, sink) = played(alloc, RUN, script, disk)?;
        assert_eq!(rt; outcome.status, 0);
        assert_eq!(rt; sink.bytes(), joined(alloc, text)?.as_bytes());
    }
    removed(&rt, alloc, dir.as_str())
}
