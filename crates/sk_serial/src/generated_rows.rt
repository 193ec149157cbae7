//! Runs one after another on one disk: scripts that do not go with the store that is there, and generated stores.

use crate::store_rows::{NO_ROWS_TEXT, Play, RUN, Series};

const USAGE_TEXT: &[&str] = &["FAULT usage\n"];

pub(crate) const GENERATED: [Series; 6] = [
    // A script that makes other tables than the stored ones is at fault where the first one differs.
    Series {
        changes: &[],
        looks: &[],
        plays: &[
            Play {
                spoil: None,
                words: RUN,
                script: &[
                    "TABLE a MEMORY id INT, v INT\n",
                    "TABLE c STORAGE id INT, v INT\n",
                ],
                status: 0,
                text: &["FLUSH 0 0\n", "CUT 0 0\n"],
            },
            Play {
                spoil: None,
                words: RUN,
                script: &["# The engine.\n", "TABLE a STORAGE id INT, v INT\n"],
                status: 3,
                text: &["FAULT script 2 1\n"],
            },
            Play {
                spoil: None,
                words: RUN,
                script: &[
                    "TABLE a MEMORY id INT, v INT\n",
                    "\n",
                    "TABLE c STORAGE id INT, w INT\n",
                ],
                status: 3,
                text: &["FAULT script 3 1\n"],
            },
            Play {
                spoil: None,
                words: RUN,
                script: &[
                    "TABLE a MEMORY id INT, v INT\n",
                    "TABLE c STORAGE id INT, v TEXT\n",
                ],
                status: 3,
                text: &["FAULT script 2 1\n"],
            },
            Play {
                spoil: None,
                words: RUN,
                script: &["TABLE a MEMORY id INT\n"],
                status: 3,
                text: &["FAULT script 1 1\n"],
            },
            Play {
                spoil: None,
                words: RUN,
                script: &["\n", "TABLE a MEMORY id INT, v INT\n"],
                status: 3,
                text: &["FAULT script 2 1\n"],
            },
            Play {
                spoil: None,
                words: RUN,
                script: &[
                    "TABLE a MEMORY id INT, v INT\n",
                    "TABLE c STORAGE id INT, v INT\n",
                    "TABLE d MEMORY id INT\n",
                ],
                status: 3,
                text: &["FAULT script 3 1\n"],
            },
            Play {
                spoil: None,
                words: RUN,
                script: &[
                    "TABLE a MEMORY id INT, v INT\n",
                    "TABLE c STORAGE id INT, v INT\n",
                    "1: SELECT * FROM a\n",
                    "1: SELECT * FROM c\n",
                ],
                status: 0,
                text: NO_ROWS_TEXT,
            },
        ],
    },
    // From which numbers a store counts is set when it is made.
    Series {
        changes: &[],
        looks: &[],
        plays: &[
            Play {
                spoil: None,
                words: RUN,
                script: &[
                    "SET startm 5\n",
                    "SET starts 7\n",
                    "TABLE a MEMORY id INT, v INT\n",
                    "TABLE c STORAGE id INT, v INT\n",
                    "1: BEGIN\n",
                    "1: INSERT INTO a VALUES (1, 10)\n",
                    "1: INSERT INTO c VALUES (1, 20)\n",
                    "1: COMMIT\n",
                ],
                status: 0,
                text: &[
                    "1: OK 1.1\n",
                    "1: COUNT 1\n",
                    "1: COUNT 1\n",
                    "1: COMMITTED\n",
                    "ACK 1.1\n",
                    "FLUSH 6 8\n",
                    "ORDER 1.1 6 8\n",
                    "TX 1.1 cross 5 7 0 committed 6 8 acked\n",
                    "CUT 6 8\n",
                ],
            },
            Play {
                spoil: None,
                words: RUN,
                script: &["SET points 4\n", "SET starts 7\n"],
                status: 3,
                text: &["FAULT script 2 1\n"],
            },
            Play {
                spoil: None,
                words: RUN,
                script: &["TABLE b MEMORY id INT\n", "SET startm 5\n"],
                status: 3,
                text: &["FAULT script 1 1\n"],
            },
            Play {
                spoil: None,
                words: RUN,
                script: &["SET startm 5\n", "TABLE b MEMORY id INT\n"],
                status: 3,
                text: &["FAULT script 1 1\n"],
            },
            Play {
                spoil: None,
                words: RUN,
                script: &[
                    "1: INSERT INTO a VALUES (2, 2)\n",
                    "1: SELECT * FROM a\n",
                    "1: SELECT * FROM c\n",
                ],
                status: 0,
                text: &[
                    "1: COUNT 1\n",
                    "1: ROW 1, 10\n",
                    "1: ROW 2, 2\n",
                    "1: ROWS 2\n",
                    "1: ROW 1, 20\n",
                    "1: ROWS 1\n",
                    "ACK 1.1\n",
                    "ACK 1.2\n",
                    "ACK 1.3\n",
                    "FLUSH 7 8\n",
                    "ORDER 1.1 7 -\n",
                    "TX 1.1 memory 6 - 0 committed 7 - acked\n",
                    "TX 1.2 memory 7 - 1 committed - - acked\n",
                    "TX 1.3 storage - 8 0 committed - - acked\n",
                    "CUT 7 8\n",
                ],
            },
        ],
    },
    // A generated store is made once, and is a store like any other.
    Series {
        changes: &[],
        looks: &[],
        plays: &[
            Play {
                spoil: None,
                words: &["gen", "1", "2", "d"],
                script: &["65: this is not read"],
                status: 0,
                text: &["GEN transfers 2 list 3 conflict 0 stock 16000 cut 2 3\n"],
            },
            Play {
                spoil: None,
                words: &["gen", "1", "2", "d"],
                script: &[],
                status: 3,
                text: &["FAULT script 1 1\n"],
            },
            Play {
                spoil: None,
                words: RUN,
                script: &[
                    "1: SELECT * FROM orders\n",
                    "1: SELECT * FROM stock WHERE qty <> 1000\n",
                ],
                status: 0,
                text: &[
                    "1: ROW 1, 6, 3\n",
                    "1: ROW 2, 13, 7\n",
                    "1: ROWS 2\n",
                    "1: ROW 2, 1003\n",
                    "1: ROW 4, 1007\n",
                    "1: ROW 6, 997\n",
                    "1: ROW 13, 993\n",
                    "1: ROWS 4\n",
                    "ACK 1.1\n",
                    "ACK 1.2\n",
                    "FLUSH 2 3\n",
                    "TX 1.1 memory 2 - 0 committed - - acked\n",
                    "TX 1.2 storage - 3 0 committed - - acked\n",
                    "CUT 2 3\n",
                ],
            },
        ],
    },
    // One without transfers has its stock.
    Series {
        changes: &[],
        looks: &[],
        plays: &[
            Play {
                spoil: None,
                words: &["gen", "1", "0", "d"],
                script: &[],
                status: 0,
                text: &["GEN transfers 0 list 1 conflict 0 stock 16000 cut 0 1\n"],
            },
            Play {
                spoil: None,
                words: RUN,
                script: &[
                    "1: SELECT * FROM orders\n",
                    "1: SELECT qty FROM stock WHERE id = 16\n",
                ],
                status: 0,
                text: &[
                    "1: ROWS 0\n",
                    "1: ROW 1000\n",
                    "1: ROWS 1\n",
                    "ACK 1.1\n",
                    "ACK 1.2\n",
                    "FLUSH 0 1\n",
                    "TX 1.1 memory 0 - 0 committed - - acked\n",
                    "TX 1.2 storage - 1 0 committed - - acked\n",
                    "CUT 0 1\n",
                ],
            },
        ],
    },
    // Transfers that meet each other are lost; the stock stays as it was.
    Series {
        changes: &[],
        looks: &[],
        plays: &[
            Play {
                spoil: None,
                words: &["gen", "7", "200", "d"],
                script: &[],
                status: 0,
                text: &["GEN transfers 200 list 100 conflict 101 stock 16000 cut 99 100\n"],
            },
            Play {
                spoil: None,
                words: &["gen", "65536", "0", "d"],
                script: &[],
                status: 3,
                text: &["FAULT script 1 1\n"],
            },
        ],
    },
    // Words of no form make no store.
    Series {
        changes: &[],
        looks: &[],
        plays: &[
            Play {
                spoil: None,
                words: &["gen", "65537", "2", "d"],
                script: &[
                    "TABLE a MEMORY id INT, v INT\n",
                    "TABLE c STORAGE id INT, v INT\n",
                ],
                status: 2,
                text: USAGE_TEXT,
            },
            Play {
                spoil: None,
                words: &["gen", "1", "100001", "d"],
                script: &[
                    "TABLE a MEMORY id INT, v INT\n",
                    "TABLE c STORAGE id INT, v INT\n",
                ],
                status: 2,
                text: USAGE_TEXT,
            },
            Play {
                spoil: None,
                words: &["gen", "01", "2", "d"],
                script: &[
                    "TABLE a MEMORY id INT, v INT\n",
                    "TABLE c STORAGE id INT, v INT\n",
                ],
                status: 2,
                text: USAGE_TEXT,
            },
            Play {
                spoil: None,
                words: &["gen", "1", "2"],
                script: &[
                    "TABLE a MEMORY id INT, v INT\n",
                    "TABLE c STORAGE id INT, v INT\n",
                ],
                status: 2,
                text: USAGE_TEXT,
            },
            Play {
                spoil: None,
                words: &["run", ""],
                script: &[
                    "TABLE a MEMORY id INT, v INT\n",
                    "TABLE c STORAGE id INT, v INT\n",
                ],
                status: 2,
                text: USAGE_TEXT,
            },
            Play {
                spoil: None,
                words: &["run", "-d"],
                script: &[
                    "TABLE a MEMORY id INT, v INT\n",
                    "TABLE c STORAGE id INT, v INT\n",
                ],
                status: 2,
                text: USAGE_TEXT,
            },
            Play {
                spoil: None,
                words: &["run", "d", "d"],
                script: &[
                    "TABLE a MEMORY id INT, v INT\n",
                    "TABLE c STORAGE id INT, v INT\n",
                ],
                status: 2,
                text: USAGE_TEXT,
            },
            Play {
                spoil: None,
                words: &[],
                script: &[
                    "TABLE a MEMORY id INT, v INT\n",
                    "TABLE c STORAGE id INT, v INT\n",
                ],
                status: 2,
                text: USAGE_TEXT,
            },
            Play {
                spoil: None,
                words: RUN,
                script: &[],
                status: 0,
                text: &["FLUSH 0 0\n", "CUT 0 0\n"],
            },
        ],
    },
];
