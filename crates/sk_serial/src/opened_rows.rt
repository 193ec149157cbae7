//! Runs one after another on one disk: damaged files, failing calls, a counter that is spent.

use crate::store_rows::{
    CROSS, CROSS_TEXT, NO_ROWS_TEXT, Play, READS, READS_TEXT, RUN, Series, Spoil,
};

// The flush behind the last line failed.
const BROKEN_TEXT: &[&str] = &[
    "1: OK 1.1\n",
    "1: COUNT 1\n",
    "1: COUNT 1\n",
    "1: COMMITTED\n",
    "FLUSH device\n",
    "ORDER 1.1 1 1\n",
    "TX 1.1 cross 0 0 0 committed 1 1 pending\n",
    "CUT 0 0\n",
];

pub(crate) const OPENED: [Series; 8] = [
    // A gate that is not 1 hides its group, and the next flush writes there.
    Series {
        changes: &[],
        looks: &[],
        plays: &[
            Play {
                spoil: None,
                words: RUN,
                script: CROSS,
                status: 0,
                text: CROSS_TEXT,
            },
            Play {
                spoil: Some(Spoil {
                    file: 2,
                    at: 0,
                    byte: 7,
                }),
                words: RUN,
                script: READS,
                status: 0,
                text: NO_ROWS_TEXT,
            },
            Play {
                spoil: None,
                words: RUN,
                script: &["2: INSERT INTO a VALUES (5, 5)\n"],
                status: 0,
                text: &[
                    "2: COUNT 1\n",
                    "ACK 2.1\n",
                    "FLUSH 1 0\n",
                    "ORDER 2.1 1 -\n",
                    "TX 2.1 memory 0 - 0 committed 1 - acked\n",
                    "CUT 1 0\n",
                ],
            },
            Play {
                spoil: None,
                words: RUN,
                script: READS,
                status: 0,
                text: &[
                    "1: ROW 5, 5\n",
                    "1: ROWS 1\n",
                    "1: ROWS 0\n",
                    "ACK 1.1\n",
                    "ACK 1.2\n",
                    "FLUSH 1 0\n",
                    "TX 1.1 memory 1 - 0 committed - - acked\n",
                    "TX 1.2 storage - 0 0 committed - - acked\n",
                    "CUT 1 0\n",
                ],
            },
        ],
    },
    // A commit whose halves differ is damage, which no run mends.
    Series {
        changes: &[],
        looks: &[],
        plays: &[
            Play {
                spoil: None,
                words: RUN,
                script: CROSS,
                status: 0,
                text: CROSS_TEXT,
            },
            Play {
                spoil: Some(Spoil {
                    file: 1,
                    at: 5,
                    byte: 2,
                }),
                words: RUN,
                script: READS,
                status: 7,
                text: &["FAULT damaged 1 0 half\n"],
            },
            Play {
                spoil: None,
                words: RUN,
                script: READS,
                status: 7,
                text: &["FAULT damaged 1 0 half\n"],
            },
        ],
    },
    // Other words for what is wrong, each at an earlier place than the one before.
    Series {
        changes: &[],
        looks: &[],
        plays: &[
            Play {
                spoil: None,
                words: RUN,
                script: CROSS,
                status: 0,
                text: CROSS_TEXT,
            },
            Play {
                spoil: Some(Spoil {
                    file: 2,
                    at: 16,
                    byte: 37,
                }),
                words: RUN,
                script: &[],
                status: 7,
                text: &["FAULT damaged 1 30 length\n"],
            },
            Play {
                spoil: Some(Spoil {
                    file: 1,
                    at: 10,
                    byte: 2,
                }),
                words: RUN,
                script: &[],
                status: 7,
                text: &["FAULT damaged 1 7 order\n"],
            },
            Play {
                spoil: Some(Spoil {
                    file: 5,
                    at: 1,
                    byte: 65,
                }),
                words: RUN,
                script: &[],
                status: 7,
                text: &["FAULT damaged 5 0 range\n"],
            },
            Play {
                spoil: Some(Spoil {
                    file: 0,
                    at: 2,
                    byte: 2,
                }),
                words: RUN,
                script: &[],
                status: 7,
                text: &["FAULT damaged 0 2 tag\n"],
            },
            Play {
                spoil: Some(Spoil {
                    file: 0,
                    at: 1,
                    byte: 2,
                }),
                words: RUN,
                script: &[],
                status: 7,
                text: &["FAULT damaged 0 1 format\n"],
            },
        ],
    },
    // The disk fails the first write of the storage log, which ends the run: no later line is played.
    Series {
        changes: &[18],
        looks: &[],
        plays: &[
            Play {
                spoil: None,
                words: RUN,
                script: &[
                    "TABLE a MEMORY id INT, v INT\n",
                    "TABLE c STORAGE id INT, v INT\n",
                    "1: BEGIN\n",
                    "1: INSERT INTO a VALUES (1, 10)\n",
                    "1: INSERT INTO c VALUES (1, 20)\n",
                    "1: COMMIT\n",
                    "FLUSH\n",
                    "1: SELECT * FROM a\n",
                ],
                status: 6,
                text: BROKEN_TEXT,
            },
            Play {
                spoil: None,
                words: RUN,
                script: READS,
                status: 0,
                text: NO_ROWS_TEXT,
            },
        ],
    },
    // It fails the sync of the gate: nobody is told, though the group is there.
    Series {
        changes: &[23],
        looks: &[],
        plays: &[
            Play {
                spoil: None,
                words: RUN,
                script: CROSS,
                status: 6,
                text: BROKEN_TEXT,
            },
            Play {
                spoil: None,
                words: RUN,
                script: READS,
                status: 0,
                text: READS_TEXT,
            },
        ],
    },
    // It fails before the run: the first sync of opening, and the first look at a file.
    Series {
        changes: &[1],
        looks: &[],
        plays: &[Play {
            spoil: None,
            words: RUN,
            script: CROSS,
            status: 6,
            text: &["FAULT device\n"],
        }],
    },
    Series {
        changes: &[],
        looks: &[1],
        plays: &[
            Play {
                spoil: None,
                words: RUN,
                script: CROSS,
                status: 6,
                text: &["FAULT device\n"],
            },
            Play {
                spoil: None,
                words: RUN,
                script: &[
                    "TABLE a MEMORY id INT, v INT\n",
                    "TABLE c STORAGE id INT, v INT\n",
                ],
                status: 0,
                text: &["FLUSH 0 0\n", "CUT 0 0\n"],
            },
        ],
    },
    // A counter that is spent stays so in the next run.
    Series {
        changes: &[],
        looks: &[],
        plays: &[
            Play {
                spoil: None,
                words: RUN,
                script: &[
                    "SET startm 2147483646\n",
                    "TABLE a MEMORY id INT, v INT\n",
                    "TABLE c STORAGE id INT, v INT\n",
                    "1: INSERT INTO a VALUES (1, 1)\n",
                    "1: INSERT INTO a VALUES (2, 2)\n",
                ],
                status: 0,
                text: &[
                    "1: COUNT 1\n",
                    "1: SPENT memory\n",
                    "ACK 1.1\n",
                    "FLUSH 2147483647 0\n",
                    "ORDER 1.1 2147483647 -\n",
                    "TX 1.1 memory 2147483646 - 0 committed 2147483647 - acked\n",
                    "TX 1.2 memory 2147483647 - 1 spent - - -\n",
                    "CUT 2147483647 0\n",
                ],
            },
            Play {
                spoil: None,
                words: RUN,
                script: &[
                    "1: INSERT INTO a VALUES (2, 2)\n",
                    "1: INSERT INTO c VALUES (2, 2)\n",
                    "1: SELECT * FROM a\n",
                    "1: SELECT * FROM c\n",
                ],
                status: 0,
                text: &[
                    "1: SPENT memory\n",
                    "1: COUNT 1\n",
                    "1: ROW 1, 1\n",
                    "1: ROWS 1\n",
                    "1: ROW 2, 2\n",
                    "1: ROWS 1\n",
                    "ACK 1.2\n",
                    "ACK 1.3\n",
                    "ACK 1.4\n",
                    "FLUSH 2147483647 1\n",
                    "ORDER 1.2 - 1\n",
                    "TX 1.1 memory 2147483647 - 0 spent - - -\n",
                    "TX 1.2 storage - 0 0 committed - 1 acked\n",
                    "TX 1.3 memory 2147483647 - 0 committed - - acked\n",
                    "TX 1.4 storage - 1 1 committed - - acked\n",
                    "CUT 2147483647 1\n",
                ],
            },
        ],
    },
];
