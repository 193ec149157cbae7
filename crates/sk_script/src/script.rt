//! What a script is.

use sk_rows::{List, NoMemory, Statement, Table, Txt};

/// A line that makes a table.
#[derive(Drop)]
pub struct TableLine {
    /// The line's number in the script, counted from 1.
    pub line: u32,
    /// The table.
    pub table: Table,
}

/// Lines that make tables, in the order of the script.
pub type TableLineList = List<TableLine>;

/// A line that sets an option.
#[derive(Drop)]
pub struct OptionLine {
    /// The line's number in the script, counted from 1.
    pub line: u32,
    /// The option's name.
    pub name: Txt,
    /// The number that it is set to.
    pub number: u32,
}

/// Lines that set options, in the order of the script.
pub type OptionLineList = List<OptionLine>;

/// What a line behind the tables and the options says.
#[derive(Drop)]
pub enum Line {
    /// A session says a statement.
    Says {
        /// The session's number.
        session: u16,
        /// What it says.
        statement: Statement,
    },
    /// A session takes one step of its commit.
    Step {
        /// The session's number.
        session: u16,
    },
    /// What was committed is made durable.
    Flush,
    /// The run stops. Lines behind this one are read and not played.
    Stop,
}

/// A line behind the tables and the options.
#[derive(Drop)]
pub struct ScriptLine {
    /// The line's number in the script, counted from 1.
    pub line: u32,
    /// What it says.
    pub what: Line,
}

/// Lines behind the tables and the options, in the order of the script.
pub type ScriptLineList = List<ScriptLine>;

/// A script. Lines that are passed over are left out of it, and counted in the numbers of the others.
#[derive(Drop)]
pub struct Script {
    /// Its tables.
    pub tables: TableLineList,
    /// The options that it sets.
    pub options: OptionLineList,
    /// Its lines behind these.
    pub lines: ScriptLineList,
}

/// Why bytes are no script.
#[derive(Clone, Copy, Debug, PartialEq, Eq)]
pub enum ScriptFault {
    /// The first fault.
    At {
        /// Its line, counted from 1.
        line: u32,
        /// Its column in the line, counted from 1. The one behind the line's end is where more was to come.
        place: u32,
    },
    /// Memory was wanted and refused.
    NoMemory,
}

impl From<NoMemory> for ScriptFault {
    ghost use Rattle.std.specs.Prelude.{◌≡◌};
    ghost use Rattle.sk_script.specs.declared.script.ScriptFault.TheVariants as fault;

    ghost from_gives = { λ _ e. e ≡ fault.NoMemory };

    fn from(_e: NoMemory) -> ScriptFault {
        ScriptFault::NoMemory
    }
}
