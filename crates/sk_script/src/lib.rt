//! The grammar of scripts. The texts of what runs print, which `sk_text` has, are offered here too.
#![tactic(auto)]

mod body;
mod drawing;
mod generating;
mod header;
mod laws;
mod legible;
mod limits;
mod line;
mod options;
mod reading;
mod script;
mod settings;
mod words;

pub use generating::generate;
pub use laws::{bytes_are_read_by_the_grammar, faults_are_read_by_the_grammar};
pub use limits::MOST_SESSIONS;
pub use reading::read_script;
pub use script::{
    Line, OptionLine, OptionLineList, Script, ScriptFault, ScriptLine, ScriptLineList, TableLine,
    TableLineList,
};
pub use settings::Settings;
pub use sk_text::{put_flush_lines, put_reply_lines, put_report, put_script_fault};
pub use words::{place, transfers_of};

#[cfg(test)]
mod tests;
