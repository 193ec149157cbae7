//! The files of a store: what they open as, and the calls that write them.
//!
//! `specs/Stores.antt` has the definition that all of it serves: `opens` says what the bytes of the files are as a store, or the
//! first field that is wrong. `docs/FORMATS.md` has the same as tables of bytes.
#![tactic(auto)]

mod appending;
mod ends;
mod fault;
mod image;
mod logged;
mod root;
mod spell;

pub use appending::{append_anchor, append_store, open_gate};
pub use ends::Ends;
pub use fault::LogFault;
pub use image::{empty_image, image_text};
pub use logged::{Head, Logged};
pub use root::{Root, entry_at, holding};
pub use sk_codec::{Fault, ReadFault, What};
pub use spell::{entry_text, group_text, put_body, put_records};

#[cfg(test)]
mod tests;
