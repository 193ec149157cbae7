//! Cuts a line into tokens.
#![tactic(auto)]

mod front;
mod laws;
mod scanning;
mod token;

pub use laws::{printed_words_are_read, tokens_are_printable};
pub use scanning::{ScanFault, Scanned, scan, tokens};
pub use token::{Keyword, LexFault, Token, TokenList, WORDS, Word};

#[cfg(test)]
mod tests;
