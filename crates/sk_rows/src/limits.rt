//! The limits of texts, rows, tables and catalogs.

/// The longest text, in bytes without its quotes.
pub const LONGEST_TEXT: usize = 255;

/// The longest row, in the bytes that it takes in a file.
pub const LONGEST_ROW: usize = 1024;

/// The most columns of a table.
pub const MOST_COLUMNS: usize = 16;

/// The most tables of a catalog.
pub const MOST_TABLES: usize = 64;
