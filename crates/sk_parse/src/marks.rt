//! The marks that the grammar asks for.

use crate::cursor::Sign;

/// `(`
pub const OPEN: Sign = Sign::Mark(b'(', 0);

/// `)`
pub const CLOSE: Sign = Sign::Mark(b')', 0);

/// `*`, for all columns.
pub const STAR: Sign = Sign::Mark(b'*', 0);

/// `,`
pub const COMMA: Sign = Sign::Mark(b',', 0);

/// `-`, before a negative literal.
pub const MINUS: Sign = Sign::Mark(b'-', 0);

/// `=`
pub const EQUALS: Sign = Sign::Mark(b'=', 0);
