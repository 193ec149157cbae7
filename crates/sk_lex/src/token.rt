//! Tokens.

use sk_rows::{List, NoMemory, Txt};

/// The keywords of scripts and statements.
#[derive(Clone, Copy, Debug, PartialEq, Eq)]
pub enum Keyword {
    /// `TABLE`
    Table,
    /// `SET`
    Set,
    /// `MEMORY`
    Memory,
    /// `STORAGE`
    Storage,
    /// `INT`
    Int,
    /// `TEXT`
    Text,
    /// `BOOL`
    Bool,
    /// `STEP`
    Step,
    /// `FLUSH`
    Flush,
    /// `CHECKPOINT`
    Checkpoint,
    /// `STOP`
    Stop,
    /// `BEGIN`
    Begin,
    /// `COMMIT`
    Commit,
    /// `ROLLBACK`
    Rollback,
    /// `INSERT`
    Insert,
    /// `INTO`
    Into,
    /// `VALUES`
    Values,
    /// `SELECT`
    Select,
    /// `FROM`
    From,
    /// `WHERE`
    Where,
    /// `UPDATE`
    Update,
    /// `DELETE`
    Delete,
    /// `OR`
    Or,
    /// `AND`
    And,
    /// `NOT`
    Not,
    /// `TRUE`
    True,
    /// `FALSE`
    False,
}

/// How the keywords are spelled, in any mixture of cases.
pub const WORDS: [(&[u8], Keyword); 27] = [
    (b"table", Keyword::Table),
    (b"set", Keyword::Set),
    (b"memory", Keyword::Memory),
    (b"storage", Keyword::Storage),
    (b"int", Keyword::Int),
    (b"text", Keyword::Text),
    (b"bool", Keyword::Bool),
    (b"step", Keyword::Step),
    (b"flush", Keyword::Flush),
    (b"checkpoint", Keyword::Checkpoint),
    (b"stop", Keyword::Stop),
    (b"begin", Keyword::Begin),
    (b"commit", Keyword::Commit),
    (b"rollback", Keyword::Rollback),
    (b"insert", Keyword::Insert),
    (b"into", Keyword::Into),
    (b"values", Keyword::Values),
    (b"select", Keyword::Select),
    (b"from", Keyword::From),
    (b"where", Keyword::Where),
    (b"update", Keyword::Update),
    (b"delete", Keyword::Delete),
    (b"or", Keyword::Or),
    (b"and", Keyword::And),
    (b"not", Keyword::Not),
    (b"true", Keyword::True),
    (b"false", Keyword::False),
];

/// What a token says.
#[derive(Debug, Drop)]
pub enum Word {
    /// A keyword, in any mixture of cases.
    Key(Keyword),
    /// Any other word of letters of either case, digits and `_`: not each of them is a good name.
    Name(Txt),
    /// A number without a sign.
    Number(u64),
    /// What stands between single quotes, where two quotes mean one.
    Text(Txt),
    /// One or two bytes, the second 0 where there is one.
    Mark(u8, u8),
}

/// A word with its bytes in the line, `from` to `to`, both counted from 0, the second left out.
#[derive(Debug, Drop)]
pub struct Token {
    /// What it says.
    pub word: Word,
    /// Where it begins.
    pub from: u32,
    /// The place behind its last byte.
    pub to: u32,
}

/// Tokens in the order of a line.
pub type TokenList = List<Token>;

/// The first fault of a line. Places are counted from 1.
#[derive(Clone, Copy, Debug, PartialEq, Eq)]
pub enum LexFault {
    /// A byte that begins no token or may not stand in a text, or the first digit of a number past 64 bits.
    BadByte {
        /// Where it stands.
        place: u32,
    },
    /// A text that is not ended.
    OpenText {
        /// Where its quote stands.
        place: u32,
    },
    /// Memory was wanted and refused.
    NoMemory,
}

impl From<NoMemory> for LexFault {
    ghost use Rattle.std.specs.Prelude.{◌≡◌};
    ghost use Rattle.sk_lex.specs.declared.token.LexFault.TheVariants as fault;

    ghost from_gives = { λ _ e. e ≡ fault.NoMemory };

    fn from(_e: NoMemory) -> LexFault {
        LexFault::NoMemory
    }
}
