//! Which replies the database itself gives, and whether two of them are one.

ghost use Rattle.std.specs.Prelude.{◌≡◌, ◌↔◌, IsTrue, true};
ghost use Rattle.sk_model.specs.declared.reply.Reply.TheVariants as replies;
ghost use Rattle.sk_model.specs.Replies as spec;

use crate::sameness::are_same_rows;
use sk_model::{ErrWord, Reply, RowList};

fn is_judged_word(word: ErrWord) -> bool
    ensures { result ≡ spec.is_judged_word word }
{
    matches!(
        word,
        ErrWord::Table
            | ErrWord::Column
            | ErrWord::Key
            | ErrWord::Type
            | ErrWord::Overflow
            | ErrWord::Duplicate
            | ErrWord::Size
    )
}

/// Whether the database itself gives such a reply.
pub(crate) fn is_judged(reply: &Reply) -> bool
    ensures { result ≡ spec.is_judged reply.now }
{
    match reply {
        Reply::Count(_) | Reply::Rows(_) => true,
        Reply::Refused(word) => is_judged_word(*word),
        _ => false,
    }
}

pub(crate) fn is_count(reply: &Reply) -> bool
    ensures { result ≡ spec.is_count reply.now }
{
    matches!(reply, Reply::Count(_))
}

fn counts(reply: &Reply, count: u32) -> bool
    ensures { IsTrue result ↔ (reply.now ≡ replies.Count count) }
{
    matches!(reply, Reply::Count(n) if *n == count)
}

fn gives_rows(reply: &Reply, rows: &RowList) -> bool
    ensures { IsTrue result ↔ (reply.now ≡ replies.Rows rows.now) }
{
    match reply {
        Reply::Rows(found) => are_same_rows(found.as_slice(), rows.as_slice()),
        _ => false,
    }
}

fn refuses(reply: &Reply, word: ErrWord) -> bool
    ensures { IsTrue result ↔ (reply.now ≡ replies.Refused word) }
{
    matches!(reply, Reply::Refused(other) if *other == word)
}

/// Whether the two replies are one, where the second is one that the database gives.
pub(crate) fn is_same(found: &Reply, said: &Reply) -> bool
    ensures { spec.is_judged said.now ≡ true → (IsTrue result ↔ (found.now ≡ said.now)) }
{
    match said {
        Reply::Count(n) => counts(found, *n),
        Reply::Rows(rows) => gives_rows(found, rows),
        Reply::Refused(word) => refuses(found, *word),
        _ => false,
    }
}
