//! Copies of events and replies, and of lists whose items are copied as they are.

ghost use Rattle.std.specs.Prelude.{◌≡◌, ◌++◌, ◌∷◌, IfOk};

use sk_linked::{CoreReply, Did, DidList, Event};
use sk_rows::{Copies, List, NoMemory};
use std::alloc::Global;

/// A list of the same items.
pub(crate) fn same_items<T: Copy>(alloc: Global, items: &[T]) -> Result<List<T>, NoMemory>
    ensures { IfOk result (λ list. list ≡ items.now) }
{
    let mut out = Vec::new(alloc);
    for item in items {
        out.push(*item)?;
    }
    Ok(List::from_vec(out))
}

/// An event that equals the given one.
pub(crate) fn same_event(alloc: Global, event: &Event) -> Result<Event, NoMemory>
    ensures { IfOk result (λ e. e ≡ event.now) }
{
    match event {
        Event::Begin { tx, kind } => Ok(Event::Begin {
            tx: *tx,
            kind: *kind,
        }),
        Event::Select { tx } => Ok(Event::Select { tx: *tx }),
        Event::OpenStore { tx } => Ok(Event::OpenStore { tx: *tx }),
        Event::Read { tx, table, key } => Ok(Event::Read {
            tx: *tx,
            table: *table,
            key: key.copy(alloc)?,
        }),
        Event::Put { tx, write } => Ok(Event::Put {
            tx: *tx,
            write: write.copy(alloc)?,
        }),
        Event::Close { tx, engine } => Ok(Event::Close {
            tx: *tx,
            engine: *engine,
        }),
        Event::Draw { tx, engine } => Ok(Event::Draw {
            tx: *tx,
            engine: *engine,
        }),
        Event::Check { tx } => Ok(Event::Check { tx: *tx }),
        Event::Stamp { tx, engine } => Ok(Event::Stamp {
            tx: *tx,
            engine: *engine,
        }),
        Event::Leave { tx, engine } => Ok(Event::Leave {
            tx: *tx,
            engine: *engine,
        }),
        Event::Cut => Ok(Event::Cut),
        Event::FlushStep => Ok(Event::FlushStep),
        Event::Purge { engine } => Ok(Event::Purge { engine: *engine }),
        Event::Stop => Ok(Event::Stop),
        Event::Reopen => Ok(Event::Reopen),
    }
}

/// A reply that equals the given one.
pub(crate) fn same_reply(alloc: Global, reply: &CoreReply) -> Result<CoreReply, NoMemory>
    ensures { IfOk result (λ r. r ≡ reply.now) }
{
    match reply {
        CoreReply::Done => Ok(CoreReply::Done),
        CoreReply::Number(n) => Ok(CoreReply::Number(*n)),
        CoreReply::Rows(rows) => Ok(CoreReply::Rows(rows.copy(alloc)?)),
        CoreReply::Point(point) => Ok(CoreReply::Point(*point)),
        CoreReply::Refused(fault) => Ok(CoreReply::Refused(*fault)),
        CoreReply::CheckFailed(point) => Ok(CoreReply::CheckFailed(*point)),
        CoreReply::Recycled(recycled) => Ok(CoreReply::Recycled(*recycled)),
        CoreReply::Spent => Ok(CoreReply::Spent),
        CoreReply::NotNow => Ok(CoreReply::NotNow),
        CoreReply::NoMemory => Ok(CoreReply::NoMemory),
    }
}

/// A list of the same events with their replies.
pub(crate) fn same_did(alloc: Global, items: &[Did]) -> Result<DidList, NoMemory>
    ensures { IfOk result (λ list. list ≡ items.now) }
{
    let mut out = Vec::new(alloc);
    for item in items {
        out.push(Did {
            event: same_event(alloc, &item.event)?,
            reply: same_reply(alloc, &item.reply)?,
        })?;
    }
    Ok(List::from_vec(out))
}
