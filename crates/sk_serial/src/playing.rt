//! The lines of a script, played one after another.

ghost use Rattle.std.specs.Prelude.{◌≡◌, ◌++◌, ◌≤◌, ◌<◌, length, true, false, IfOk, IfErr, IfSome};
ghost use Rattle.std.specs.List.{AllByRecursion};
ghost use Rattle.std.specs.Option.{option_copied};
ghost use Rattle.std.specs.String.{string_bytes};
ghost use Rattle.sk_script.specs.declared.script.Line.TheVariants as line;
ghost use Rattle.sk_script.specs.Limits.{most_sessions};
ghost use Rattle.sk_script.specs.Rules.{IsSession, session_in};
ghost use Rattle.sk_script.specs.Texts.{says_short};
ghost use Rattle.sk_text.specs.Text.{reply_lines, flush_text};
ghost use Rattle.sk_run.specs.Told.{IsShort};
ghost use Rattle.sk_run.specs.Kept.{IsKnown, KeepsOn, RefusesOn};
ghost use Rattle.sk_run.specs.Over.{OverStay, OneMoreBy};
ghost use Rattle.sk_serial.specs.Played as spec;
ghost use Rattle.sk_serial.specs.Saving.{Grows, Saves, saved_in};
ghost use Rattle.sk_serial.specs.Waiting.{needed, need_if, KeepsQueue, QueuesLast};
ghost use Rattle.sk_serial.specs.declared.run_fault.RunFault.TheVariants as run_fault;

use crate::flushing::{flush, is_broken};
use crate::halt::{Halt, starved};
use sk_chain::Engine;
use sk_cut::Teller;
use sk_device::Device;
use sk_durable::Durable;
use sk_mem::MemEngine;
use sk_model::{Ending, Need, Record, Reply};
use sk_outcome::FlushNote;
use sk_rows::{NoMemory, Statement};
use sk_run::Run;
use sk_script::{Line, ScriptLine, put_flush_lines, put_reply_lines};
use sk_session::Unanswered;
use sk_store::StoreEngine;
use std::alloc::Global;
use std::mem::drop;

/// A run under way, with its store and the text of what it has answered so far.
#[derive(Drop)]
pub(crate) struct Playing<D: Device + Drop, F: Teller + Drop> {
    pub(crate) run: Run,
    pub(crate) store: Durable<D, F>,
    pub(crate) text: String,
    /// What the last line of a session was answered.
    pub(crate) last: Option<Reply>,
    /// A STOP was played, or the disk failed: no line is played any more.
    pub(crate) ended: bool,
}

/// The greater of a snapshot and the number that was drawn behind it.
fn needed(snapshot: Option<u32>, drew: Option<u32>) -> Option<u32>
    ensures { result ≡ needed snapshot drew }
{
    match (snapshot, drew) {
        (Some(snapshot), Some(drew)) => Some(snapshot.max(drew)),
        (None, drew) => drew,
        (snapshot, None) => snapshot,
    }
}

/// What a committed transaction waits for.
fn need_of(transaction: &Record) -> Option<Need>
    ensures { result ≡ need_if transaction.now }
{
    match transaction.ending {
        Ending::Committed => Some(Need {
            label: transaction.label,
            mem: needed(transaction.mem, transaction.drew_mem),
            store: needed(transaction.store, transaction.drew_store),
        }),
        _ => None,
    }
}

/// Queues the need of the session's last transaction, where it has committed. One that was queued before is passed over.
pub(crate) fn queue_last<D: Device + Drop, F: Teller + Drop>(
    run: &Run,
    store: &mut Durable<D, F>,
    session: u16,
)
    requires known { IsKnown run.now session }
    requires reserved { 0 < store.old.reserved }
    ensures disk { store.new.disk ≡ store.old.disk }
    ensures open { store.new.broken ≡ store.old.broken }
    ensures saved { saved_in store.new ≡ saved_in store.old }
    ensures limit { store.new.logmax ≡ store.old.logmax }
    // With it everybody who committed waits or was told.
    ensures waits { QueuesLast run.now session store.old store.new }
{
    if let Some(record) = run.last_record(session) {
        if let Some(need) = need_of(record) {
            store.queue(need);
        }
    }
}

/// The store with a place for a need.
pub(crate) fn reserved<D: Device + Drop, F: Teller + Drop>(
    store: Durable<D, F>,
) -> Result<Durable<D, F>, Halt<D>>
    ensures place { IfOk result (λ s. 0 < s.reserved) }
    ensures disk { IfOk result (λ s. s.disk ≡ store.disk) }
    ensures open { IfOk result (λ s. s.broken ≡ store.broken) }
    ensures saved { IfOk result (λ s. saved_in s ≡ saved_in store) }
    ensures queue { IfOk result (λ s. KeepsQueue store s) }
    ensures limit { IfOk result (λ s. s.logmax ≡ store.logmax) }
    ensures halted { IfErr result (λ h. h.disk ≡ store.disk) }
    ensures starved { IfErr result (λ h. h.fault ≡ run_fault.NoMemory) }
{
    let mut store = store;
    match store.reserve() {
        Ok(()) => Ok(store),
        Err(_) => Err(starved(store)),
    }
}

/// What a statement of a session, or STEP, is answered, where it could be.
fn answered<D: Device + Drop, F: Teller + Drop>(
    alloc: Global,
    run: Run,
    store: Durable<D, F>,
    session: u16,
    statement: Option<&Statement>,
) -> Result<(Run, Durable<D, F>, Reply), Halt<D>>
    requires known { IsKnown run session }
    requires short { IsShort (option_copied statement) }
    ensures kept { IfOk result (λ all. KeepsOn ⟦<MemEngine as Engine>⟧.stands ⟦<StoreEngine as Engine>⟧.stands run session (option_copied statement.entry) all.0 all.2) }
    ensures refused { IfOk result (λ all. RefusesOn ⟦<MemEngine as Engine>⟧.stands ⟦<StoreEngine as Engine>⟧.stands run session (option_copied statement.entry) all.0 all.2) }
    ensures over { IfOk result (λ all. OverStay run all.0) }
    ensures one { IfOk result (λ all. OneMoreBy run session all.0) }
    ensures tables { IfOk result (λ all. all.0.catalog ≡ run.catalog) }
    ensures sessions { IfOk result (λ all. length all.0.sessions ≡ length run.sessions) }
    ensures store { IfOk result (λ all. all.1 ≡ store) }
    ensures halted { IfErr result (λ h. h.disk ≡ store.disk) }
    ensures starved { IfErr result (λ h. h.fault ≡ run_fault.NoMemory) }
{
    match run.line(alloc, session, statement) {
        Ok((run, reply)) => Ok((run, store, reply)),
        Err(Unanswered) => Err(starved(store)),
    }
}

/// The text with what a session was answered behind it.
fn with_reply(text: String, session: u16, reply: &Reply) -> Result<String, NoMemory>
    ensures { IfOk result (λ t. string_bytes t ≡ string_bytes text ++ reply_lines session reply.now) }
{
    let mut text = text;
    put_reply_lines(&mut text, session, reply)?;
    Ok(text)
}

/// The text with the lines of a flush behind it.
pub(crate) fn with_flush(text: String, note: &FlushNote) -> Result<String, NoMemory>
    ensures { IfOk result (λ t. string_bytes t ≡ string_bytes text ++ flush_text note.now) }
{
    let mut text = text;
    put_flush_lines(&mut text, note)?;
    Ok(text)
}

/// Plays a statement of a session, or STEP.
fn play_said<D: Device + Drop, F: Teller + Drop>(
    alloc: Global,
    playing: Playing<D, F>,
    session: u16,
    statement: Option<&Statement>,
) -> Result<Playing<D, F>, Halt<D>>
    requires known { IsKnown playing.run session }
    requires short { IsShort (option_copied statement) }
    requires open { (playing.ended ≡ false) × (playing.store.broken ≡ false) }
    ensures played { IfOk result (λ p. spec.PlaysNext D.disk ⟦<MemEngine as Engine>⟧.stands ⟦<StoreEngine as Engine>⟧.stands (spec.now playing.run (string_bytes playing.text) playing.store playing.last) (spec.line_of session (option_copied statement.entry)) (spec.now p.run (string_bytes p.text) p.store p.last) p.ended) }
    ensures saves { IfOk result (λ p. Saves D.disk D.faults playing.store p.store) }
    ensures open { IfOk result (λ p. (p.ended ≡ false) × (p.store.broken ≡ false)) }
    ensures sessions { IfOk result (λ p. length p.run.sessions ≡ length playing.run.sessions) }
    ensures halted { IfErr result (λ h. Grows D.disk D.faults playing.store.disk h.disk) }
    ensures starved { IfErr result (λ h. h.fault ≡ run_fault.NoMemory) }
{
    let Playing {
        run,
        store,
        text,
        last: _,
        ended,
    } = playing;
    let store = reserved(store)?;
    let (run, mut store, reply) = answered(alloc, run, store, session, statement)?;
    let text = match with_reply(text, session, &reply) {
        Ok(text) => text,
        Err(NoMemory) => return Err(starved(store)),
    };
    queue_last(&run, &mut store, session);
    Ok(Playing {
        run,
        store,
        text,
        last: Some(reply),
        ended,
    })
}

/// Plays FLUSH. Where the disk fails, no line is played behind it.
fn play_flush<D: Device + Drop, F: Teller + Drop>(
    alloc: Global,
    playing: Playing<D, F>,
) -> Result<Playing<D, F>, Halt<D>>
    requires open { playing.store.broken ≡ false }
    ensures played { IfOk result (λ p. spec.PlaysNext D.disk ⟦<MemEngine as Engine>⟧.stands ⟦<StoreEngine as Engine>⟧.stands (spec.now playing.run (string_bytes playing.text) playing.store playing.last) line.Flush (spec.now p.run (string_bytes p.text) p.store p.last) p.ended) }
    ensures saves { IfOk result (λ p. Saves D.disk D.faults playing.store p.store) }
    ensures open { IfOk result (λ p. p.ended ≡ p.store.broken) }
    ensures sessions { IfOk result (λ p. length p.run.sessions ≡ length playing.run.sessions) }
    ensures halted { IfErr result (λ h. Grows D.disk D.faults playing.store.disk h.disk) }
    ensures starved { IfErr result (λ h. h.fault ≡ run_fault.NoMemory) }
{
    let Playing {
        run,
        store,
        text,
        last,
        ..
    } = playing;
    let (run, store, note) = flush(alloc, run, store)?;
    let text = match with_flush(text, &note) {
        Ok(text) => text,
        Err(NoMemory) => return Err(starved(store)),
    };
    let ended = is_broken(&note);
    Ok(Playing {
        run,
        store,
        text,
        last,
        ended,
    })
}

fn stopped<D: Device + Drop, F: Teller + Drop>(playing: Playing<D, F>) -> Playing<D, F>
    ensures run { (result.run ≡ playing.run) × (result.text ≡ playing.text) × (result.last ≡ playing.last) }
    ensures store { result.store ≡ playing.store }
    ensures ended { result.ended ≡ true }
{
    let mut playing = playing;
    playing.ended = true;
    playing
}

/// Plays one line more.
fn play_line<D: Device + Drop, F: Teller + Drop>(
    alloc: Global,
    playing: Playing<D, F>,
    line: &ScriptLine,
) -> Result<Playing<D, F>, Halt<D>>
    requires session { IfSome (session_in line.now.what) IsSession }
    requires known { length playing.run.sessions ≡ most_sessions }
    requires short { says_short line.now.what ≡ true }
    requires open { (playing.ended ≡ false) × (playing.store.broken ≡ false) }
    ensures played { IfOk result (λ p. spec.PlaysNext D.disk ⟦<MemEngine as Engine>⟧.stands ⟦<StoreEngine as Engine>⟧.stands (spec.now playing.run (string_bytes playing.text) playing.store playing.last) line.now.what (spec.now p.run (string_bytes p.text) p.store p.last) p.ended) }
    ensures saves { IfOk result (λ p. Saves D.disk D.faults playing.store p.store) }
    ensures open { IfOk result (λ p. p.ended ≡ false → p.store.broken ≡ false) }
    ensures sessions { IfOk result (λ p. length p.run.sessions ≡ length playing.run.sessions) }
    ensures halted { IfErr result (λ h. Grows D.disk D.faults playing.store.disk h.disk) }
    ensures starved { IfErr result (λ h. h.fault ≡ run_fault.NoMemory) }
{
    match &line.what {
        Line::Says { session, statement } => play_said(alloc, playing, *session, Some(statement)),
        Line::Step { session } => play_said(alloc, playing, *session, None),
        Line::Flush => play_flush(alloc, playing),
        Line::Stop => Ok(stopped(playing)),
    }
}

/// Plays one line more, unless the run has ended.
fn play_or_pass<D: Device + Drop, F: Teller + Drop>(
    alloc: Global,
    playing: Playing<D, F>,
    line: &ScriptLine,
) -> Result<Playing<D, F>, Halt<D>>
    requires session { IfSome (session_in line.now.what) IsSession }
    requires known { length playing.run.sessions ≡ most_sessions }
    requires short { says_short line.now.what ≡ true }
    requires open { playing.ended ≡ false → playing.store.broken ≡ false }
    ensures passed { playing.ended ≡ true → IfOk result (λ p. p ≡ playing) }
    ensures played { playing.ended ≡ false → IfOk result (λ p. spec.PlaysNext D.disk ⟦<MemEngine as Engine>⟧.stands ⟦<StoreEngine as Engine>⟧.stands (spec.now playing.run (string_bytes playing.text) playing.store playing.last) line.now.what (spec.now p.run (string_bytes p.text) p.store p.last) p.ended) }
    ensures saves { IfOk result (λ p. Saves D.disk D.faults playing.store p.store) }
    ensures open { IfOk result (λ p. p.ended ≡ false → p.store.broken ≡ false) }
    ensures sessions { IfOk result (λ p. length p.run.sessions ≡ length playing.run.sessions) }
    ensures halted { IfErr result (λ h. Grows D.disk D.faults playing.store.disk h.disk) }
    ensures starved { IfErr result (λ h. h.fault ≡ run_fault.NoMemory) }
{
    if playing.ended {
        return Ok(playing);
    }
    play_line(alloc, playing, line)
}

/// Plays all lines, one after another, up to the one that ends the run.
pub(crate) fn play_lines<D: Device + Drop, F: Teller + Drop>(
    alloc: Global,
    begun: Playing<D, F>,
    lines: Vec<ScriptLine>,
) -> Result<Playing<D, F>, Halt<D>>
    requires sessions { AllByRecursion (λ l. IfSome (session_in l.what) IsSession) lines.items }
    requires texts { AllByRecursion (λ l. says_short l.what ≡ true) lines.items }
    requires known { length begun.run.sessions ≡ most_sessions }
    requires open { (begun.ended ≡ false) × (begun.store.broken ≡ false) }
    ensures played { IfOk result (λ p. spec.PlaysAll D.disk ⟦<MemEngine as Engine>⟧.stands ⟦<StoreEngine as Engine>⟧.stands (spec.now begun.run (string_bytes begun.text) begun.store begun.last) lines.items (spec.now p.run (string_bytes p.text) p.store p.last) p.ended) }
    ensures saves { IfOk result (λ p. Saves D.disk D.faults begun.store p.store) }
    ensures open { IfOk result (λ p. p.ended ≡ false → p.store.broken ≡ false) }
    ensures known { IfOk result (λ p. length p.run.sessions ≡ most_sessions) }
    ensures halted { IfErr result (λ h. Grows D.disk D.faults begun.store.disk h.disk) }
    ensures starved { IfErr result (λ h. h.fault ≡ run_fault.NoMemory) }
{
    let mut playing = begun;
    for line in lines {
        playing = match play_or_pass(alloc, playing, &line) {
            Ok(next) => next,
            Err(halt) => return Err(halt),
        };
        drop(line);
    }
    Ok(playing)
}
