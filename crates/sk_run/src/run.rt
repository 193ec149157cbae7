//! A run of sessions on one thread.

ghost use Rattle.std.specs.Prelude.{◌≡◌, ◌⊎◌, ◌++◌, [], true, IfOk, IfSome, None, length, map};
ghost use Rattle.std.specs.List.{range_with_len};
ghost use Rattle.std.specs.Option.{option_copied};
ghost use Rattle.sk_weave.specs.RegistryLaws.{CanStart};
ghost use Rattle.sk_store.specs.Loading.{AreOpeningRows};
ghost use Rattle.sk_session.specs.Starting.{fresh, records_now};
ghost use Rattle.sk_session.specs.Conversing.{Conversed};
ghost use Rattle.sk_session.specs.Printed.{LinePrints};
ghost use Rattle.sk_session.specs.Heard.{LineRefuses};
ghost use Rattle.sk_session.specs.Over.{OverStays, RestsStill};
ghost use Rattle.sk_shared.specs.Shared.{Answers};
ghost use Rattle.sk_run.specs.Told.{IsShort, AreRefused};
ghost use Rattle.sk_run.specs.Kept.{IsKnown, HasKept, KeepsOn, RefusesOn};
ghost use Rattle.sk_run.specs.Ended.{joined, Settles, HandsOut, Ends};
ghost use Rattle.sk_run.specs.Over.{
  AllRest,
  HasAllOver,
  HasOnlyOver,
  IsNewest,
  IsOver,
  NoneOver,
  OneMoreBy,
  OthersStay,
  OverStay,
  RestsAt,
  is_committing,
  last_record,
  session_at,
};
ghost use Rattle.sk_model.specs.declared.record.Ending.TheVariants as ending;

use crate::end_fault::EndFault;
use crate::ended::Ended;
use sk_chain::Engine;
use sk_ledger::order;
use sk_mem::MemEngine;
use sk_model::{ErrWord, Point, Record, RecordList, Reply, Tables};
use sk_places::places;
use sk_rows::{Catalog, NoMemory, Statement};
use sk_session::{Session, Unanswered};
use sk_shared::{Finished, Shared};
use sk_store::StoreEngine;
use std::alloc::Global;
use std::marker::Model;

/// The steps of the longest commit.
const MOST_STEPS: u32 = 7;

/// Sessions, numbered from 1 on, over both engines and one registry.
///
/// Contracts see its tables, its sessions and what they share.
#[derive(Drop)]
pub struct Run {
    pub(crate) catalog: Catalog,
    pub(crate) sessions: Vec<Session>,
    pub(crate) shared: Shared,
}

impl Model for Run {
    ghost use Rattle.std.specs.Coded.{codes};
    ghost use Rattle.sk_run.specs.State.{RunState};
    ghost use Rattle.sk_run.specs.Kept.{IsKept};
    ghost use Rattle.sk_session.specs.contracts.session.Session as session_row;
    ghost use Rattle.sk_shared.specs.contracts.shared.Shared as shared_row;

    ghost Value = { RunState };

    ghost coded = { Prim.hlevel (codes, session_row.the_row.coded, shared_row.the_row.coded) };

    ghost view = { λ run. record { catalog = run.catalog; sessions = run.sessions.items; shared = run.shared } };

    ghost invariant = { λ run. IsKept ⟦<MemEngine as Engine>⟧.stands ⟦<StoreEngine as Engine>⟧.stands (record { catalog = run.catalog; sessions = run.sessions.items; shared = run.shared }) };
}

/// So many sessions that have had no transaction.
fn fresh_sessions(alloc: Global, count: u16) -> Result<Vec<Session>, NoMemory>
    ensures { IfOk result (λ all. all.items ≡ map fresh (range_with_len 1 count)) }
{
    let mut all = Vec::new(alloc);
    for before in 0..count {
        all.push(Session::new(alloc, before + 1))?;
    }
    Ok(all)
}

/// These records, and others behind them.
fn with_records(all: RecordList, more: RecordList) -> Result<RecordList, NoMemory>
    ensures { IfOk result (λ both. both ≡ all ++ more) }
{
    let mut all = all;
    for record in more.into_vec() {
        all.push(record)?;
    }
    Ok(all)
}

/// The records of these sessions, one session after another.
fn records_of(alloc: Global, sessions: Vec<Session>) -> Result<RecordList, NoMemory>
    ensures { IfOk result (λ all. all ≡ joined (map records_now sessions.items)) }
{
    let mut all = RecordList::new(alloc);
    for session in sessions {
        all = with_records(all, session.into_records())?;
    }
    Ok(all)
}

/// Whether this was refused since a commit is between two of its steps.
fn is_committing(reply: &Reply) -> bool
    ensures { result ≡ is_committing reply.now }
{
    matches!(reply, Reply::Refused(ErrWord::Committing))
}

/// Answers a line of this session over what all share: a statement, or STEP where there is none.
fn answer_line(
    alloc: Global,
    speaker: &mut Session,
    catalog: &Catalog,
    shared: &mut Shared,
    statement: Option<&Statement>,
) -> Result<Reply, Unanswered>
    ensures calls { IfOk result (λ said. Conversed (Answers ⟦<MemEngine as Engine>⟧.stands ⟦<StoreEngine as Engine>⟧.stands) catalog.now speaker.old shared.old (option_copied statement.entry) speaker.new shared.new said) }
    ensures prints { IfOk result (λ said. LinePrints speaker.old (option_copied statement.entry) speaker.new said) }
    ensures refuses { IfOk result (λ said. LineRefuses catalog.now speaker.old (option_copied statement.entry) speaker.new said) }
    ensures over { IfOk result (λ said. OverStays speaker.old speaker.new) }
    ensures rests { option_copied statement.entry ≡ None → IfOk result (λ said. RestsStill speaker.old speaker.new) }
{
    match statement {
        Some(said) => speaker.line(alloc, catalog, shared, said),
        None => speaker.step(alloc, catalog, shared),
    }
}

impl Run {
    /// A run that begins with these rows, one list a table, and with so many sessions. Its registry has so many partitions of so many points each, and the numbers of both engines begin at this selection.
    pub fn new(
        alloc: Global,
        catalog: Catalog,
        rows: &Tables,
        partitions: u32,
        size: u32,
        start: Point,
        sessions: u16,
    ) -> Result<Run, NoMemory>
        requires start { CanStart partitions size start }
        requires rows { AreOpeningRows catalog rows.now }
        ensures kept { IfOk result (λ x. HasKept ⟦<MemEngine as Engine>⟧.stands ⟦<StoreEngine as Engine>⟧.stands (record { rows = rows.now; first = start }) [] [] x) }
        ensures refused { IfOk result (λ x. AreRefused x.catalog 1 [] x.sessions) }
        ensures tables { IfOk result (λ x. x.catalog ≡ catalog) }
        ensures sessions { IfOk result (λ x. length x.sessions ≡ sessions) }
        ensures over { IfOk result (λ x. NoneOver x) }
    {
        let shared = Shared::new(alloc, &catalog, rows, partitions, size, start)?;
        let sessions = fresh_sessions(alloc, sessions)?;
        Ok(Run {
            catalog,
            sessions,
            shared,
        })
    }

    /// Plays a line of this session: a statement, or STEP where there is none. Where a call of it could not be answered the run is at its end.
    pub fn line(
        self,
        alloc: Global,
        session: u16,
        statement: Option<&Statement>,
    ) -> Result<(Run, Reply), Unanswered>
        requires known { IsKnown self session }
        requires short { IsShort (option_copied statement) }
        ensures kept { IfOk result (λ all. KeepsOn ⟦<MemEngine as Engine>⟧.stands ⟦<StoreEngine as Engine>⟧.stands self session (option_copied statement.entry) all.0 all.1) }
        ensures refused { IfOk result (λ all. RefusesOn ⟦<MemEngine as Engine>⟧.stands ⟦<StoreEngine as Engine>⟧.stands self session (option_copied statement.entry) all.0 all.1) }
        ensures over { IfOk result (λ all. OverStay self all.0) }
        // Where one transaction more is over, it is the session's last.
        ensures one { IfOk result (λ all. OneMoreBy self session all.0) }
        ensures others { IfOk result (λ all. OthersStay self session all.0) }
        // A STEP between two transactions adds no record.
        ensures rests { option_copied statement.entry ≡ None → IfOk result (λ all. RestsStill (session_at self session) (session_at all.0 session)) }
        ensures tables { IfOk result (λ all. all.0.catalog ≡ self.catalog) }
        ensures sessions { IfOk result (λ all. length all.0.sessions ≡ length self.sessions) }
    {
        let Run {
            catalog,
            mut sessions,
            mut shared,
        } = self;
        let at = session as usize - 1;
        let reply = match sessions.get_mut(at) {
            Some(speaker) => answer_line(alloc, speaker, &catalog, &mut shared, statement)?,
            None => return Err(Unanswered),
        };
        let run = Run {
            catalog,
            sessions,
            shared,
        };
        Ok((run, reply))
    }

    /// How many sessions it has.
    pub fn sessions(&self) -> u16
        ensures { result ≡ length self.now.sessions }
    {
        self.sessions.len() as u16
    }

    /// The record of this session's last transaction: as it began where it is live, and else as it ended.
    pub fn last_record(&self, session: u16) -> Option<&Record>
        requires { IsKnown self.now session }
        ensures value { option_copied result ≡ last_record self.now session }
        // Where the transaction has committed it is over.
        ensures over { IfSome result (λ r. r.now.ending ≡ ending.Committed → IsOver self.now r.now) }
        // And no other of the session's is as new.
        ensures newest { IfSome result (λ r. r.now.ending ≡ ending.Committed → IsNewest self.now session r.now) }
    {
        let at = session as usize - 1;
        match self.sessions.get(at) {
            Some(speaker) => speaker.records().as_slice().last(),
            None => None,
        }
    }

    /// Leaves this session: a transaction that is open is rolled back. Where a commit is between two of its steps that is refused.
    fn leave(self, alloc: Global, session: u16) -> Result<(Run, Reply), Unanswered>
        requires { IsKnown self session }
        ensures kept { IfOk result (λ all. KeepsOn ⟦<MemEngine as Engine>⟧.stands ⟦<StoreEngine as Engine>⟧.stands self session None all.0 all.1) }
        ensures over { IfOk result (λ all. OverStay self all.0) }
        // Where one transaction more is over, it is the session's last.
        ensures one { IfOk result (λ all. OneMoreBy self session all.0) }
        ensures others { IfOk result (λ all. OthersStay self session all.0) }
        // Between two transactions it adds no record, and behind it there is none, unless it was refused.
        ensures rests { IfOk result (λ all. RestsStill (session_at self session) (session_at all.0 session)) }
        ensures left { IfOk result (λ all. RestsAt all.0 session ⊎ (is_committing all.1 ≡ true)) }
        ensures tables { IfOk result (λ all. all.0.catalog ≡ self.catalog) }
        ensures sessions { IfOk result (λ all. length all.0.sessions ≡ length self.sessions) }
    {
        let Run {
            catalog,
            mut sessions,
            mut shared,
        } = self;
        let at = session as usize - 1;
        let reply = match sessions.get_mut(at) {
            Some(speaker) => speaker.leave_with(alloc, &catalog, &mut shared)?,
            None => return Err(Unanswered),
        };
        let run = Run {
            catalog,
            sessions,
            shared,
        };
        Ok((run, reply))
    }

    /// Ends this session: a commit that is under way takes the steps that are left of it, and any other transaction is rolled back.
    pub fn settle(self, alloc: Global, session: u16) -> Result<Run, Unanswered>
        requires { IsKnown self session }
        ensures kept { IfOk result (λ run. Settles ⟦<MemEngine as Engine>⟧.stands ⟦<StoreEngine as Engine>⟧.stands self run) }
        ensures over { IfOk result (λ run. OverStay self run) }
        // Where one transaction more is over, it is the session's last.
        ensures one { IfOk result (λ run. OneMoreBy self session run) }
        ensures others { IfOk result (λ run. OthersStay self session run) }
        // It has no transaction then.
        ensures rests { IfOk result (λ run. RestsAt run session) }
        ensures tables { IfOk result (λ run. run.catalog ≡ self.catalog) }
        ensures sessions { IfOk result (λ run. length run.sessions ≡ length self.sessions) }
    {
        let mut run = self;
        for _ in 0..=MOST_STEPS {
            let (left, reply) = run.leave(alloc, session)?;
            if !is_committing(&reply) {
                return Ok(left);
            }
            let (stepped, _) = left.line(alloc, session, None)?;
            run = stepped;
        }
        Err(Unanswered)
    }

    /// Ends all sessions, by number.
    fn settle_all(self, alloc: Global) -> Result<Run, Unanswered>
        ensures kept { IfOk result (λ run. Settles ⟦<MemEngine as Engine>⟧.stands ⟦<StoreEngine as Engine>⟧.stands self run) }
        ensures over { IfOk result (λ run. OverStay self run) }
        ensures tables { IfOk result (λ run. run.catalog ≡ self.catalog) }
    {
        let count = self.sessions.len();
        let mut run = self;
        for before in 0..count {
            run = run.settle(alloc, before as u16 + 1)?;
        }
        Ok(run)
    }

    /// Ends all sessions, and hands out what the run has come to. It is refused for memory; and where a call that ends a session could not be answered.
    pub fn finish(self, alloc: Global) -> Result<Ended, EndFault>
        ensures ends { IfOk result (λ x. Ends ⟦<MemEngine as Engine>⟧.stands ⟦<StoreEngine as Engine>⟧.stands self x) }
        ensures over { IfOk result (λ x. HasAllOver self x.records) }
    {
        match self.settle_all(alloc) {
            Ok(run) => run.hand_out(alloc),
            Err(Unanswered) => Err(EndFault::Unanswered),
        }
    }

    /// What the run has come to.
    pub fn hand_out(self, alloc: Global) -> Result<Ended, EndFault>
        ensures hands_out { IfOk result (λ x. HandsOut ⟦<MemEngine as Engine>⟧.stands ⟦<StoreEngine as Engine>⟧.stands self x) }
        ensures over { IfOk result (λ x. HasAllOver self x.records) }
        // Where no session has a transaction, there are no others.
        ensures only { AllRest self → IfOk result (λ x. HasOnlyOver self x.records) }
    {
        let Run {
            sessions,
            shared,
            ..
        } = self;
        let records = records_of(alloc, sessions)?;
        let Finished {
            mem_journal,
            store_journal,
            points,
            ..
        } = shared.into_parts();
        let order = order(
            alloc,
            &mem_journal,
            &store_journal,
            points.as_slice(),
            records.as_slice(),
        )?;
        if order.len() > u32::MAX as usize {
            return Err(EndFault::NoMemory);
        }
        let places = places(alloc, order.as_slice(), records.as_slice())?;
        Ok(Ended {
            records,
            order,
            places,
            mem: mem_journal,
            store: store_journal,
            points,
        })
    }
}
