//! One session.

ghost use Rattle.std.specs.Prelude.{◌≡◌, ◌+◌, [], IfOk, IfErr, IfSome};
ghost use Rattle.sk_session.specs.Moving as spec;
ghost use Rattle.sk_session.specs.Moving.{Either, InsideTable, StartsInside, OutsideTable, StartsOutside, StartsAt, TakesAt};
ghost use Rattle.sk_session.specs.EachTalk.{StartTalks, TakeTalks, LeaveTalks, TalksNow};
ghost use Rattle.sk_session.specs.Conversing.{puts_done};
ghost use Rattle.sk_session.specs.Facts.{TakeFacts, StartFacts, LeaveFacts, TakeOpens, StartOpens};
ghost use Rattle.sk_session.specs.Printed.{HasPrinted, StartPrints, TakePrints, LeavePrints};
ghost use Rattle.sk_session.specs.Starting.{Starts, Takes, Leaves, StartRefuses, StartKeeps, TakeKeeps, LeaveKeeps, fresh, records_in, records_now};
ghost use Rattle.sk_model.specs.declared.reply.ErrWord.TheVariants.{Memory};
ghost use Rattle.std.specs.Option.{option_copied};

use crate::beginning::{begins, judged_outside};
use crate::committing::{ask_step, commits};
use crate::ending::{give_up, records_at, starve};
use crate::live::{At, Job, Live, Moved};
use crate::naming::{engine_kind, kind_begun};
use crate::speaking::inside;
use crate::taking::goes;
use crate::turn::Turn;
use crate::twin::Twin;
use sk_commit::{Committing, Got};
use sk_model::{Ending, ErrWord, Label, RecordList, Reply, TxKind};
use sk_rows::{Catalog, Copies, NoMemory, Statement};
use std::alloc::Global;
use std::mem::replace;

/// One session: the records of its transactions, and where it stands.
#[derive(Drop)]
pub struct Session {
    number: u16,
    /// One record a label; that of a transaction that is live is as it began.
    records: RecordList,
    at: At,
}

fn stays(records: RecordList, at: At, reply: Reply) -> Moved
    ensures { result ≡ spec.stays records at reply }
{
    Moved {
        records,
        at,
        turn: Turn::Said(reply),
    }
}

fn refuses(records: RecordList, at: At, word: ErrWord) -> Moved
    ensures { result ≡ spec.refuses records at word }
{
    stays(records, at, Reply::Refused(word))
}

fn rolled_back() -> Twin
    ensures { result ≡ spec.rolled_back }
{
    Twin::new(Reply::RolledBack, Reply::RolledBack)
}

/// The transaction with the statement that is answered now.
fn says(live: Live, statement: Statement) -> Live
    ensures { result ≡ spec.says live statement }
{
    let mut live = live;
    live.statement = Some(statement);
    live
}

/// Behind a transaction that was lost.
fn start_ended(records: RecordList, statement: Option<&Statement>) -> Moved
    ensures { result ≡ spec.start_ended records (option_copied statement.entry) }
{
    match statement {
        Some(Statement::Commit | Statement::Rollback) => {
            stays(records, At::Outside, Reply::RolledBack)
        }
        _ => refuses(records, At::Ended, ErrWord::Ended),
    }
}

/// Between two steps of a commit.
fn start_stepping(
    records: RecordList,
    live: Live,
    c: Committing,
    statement: Option<&Statement>,
) -> Moved
    ensures { result ≡ spec.start_stepping records live c (option_copied statement.entry) }
{
    match statement {
        None => ask_step(records, live, c, false, None),
        Some(Statement::Commit) => ask_step(records, says(live, Statement::Commit), c, true, None),
        Some(_) => refuses(records, At::Stepping(live, c), ErrWord::Committing),
    }
}

/// A statement inside a transaction that a table answers.
fn start_table(
    alloc: Global,
    catalog: &Catalog,
    records: RecordList,
    live: Live,
    statement: &Statement,
) -> Moved
    ensures { InsideTable catalog.now records live statement.now result }
{
    match statement.copy(alloc) {
        Err(NoMemory) => starve(records, live),
        Ok(statement) => inside(alloc, catalog, records, says(live, statement)),
    }
}

/// Inside a transaction, between two statements.
fn start_inside(
    alloc: Global,
    catalog: &Catalog,
    records: RecordList,
    live: Live,
    statement: Option<&Statement>,
) -> Moved
    ensures { StartsInside catalog.now records live (option_copied statement.entry) result }
{
    match statement {
        None => commits(records, live, false, None),
        Some(Statement::Begin(_)) => refuses(records, At::Inside(live), ErrWord::InTransaction),
        Some(Statement::Commit) => commits(records, says(live, Statement::Commit), true, None),
        Some(Statement::Rollback) => give_up(
            records,
            says(live, Statement::Rollback),
            Ending::RolledBack,
            rolled_back(),
            false,
        ),
        Some(statement) => start_table(alloc, catalog, records, live, statement),
    }
}

fn label_after(number: u16, records: &RecordList) -> Option<Label>
    ensures { IfSome result (λ label. label ≡ spec.label_after number records.now) }
{
    let count = u32::try_from(records.len()).ok()?;
    let k = count.checked_add(1)?;
    Some(Label { session: number, k })
}

/// A transaction begins with this statement, where there is a label and memory for it. Else the records are handed back.
fn start_begin(
    alloc: Global,
    number: u16,
    records: RecordList,
    kind: TxKind,
    small: bool,
    statement: &Statement,
) -> Result<Moved, RecordList>
    ensures ok { IfOk result (λ moved. moved ≡ spec.begins records (spec.label_after number records) kind small statement.now) }
    ensures err { IfErr result (λ back. back ≡ records) }
{
    match (label_after(number, &records), statement.copy(alloc)) {
        (Some(label), Ok(statement)) => begins(alloc, records, label, kind, small, statement),
        _ => Err(records),
    }
}

/// A transaction begins, or the session stands there, where memory was wanted.
fn begin_or(
    alloc: Global,
    number: u16,
    records: RecordList,
    kind: TxKind,
    small: bool,
    statement: &Statement,
    there: At,
) -> Moved
    ensures { Either (spec.begins records (spec.label_after number records) kind small statement.now) (spec.refuses records there Memory) result }
{
    match start_begin(alloc, number, records, kind, small, statement) {
        Ok(moved) => moved,
        Err(records) => refuses(records, there, ErrWord::Memory),
    }
}

/// A statement outside a transaction that a table answers.
fn start_small(
    alloc: Global,
    catalog: &Catalog,
    number: u16,
    records: RecordList,
    statement: &Statement,
) -> Moved
    ensures { OutsideTable number records statement.now (spec.judged_outside catalog.now statement.now) result }
{
    match judged_outside(catalog, statement) {
        Err(word) => refuses(records, At::Outside, word),
        Ok(engine) => begin_or(
            alloc,
            number,
            records,
            engine_kind(engine),
            true,
            statement,
            At::Outside,
        ),
    }
}

/// Outside a transaction.
fn start_outside(
    alloc: Global,
    catalog: &Catalog,
    number: u16,
    records: RecordList,
    statement: Option<&Statement>,
) -> Moved
    ensures { StartsOutside catalog.now number records (option_copied statement.entry) result }
{
    match statement {
        None | Some(Statement::Commit | Statement::Rollback) => {
            refuses(records, At::Outside, ErrWord::NoTransaction)
        }
        Some(Statement::Begin(begun)) => begin_or(
            alloc,
            number,
            records,
            kind_begun(*begun),
            false,
            &Statement::Begin(*begun),
            At::Ended,
        ),
        Some(statement) => start_small(alloc, catalog, number, records, statement),
    }
}

/// What a statement makes of a session that stands there.
fn start_at(
    alloc: Global,
    catalog: &Catalog,
    number: u16,
    records: RecordList,
    at: At,
    statement: Option<&Statement>,
) -> Moved
    ensures { StartsAt catalog.now number records at (option_copied statement.entry) result }
{
    match at {
        At::Outside => start_outside(alloc, catalog, number, records, statement),
        At::Inside(live) => start_inside(alloc, catalog, records, live, statement),
        At::Stepping(live, c) => start_stepping(records, live, c, statement),
        At::Ended => start_ended(records, statement),
        At::Asking(live, job) => { refuses(records, At::Asking(live, job), ErrWord::Committing) }
    }
}

/// What an answer makes of a session that stands there.
fn take_at(alloc: Global, catalog: &Catalog, records: RecordList, at: At, got: Got) -> Moved
    ensures { TakesAt catalog.now records at got result }
{
    match at {
        At::Asking(live, job) => goes(alloc, catalog, records, live, job, got),
        at => refuses(records, at, ErrWord::Committing),
    }
}

/// What a session that stands there does as it is left.
fn leave_at(records: RecordList, at: At) -> Moved
    ensures { result ≡ spec.leave_at records at }
{
    match at {
        At::Inside(live) => give_up(records, live, Ending::RolledBack, rolled_back(), false),
        At::Outside | At::Ended => stays(records, At::Outside, Reply::RolledBack),
        at => refuses(records, at, ErrWord::Committing),
    }
}

impl Session {
    /// A session of this number, which has had no transaction.
    #[tactic(auto, using(crate::proofs::Printing::new_printed))]
    pub fn new(alloc: Global, number: u16) -> Session
        ensures value { result ≡ fresh number }

        // It was told no line.
        ensures prints { HasPrinted [] result }
    {
        Session {
            number,
            records: RecordList::new(alloc),
            at: At::Outside,
        }
    }

    fn moves(&mut self, moved: Moved) -> Turn
        ensures session { self.new ≡ record { number = self.old.number; records = moved.records; at = moved.at } }
        ensures turn { result ≡ moved.turn }
    {
        let Moved { records, at, turn } = moved;
        self.records = records;
        self.at = at;
        turn
    }

    fn start_statement(
        &mut self,
        alloc: Global,
        catalog: &Catalog,
        statement: Option<&Statement>,
    ) -> Turn
        ensures { Starts catalog.now self.old (option_copied statement.entry) self.new result }
    {
        let number = self.number;
        let records = replace(&mut self.records, RecordList::new(alloc));
        let at = replace(&mut self.at, At::Outside);
        let moved = start_at(alloc, catalog, number, records, at, statement);
        self.moves(moved)
    }

    /// Begins to answer a statement, or STEP where there is none.
    #[tactic(auto, using(crate::proofs::Left::starts_keep, crate::proofs::Refused::refused_by_table, crate::proofs::Changed::start_facts, crate::proofs::Changed::start_opens))]
    pub fn start(&mut self, alloc: Global, catalog: &Catalog, statement: Option<&Statement>) -> Turn
        ensures moves { Starts catalog.now self.old (option_copied statement.entry) self.new result }

        // What the table of refusals refuses asks for nothing, and is answered so.
        ensures refuses { StartRefuses catalog.now self.old (option_copied statement.entry) self.new result }

        // The calls that the transaction has made stay its own, and what is asked for next is what the statement asks for behind them.
        ensures keeps { StartKeeps catalog.now self.old self.new result }

        // Each record has its talk, as before; a transaction that begins has made no call.
        ensures talks { StartTalks catalog.now self.old self.new }

        // What the records say of their transactions stays; one that begins has the next label, and has done nothing.
        ensures facts { StartFacts self.old self.new }

        // It asks for no opening.
        ensures opens { StartOpens catalog.now self.old self.new }

        // Its records say what they said, until the line is answered.
        ensures prints { StartPrints self.old (option_copied statement.entry) self.new result }
    {
        self.start_statement(alloc, catalog, statement)
    }

    fn take_answer(&mut self, alloc: Global, catalog: &Catalog, got: Got) -> Turn
        ensures { Takes catalog.now self.old got self.new result }
    {
        let records = replace(&mut self.records, RecordList::new(alloc));
        let at = replace(&mut self.at, At::Outside);
        let moved = take_at(alloc, catalog, records, at, got);
        self.moves(moved)
    }

    /// Goes on with the answer to the call that it has asked for. Behind the first step of a commit, and as openings are ended, it takes no memory.
    #[tactic(auto, using(crate::proofs::Taken::takes_keep, crate::proofs::Changed::take_facts, crate::proofs::Changed::take_opens))]
    pub fn take(&mut self, alloc: Global, catalog: &Catalog, got: Got) -> Turn
        ensures moves { Takes catalog.now self.old got self.new result }

        // An answer of the kind that was asked for adds to the calls of the transaction just the one that was made, and the record that comes of them has just these.
        ensures keeps { TakeKeeps catalog.now self.old got self.new result }

        // Each record has its talk, the last one with the call that was made.
        ensures talks { TakeTalks catalog.now self.old got self.new }

        // What the last record says of its transaction changes by what the answer says, and nothing else does.
        ensures facts { TakeFacts catalog.now self.old got self.new }

        // An opening is asked for right behind the answer that gave its number.
        ensures opens { TakeOpens catalog.now self.old got self.new }

        // Its records say what they said, until the line is answered; then they say what the line adds.
        ensures prints { TakePrints self.old got self.new result }
    {
        self.take_answer(alloc, catalog, got)
    }

    fn leave_now(&mut self, alloc: Global) -> Turn
        ensures { Leaves self.old self.new result }
    {
        let records = replace(&mut self.records, RecordList::new(alloc));
        let at = replace(&mut self.at, At::Outside);
        let moved = leave_at(records, at);
        self.moves(moved)
    }

    /// Leaves the session: a transaction that is open is rolled back, and no statement of it. It takes no memory.
    #[tactic(auto, using(crate::proofs::Left::leave_keeps))]
    pub fn leave(&mut self, alloc: Global) -> Turn
        ensures moves { Leaves self.old self.new result }

        // The calls of the transaction are kept.
        ensures keeps { LeaveKeeps self.old self.new result }

        // Each record has its talk, as before.
        ensures talks { LeaveTalks self.old self.new }

        // What the records say of their transactions stays.
        ensures facts { LeaveFacts self.old self.new }

        // Leaving adds no statement.
        ensures prints { LeavePrints self.old self.new result }
    {
        self.leave_now(alloc)
    }

    /// How many writes of the statement that is being answered were put.
    pub(crate) fn puts_done(&self) -> usize
        ensures { result ≡ puts_done self.now.at }
    {
        match &self.at {
            At::Asking(_, Job::Put(_, _, done, _)) => *done,
            _ => 0,
        }
    }

    /// The records of its transactions, in order. That of one that is live is as it began.
    pub fn records(&self) -> &RecordList
        ensures { result.now ≡ records_in self.now }
    {
        &self.records
    }

    /// The records of its transactions at a stop, in order. That of one that is live has its statements so far, and is open, or committed from its check on. It takes no memory.
    #[tactic(auto, using(crate::proofs::Recorded::talks_now))]
    pub fn into_records(self) -> RecordList
        ensures value { result ≡ records_now self }

        // Where the session waits for no answer, each record has its label and its talk.
        ensures talks { TalksNow self result }
    {
        let Session { records, at, .. } = self;
        records_at(records, at)
    }
}
