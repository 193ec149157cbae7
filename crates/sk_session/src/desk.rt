//! Who answers the calls that a session asks for, and a statement answered with them, or a session left.

ghost use Rattle.std.specs.Prelude.{◌≡◌, Some, None, false, IfOk};
ghost use Rattle.std.specs.Option.{option_copied};
ghost use Rattle.sk_commit.specs.declared.asking.Wish.{Wish as AnyWish};
ghost use Rattle.sk_commit.specs.declared.asking.Got.{Got as AnyGot};
ghost use Rattle.sk_commit.specs.Fits.{WishFits};
ghost use Rattle.sk_session.specs.Conversing.{is_early, IsAsked, TurnFits, Replied, Conversed, HasLeft, StandsLeft};
ghost use Rattle.sk_session.specs.Printed.{LinePrints};
ghost use Rattle.sk_session.specs.Heard.{LineRefuses};
ghost use Rattle.sk_session.specs.Over.{OverStays, RestsStill};

use crate::session::Session;
use crate::turn::Turn;
use sk_commit::{Got, Wish};
use sk_model::Reply;
use sk_rows::{Catalog, Statement};
use std::alloc::Global;

/// The desk could not answer: a call that takes no memory had no room for its entry, or its condition does not hold. The run ends.
#[derive(Clone, Copy, Debug, PartialEq, Eq)]
pub struct Unanswered;

/// Who makes the calls that sessions ask for: over engines and a registry that it holds, at once or after waiting for whom it shares them with.
pub trait Desk {
    /// The call was answered so, which has made this of the desk.
    ghost answers: { Self → AnyWish → AnyGot → Self → Type 0 };

    /// Makes the call. A draw is made again until it is past the floor.
    fn answer(&mut self, wish: Wish) -> Result<Got, Unanswered>
        requires { IsAsked wish }
        ensures fits { IfOk result (λ got. WishFits wish got) }
        ensures not_early { IfOk result (λ got. is_early got ≡ false) }
        ensures answered { IfOk result (λ got. answers self.old wish got self.new) };
}

/// The desk makes each call that the session asks for, until the session replies, or the desk has no answer.
fn carry_on<K: Desk>(
    alloc: Global,
    session: &mut Session,
    catalog: &Catalog,
    desk: &mut K,
    begun: Turn,
) -> Result<Reply, Unanswered>
    requires { TurnFits session.old.at begun }
    ensures { IfOk result (λ said. Replied K.answers catalog.now session.old begun desk.old session.new desk.new said) }
{
    let mut turn = begun;
    loop {
        match turn {
            Turn::Said(reply) => return Ok(reply),
            Turn::Ask(wish) => {
                // The count of the writes that were put fits its type, so there is a bound for the calls that are left.
                let _done = session.puts_done();
                let got = desk.answer(wish)?;
                turn = session.take(alloc, catalog, got);
            }
        }
    }
}

/// Answers a statement, or STEP where there is none: the desk makes each call that the session asks for, until the session replies, or the desk has no answer.
fn converse<K: Desk>(
    alloc: Global,
    session: &mut Session,
    catalog: &Catalog,
    desk: &mut K,
    statement: Option<&Statement>,
) -> Result<Reply, Unanswered>
    ensures calls { IfOk result (λ said. Conversed K.answers catalog.now session.old desk.old (option_copied statement.entry) session.new desk.new said) }
    ensures prints { IfOk result (λ said. LinePrints session.old (option_copied statement.entry) session.new said) }
    ensures refuses { IfOk result (λ said. LineRefuses catalog.now session.old (option_copied statement.entry) session.new said) }
    ensures over { IfOk result (λ said. OverStays session.old session.new) }
    ensures rests { option_copied statement.entry ≡ None → IfOk result (λ said. RestsStill session.old session.new) }
{
    let begun = session.start(alloc, catalog, statement);
    carry_on(alloc, session, catalog, desk, begun)
}

impl Session {
    /// Answers a statement: the desk makes each call that the session asks for, until the session replies, or the desk has no answer.
    pub fn line<K: Desk>(
        &mut self,
        alloc: Global,
        catalog: &Catalog,
        desk: &mut K,
        statement: &Statement,
    ) -> Result<Reply, Unanswered>
        ensures calls { IfOk result (λ said. Conversed K.answers catalog.now self.old desk.old (Some statement.now) self.new desk.new said) }

        // What was printed so far and is printed now is what the records say.
        ensures prints { IfOk result (λ said. LinePrints self.old (Some statement.now) self.new said) }

        // What the table of refusals refuses where the session stands is refused so, nothing else is answered with a word of the table, and the reply leads where it says.
        ensures refuses { IfOk result (λ said. LineRefuses catalog.now self.old (Some statement.now) self.new said) }

        // The records of transactions that are over stay, and perhaps one more is over, the last one.
        ensures over { IfOk result (λ said. OverStays self.old self.new) }
    {
        converse(alloc, self, catalog, desk, Some(statement))
    }

    /// Answers STEP, the next step of a commit, in the same way.
    pub fn step<K: Desk>(
        &mut self,
        alloc: Global,
        catalog: &Catalog,
        desk: &mut K,
    ) -> Result<Reply, Unanswered>
        ensures calls { IfOk result (λ said. Conversed K.answers catalog.now self.old desk.old None self.new desk.new said) }

        // It adds nothing to what the records say.
        ensures prints { IfOk result (λ said. LinePrints self.old None self.new said) }

        // What the table of refusals refuses where the session stands is refused so, nothing else is answered with a word of the table, and the reply leads where it says.
        ensures refuses { IfOk result (λ said. LineRefuses catalog.now self.old None self.new said) }

        // The records of transactions that are over stay, and perhaps one more is over, the last one.
        ensures over { IfOk result (λ said. OverStays self.old self.new) }

        // Between two transactions it adds no record.
        ensures rests { IfOk result (λ said. RestsStill self.old self.new) }
    {
        converse(alloc, self, catalog, desk, None)
    }

    /// Leaves the session, with the desk: a transaction that is open is rolled back, and no statement of it.
    pub fn leave_with<K: Desk>(
        &mut self,
        alloc: Global,
        catalog: &Catalog,
        desk: &mut K,
    ) -> Result<Reply, Unanswered>
        ensures calls { IfOk result (λ said. HasLeft K.answers catalog.now self.old desk.old self.new desk.new said) }

        // It stands outside of a transaction then, unless a commit is between two of its steps.
        ensures stands { IfOk result (λ said. StandsLeft self.old.at self.new.at said) }

        // As a STEP, it adds nothing to what the records say.
        ensures prints { IfOk result (λ said. LinePrints self.old None self.new said) }

        // The records of transactions that are over stay, and perhaps one more is over, the last one.
        ensures over { IfOk result (λ said. OverStays self.old self.new) }

        // Between two transactions it adds none.
        ensures rests { IfOk result (λ said. RestsStill self.old self.new) }
    {
        let begun = self.leave(alloc);
        carry_on(alloc, self, catalog, desk, begun)
    }
}
