//! Calls of a book.

ghost use Rattle.std.specs.Prelude.{◌≡◌, ℕ, true, false, [], ◌∷◌, map, length, IfOk, IfErr, Some};
ghost use mathlib.Core.Option.{some};
ghost use lib.ListN.{get_elem?};
ghost use Rattle.sk_booked.specs.declared.view.Stage.TheVariants.{Idle, Opening, Holding};
ghost use Rattle.sk_booked.specs.Kept.{IsPlain};
ghost use Rattle.sk_booked.specs.Plays.{Locks, Opens, Counts, Frees, Took, at_stage, elder, younger, gathered, spent};
ghost use Rattle.sk_booked.specs.Of.{view, own_of, start_of, IsOf};
ghost use Rattle.sk_booked.specs.Answers.{beginner, IsHolding, Made, Answered, IsEvery, Whole};

use crate::book::{BookPass, Booked};
use crate::journaled::Journaled;
use crate::view::View;
use atomic_table::{Join, Play, Seat, Split, Table};
use crossbeam_utils::Backoff;
use std::alloc::{AllocError, Global};
use std::sync::Wait;

/// The word of the lock: 0 while it is free, 1 while a pass has it.
const LOCK: usize = 0;

/// The word that counts the journal.
const COUNT: usize = 1;

/// For how many turns a pass that waits stays away at most, before it tries again.
const MOST_TURNS: u32 = 1_024;

pub struct LockWord;

impl<V: Journaled> Play<Option<V>, View<V, (V::Call, V::Reply)>> for LockWord {
    ghost then = { Locks V.journal V.ready };
}

pub struct OpenWord;

impl<V, E> Play<Option<V>, View<V, E>> for OpenWord {
    ghost then = { Opens };
}

pub struct CountWord;

impl<V: Journaled> Play<Option<V>, View<V, (V::Call, V::Reply)>> for CountWord {
    ghost then = { Counts V.journal };
}

pub struct FreeWord;

impl<V, E> Play<Option<V>, View<V, E>> for FreeWord {
    ghost then = { Frees };
}

pub struct Cut;

impl<V, E> Split<View<V, E>> for Cut {
    ghost left = { elder };

    ghost right = { younger };
}

pub struct Gather;

impl<V, E> Join<View<V, E>> for Gather {
    ghost both = { gathered };

    ghost spent = { spent };
}

/// Stays away from the lock for so many turns, and answers for how many the next time. Who has waited longer stays away longer: then
/// the lock and the value seldom go from one processor to another, which takes longer than a short call.
fn stay_away(backoff: &Backoff, turns: u32) -> u32 {
    for _ in 0..turns {
        backoff.snooze();
    }
    if turns < MOST_TURNS {
        turns + turns
    } else {
        turns
    }
}

impl<V: Journaled> Booked<V> {
    /// A book of this value, and its first pass. Refused for memory alone, and then the value comes back.
    pub fn new(alloc: Global, value: V) -> Result<(Booked<V>, BookPass<V>), V>
        requires { V.ready value }
        ensures ok { IfOk result (λ r. IsOf r.0 r.1 × (start_of r.0 ≡ value) × (view r.1 ≡ beginner (V.journal value))) }
        ensures err { IfErr result (λ x. x ≡ value) }
    {
        let count = value.entries();
        match Table::vacant(alloc, &[1, count], 1, &value) {
            Ok((table, mut seat)) => {
                let booked = Booked { table };
                booked.fill(&mut seat, value);
                Ok((booked, BookPass { seat }))
            }
            Err(AllocError) => Err(value),
        }
    }

    /// Puts the value with which the book is made into its slot, and frees the lock.
    fn fill(&self, seat: &mut Seat<Option<V>, View<V, (V::Call, V::Reply)>>, value: V)
        requires table { seat.old.table_id ≡ self.now.table.shared.table_id }
        requires first { (seat.old.me.0.stage ≡ Opening value) × (seat.old.me.1 ≡ []) × (seat.old.me.0.live ≡ true) × (seat.old.me.0.taken ≡ []) }
        requires value { V.ready value × (V.journal value ≡ seat.old.me.0.base) × (seat.old.me.0.own.seen ≡ []) }
        ensures table { seat.new.table_id ≡ seat.old.table_id }
        ensures free { seat.new.me ≡ (at_stage seat.old.me.0 Idle, []) }
    {
        self.table.shared.load::<OpenWord>(seat, LOCK);
        let emptied = self.table.shared.exchange(seat, 0, Some(value));
        let None = emptied else { unreachable!() };
        self.free(seat);
    }

    /// Another pass of this book, which has seen as much.
    pub fn split(&self, pass: &mut BookPass<V>) -> BookPass<V>
        requires { IsOf self.now pass.old }
        ensures old { IsOf self.now pass.new × (view pass.new ≡ elder (view pass.old)) }
        ensures new { IsOf self.now result × (view result ≡ younger (view pass.old)) }
    {
        BookPass {
            seat: self.table.shared.split_seat::<Cut>(&mut pass.seat),
        }
    }

    /// Makes a call of the value, alone of all passes, and answers its reply. It waits while another pass makes one.
    pub fn call<R: Wait>(&self, rt: &R, pass: &mut BookPass<V>, call: V::Call) -> V::Reply
        requires { IsOf self.now pass.old }
        ensures of { IsOf self.now pass.new }
        ensures answered { Answered V.journal V.gives V.enters V.leaves (view pass.old) call result (view pass.new) }
    {
        self.lock(rt, &mut pass.seat);
        let reply = self.make(&mut pass.seat, call);
        self.free(&mut pass.seat);
        reply
    }

    /// Waits until the lock is free, and takes it with the value.
    fn lock<R: Wait>(&self, rt: &R, seat: &mut Seat<Option<V>, View<V, (V::Call, V::Reply)>>)
        requires table { seat.old.table_id ≡ self.now.table.shared.table_id }
        requires rest { IsPlain seat.old.me.0 × (length seat.old.me.1 ≡ 0) }
        ensures table { seat.new.table_id ≡ seat.old.table_id }
        ensures took { Took V.journal V.ready seat.old.me.0 seat.new.me }
    {
        let backoff = Backoff::new();
        let mut turns = 1;
        for _ in rt.forever() {
            let found = self
                .table
                .shared
                .compare_exchange::<LockWord>(seat, LOCK, 0, 1);
            if found == 0 {
                return;
            }
            turns = stay_away(&backoff, turns);
        }
        unreachable!()
    }

    /// Makes a call of the value in the slot, and counts its entry.
    fn make(
        &self,
        seat: &mut Seat<Option<V>, View<V, (V::Call, V::Reply)>>,
        call: V::Call,
    ) -> V::Reply
        requires table { seat.old.table_id ≡ self.now.table.shared.table_id }
        requires holding { (x : V) × IsHolding V.journal V.ready x x seat.old.me }
        ensures table { seat.new.table_id ≡ seat.old.table_id }
        ensures made { (x : V) → IsHolding V.journal V.ready x x seat.old.me → Made V.journal V.ready V.kin V.gives V.enters V.leaves x seat.old.me call result seat.new.me }
    {
        let Some(mut value) = self.table.shared.exchange(seat, 0, None) else {
            unreachable!()
        };
        let before = value.entries();
        let reply = value.apply(call);
        let after = value.entries();
        let emptied = self.table.shared.exchange(seat, 0, Some(value));
        let None = emptied else { unreachable!() };
        if after != before {
            self.table.shared.fetch_add::<CountWord>(seat, COUNT, 1);
        }
        reply
    }

    /// Gives the lock back, with the value in its slot.
    fn free(&self, seat: &mut Seat<Option<V>, View<V, (V::Call, V::Reply)>>)
        requires table { seat.old.table_id ≡ self.now.table.shared.table_id }
        requires holding { (x : V) × (y : V) × IsHolding V.journal V.ready x y seat.old.me × ((first : V) → V.kin first x → V.kin first y) }
        ensures table { seat.new.table_id ≡ seat.old.table_id }
        ensures free { seat.new.me ≡ (at_stage seat.old.me.0 Idle, []) }
    {
        self.table.shared.swap::<FreeWord>(seat, LOCK, 0);
    }
}
