//! Values that keep a journal of the calls that were made of them.

ghost use Rattle.std.specs.Prelude.{◌≡◌, List, length};
ghost use Rattle.sk_booked.specs.Writing.{Writes};

/// A value with a journal: its calls in order, each with its reply. A call leaves one entry there, or none.
pub trait Journaled {
    type Call;

    type Reply;

    /// The entries of its journal.
    ghost journal: { Self → List (Self.Call × Self.Reply) };

    /// Calls may be made of it.
    ghost ready: { Self → Type 0 };

    /// The second was made with what the first was made with.
    ghost kin: { Self → Self → Type 0 };

    /// What a call, its reply and the value behind it are to the value before.
    ghost gives: { Self → Self.Call → Self.Reply → Self → Type 0 };

    /// Which reply a call may have that leaves an entry.
    ghost enters: { Self.Call → Self.Reply → Type 0 };

    /// Which reply a call may have that leaves none.
    ghost leaves: { Self.Call → Self.Reply → Type 0 };

    /// Makes a call, and answers its reply. The pair of both is the journal's new end, or the journal stays as it is.
    fn apply(&mut self, call: Self::Call) -> Self::Reply
        requires { ready self.old }
        ensures ready { ready self.new }
        ensures kin { (first : Self) → kin first self.old → kin first self.new }
        ensures gives { gives self.old call result self.new }
        ensures writes { Writes enters leaves (journal self.old) call result (journal self.new) };

    /// How many entries its journal has.
    fn entries(&self) -> u64
        ensures { result ≡ length (journal self.now) };

    /// Each value was made with what it was made with.
    ghost kin_self: { (x : Self) → kin x x };
}
