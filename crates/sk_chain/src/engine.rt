//! What an engine promises.

ghost use Rattle.std.specs.Prelude.{◌≡◌, ℕ, List, Bool, Some};
ghost use Rattle.sk_model.specs.declared.engine.EngineName.{EngineName};
ghost use Rattle.sk_model.specs.declared.call.EngineCall.TheVariants as call;
ghost use Rattle.sk_model.specs.declared.call.EngineReply.TheVariants.{Done, Found, Rows, Number, Commits};
ghost use Rattle.sk_model.specs.declared.call.Entry.{Entry};
ghost use Rattle.sk_model.specs.Engine.{EngineTable};
ghost use Rattle.sk_model.specs.EngineConditions.{may};
ghost use Rattle.sk_chain.specs.Promise.{Meets, Serves, replied};

use sk_model::{CommitList, EngineCall, EngineFault, KeyedRows, Label};
use sk_rows::{Row, Value};

/// Versions of the rows of one engine's tables, by label and number.
///
/// An engine stands for tables, each behind the entries that led to it, between which no reply can tell: each reply is the one of every table that it stands for, and it then stands for what the call makes of that table, behind one entry more. A call that wants memory in vain changes no table and is no entry. An engine that keeps no journal stands for its tables behind any entries.
pub trait Engine {
    /// Which engine it is.
    ghost name: { EngineName };

    /// Whether it is told what the device behind it reads. Where it is not, what stands in rows is not promised.
    ghost told: { Bool };

    /// How often a device failed it. The count never falls, and a call fails for the device only where it rose.
    ghost faults: { Self → ℕ };

    /// It stands for this table behind these entries.
    ghost stands: { Self → EngineTable → List Entry → Type 0 };

    /// Opens it for the transaction at the snapshot. Refused as `Old` where the snapshot is older than what is kept.
    fn open(&mut self, tx: Label, snapshot: u32) -> Result<(), EngineFault>
        requires { Meets stands self.old (call.Open tx snapshot) }
        ensures { Serves told faults stands self.old self.new (call.Open tx snapshot) (replied (λ _. Done) result) };

    /// The row of a key, as the transaction sees it.
    fn get(&mut self, tx: Label, table: u16, key: &Value) -> Result<Option<Row>, EngineFault>
        requires { Meets stands self.old (call.Get tx table key.now) }
        ensures { Serves told faults stands self.old self.new (call.Get tx table key.now) (replied Found result) };

    /// The rows of a table in the order of their keys, as the transaction sees them.
    fn scan(&mut self, tx: Label, table: u16) -> Result<KeyedRows, EngineFault>
        requires { Meets stands self.old (call.Scan tx table) }
        ensures { Serves told faults stands self.old self.new (call.Scan tx table) (replied Rows result) };

    /// Writes a row, or its absence.
    fn put(
        &mut self,
        tx: Label,
        table: u16,
        key: &Value,
        row: Option<Row>,
    ) -> Result<(), EngineFault>
        requires { Meets stands self.old (call.Put tx table key.now row) }
        ensures { Serves told faults stands self.old self.new (call.Put tx table key.now row) (replied (λ _. Done) result) };

    /// Closes what the transaction wrote. Answers the floor, which the number that is then drawn must pass.
    fn close(&mut self, tx: Label) -> Result<u32, EngineFault>
        requires { Meets stands self.old (call.Close tx) }
        ensures { Serves told faults stands self.old self.new (call.Close tx) (replied Number result) };

    /// Gives what the transaction wrote its number, and ends it here. It takes no memory.
    fn stamp(&mut self, tx: Label, n: u32)
        requires { Meets stands self.old (call.Stamp tx n) }
        ensures { Serves told faults stands self.old self.new (call.Stamp tx n) (Some Done) };

    /// Drops what the transaction wrote, ends it here, and uses the number up. It takes no memory.
    fn void(&mut self, tx: Label, n: u32)
        requires { Meets stands self.old (call.Void tx n) }
        ensures { Serves told faults stands self.old self.new (call.Void tx n) (Some Done) };

    /// Drops what the transaction wrote, and ends it here. It takes no memory.
    fn drop_tx(&mut self, tx: Label)
        requires { Meets stands self.old (call.DropTx tx) }
        ensures { Serves told faults stands self.old self.new (call.DropTx tx) (Some Done) };

    /// The number up to which each one is stamped or voided.
    fn horizon(&mut self) -> u32
        ensures { Serves told faults stands self.old self.new call.Horizon (Some (Number result)) };

    /// The commits with numbers past `from` and up to `to`, in the order of their numbers.
    fn records(&mut self, from: u32, to: u32) -> Result<CommitList, EngineFault>
        requires { Meets stands self.old (call.Records from to) }
        ensures { Serves told faults stands self.old self.new (call.Records from to) (replied Commits result) };

    /// Gives up what no snapshot from `upto` on needs, as far as may be. Answers the snapshot up to which it did.
    fn purge(&mut self, upto: u32) -> Result<u32, EngineFault>
        ensures { Serves told faults stands self.old self.new (call.Purge upto) (replied Number result) };

    /// Whether the call may be made.
    fn may(&self, call: &EngineCall) -> bool
        ensures { (e : EngineTable) (js : List Entry) → stands self.now e js → result ≡ may e call.now };

    /// Each table that it stands for is one of its engine.
    ghost is_named: { (x : Self) (e : EngineTable) (js : List Entry) → stands x e js → e.name ≡ name };
}
