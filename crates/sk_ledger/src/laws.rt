//! What holds of the ledger of every run. The function has one law as its contract, and does nothing.

ghost use Rattle.sk_ledger.specs.Ledger.{LedgerIsRun};

/// The commits that the ledger has of an engine are those of the run's transactions there.
pub fn ledger_is_run()
    ensures { LedgerIsRun }
{}
