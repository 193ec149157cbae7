//! A law of what a store opens as. The function has it as its contract, and does nothing.
ghost use Rattle.sk_recover.specs.Owning.{LogsHoldTheirOwn};

/// Whatever an image opens as, each of its logs holds writes to its own engine's tables alone.
pub fn logs_hold_their_own()
    ensures { LogsHoldTheirOwn }
{}
