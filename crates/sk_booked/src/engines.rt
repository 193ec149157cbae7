//! An engine with a journal, as a value with one.

ghost use Rattle.std.specs.Prelude.{◌≡◌, ℕ, List};
ghost use Rattle.sk_model.specs.declared.call.Entry.{Entry};
ghost use Rattle.sk_model.specs.Engine.{EngineTable};
ghost use Rattle.sk_chain.specs.Noting.{noted_stands};
ghost use Rattle.sk_chain.specs.Applying.{IsInUse};
ghost use Rattle.sk_booked.specs.Engines.{pairs_of, Descends, Gives, Enters, Leaves, IsHorizon, descends_self};

use crate::journaled::Journaled;
use sk_chain::{Engine, Noted};
use sk_model::{EngineCall, EngineFault, EngineReply};

/// The horizon of an engine, without a call that would be entered: the greatest number up to which it may be asked for records.
fn horizon_beside<G: Engine>(engine: &G) -> u32
    ensures { IsHorizon G.stands engine.now result }
{
    let mut low = 0;
    let mut high = u32::MAX;
    while low < high {
        let middle = high - (high - low) / 2;
        let asked = EngineCall::Records {
            from: u32::MAX,
            to: middle,
        };
        if engine.may(&asked) {
            low = middle;
        } else {
            high = middle - 1;
        }
    }
    low
}

/// The reply where the journal has as many entries as there may be: none is entered, and nothing is changed.
fn reply_beside<G: Engine>(engine: &G, call: &EngineCall) -> EngineReply
    ensures { Leaves call.now result }
{
    match call {
        EngineCall::Horizon => EngineReply::Number(horizon_beside(engine)),
        EngineCall::Open { .. }
        | EngineCall::Get { .. }
        | EngineCall::Scan { .. }
        | EngineCall::Put { .. }
        | EngineCall::Close { .. }
        | EngineCall::Stamp { .. }
        | EngineCall::Void { .. }
        | EngineCall::DropTx { .. }
        | EngineCall::Records { .. }
        | EngineCall::Purge { .. } => EngineReply::Fault(EngineFault::NoMemory),
    }
}

impl<G: Engine + Drop> Journaled for Noted<G> {
    type Call = EngineCall;

    type Reply = EngineReply;

    ghost journal = { pairs_of };

    ghost ready = { IsInUse (noted_stands G.stands) };

    ghost kin = { Descends G.told G.faults G.stands };

    ghost gives = { Gives G.told G.faults G.stands };

    ghost enters = { Enters };

    ghost leaves = { Leaves };

    fn apply(&mut self, call: EngineCall) -> EngineReply {
        if self.entries() == u64::MAX {
            return reply_beside(self, &call);
        }
        self.apply(call)
    }

    fn entries(&self) -> u64 {
        self.entries()
    }

    ghost kin_self = { descends_self G.told G.faults G.stands };
}
