//! Calls on an engine that keeps a journal.

ghost use Rattle.std.specs.Prelude.{◌≡◌, ◌||◌, true, is_some, IfOk};
ghost use Rattle.sk_commit.specs.Fits.{CallFits};
ghost use Rattle.sk_session.specs.Conversing.{is_of_transaction};
ghost use Rattle.sk_chain.specs.Applying.{takes_memory, entered_reply};
ghost use Rattle.sk_shared.specs.Kept.{IsKept, Asks, MayMake};

use sk_chain::{Engine, Noted};
use sk_model::{EngineCall, EngineFault, EngineReply};
use sk_session::Unanswered;

/// Makes the call of a transaction, and enters it with its reply.
///
/// There is no answer where the journal is full, and where a call that takes no memory was passed over and there was no memory for its entry. The journal is then as it was.
pub fn ask<G: Engine + Drop>(
    engine: &mut Noted<G>,
    call: EngineCall,
) -> Result<EngineReply, Unanswered>
    requires told { G.told ≡ true }
    requires kept { IsKept G.stands engine.old }
    requires asked { is_of_transaction call ≡ true }
    ensures fits { IfOk result (λ reply. CallFits call reply) }
    ensures asks { Asks G.stands engine.old call result engine.new }
{
    if engine.entries() == u64::MAX {
        return Err(Unanswered);
    }
    let may_want = takes_memory(&call);
    let reply = engine.apply(call);
    if is_answered(may_want, &reply) {
        Ok(reply)
    } else {
        Err(Unanswered)
    }
}

/// Makes a call of no transaction, and enters it with its reply.
///
/// There is no answer where the condition of the call does not hold, where the journal is full, and where a call that takes no memory found none. The journal is then as it was.
pub fn ask_for_nobody<G: Engine + Drop>(
    engine: &mut Noted<G>,
    call: EngineCall,
) -> Result<EngineReply, Unanswered>
    requires told { G.told ≡ true }
    requires kept { IsKept G.stands engine.old }
    ensures may { IfOk result (λ _. MayMake G.stands engine.old call) }
    ensures asks { Asks G.stands engine.old call result engine.new }
{
    if engine.entries() == u64::MAX || !engine.may(&call) {
        return Err(Unanswered);
    }
    let may_want = takes_memory(&call);
    let reply = engine.apply(call);
    if is_answered(may_want, &reply) {
        Ok(reply)
    } else {
        Err(Unanswered)
    }
}

/// Whether the reply is an answer: want of memory is one only of a call that may want it.
fn is_answered(may_want: bool, reply: &EngineReply) -> bool
    ensures { result ≡ (may_want || is_some (entered_reply reply.now)) }
{
    let wanted = matches!(reply, EngineReply::Fault(EngineFault::NoMemory));
    may_want || !wanted
}

fn takes_memory(call: &EngineCall) -> bool
    ensures { result ≡ takes_memory call.now }
{
    match call {
        EngineCall::Open { .. }
        | EngineCall::Get { .. }
        | EngineCall::Scan { .. }
        | EngineCall::Put { .. }
        | EngineCall::Close { .. }
        | EngineCall::Records { .. }
        | EngineCall::Purge { .. } => true,
        EngineCall::Stamp { .. }
        | EngineCall::Void { .. }
        | EngineCall::DropTx { .. }
        | EngineCall::Horizon => false,
    }
}
