//! What an event is to do.

ghost use Rattle.std.specs.Prelude.{◌≡◌};
ghost use Rattle.sk_linked.specs.State.{of, with_of, other};
ghost use Rattle.sk_linked.specs.Plans.{nothing, only};

use crate::actor::Actor;
use crate::regs::Regs;
use sk_linked::CoreReply;
use sk_model::{EngineCall, EngineName};
use sk_rows::List;
use std::alloc::Global;
use std::marker::Model;

/// Calls on each engine.
#[derive(Drop)]
pub struct Calls {
    pub(crate) mem: List<EngineCall>,
    pub(crate) store: List<EngineCall>,
}

impl Model for Calls {
    ghost use Rattle.std.specs.Prelude.{List as ItemList};
    ghost use Rattle.sk_model.specs.declared.call.EngineCall.{EngineCall as AnyCall};
    ghost use Rattle.sk_linked.specs.State.{Both};

    ghost Value = { Both (ItemList AnyCall) };

    ghost view = { λ c. record { mem = c.mem; store = c.store } };
}

/// What an event is to do: the reply, the calls on each engine, and what it leaves of the registry and of the transaction.
#[derive(Drop)]
pub struct Plan {
    pub(crate) reply: CoreReply,
    pub(crate) calls: Calls,
    pub(crate) regs: Regs,
    pub(crate) who: Actor,
}

impl Model for Plan {
    ghost use Rattle.sk_linked.specs.Plans.{Plan as AnyPlan};

    ghost Value = { AnyPlan };

    ghost view = { λ p. record { reply = p.reply; calls = p.calls; regs = p.regs; who = p.who } };
}

impl Calls {
    /// No calls.
    pub(crate) fn none(alloc: Global) -> Calls
        ensures { result ≡ nothing }
    {
        Calls {
            mem: List::new(alloc),
            store: List::new(alloc),
        }
    }

    /// Calls on this engine alone.
    pub(crate) fn only(alloc: Global, name: EngineName, calls: List<EngineCall>) -> Calls
        ensures { result ≡ only name calls }
    {
        match name {
            EngineName::Mem => Calls {
                mem: calls,
                store: List::new(alloc),
            },
            EngineName::Store => Calls {
                mem: List::new(alloc),
                store: calls,
            },
        }
    }

    /// Calls on this engine, and others on the other one.
    pub(crate) fn on_both(
        name: EngineName,
        calls: List<EngineCall>,
        others: List<EngineCall>,
    ) -> Calls
        ensures { result ≡ with_of name calls (only (other name) others) }
    {
        match name {
            EngineName::Mem => Calls {
                mem: calls,
                store: others,
            },
            EngineName::Store => Calls {
                mem: others,
                store: calls,
            },
        }
    }
}
