//! A truth for each engine.

ghost use Rattle.std.specs.Prelude.{◌≡◌};
ghost use Rattle.sk_linked.specs.State.{of, with_of, other};
ghost use Rattle.sk_linked.specs.Plans.{both_false};

use sk_model::EngineName;
use std::marker::Model;

/// A truth for each engine.
#[derive(Clone, Copy)]
pub struct Marks {
    pub(crate) mem: bool,
    pub(crate) store: bool,
}

impl Model for Marks {
    ghost use Rattle.std.specs.Prelude.{Bool};
    ghost use Rattle.sk_linked.specs.State.{Both};

    ghost Value = { Both Bool };

    ghost view = { λ m. record { mem = m.mem; store = m.store } };

    ghost inverse = { λ b. record { mem = b.mem; store = b.store } };
}

/// False for both.
pub(crate) fn none_marked() -> Marks
    ensures { result ≡ both_false }
{
    Marks {
        mem: false,
        store: false,
    }
}

/// The other engine.
pub(crate) fn other(name: EngineName) -> EngineName
    ensures { result ≡ other name }
{
    match name {
        EngineName::Mem => EngineName::Store,
        EngineName::Store => EngineName::Mem,
    }
}

impl Marks {
    /// The truth for this engine.
    pub(crate) fn of(self, name: EngineName) -> bool
        ensures { result ≡ of name self }
    {
        match name {
            EngineName::Mem => self.mem,
            EngineName::Store => self.store,
        }
    }

    /// The marks with this one for this engine.
    pub(crate) fn with(self, name: EngineName, mark: bool) -> Marks
        ensures { result ≡ with_of name mark self }
    {
        match name {
            EngineName::Mem => Marks {
                mem: mark,
                store: self.store,
            },
            EngineName::Store => Marks {
                mem: self.mem,
                store: mark,
            },
        }
    }
}
