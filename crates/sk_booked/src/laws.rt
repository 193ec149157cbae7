//! Laws of books. Each function has one as its contract, and does nothing.

ghost use Rattle.sk_booked.specs.Laws.{NewIsMadeWith, ClosedIsLegal};

use sk_chain::Engine;

/// An engine whose journal has no entry yet was made with the table for which it stands.
pub fn new_is_made_with<G: Engine>()
    ensures { NewIsMadeWith G.told G.stands }
{}

/// The journal that an engine has at the close of its book is legal, and made of the entries of the passes.
pub fn closed_is_legal<G: Engine>()
    ensures { ClosedIsLegal G.told G.faults G.stands }
{}
