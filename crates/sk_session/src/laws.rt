//! What holds of every session that has its talks.

ghost use Rattle.sk_session.specs.Facts.{AsksRight};

use crate::session::Session;
use sk_rows::Catalog;

/// What a session asks for is a call of its live transaction, and fits what the record says of it so far: a snapshot is selected once, for the one of the memory engine; each number is drawn once, and the commit point has both; each engine is opened once.
#[tactic(auto, using(crate::proofs::Wished::asks_right))]
pub fn asks_right(_session: &Session, _catalog: &Catalog)
    ensures { AsksRight _catalog.now _session.now }
{}
