//! Laws of receipts. Each function has one as its contract, and does nothing.
ghost use Rattle.sk_cut.specs.Acked.{AckedAtFirst, AckedWhenQueued, AckedWhenFlushed};

/// Before anybody is queued, nobody was told.
pub fn acked_at_first()
    ensures { AckedAtFirst }
{}

/// A need that is queued changes nothing of what was told.
pub fn acked_when_queued()
    ensures { AckedWhenQueued }
{}

/// What a flush gives, at a cut that is not below the durable one, goes with the receipts that were given before it.
pub fn acked_when_flushed()
    ensures { AckedWhenFlushed }
{}
