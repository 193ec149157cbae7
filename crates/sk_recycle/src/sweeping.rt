//! Sweeps of one engine.

ghost use Rattle.std.specs.Prelude.{◌≡◌};
ghost use Rattle.sk_model.specs.declared.call.EngineCall.TheVariants as call;
ghost use Rattle.sk_model.specs.declared.call.EngineReply.TheVariants.{Number};
ghost use Rattle.sk_chain.specs.Promise.{Serves, replied};
ghost use Rattle.sk_recycle.specs.Sweeping.{number_at, swept_upto};

use sk_chain::Engine;
use sk_model::{EngineFault, EngineName};
use sk_weave::Point;

/// The engine's number of a point.
fn number_at(name: EngineName, point: Point) -> u32
    ensures { result ≡ number_at name point }
{
    match name {
        EngineName::Mem => point.a,
        EngineName::Store => point.b,
    }
}

/// The number up to which an engine is swept: the smaller of its numbers of the oldest live point and of the durable cut.
pub fn upto(name: EngineName, oldest: Point, cut: Point) -> u32
    ensures { result ≡ swept_upto name oldest cut }
{
    number_at(name, oldest).min(number_at(name, cut))
}

/// Purges an engine of this name up to that number. Answers the purge horizon after it. Refused as the engine's `purge` is, and then nothing is given up.
pub fn sweep<G: Engine>(
    name: EngineName,
    oldest: Point,
    cut: Point,
    engine: &mut G,
) -> Result<u32, EngineFault>
    ensures { Serves G.told G.faults G.stands engine.old engine.new (call.Purge (swept_upto name oldest cut)) (replied Number result) }
{
    engine.purge(upto(name, oldest, cut))
}
