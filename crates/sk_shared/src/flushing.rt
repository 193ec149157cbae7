//! What a flush asks of what the sessions of a run share.

ghost use Rattle.std.specs.Prelude.{◌≡◌, None};
ghost use Rattle.sk_model.specs.Talks.{tx_of};
ghost use Rattle.sk_shared.specs.Flushing.{Flushed, FindsCut, FindsOldest, ShowsPoints};

use crate::shared::Shared;
use sk_chain::Engine;
use sk_mem::MemEngine;
use sk_model::{EngineCall, EngineName, EngineReply, Point};
use sk_rows::NoMemory;
use sk_session::Unanswered;
use sk_store::StoreEngine;
use sk_weave::CutFound;

impl Shared {
    /// Makes a call of no transaction on this engine: `Horizon`, `Records` or `Purge`. There is no answer where records are asked for that are not all decided, or no longer kept.
    pub fn ask_for_nobody(
        &mut self,
        name: EngineName,
        call: EngineCall,
    ) -> Result<EngineReply, Unanswered>
        requires { tx_of call ≡ None }
        ensures { Flushed ⟦<MemEngine as Engine>⟧.stands ⟦<StoreEngine as Engine>⟧.stands self.old name call result self.new }
    {
        self.engines.ask_for_nobody(name, call)
    }

    /// Takes room for the next two points.
    pub fn make_room(&mut self) -> Result<(), NoMemory>
        ensures { self.new ≡ self.old }
    {
        self.log.make_room()
    }

    /// The cut of a flush at these two horizons. There is no answer where one of them was not drawn, and where there is no room for the cut's point.
    pub fn cut(&mut self, x: u32, y: u32) -> Result<CutFound, Unanswered>
        ensures { FindsCut ⟦<MemEngine as Engine>⟧.stands ⟦<StoreEngine as Engine>⟧.stands self.old x y result self.new }
    {
        self.log.cut(x, y)
    }

    /// The oldest live point.
    pub fn oldest(&mut self) -> Point
        ensures { FindsOldest ⟦<MemEngine as Engine>⟧.stands ⟦<StoreEngine as Engine>⟧.stands self.old result self.new }
    {
        self.log.oldest()
    }

    /// The points of the run from the first one on that is not before this one in the memory engine.
    pub fn points_from(&self, point: Point) -> &[Point]
        ensures { ShowsPoints ⟦<MemEngine as Engine>⟧.stands ⟦<StoreEngine as Engine>⟧.stands self.now point result.now }
    {
        self.log.points_from(point.a)
    }
}
