ghost use Rattle.std.specs.Prelude.{IfOk};
ghost use Rattle.sk_chain.specs.Applying.{IsInUse};

use super::*;
use sk_chain::{Engine, Noted};
use sk_mem::MemEngine;
use sk_model::{EngineCall, EngineName, EngineReply, Label, Tables};
use sk_rows::Catalog;
use sk_weave::Point;
use std::alloc::Global;
use std::test::Fail;

type Journaled = Noted<MemEngine>;

// The memory engine without tables, from number 0.
fn begin(alloc: Global) -> Result<Journaled, Fail>
    ensures { IfOk result (λ x. IsInUse ⟦<Journaled as Engine>⟧.stands x) }
{
    let rows = Tables::new(alloc);
    let engine = MemEngine::new(alloc, &Catalog::new(alloc), &rows, 0)?;
    Ok(Noted::new(alloc, engine))
}

// A transaction that wrote nothing gets this number.
fn use_up(engine: &mut Journaled, n: u32) -> EngineReply
    requires { IsInUse ⟦<Journaled as Engine>⟧.stands engine.old }
    ensures { IsInUse ⟦<Journaled as Engine>⟧.stands engine.new }
{
    let tx = Label { session: 1, k: n };
    engine.apply(EngineCall::Open { tx, snapshot: 0 });
    engine.apply(EngineCall::Close { tx });
    engine.apply(EngineCall::Stamp { tx, n })
}

fn selection(a: u32, b: u32) -> Point {
    Point {
        a,
        b,
        commit: false,
    }
}

#[test]
fn a_sweep_stops_at_the_cut(rt: HostRuntime) -> Result<(), Fail> {
    let mut engine = begin(rt.alloc())?;
    use_up(&mut engine, 1);
    use_up(&mut engine, 2);
    use_up(&mut engine, 3);
    use_up(&mut engine, 4);
    assert_eq!(&rt; engine.horizon(), 4);
    let swept = sweep(
        EngineName::Mem,
        selection(4, 0),
        selection(3, 0),
        &mut engine,
    );
    assert_eq!(&rt; swept, Ok(3));
    Ok(())
}
