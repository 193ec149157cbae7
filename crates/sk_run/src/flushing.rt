//! What a flush finds in a run: how far all is decided, and the commits up to there.

ghost use Rattle.std.specs.Prelude.{◌≡◌, true, IfOk};
ghost use Rattle.sk_model.specs.declared.call.EngineCall.TheVariants as call;
ghost use Rattle.sk_model.specs.declared.call.EngineReply.TheVariants as reply;
ghost use Rattle.sk_linked.specs.Reads.{number_at};
ghost use Rattle.sk_run.specs.Flushing.{
  Drifts,
  FindsBatch,
  FindsOn,
  FindsPoint,
  Gives,
  IsPast,
  Joins,
  KeepsStill,
};
ghost use Rattle.sk_run.specs.Reaching.{IsCut, Reaches, is_past};

use crate::end_fault::EndFault;
use crate::run::Run;
use sk_chain::Engine;
use sk_mem::MemEngine;
use sk_model::{CommitList, EngineCall, EngineFault, EngineName, EngineReply, Point};
use sk_recycle::upto;
use sk_session::Unanswered;
use sk_shared::{Shared, join};
use sk_store::StoreEngine;
use std::alloc::Global;

/// What a flush finds: the cut that it may reach, and the commits of both engines past the durable one and up to it, each with both its numbers where it has two. A commit of both engines stands in both lists.
#[derive(Drop)]
pub struct Found {
    pub cut: Point,
    pub mem: CommitList,
    pub store: CommitList,
}

/// Up to which number each one of this engine is decided.
fn horizon(shared: &mut Shared, name: EngineName) -> Result<u32, EndFault>
    ensures gives { IfOk result (λ n. Gives ⟦<MemEngine as Engine>⟧.stands ⟦<StoreEngine as Engine>⟧.stands shared.old name call.Horizon (reply.Number n) shared.new) }
    ensures drifts { Drifts ⟦<MemEngine as Engine>⟧.stands ⟦<StoreEngine as Engine>⟧.stands shared.old shared.new }
{
    match shared.ask_for_nobody(name, EngineCall::Horizon) {
        Ok(EngineReply::Number(n)) => Ok(n),
        Ok(_) | Err(Unanswered) => Err(EndFault::Unanswered),
    }
}

/// The cut that a flush may reach now: what both engines have decided, and no transaction may come between. There is none where the oldest live point is past that.
fn find_cut(shared: &mut Shared) -> Result<Option<Point>, EndFault>
    ensures reaches { IfOk result (λ cut. IsCut ⟦<MemEngine as Engine>⟧.stands ⟦<StoreEngine as Engine>⟧.stands shared.old cut) }
    ensures point { IfOk result (λ cut. FindsPoint ⟦<MemEngine as Engine>⟧.stands ⟦<StoreEngine as Engine>⟧.stands shared.old cut shared.new) }
    ensures drifts { Drifts ⟦<MemEngine as Engine>⟧.stands ⟦<StoreEngine as Engine>⟧.stands shared.old shared.new }
{
    shared.make_room()?;
    let x = horizon(shared, EngineName::Mem)?;
    let y = horizon(shared, EngineName::Store)?;
    match shared.cut(x, y) {
        Ok(found) => Ok(found.cut),
        Err(Unanswered) => Err(EndFault::Unanswered),
    }
}

/// The commits of this engine past one number and up to another, each with its number of this engine alone.
fn records(
    shared: &mut Shared,
    name: EngineName,
    from: u32,
    to: u32,
) -> Result<CommitList, EndFault>
    ensures gives { IfOk result (λ commits. Gives ⟦<MemEngine as Engine>⟧.stands ⟦<StoreEngine as Engine>⟧.stands shared.old name (call.Records from to) (reply.Commits commits) shared.new) }
    ensures drifts { Drifts ⟦<MemEngine as Engine>⟧.stands ⟦<StoreEngine as Engine>⟧.stands shared.old shared.new }
{
    match shared.ask_for_nobody(name, EngineCall::Records { from, to }) {
        Ok(EngineReply::Commits(commits)) => Ok(commits),
        Ok(EngineReply::Fault(EngineFault::NoMemory)) => Err(EndFault::NoMemory),
        Ok(_) | Err(Unanswered) => Err(EndFault::Unanswered),
    }
}

/// Purges an engine as far as neither a live point nor the durable cut needs its older versions. It answers why it could not.
fn sweep(shared: &mut Shared, name: EngineName, cut: Point) -> Option<EngineFault>
    ensures { Drifts ⟦<MemEngine as Engine>⟧.stands ⟦<StoreEngine as Engine>⟧.stands shared.old shared.new }
{
    let oldest = shared.oldest();
    let upto = upto(name, oldest, cut);
    match shared.ask_for_nobody(name, EngineCall::Purge { upto }) {
        Ok(EngineReply::Fault(fault)) => Some(fault),
        Ok(_) => None,
        Err(Unanswered) => Some(EngineFault::NoMemory),
    }
}

/// One number of the cut is past the other's, and neither is below it.
fn is_past(cut: Point, durable: Point) -> bool
    ensures value { result ≡ is_past cut durable }
    ensures past { result ≡ true → IsPast cut durable }
{
    cut.a >= durable.a && cut.b >= durable.b && (cut.a > durable.a || cut.b > durable.b)
}

fn number_at(name: EngineName, point: Point) -> u32
    ensures { result ≡ number_at name point }
{
    match name {
        EngineName::Mem => point.a,
        EngineName::Store => point.b,
    }
}

/// The commits of this engine past the durable cut and up to another, each with both its numbers.
fn joined(
    alloc: Global,
    shared: &mut Shared,
    name: EngineName,
    durable: Point,
    cut: Point,
) -> Result<CommitList, EndFault>
    ensures joins { IfOk result (λ commits. Joins ⟦<MemEngine as Engine>⟧.stands ⟦<StoreEngine as Engine>⟧.stands shared.old name (number_at name durable) (number_at name cut) durable.a commits shared.new) }
    ensures drifts { Drifts ⟦<MemEngine as Engine>⟧.stands ⟦<StoreEngine as Engine>⟧.stands shared.old shared.new }
{
    let from = number_at(name, durable);
    let to = number_at(name, cut);
    let commits = records(shared, name, from, to)?;
    Ok(join(alloc, name, shared.points_from(durable), commits)?)
}

/// What a flush finds past this durable cut.
fn batch(alloc: Global, shared: &mut Shared, durable: Point) -> Result<Found, EndFault>
    ensures reaches { IfOk result (λ found. Reaches ⟦<MemEngine as Engine>⟧.stands ⟦<StoreEngine as Engine>⟧.stands shared.old durable found.cut) }
    ensures found { IfOk result (λ found. FindsOn ⟦<MemEngine as Engine>⟧.stands ⟦<StoreEngine as Engine>⟧.stands shared.old durable found shared.new) }
    ensures drifts { Drifts ⟦<MemEngine as Engine>⟧.stands ⟦<StoreEngine as Engine>⟧.stands shared.old shared.new }
{
    let cut = match find_cut(shared)? {
        Some(cut) if is_past(cut, durable) => cut,
        _ => {
            return Ok(Found {
                cut: durable,
                mem: CommitList::new(alloc),
                store: CommitList::new(alloc),
            });
        }
    };
    let mem = joined(alloc, shared, EngineName::Mem, durable, cut)?;
    let store = joined(alloc, shared, EngineName::Store, durable, cut)?;
    Ok(Found { cut, mem, store })
}

impl Run {
    /// What a flush finds past this durable cut: all up to the cut that the registry gives at the horizons of both engines. Where that is not past the durable one, it finds the durable one, and no commits.
    pub fn find_batch(&mut self, alloc: Global, durable: Point) -> Result<Found, EndFault>
        ensures reaches { IfOk result (λ found. Reaches ⟦<MemEngine as Engine>⟧.stands ⟦<StoreEngine as Engine>⟧.stands self.old.shared durable found.cut) }
        ensures found { IfOk result (λ found. FindsBatch ⟦<MemEngine as Engine>⟧.stands ⟦<StoreEngine as Engine>⟧.stands self.old durable found self.new) }
        ensures kept { KeepsStill ⟦<MemEngine as Engine>⟧.stands ⟦<StoreEngine as Engine>⟧.stands self.old self.new }
    {
        batch(alloc, &mut self.shared, durable)
    }

    /// Purges both engines, the memory engine first, as far as neither a live point nor the durable cut needs their older versions. It answers for each why it could not.
    pub fn purge(&mut self, durable: Point) -> (Option<EngineFault>, Option<EngineFault>)
        ensures { KeepsStill ⟦<MemEngine as Engine>⟧.stands ⟦<StoreEngine as Engine>⟧.stands self.old self.new }
    {
        let mem = sweep(&mut self.shared, EngineName::Mem, durable);
        let store = sweep(&mut self.shared, EngineName::Store, durable);
        (mem, store)
    }
}
