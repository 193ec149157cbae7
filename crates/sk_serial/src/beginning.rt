//! A run before its first line.

ghost use Rattle.std.specs.Prelude.{◌≡◌, [], false, length, IfOk, IfErr};
ghost use Rattle.std.specs.String.{string_bytes};
ghost use Rattle.sk_store.specs.Loading.{AreOpeningRows};
ghost use Rattle.sk_script.specs.Limits.{most_sessions};
ghost use Rattle.sk_script.specs.Options.{AreInRange};
ghost use Rattle.sk_run.specs.Kept.{HasKept};
ghost use Rattle.sk_run.specs.Over.{NoneOver};
ghost use Rattle.sk_run.specs.Told.{AreRefused};
ghost use Rattle.sk_serial.specs.Played as spec;
ghost use Rattle.sk_serial.specs.Stored.{IsStart, MayBegin, beginning};
ghost use Rattle.sk_serial.specs.declared.run_fault.RunFault.TheVariants as run_fault;

use crate::halt::Halt;
use crate::opening::Stored;
use crate::playing::Playing;
use crate::run_fault::RunFault;
use sk_chain::Engine;
use sk_cut::Teller;
use sk_device::Device;
use sk_durable::Durable;
use sk_mem::MemEngine;
use sk_model::{Point, Tables};
use sk_recover::Opened;
use sk_rows::{Catalog, Copies, NoMemory};
use sk_run::Run;
use sk_script::{MOST_SESSIONS, Settings};
use sk_store::StoreEngine;
use std::alloc::Global;

/// A run over these tables and rows, whose numbers start from this cut.
fn run_over(
    alloc: Global,
    catalog: &Catalog,
    rows: &Tables,
    settings: Settings,
    cut: Point,
) -> Result<Run, NoMemory>
    requires settings { AreInRange settings }
    requires cut { IsStart cut }
    requires rows { AreOpeningRows catalog.now rows.now }
    ensures kept { IfOk result (λ x. HasKept ⟦<MemEngine as Engine>⟧.stands ⟦<StoreEngine as Engine>⟧.stands (record { rows = rows.now; first = cut }) [] [] x) }
    ensures refused { IfOk result (λ x. AreRefused x.catalog 1 [] x.sessions) }
    ensures tables { IfOk result (λ x. x.catalog ≡ catalog.now) }
    ensures sessions { IfOk result (λ x. length x.sessions ≡ most_sessions) }
    ensures over { IfOk result (λ x. NoneOver x) }
{
    let tables = catalog.copy(alloc)?;
    Run::new(
        alloc,
        tables,
        rows,
        settings.partitions,
        settings.points,
        cut,
        MOST_SESSIONS as u16,
    )
}

/// The run over a store that is open, before its first line.
pub(crate) fn begin<D: Device + Drop, F: Teller + Drop>(
    alloc: Global,
    stored: Stored<D>,
    settings: Settings,
    tell: F,
) -> Result<Playing<D, F>, Halt<D>>
    requires settings { AreInRange settings }
    requires opened { MayBegin D.disk stored.opened stored.disk }
    requires tells { F.is_true tell }
    ensures begun { IfOk result (λ p. spec.HasPlayed D.disk ⟦<MemEngine as Engine>⟧.stands ⟦<StoreEngine as Engine>⟧.stands stored.opened.catalog (beginning stored.opened) stored.disk [] (spec.now p.run (string_bytes p.text) p.store p.last)) }
    ensures disk { IfOk result (λ p. p.store.disk ≡ stored.disk) }
    ensures limit { IfOk result (λ p. p.store.logmax ≡ settings.logmax) }
    ensures open { IfOk result (λ p. (p.ended ≡ false) × (p.store.broken ≡ false)) }
    ensures halted { IfErr result (λ h. (h.disk ≡ stored.disk) × (h.fault ≡ run_fault.NoMemory)) }
{
    let Stored { opened, disk } = stored;
    let Opened {
        catalog,
        rows,
        cut,
        ends,
        ..
    } = opened;
    let run = match run_over(alloc, &catalog, &rows, settings, cut) {
        Ok(run) => run,
        Err(NoMemory) => {
            let fault = RunFault::NoMemory;
            return Err(Halt { fault, disk });
        }
    };
    Ok(Playing {
        run,
        store: Durable::new(alloc, catalog, disk, ends, settings.logmax, cut, tell),
        text: String::new(alloc),
        last: None,
        ended: false,
    })
}
