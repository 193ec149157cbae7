//! The store that a script is played on.

ghost use Rattle.std.specs.Prelude.{◌≡◌, ◌∷◌, ◌++◌, [], map, None, IfOk, IfErr};
ghost use Rattle.sk_rows.specs.Catalog.{add_fault};
ghost use Rattle.sk_script.specs.Options.{CanSet};
ghost use Rattle.sk_script.specs.Tables.{CanAdd};
ghost use Rattle.sk_serial.specs.Played.{tables_in};
ghost use Rattle.sk_serial.specs.Stored as spec;

use crate::halt::Halt;
use crate::run_fault::RunFault;
use crate::unlike::stored_fault;
use sk_device::Device;
use sk_model::Point;
use sk_recover::{OpenFault, Opened, open};
use sk_rows::{Catalog, CatalogFault, Copies, NoMemory, Table};
use sk_script::{Script, TableLine};
use std::alloc::Global;

/// A store that is open, with its disk.
#[derive(Drop)]
pub(crate) struct Stored<D> {
    pub(crate) opened: Opened,
    pub(crate) disk: D,
}

/// The catalog with one more table, which it takes.
fn with_table(catalog: Catalog, table: Table) -> Result<Catalog, NoMemory>
    requires { add_fault catalog table ≡ None }
    ensures { IfOk result (λ c. c ≡ catalog ++ table ∷ []) }
{
    let mut catalog = catalog;
    match catalog.add(table) {
        Ok(()) => Ok(catalog),
        Err((_, CatalogFault::NoMemory)) => Err(NoMemory),
        Err(_) => unreachable!(),
    }
}

fn catalog_of(alloc: Global, lines: &[TableLine]) -> Result<Catalog, NoMemory>
    requires { CanAdd [] (map (λ l. l.table) lines.now) }
    ensures { IfOk result (λ c. c ≡ map (λ l. l.table) lines.now) }
{
    let mut catalog = Catalog::new(alloc);
    let mut rest = lines;
    while let [line, more @ ..] = rest {
        catalog = with_table(catalog, line.table.copy(alloc)?)?;
        rest = more;
    }
    Ok(catalog)
}

/// The cut from which a new store of the script starts.
fn start_of(script: &Script) -> Point
    requires { CanSet [] script.now.options }
    ensures start { result ≡ spec.start_of script.now }
    ensures range { spec.IsStart result }
{
    let settings = script.settings();
    Point {
        a: settings.startm,
        b: settings.starts,
        commit: false,
    }
}

/// Opens the store on the disk, or makes it with these tables, from this cut on.
fn open_on<D: Device + Drop>(
    alloc: Global,
    disk: D,
    catalog: &Catalog,
    start: Point,
) -> Result<Stored<D>, Halt<D>>
    requires { spec.IsStart start }
    ensures opened { IfOk result (λ s. spec.HasOpened D.disk D.faults catalog.now start disk s.opened s.disk) }
    ensures refused { IfErr result (λ h. spec.HasNotOpened D.disk D.faults catalog.now start disk h.fault h.disk) }
{
    let mut disk = disk;
    let fault = match open(alloc, &mut disk, catalog, start) {
        Ok(opened) => return Ok(Stored { opened, disk }),
        Err(OpenFault::Device) => RunFault::Device,
        Err(OpenFault::Damaged { file, place, what }) => RunFault::Damaged { file, place, what },
        Err(OpenFault::NoMemory) => RunFault::NoMemory,
    };
    Err(Halt { fault, disk })
}

/// The line of the script that does not go with the store. Where a script is generated there may be none.
fn unlike(opened: &Opened, script: &Script, generated: bool) -> Option<u32>
    ensures { result ≡ spec.unlike opened.now script.now generated }
{
    if opened.fresh {
        None
    } else if generated {
        Some(1)
    } else {
        stored_fault(script, opened.catalog.tables())
    }
}

/// Opens the store on the disk for a script that was read or generated, or makes it where there is none.
pub(crate) fn open_for<D: Device + Drop>(
    alloc: Global,
    disk: D,
    script: &Script,
    generated: bool,
) -> Result<Stored<D>, Halt<D>>
    requires tables { CanAdd [] (tables_in script.now) }
    requires options { CanSet [] script.now.options }
    ensures begun { IfOk result (λ s. spec.StartsFrom D.disk D.faults script.now generated disk s.opened s.disk) }
    ensures refused { IfErr result (λ h. spec.HasNotBegun D.disk D.faults script.now generated disk h.fault h.disk) }
{
    let catalog = match catalog_of(alloc, script.tables.as_slice()) {
        Ok(catalog) => catalog,
        Err(NoMemory) => {
            let fault = RunFault::NoMemory;
            return Err(Halt { fault, disk });
        }
    };
    let stored = open_on(alloc, disk, &catalog, start_of(script))?;
    match unlike(&stored.opened, script, generated) {
        None => Ok(stored),
        Some(line) => {
            let fault = RunFault::Tables { line };
            Err(Halt {
                fault,
                disk: stored.disk,
            })
        }
    }
}
