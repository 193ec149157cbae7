//! What a disk opens as.

ghost use Rattle.std.specs.Prelude.{◌≡◌, ◌≢◌, ◌⊎◌, ◌<◌, ◌≤◌, ◌+◌, ℕ, List, false, true, length, IsTrue, IfOk, IfErr, Err};
ghost use Rattle.sk_outside.specs.Causes.{Rose};
ghost use Rattle.sk_device.specs.Disk.{IsSettled, Looks, Steps};
ghost use Rattle.sk_rows.specs.declared.table.Table.{Table as AnyTable};
ghost use Rattle.sk_model.specs.Numbers.{greatest_number};
ghost use Rattle.sk_log.specs.Groups.{selection};
ghost use Rattle.sk_log.specs.Growth.{OpensAs, OpensAt};
ghost use Rattle.sk_log.specs.Stores.{holding, new_store, open_from, root_of};
ghost use Rattle.sk_recover.specs.Making.{AllImages, IsEmptyImage, IsMade, Reopens, needs_gate};
ghost use Rattle.sk_recover.specs.Opened.{AnswersOpens, ForStored, IfFresh, IfStored, IsOpened, IsSound, IsStored, OpensTo, IsOpenedAs, Tells, is_fresh, is_new, opening_of, stored_at, told};
ghost use Rattle.sk_recover.specs.declared.opening.OpenFault.TheVariants as fault;

use crate::image::base_at;
use crate::making::{make_store, sync_all};
use crate::rows::{no_rows, rows_behind};
use crate::turn::{LogPosition, turns};
use crate::whole::{FileFault, read_file};
use sk_codec::{ReadFault, What};
use sk_device::Device;
use sk_log::{Ends, Root, empty_image, entry_at, entry_text, holding};
use sk_model::{CommitList, KeyedRows, Point, Tables};
use sk_rows::{Catalog, Copies, NoMemory};
use std::alloc::Global;
use thiserror::Error;

/// Why a store was not opened.
#[derive(Clone, Copy, Debug, PartialEq, Eq, Drop, Error)]
pub enum OpenFault {
    /// The device failed.
    #[error("the device failed")]
    Device,
    /// The files are not those of a store: the first field that is wrong, by its file and place.
    #[error("file {file} is damaged at {place}: {what:?}")]
    Damaged { file: u8, place: u64, what: What },
    /// Memory was wanted and refused.
    #[error("out of memory")]
    NoMemory,
}

impl From<NoMemory> for OpenFault {
    ghost from_gives = { λ _ e. e ≡ fault.NoMemory };

    fn from(_e: NoMemory) -> OpenFault {
        OpenFault::NoMemory
    }
}

/// What a disk opens as: its tables, the rows of the image, and what both logs have.
#[derive(Drop)]
pub struct Stored {
    /// The tables of the image.
    pub catalog: Catalog,
    /// The rows of the image, table by table, each with its key, in the order of the keys.
    pub rows: Vec<KeyedRows>,
    /// What was committed since the image, the cut, and where the logs end.
    pub reached: LogPosition,
}

fn damaged(why: ReadFault) -> OpenFault
    ensures value { result ≡ told why }
    ensures other { result ≢ fault.Device }
{
    match why {
        ReadFault::Wrong(f) => OpenFault::Damaged {
            file: f.file,
            place: f.place,
            what: f.what,
        },
        ReadFault::NoMemory => OpenFault::NoMemory,
    }
}

/// All the bytes of a file.
fn whole<D: Device>(alloc: Global, disk: &mut D, file: u8) -> Result<Vec<u8>, OpenFault>
    requires { file < 8 }
    ensures bytes { IsTrue (D.disk).tells → IfOk result (λ bytes. bytes.items ≡ (D.disk).seen disk.old file) }
    ensures only { IfErr result (λ e. (e ≡ fault.Device) ⊎ (e ≡ fault.NoMemory)) }
    ensures looks { Looks D.disk disk.old disk.new }
    ensures failed { result ≡ Err fault.Device → Rose (D.faults disk.old) (D.faults disk.new) }
    ensures later { D.faults disk.old ≤ D.faults disk.new }
{
    match read_file(alloc, disk, file) {
        Ok(bytes) => Ok(bytes),
        Err(FileFault::Failed) => Err(OpenFault::Device),
        Err(FileFault::Memory) => Err(OpenFault::NoMemory),
    }
}

/// The store of these files, from the root entry at this place, which is open.
fn stored_of(
    alloc: Global,
    root: &Root,
    base: &[u8],
    one: &[u8],
    two: &[u8],
) -> Result<Stored, OpenFault>
    requires set { root.now.set < 2 }
    requires cut { (root.now.cut.a ≤ greatest_number) × (root.now.cut.b ≤ greatest_number) }
    requires selection { root.now.cut.commit ≡ false }
    ensures value { Tells opening_of result (stored_at (root_of root.now) base.now one.now two.now) }
    ensures sound { IfOk result (λ s. IsStored s) }
    ensures only { IfErr result (λ e. e ≢ fault.Device) }
{
    let (catalog, rows) = match base_at(alloc, 5 + root.set, base, root.size) {
        Ok(base) => base,
        Err(fault) => return Err(damaged(fault)),
    };
    let begun = LogPosition {
        set: root.set,
        cut: root.cut,
        end: 0,
        gate: 0,
        mem: CommitList::new(alloc),
        store: CommitList::new(alloc),
    };
    match turns(alloc, catalog.tables(), one, two, begun) {
        Ok(reached) => Ok(Stored {
            catalog,
            rows,
            reached,
        }),
        Err(fault) => Err(damaged(fault)),
    }
}

/// The store that the disk has, from the root entry at this place of its root, which is open.
pub fn read_store<D: Device>(
    alloc: Global,
    disk: &mut D,
    root: &[u8],
    at: usize,
) -> Result<Stored, OpenFault>
    requires low { at ≤ 24 }
    requires whole { at + 24 ≤ length root.now }
    ensures value { IsTrue (D.disk).tells → root.now ≡ (D.disk).seen disk.old 0 → Tells opening_of result (open_from ((D.disk).seen disk.old) at) }
    ensures sound { IfOk result (λ s. IsStored s) }
    ensures looks { Looks D.disk disk.old disk.new }
    ensures failed { result ≡ Err fault.Device → Rose (D.faults disk.old) (D.faults disk.new) }
    ensures later { D.faults disk.old ≤ D.faults disk.new }
{
    let entry = match entry_at(root, at) {
        Ok(entry) => entry,
        Err(fault) => return Err(damaged(fault)),
    };
    let base = whole(alloc, disk, 5 + entry.set)?;
    let one = whole(alloc, disk, 1 + 2 * entry.set)?;
    let two = whole(alloc, disk, 2 + 2 * entry.set)?;
    stored_of(alloc, &entry, &base, &one, &two)
}

fn needs_gate(root: &[u8]) -> bool
    ensures { result ≡ needs_gate root.now }
{
    root.is_empty() || root[0] == 1
}

/// A store that was there, or was made.
#[derive(Drop)]
pub enum Opening {
    /// No root entry was open: a new store was made.
    Fresh,
    /// The store that was there.
    Stored(Stored),
}

/// Syncs the disk, so that nothing is pending, and reads its store; or makes a new one from this image, which has no rows, where
/// no root entry is open.
pub fn open_with<D: Device>(
    alloc: Global,
    disk: &mut D,
    image: &[u8],
    start: Point,
) -> Result<Opening, OpenFault>
    requires start { (start.commit ≡ false) × (start.a ≤ greatest_number) × (start.b ≤ greatest_number) }
    // At each moment an image opens as one that a stop at the start might have left.
    ensures any_moment { (catalog : List AnyTable) → IsTrue (D.disk).tells → IsEmptyImage catalog image.now → Steps D.disk (Reopens catalog start) disk.old disk.new }
    // A store that was made stands in every image.
    ensures fresh { (catalog : List AnyTable) → IsTrue (D.disk).tells → IsEmptyImage catalog image.now → IfOk result (λ o. IfFresh o (AllImages D.disk (IsMade catalog start) disk.new)) }
    // What is answered is what the disk as it reads opens as, or the first fault.
    ensures value { (catalog : List AnyTable) → IsTrue (D.disk).tells → AnswersOpens catalog start ((D.disk).seen disk.old) result }
    // One is made exactly where no root entry is open.
    ensures rooted { IsTrue (D.disk).tells → IfOk result (λ o. is_fresh o ≡ is_new (holding ((D.disk).seen disk.old 0))) }
    // Of a store that was there nothing is pending: a stop leaves of its files what a read gives.
    ensures settled { IsTrue (D.disk).tells → IfOk result (λ o. IfStored o ((file : ℕ) → file < 7 → IsSettled D.disk disk.new file)) }
    // Every image opens as the store that is answered.
    ensures stands { IsTrue (D.disk).tells → IfOk result (λ o. ForStored o (λ s. AllImages D.disk (λ image. OpensAs image (opening_of s)) disk.new)) }
    ensures sound { IfOk result (λ o. ForStored o (λ s. IsStored s)) }
    ensures failed { result ≡ Err fault.Device → Rose (D.faults disk.old) (D.faults disk.new) }
    ensures later { D.faults disk.old ≤ D.faults disk.new }
{
    let Ok(entry) = entry_text(alloc, 0, 1, &start, image.len() as u64) else {
        return Err(OpenFault::NoMemory);
    };
    let Ok(()) = sync_all(disk) else {
        return Err(OpenFault::Device);
    };
    let root = whole(alloc, disk, 0)?;
    match holding(&root) {
        Err(fault) => Err(damaged(ReadFault::Wrong(fault))),
        Ok(Some(at)) => Ok(Opening::Stored(read_store(alloc, disk, &root, at as usize)?)),
        Ok(None) => match make_store(disk, image, &entry, needs_gate(&root)) {
            Ok(()) => Ok(Opening::Fresh),
            Err(_) => Err(OpenFault::Device),
        },
    }
}

/// Opens the store of this catalog: syncs the disk, so that nothing is pending, and reads its store; or makes a new one, without
/// rows, where no root entry is open.
pub fn open_store<D: Device>(
    alloc: Global,
    disk: &mut D,
    catalog: &Catalog,
    start: Point,
) -> Result<Opening, OpenFault>
    requires start { (start.commit ≡ false) × (start.a ≤ greatest_number) × (start.b ≤ greatest_number) }
    // At each moment an image opens as one that a stop at the start might have left.
    ensures any_moment { IsTrue (D.disk).tells → Steps D.disk (Reopens catalog.now start) disk.old disk.new }
    // A store that was made stands in every image.
    ensures fresh { IsTrue (D.disk).tells → IfOk result (λ o. IfFresh o (AllImages D.disk (IsMade catalog.now start) disk.new)) }
    // What is answered is what the disk as it reads opens as, or the first fault.
    ensures value { IsTrue (D.disk).tells → AnswersOpens catalog.now start ((D.disk).seen disk.old) result }
    // One is made exactly where no root entry is open.
    ensures rooted { IsTrue (D.disk).tells → IfOk result (λ o. is_fresh o ≡ is_new (holding ((D.disk).seen disk.old 0))) }
    // Of a store that was there nothing is pending: a stop leaves of its files what a read gives.
    ensures settled { IsTrue (D.disk).tells → IfOk result (λ o. IfStored o ((file : ℕ) → file < 7 → IsSettled D.disk disk.new file)) }
    // Every image opens as the store that is answered.
    ensures stands { IsTrue (D.disk).tells → IfOk result (λ o. ForStored o (λ s. AllImages D.disk (λ image. OpensAs image (opening_of s)) disk.new)) }
    ensures sound { IfOk result (λ o. ForStored o (λ s. IsStored s)) }
    ensures failed { result ≡ Err fault.Device → Rose (D.faults disk.old) (D.faults disk.new) }
    ensures later { D.faults disk.old ≤ D.faults disk.new }
{
    let Ok(image) = empty_image(alloc, catalog) else {
        return Err(OpenFault::NoMemory);
    };
    open_with(alloc, disk, &image, start)
}

/// A store as it was opened.
#[derive(Drop)]
pub struct Opened {
    /// Its tables.
    pub catalog: Catalog,
    /// Their rows at the cut.
    pub rows: Tables,
    /// The cut: all commits up to its numbers, and no others, are in the rows.
    pub cut: Point,
    /// Which files are in use, and where the logs end.
    pub ends: Ends,
    /// Whether no root entry was open, so that the store was made.
    pub fresh: bool,
}

/// The new store of this catalog.
fn made(alloc: Global, catalog: &Catalog, start: Point) -> Result<Opened, OpenFault>
    requires start { (start.commit ≡ false) × (start.a ≤ greatest_number) × (start.b ≤ greatest_number) }
    ensures ok { IfOk result (λ o. IsOpened o (new_store catalog.now start)) }
    ensures fresh { IfOk result (λ o. o.fresh ≡ true) }
    ensures sound { IfOk result (λ o. IsSound o) }
    ensures err { IfErr result (λ e. e ≡ fault.NoMemory) }
{
    let Ok(rows) = no_rows(alloc, catalog.tables()) else {
        return Err(OpenFault::NoMemory);
    };
    let Ok(catalog) = catalog.copy(alloc) else {
        return Err(OpenFault::NoMemory);
    };
    Ok(Opened {
        catalog,
        rows,
        cut: start,
        ends: Ends {
            set: 0,
            store_end: 0,
            gate: 0,
        },
        fresh: true,
    })
}

/// What was read, with its rows at the cut.
fn loaded(alloc: Global, stored: Stored) -> Result<Opened, OpenFault>
    requires { IsStored stored }
    ensures ok { IfOk result (λ o. IsOpened o (opening_of stored)) }
    ensures fresh { IfOk result (λ o. o.fresh ≡ false) }
    ensures sound { IfOk result (λ o. IsSound o) }
    ensures err { IfErr result (λ e. e ≡ fault.NoMemory) }
{
    let reached = stored.reached;
    let Ok(rows) = rows_behind(alloc, stored.rows, reached.mem, reached.store) else {
        return Err(OpenFault::NoMemory);
    };
    Ok(Opened {
        catalog: stored.catalog,
        rows,
        cut: reached.cut,
        ends: Ends {
            set: reached.set,
            store_end: reached.end,
            gate: reached.gate,
        },
        fresh: false,
    })
}

/// Opens the store of a disk, in which files 0 to 6 are synced first, so that nothing is pending. Where no root entry is open it
/// makes a new one with this catalog and this cut, without rows.
///
/// `start` has to be a selection with numbers of at most 2,147,483,647. After `Device` the disk is to be opened again.
#[tactic(auto, using(crate::proofs::Opens::opens_to, crate::proofs::Opens::all_stand, crate::proofs::Opens::all_begin))]
pub fn open<D: Device>(
    alloc: Global,
    disk: &mut D,
    catalog: &Catalog,
    start: Point,
) -> Result<Opened, OpenFault>
    requires start { (start.commit ≡ false) × (start.a ≤ greatest_number) × (start.b ≤ greatest_number) }
    // The answer is what the disk as it reads opens as, or its first fault.
    ensures value { IsTrue (D.disk).tells → OpensTo catalog.now start ((D.disk).seen disk.old) result }
    // It is a new store exactly where no root entry is open.
    ensures fresh { IsTrue (D.disk).tells → IfOk result (λ o. o.fresh ≡ is_new (holding ((D.disk).seen disk.old 0))) }
    // At each moment an image opens as one that a stop at the start might have left.
    ensures any_moment { IsTrue (D.disk).tells → Steps D.disk (Reopens catalog.now start) disk.old disk.new }
    // Afterwards every image opens as the store that is answered.
    ensures stands { IsTrue (D.disk).tells → IfOk result (λ o. AllImages D.disk (IsOpenedAs o) disk.new) }
    // So a pipeline can begin with it: every image opens at its cut and with its ends.
    ensures begins { IsTrue (D.disk).tells → IfOk result (λ o. AllImages D.disk (OpensAt (selection o.cut.a o.cut.b) o.ends) disk.new) }
    // Whatever the device tells, it has a set of files, a selection for a cut, and rows of each table that are in the order of their
    // keys and fit it.
    ensures sound { IfOk result (λ o. IsSound o) }
    ensures failed { result ≡ Err fault.Device → Rose (D.faults disk.old) (D.faults disk.new) }
    ensures later { D.faults disk.old ≤ D.faults disk.new }
{
    match open_store(alloc, disk, catalog, start)? {
        Opening::Fresh => made(alloc, catalog, start),
        Opening::Stored(stored) => loaded(alloc, stored),
    }
}
