//! A new store is made where no root entry is open.
ghost use Rattle.std.specs.Prelude.{◌≡◌, ◌+◌, ◌*◌, ◌<◌, ◌≤◌, ◌^◌, ℕ, false, List, IsTrue, OnOk, length};
ghost use Rattle.sk_outside.specs.Causes.{HasCause};
ghost use Rattle.sk_device.specs.Disk.{Torn, Looks, Steps, IsSettled};
ghost use Rattle.sk_rows.specs.declared.table.Table.{Table as AnyTable};
ghost use Rattle.sk_model.specs.Numbers.{greatest_number};
ghost use Rattle.sk_model.specs.declared.point.Point.{Point as Cut};
ghost use Rattle.sk_log.specs.Calls.{Stands};
ghost use Rattle.sk_recover.specs.Making.{AllImages, CanShut, IsShut, IsMade, IsEmptyImage, Reopens, Remakes, entry_text};

use sk_device::{Device, write_synced};
use sk_outside::Failed;

/// Nothing is pending in files 0 to 6 after it.
pub fn sync_all<D: Device>(disk: &mut D) -> Result<(), Failed>
    ensures settled { IsTrue (D.disk).tells → OnOk result ((file : ℕ) → file < 7 → IsSettled D.disk disk.new file) }
    ensures looks { Looks D.disk disk.old disk.new }
    ensures cause { HasCause (D.faults disk.old) (D.faults disk.new) result }
{
    let mut file = 0u8;
    'turns: while file < 7 {
        disk.sync(file)?;
        file += 1;
    }
    Ok(())
}

/// Writes and syncs.
fn put<D: Device>(disk: &mut D, file: u8, at: u64, bytes: &[u8]) -> Result<(), Failed>
    requires { file < 8 }
    ensures steps { Steps D.disk (Torn file at (length bytes.now)) disk.old disk.new }
    ensures stands { IsTrue (D.disk).tells → OnOk result (Stands D.disk file at bytes.now disk.new) }
    ensures cause { HasCause (D.faults disk.old) (D.faults disk.new) result }
{
    write_synced(disk, file, at, bytes)
}

/// Writes a closed gate byte where it is needed.
fn shut_root<D: Device>(disk: &mut D, needed: bool) -> Result<(), Failed>
    requires { IsTrue (D.disk).tells → AllImages D.disk (CanShut needed) disk.old }
    ensures steps { (catalog : List AnyTable) (start : Cut) → IsTrue (D.disk).tells → Steps D.disk (Remakes catalog start) disk.old disk.new }
    ensures shut { IsTrue (D.disk).tells → OnOk result (AllImages D.disk IsShut disk.new) }
    ensures cause { HasCause (D.faults disk.old) (D.faults disk.new) result }
{
    if !needed {
        return Ok(());
    }
    put(disk, 0, 0, &[0])
}

/// The image, the anchor log, and the root entry behind its closed gate, which is opened last.
pub fn make_store<D: Device>(
    disk: &mut D,
    image: &[u8],
    entry: &[u8],
    needed: bool,
) -> Result<(), Failed>
    requires { IsTrue (D.disk).tells → AllImages D.disk (CanShut needed) disk.old }
    ensures steps { (catalog : List AnyTable) (start : Cut) → IsEmptyImage catalog image.now → entry.now ≡ entry_text start (length image.now) → start.commit ≡ false → start.a ≤ greatest_number → start.b ≤ greatest_number → length image.now < 2 ^ 64 → IsTrue (D.disk).tells
        → Steps D.disk (Reopens catalog start) disk.old disk.new }
    ensures made { (catalog : List AnyTable) (start : Cut) → IsEmptyImage catalog image.now → entry.now ≡ entry_text start (length image.now) → start.commit ≡ false → start.a ≤ greatest_number → start.b ≤ greatest_number → length image.now < 2 ^ 64 → IsTrue (D.disk).tells
        → OnOk result (AllImages D.disk (IsMade catalog start) disk.new) }
    ensures cause { HasCause (D.faults disk.old) (D.faults disk.new) result }
{
    put(disk, 5, 0, image)?;
    put(disk, 2, 0, &[0])?;
    shut_root(disk, needed)?;
    put(disk, 0, 1, entry)?;
    put(disk, 0, 0, &[1])
}
