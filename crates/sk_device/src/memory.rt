//! Files in memory, whose calls fail as two lists say.
//!
//! Each change is kept with what stood there before, so that the images of past moments are data.
ghost use Rattle.std.specs.Prelude.{◌≡◌, [], ◌∷◌, ◌++◌, ◌+◌, ◌<◌, ◌≤◌, ◌-◌, ◌^◌, min, IfOk, OnOk, OnErr, take, drop};
ghost use Rattle.std.specs.Prelude.{ℕ, length};
ghost use Rattle.sk_outside.specs.Causes.{Rose};
ghost use Rattle.sk_device.specs.Disk.{overwritten};
ghost use Rattle.sk_device.specs.History.{image_of, Adds};
ghost use Rattle.sk_device.specs.Memory.{memory_image};

use crate::Device;
use crate::faults::fail;
use sk_outside::{CallList, Failed};
use std::alloc::{AllocError, Global};

/// A change: which file, its length before, and what stood in the range that was written.
#[derive(Drop)]
pub struct Past {
    file: u8,
    size: usize,
    at: usize,
    bytes: Vec<u8>,
}

/// A device in memory, of which everything is told.
///
/// A call fails exactly where a list has its number, or where it found no memory and `starved` rose.
/// Each call is done at once and a failing write leaves the old bytes, so a stop leaves what reads
/// give.
#[derive(Drop)]
pub struct MemDevice {
    alloc: Global,
    files: [Vec<u8>; 8],
    past: Vec<Past>,
    changes: CallList,
    looks: CallList,
    faults: u64,
    starved: u64,
}

impl MemDevice {
    ghost use Rattle.std.specs.Prelude.{ℕ};
    ghost use Rattle.sk_outside.specs.Calls.{made_of, fails_of, next_fails};
    ghost use Rattle.sk_device.specs.Disk.{Puts};
    ghost use Rattle.sk_device.specs.Memory.{memory_disk, changes_of, looks_of, faults_of, starved_of, IsSure, CountsChange};

    /// Empty files. Each list numbers, from 1, the calls that fail: of `write` and `sync` together,
    /// and of `len` and `read` together.
    pub fn new(alloc: Global, changes: Vec<u64>, looks: Vec<u64>) -> Self
        ensures empty { (file : ℕ) → memory_image result file ≡ [] }
        ensures anew { (memory_disk).moment result ≡ 0 }
        ensures changes { fails_of (changes_of result) ≡ changes.items }
        ensures looks { fails_of (looks_of result) ≡ looks.items }
        ensures changed { made_of (changes_of result) ≡ 0 }
        ensures looked { made_of (looks_of result) ≡ 0 }
        ensures faults { faults_of result ≡ 0 }
        ensures starved { starved_of result ≡ 0 }
    {
        MemDevice {
            alloc,
            files: [
                Vec::new(alloc),
                Vec::new(alloc),
                Vec::new(alloc),
                Vec::new(alloc),
                Vec::new(alloc),
                Vec::new(alloc),
                Vec::new(alloc),
                Vec::new(alloc),
            ],
            past: Vec::new(alloc),
            changes: CallList::new(changes),
            looks: CallList::new(looks),
            faults: 0,
            starved: 0,
        }
    }

    /// What stands in a file. It is no call of the device: it never fails and is not counted.
    pub fn bytes(&self, file: u8) -> &[u8]
        requires { file < 8 }
        ensures { result.now ≡ memory_image self.now file }
    {
        &self.files[usize::from(file)]
    }

    /// Replaces a file, and begins the history anew: the images of past moments are forgotten.
    /// It is no call of the device: it never fails and is not counted.
    pub fn set(&mut self, file: u8, bytes: Vec<u8>)
        requires { file < 8 }
        ensures puts { Puts file bytes.items (memory_image self.old) (memory_image self.new) }
        ensures anew { (memory_disk).moment self.new ≡ 0 }
        ensures changes { changes_of self.new ≡ changes_of self.old }
        ensures looks { looks_of self.new ≡ looks_of self.old }
        ensures faults { faults_of self.new ≡ faults_of self.old }
        ensures starved { starved_of self.new ≡ starved_of self.old }
    {
        self.files[usize::from(file)] = bytes;
        self.past.clear();
    }

    /// What a stop left, on a device without failing calls whose history begins anew.
    pub fn restarted(self) -> Self
        ensures left { (memory_disk).may_leave self (memory_image result) }
        ensures anew { (memory_disk).moment result ≡ 0 }
        ensures sure { IsSure result }
    {
        let MemDevice {
            alloc,
            files,
            past: _,
            changes: _,
            looks: _,
            faults: _,
            starved: _,
        } = self;
        MemDevice {
            alloc,
            files,
            past: Vec::new(alloc),
            changes: CallList::new(Vec::new(alloc)),
            looks: CallList::new(Vec::new(alloc)),
            faults: 0,
            starved: 0,
        }
    }

    /// How many calls failed since they found no memory. It stays at the greatest `u64`.
    pub fn starved(&self) -> u64
        ensures { result ≡ starved_of self.now }
    {
        self.starved
    }

    /// The same files with the same bytes, in a device without failing calls.
    pub(crate) fn copied(&self, alloc: Global) -> Result<Self, AllocError>
        ensures same { IfOk result (λ copy. (file : ℕ) → memory_image copy file ≡ memory_image self.now file) }
    {
        let mut copy = MemDevice::new(alloc, Vec::new(alloc), Vec::new(alloc));
        copy_files(alloc, &self.files, &mut copy)?;
        Ok(copy)
    }

    /// Puts bytes in their place. It is no call of the device: no list fails it and it is not counted.
    pub(crate) fn put(&mut self, file: u8, at: u64, bytes: &[u8]) -> Result<(), AllocError>
        requires { file < 8 }
        ensures ok { OnOk result (Adds file (overwritten (memory_image self.old file) at bytes.now) self.old.files self.new.files self.old.past.items self.new.past.items) }
        ensures same { OnErr result ((other : ℕ) → memory_image self.new other ≡ memory_image self.old other) }
        ensures past { OnErr result (self.new.past.items ≡ self.old.past.items) }
        ensures changes { changes_of self.new ≡ changes_of self.old }
        ensures looks { looks_of self.new ≡ looks_of self.old }
        ensures faults { faults_of self.new ≡ faults_of self.old }
        ensures starved { starved_of self.new ≡ starved_of self.old }
    {
        change(
            self.alloc,
            &mut self.files,
            &mut self.past,
            file,
            at as usize,
            bytes,
        )
    }

    /// Counts a write or a sync, and says whether it is to fail.
    pub(crate) fn next_change_fails(&mut self) -> bool
        ensures answer { result ≡ next_fails (changes_of self.old) }
        ensures counts { CountsChange self.old self.new }
        ensures same { memory_image self.new ≡ memory_image self.old }
        ensures past { self.new.past.items ≡ self.old.past.items }
        ensures faults { faults_of self.new ≡ faults_of self.old }
        ensures starved { starved_of self.new ≡ starved_of self.old }
    {
        self.changes.next_fails()
    }

    /// Counts a fault.
    pub(crate) fn fault(&mut self) -> Failed
        ensures rose { Rose (faults_of self.old) (faults_of self.new) }
        ensures later { faults_of self.old ≤ faults_of self.new }
        ensures changes { changes_of self.new ≡ changes_of self.old }
        ensures looks { looks_of self.new ≡ looks_of self.old }
        ensures starved { starved_of self.new ≡ starved_of self.old }
        ensures same { memory_image self.new ≡ memory_image self.old }
        ensures past { self.new.past.items ≡ self.old.past.items }
    {
        fail(&mut self.faults)
    }

    /// Counts a fault, for want of memory.
    pub(crate) fn starve(&mut self) -> Failed
        ensures rose { Rose (faults_of self.old) (faults_of self.new) }
        ensures later { faults_of self.old ≤ faults_of self.new }
        ensures changes { changes_of self.new ≡ changes_of self.old }
        ensures looks { looks_of self.new ≡ looks_of self.old }
        ensures starved { Rose (starved_of self.old) (starved_of self.new) }
        ensures same { memory_image self.new ≡ memory_image self.old }
        ensures past { self.new.past.items ≡ self.old.past.items }
    {
        self.starved = self.starved.saturating_add(1);
        fail(&mut self.faults)
    }
}

// Copies files into a device that has none.
fn copy_files(alloc: Global, files: &[Vec<u8>], copy: &mut MemDevice) -> Result<(), AllocError>
    requires few { length files.now ≤ 8 }
    requires empty { (file : ℕ) → memory_image copy.old file ≡ [] }
    ensures { OnOk result ((file : ℕ) → memory_image copy.new file ≡ image_of files.now file) }
{
    for file in 0..files.len() {
        copy.set(file as u8, files[file].as_slice().to_vec(alloc)?);
    }
    Ok(())
}

// Writes over what is there, with zeros in a gap.
fn overwrite(file: &mut Vec<u8>, at: usize, bytes: &[u8]) -> Result<(), AllocError>
    ensures ok { OnOk result (file.new.items ≡ overwritten file.old.items at bytes.now) }
    ensures err { OnErr result (file.new.items ≡ file.old.items) }
{
    let end = at.checked_add(bytes.len()).ok_or(AllocError)?;
    if end > file.len() {
        file.resize(end, 0)?;
    }
    file[at..end].copy_from_slice(bytes);
    Ok(())
}

// The bytes that stand in a range, as far as the file goes.
fn range_of(alloc: Global, file: &[u8], at: usize, count: usize) -> Result<Vec<u8>, AllocError>
    ensures { IfOk result (λ bytes. bytes.items ≡ take count (drop at file.now)) }
{
    let rest = if at < file.len() {
        &file[at..]
    } else {
        &file[..0]
    };
    if count < rest.len() {
        rest[..count].to_vec(alloc)
    } else {
        rest.to_vec(alloc)
    }
}

// Writes, and keeps what stood there before.
fn change(
    alloc: Global,
    files: &mut [Vec<u8>; 8],
    past: &mut Vec<Past>,
    file: u8,
    at: usize,
    bytes: &[u8],
) -> Result<(), AllocError>
    requires { file < 8 }
    ensures ok { OnOk result (Adds file (overwritten (image_of files.old file) at bytes.now) files.old files.new past.old.items past.new.items) }
    ensures same { OnErr result ((other : ℕ) → image_of files.new other ≡ image_of files.old other) }
    ensures past { OnErr result (past.new.items ≡ past.old.items) }
{
    let target = &mut files[usize::from(file)];
    let entry = Past {
        file,
        size: target.len(),
        at,
        bytes: range_of(alloc, target.as_slice(), at, bytes.len())?,
    };
    past.reserve(1)?;
    overwrite(target, at, bytes)?;
    match past.push(entry) {
        Ok(()) => Ok(()),
        Err(_) => unreachable!(),
    }
}

// Reads what is there from a place on.
fn give(file: &[u8], at: u64, out: &mut [u8]) -> usize
    ensures fits { result ≤ length out.new }
    ensures bytes { take result out.new ≡ take (length out.new) (drop at file.now) }
{
    let rest = if at < file.len() as u64 {
        &file[at as usize..]
    } else {
        &file[..0]
    };
    let count = rest.len().min(out.len());
    out[..count].copy_from_slice(&rest[..count]);
    count
}

impl Device for MemDevice {
    ghost use Rattle.std.specs.Prelude.{◌⊎◌, ◌↔◌, IsErr, IsTrue};
    ghost use Rattle.std.specs.Io.{ReadsAtMost};
    ghost use Rattle.sk_outside.specs.Causes.{HasCause};
    ghost use Rattle.sk_outside.specs.Calls.{next_fails};
    ghost use Rattle.sk_device.specs.Disk.{Torn, Looks, Steps};
    ghost use Rattle.sk_device.specs.Calls.{Measures, Gives, Writes, Settles};
    ghost use Rattle.sk_device.specs.Memory.{memory_disk, changes_of, looks_of, faults_of, starved_of, CountsLook, CountsChange};

    ghost disk = { memory_disk };

    ghost faults = { λ m. faults_of m };

    fn len(&mut self, file: u8) -> Result<u64, Failed>
        requires { file < 8 }
        ensures len { Measures memory_disk self.old file result }
        ensures looks { Looks memory_disk self.old self.new }
        ensures cause { HasCause (faults_of self.old) (faults_of self.new) result }
        ensures exact { IsErr result ↔ IsTrue (next_fails (looks_of self.old)) }
        ensures counts { CountsLook self.old self.new }
        ensures fed { starved_of self.new ≡ starved_of self.old }
    {
        if self.looks.next_fails() {
            return Err(fail(&mut self.faults));
        }
        Ok(self.bytes(file).len() as u64)
    }

    fn read(&mut self, file: u8, at: u64, out: &mut [u8]) -> Result<usize, Failed>
        requires { file < 8 }
        ensures bound { ReadsAtMost result out.new }
        ensures bytes { Gives memory_disk self.old file at out.new result }
        ensures looks { Looks memory_disk self.old self.new }
        ensures cause { HasCause (faults_of self.old) (faults_of self.new) result }
        ensures exact { IsErr result ↔ IsTrue (next_fails (looks_of self.old)) }
        ensures counts { CountsLook self.old self.new }
        ensures fed { starved_of self.new ≡ starved_of self.old }
    {
        if self.looks.next_fails() {
            return Err(fail(&mut self.faults));
        }
        Ok(give(self.bytes(file), at, out))
    }

    fn write(&mut self, file: u8, at: u64, bytes: &[u8]) -> Result<(), Failed>
        requires { file < 8 }
        ensures written { Writes memory_disk file at bytes.now self.old self.new result }
        ensures torn { Torn file at (length bytes.now) (memory_image self.old) (memory_image self.new) }
        ensures steps { Steps memory_disk (Torn file at (length bytes.now)) self.old self.new }
        ensures cause { HasCause (faults_of self.old) (faults_of self.new) result }
        ensures listed { IsTrue (next_fails (changes_of self.old)) → IsErr result }
        ensures only { OnErr result (IsTrue (next_fails (changes_of self.old)) ⊎ Rose (starved_of self.old) (starved_of self.new)) }
        ensures fed { OnOk result (starved_of self.new ≡ starved_of self.old) }
        ensures counts { CountsChange self.old self.new }
        ensures same { OnErr result (memory_image self.new ≡ memory_image self.old) }
    {
        if self.changes.next_fails() {
            return Err(fail(&mut self.faults));
        }
        match self.put(file, at, bytes) {
            Ok(()) => Ok(()),
            Err(_) => {
                self.starved = self.starved.saturating_add(1);
                Err(fail(&mut self.faults))
            }
        }
    }

    fn sync(&mut self, file: u8) -> Result<(), Failed>
        requires { file < 8 }
        ensures settled { Settles memory_disk file self.new result }
        ensures looks { Looks memory_disk self.old self.new }
        ensures cause { HasCause (faults_of self.old) (faults_of self.new) result }
        ensures exact { IsErr result ↔ IsTrue (next_fails (changes_of self.old)) }
        ensures counts { CountsChange self.old self.new }
        ensures fed { starved_of self.new ≡ starved_of self.old }
    {
        let _ = file;
        if self.changes.next_fails() {
            return Err(fail(&mut self.faults));
        }
        Ok(())
    }
}
