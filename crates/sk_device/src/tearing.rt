//! Files in memory, of which a stop may leave the writes since the last syncs torn.
ghost use Rattle.std.specs.Prelude.{◌≡◌, ◌∷◌, ◌+◌, ◌≤◌, ◌<◌, ℕ, reverse, length, vec_len, vec_capacity, IfOk, OnOk, OnErr, if◌then◌else◌};
ghost use Rattle.sk_device.specs.Disk.{Puts, overwritten};
ghost use Rattle.sk_device.specs.Changes.{image_after, left_by, standing, Keeps};
ghost use Rattle.sk_device.specs.Memory.{memory_image, changes_of, looks_of, faults_of, starved_of};

use crate::change::{Change, Written};
use crate::stopping::remains;
use crate::tear::{Tear, torn};
use crate::{Device, MemDevice};
use sk_outside::Failed;
use std::alloc::{AllocError, Global};

/// A device in memory, of which everything is told, and of which a stop may leave torn writes.
///
/// A call fails exactly where a list has its number, or where it found no memory and `starved` rose.
/// Of each write since its file's last sync a stop may leave any bytes in its range and past the old
/// end. So does a write that a list fails, and there a read gives what the device's tear leaves.
#[derive(Drop)]
pub struct TearingDevice {
    alloc: Global,
    base: MemDevice,
    memory: MemDevice,
    tear: Tear,
    log: Vec<Change>,
    ghost same: { (file : ℕ) → memory_image memory file ≡ image_after (memory_image base) (reverse log.items) file },
}

impl TearingDevice {
    ghost use Rattle.sk_device.specs.Memory.{IsSure};
    ghost use Rattle.sk_device.specs.Disk.{IsSettled};
    ghost use Rattle.sk_device.specs.Tearing.{base_of, log_of, memory_of, tear_of, tearing_disk};

    /// The files and the failing calls of this device. What stands in the files is settled.
    ///
    /// `tear` is what a write that a list fails leaves.
    pub fn new(alloc: Global, memory: MemDevice, tear: Tear) -> Result<Self, AllocError>
        ensures seen { IfOk result (λ device. (file : ℕ) → (tearing_disk).seen device file ≡ memory_image memory file) }
        ensures settled { IfOk result (λ device. (file : ℕ) → IsSettled tearing_disk device file) }
        ensures anew { IfOk result (λ device. (tearing_disk).moment device ≡ 0) }
        ensures calls { IfOk result (λ device. memory_of device ≡ memory) }
        ensures tear { IfOk result (λ device. tear_of device ≡ tear) }
    {
        Ok(TearingDevice {
            alloc,
            base: memory.copied(alloc)?,
            memory,
            tear,
            log: Vec::new(alloc),
        })
    }

    /// What stands in a file. It is no call of the device: it never fails and is not counted.
    pub fn bytes(&self, file: u8) -> &[u8]
        requires { file < 8 }
        ensures { result.now ≡ (tearing_disk).seen self.now file }
    {
        self.memory.bytes(file)
    }

    /// What a stop left, in a device in memory without failing calls.
    ///
    /// Each write since its file's last sync is cut short by the next of `tears`, in the order in which
    /// they were made. Where there is no next one, nothing of the write stands.
    pub fn stopped(self, tears: &[Tear]) -> Result<MemDevice, AllocError>
        ensures left { IfOk result (λ device. (tearing_disk).may_leave self (memory_image device)) }
        ensures chosen { IfOk result (λ device. memory_image device ≡ left_by (log_of self) tears.now (base_of self)) }
        ensures sure { IfOk result (λ device. IsSure device) }
    {
        let TearingDevice {
            alloc,
            base,
            memory: _,
            tear: _,
            log,
        } = self;
        remains(alloc, base, &log, tears)
    }

    /// How many calls failed since they found no memory. It stays at the greatest `u64`.
    pub fn starved(&self) -> u64
        ensures { result ≡ starved_of (memory_of self.now) }
    {
        self.memory.starved()
    }
}

// What is to stand of these bytes: all of them, or what the tear leaves.
fn to_stand(alloc: Global, bytes: &[u8], cut: bool, tear: &Tear) -> Result<Vec<u8>, AllocError>
    ensures items { IfOk result (λ left. left.items ≡ (if cut then standing tear.now bytes.now else bytes.now)) }
    ensures no_longer { IfOk result (λ left. length left.items ≤ length bytes.now) }
{
    if cut {
        torn(alloc, tear, bytes)
    } else {
        bytes.to_vec(alloc)
    }
}

// A write to be kept, and room for it.
fn prepared(
    log: &mut Vec<Change>,
    file: u8,
    at: u64,
    size: usize,
    bytes: Vec<u8>,
) -> Result<Written, AllocError>
    requires file { file < 8 }
    requires fits { length bytes.items ≤ size }
    ensures log { log.new.items ≡ log.old.items }
    ensures room { OnOk result (length log.new.items + 1 ≤ vec_capacity log.new) }
    ensures file { IfOk result (λ w. w.file ≡ file) }
    ensures at { IfOk result (λ w. w.at ≡ at) }
    ensures size { IfOk result (λ w. w.size ≡ size) }
    ensures bytes { IfOk result (λ w. w.bytes.items ≡ bytes.items) }
{
    log.reserve(1)?;
    Ok(Written {
        file,
        at,
        size,
        bytes,
    })
}

// Makes a write of `size` bytes, of which these stand, and keeps it.
fn put(
    memory: &mut MemDevice,
    log: &mut Vec<Change>,
    file: u8,
    at: u64,
    size: usize,
    bytes: Vec<u8>,
) -> Result<(), AllocError>
    requires file { file < 8 }
    requires fits { length bytes.items ≤ size }
    ensures puts { OnOk result (Puts file (overwritten (memory_image memory.old file) at bytes.items) (memory_image memory.old) (memory_image memory.new)) }
    ensures keeps { OnOk result (Keeps file at size bytes.items log.old.items log.new.items) }
    ensures same { OnErr result ((other : ℕ) → memory_image memory.new other ≡ memory_image memory.old other) }
    ensures log { OnErr result (log.new.items ≡ log.old.items) }
    ensures changes { changes_of memory.new ≡ changes_of memory.old }
    ensures looks { looks_of memory.new ≡ looks_of memory.old }
    ensures faults { faults_of memory.new ≡ faults_of memory.old }
    ensures starved { starved_of memory.new ≡ starved_of memory.old }
{
    let write = prepared(log, file, at, size, bytes)?;
    memory.put(file, at, &write.bytes)?;
    keep(log, Change::Wrote(write));
    Ok(())
}

// Makes a write, or what a tear leaves of it, and keeps it.
fn put_down(
    alloc: Global,
    memory: &mut MemDevice,
    log: &mut Vec<Change>,
    file: u8,
    at: u64,
    bytes: &[u8],
    cut: bool,
    tear: &Tear,
) -> Result<(), AllocError>
    requires file { file < 8 }
    ensures puts { OnOk result (Puts file (overwritten (memory_image memory.old file) at (if cut then standing tear.now bytes.now else bytes.now)) (memory_image memory.old) (memory_image memory.new)) }
    ensures keeps { OnOk result (Keeps file at (length bytes.now) (if cut then standing tear.now bytes.now else bytes.now) log.old.items log.new.items) }
    ensures same { OnErr result ((other : ℕ) → memory_image memory.new other ≡ memory_image memory.old other) }
    ensures log { OnErr result (log.new.items ≡ log.old.items) }
    ensures changes { changes_of memory.new ≡ changes_of memory.old }
    ensures looks { looks_of memory.new ≡ looks_of memory.old }
    ensures faults { faults_of memory.new ≡ faults_of memory.old }
    ensures starved { starved_of memory.new ≡ starved_of memory.old }
{
    let size = bytes.len();
    let stands = to_stand(alloc, bytes, cut, tear)?;
    put(memory, log, file, at, size, stands)
}

impl Device for TearingDevice {
    ghost use Rattle.std.specs.Prelude.{◌⊎◌, ◌↔◌, IsErr, IsTrue};
    ghost use Rattle.std.specs.Io.{ReadsAtMost};
    ghost use Rattle.sk_outside.specs.Causes.{HasCause, Rose};
    ghost use Rattle.sk_outside.specs.Calls.{next_fails};
    ghost use Rattle.sk_device.specs.Disk.{Image, Torn, Looks, Steps};
    ghost use Rattle.sk_device.specs.Calls.{Measures, Gives, Writes, Settles};
    ghost use Rattle.sk_device.specs.Memory.{CountsLook, CountsChange};
    ghost use Rattle.sk_device.specs.Tearing.{Tears, memory_of, tear_of, tearing_disk};

    ghost disk = { tearing_disk };

    ghost faults = { λ device. faults_of (memory_of device) };

    fn len(&mut self, file: u8) -> Result<u64, Failed>
        requires { file < 8 }
        ensures len { Measures tearing_disk self.old file result }
        ensures looks { Looks tearing_disk self.old self.new }
        ensures cause { HasCause (faults_of (memory_of self.old)) (faults_of (memory_of self.new)) result }
        ensures exact { IsErr result ↔ IsTrue (next_fails (looks_of (memory_of self.old))) }
        ensures counts { CountsLook (memory_of self.old) (memory_of self.new) }
        ensures fed { starved_of (memory_of self.new) ≡ starved_of (memory_of self.old) }
        ensures keeps { (image : Image) → (tearing_disk).may_leave self.old image → (tearing_disk).may_leave self.new image }
        ensures tear { tear_of self.new ≡ tear_of self.old }
    {
        self.memory.len(file)
    }

    fn read(&mut self, file: u8, at: u64, out: &mut [u8]) -> Result<usize, Failed>
        requires { file < 8 }
        ensures bound { ReadsAtMost result out.new }
        ensures bytes { Gives tearing_disk self.old file at out.new result }
        ensures looks { Looks tearing_disk self.old self.new }
        ensures cause { HasCause (faults_of (memory_of self.old)) (faults_of (memory_of self.new)) result }
        ensures exact { IsErr result ↔ IsTrue (next_fails (looks_of (memory_of self.old))) }
        ensures counts { CountsLook (memory_of self.old) (memory_of self.new) }
        ensures fed { starved_of (memory_of self.new) ≡ starved_of (memory_of self.old) }
        ensures keeps { (image : Image) → (tearing_disk).may_leave self.old image → (tearing_disk).may_leave self.new image }
        ensures tear { tear_of self.new ≡ tear_of self.old }
    {
        self.memory.read(file, at, out)
    }

    fn write(&mut self, file: u8, at: u64, bytes: &[u8]) -> Result<(), Failed>
        requires { file < 8 }
        ensures written { Writes tearing_disk file at bytes.now self.old self.new result }
        ensures torn { Torn file at (length bytes.now) ((tearing_disk).seen self.old) ((tearing_disk).seen self.new) }
        ensures steps { Steps tearing_disk (Torn file at (length bytes.now)) self.old self.new }
        ensures cause { HasCause (faults_of (memory_of self.old)) (faults_of (memory_of self.new)) result }
        ensures listed { IsTrue (next_fails (changes_of (memory_of self.old))) → IsErr result }
        ensures only { OnErr result (IsTrue (next_fails (changes_of (memory_of self.old)))
            ⊎ Rose (starved_of (memory_of self.old)) (starved_of (memory_of self.new))) }
        ensures fed { OnOk result (starved_of (memory_of self.new) ≡ starved_of (memory_of self.old)) }
        ensures counts { CountsChange (memory_of self.old) (memory_of self.new) }
        // Until a sync, any bytes may stand in the range and past the old end; after a failing write too.
        ensures tears { Rose (starved_of (memory_of self.old)) (starved_of (memory_of self.new))
            ⊎ Tears tearing_disk file at (length bytes.now) self.old self.new }
        ensures cut { OnErr result (Rose (starved_of (memory_of self.old)) (starved_of (memory_of self.new))
            ⊎ Puts file (overwritten ((tearing_disk).seen self.old file) at (standing (tear_of self.old) bytes.now)) ((tearing_disk).seen self.old) ((tearing_disk).seen self.new)) }
        ensures tear { tear_of self.new ≡ tear_of self.old }
    {
        let cut = self.memory.next_change_fails();
        let done = put_down(
            self.alloc,
            &mut self.memory,
            &mut self.log,
            file,
            at,
            bytes,
            cut,
            &self.tear,
        );
        match done {
            Ok(()) if cut => Err(self.memory.fault()),
            Ok(()) => Ok(()),
            Err(_) => Err(self.memory.starve()),
        }
    }

    fn sync(&mut self, file: u8) -> Result<(), Failed>
        requires { file < 8 }
        ensures settled { Settles tearing_disk file self.new result }
        ensures looks { Looks tearing_disk self.old self.new }
        ensures cause { HasCause (faults_of (memory_of self.old)) (faults_of (memory_of self.new)) result }
        ensures listed { IsTrue (next_fails (changes_of (memory_of self.old))) → IsErr result }
        ensures only { OnErr result (IsTrue (next_fails (changes_of (memory_of self.old)))
            ⊎ Rose (starved_of (memory_of self.old)) (starved_of (memory_of self.new))) }
        ensures fed { OnOk result (starved_of (memory_of self.new) ≡ starved_of (memory_of self.old)) }
        ensures counts { CountsChange (memory_of self.old) (memory_of self.new) }
        // It settles its file and nothing else.
        ensures keeps { (image : Image) → (tearing_disk).may_leave self.old image → image file ≡ (tearing_disk).seen self.old file → (tearing_disk).may_leave self.new image }
        ensures tear { tear_of self.new ≡ tear_of self.old }
    {
        if self.memory.next_change_fails() {
            return Err(self.memory.fault());
        }
        match self.log.reserve(1) {
            Ok(()) => {
                keep(&mut self.log, Change::Synced(file));
                Ok(())
            }
            Err(_) => Err(self.memory.starve()),
        }
    }
}

// Keeps a change, for which there is room.
fn keep(log: &mut Vec<Change>, change: Change)
    requires { vec_len log.old + 1 ≤ vec_capacity log.old }
    ensures { reverse log.new.items ≡ change ∷ reverse log.old.items }
{
    match log.push(change) {
        Ok(()) => (),
        Err(_) => unreachable!(),
    }
}
