//! Real files of a directory. What a real file holds, no contract says.
ghost use Rattle.std.specs.Prelude.{◌≡◌, ◌≤◌, IfOk};
ghost use Rattle.std.specs.Io.{ReadsAtMost};
ghost use Rattle.sk_device.specs.Disk.{silent};
ghost use Rattle.sk_device.specs.Files.{file_faults};

use crate::Device;
use crate::faults::fail;
use sk_outside::Failed;
use std::alloc::AllocError;
use std::fs::{OpenFile, OpenOptions};
use std::io;
use std::io::{ErrorKind, Read, Seek, SeekFrom, Write};
use std::rt::Files;

/// The files `f0` to `f7` of a directory, or those of another letter.
///
/// Each call opens its file and closes it. A missing file is taken as empty, and made by a write. The
/// directory is never made; it is synced once by the first sync of a file that is there, since an
/// earlier run may have made it, and once for each new file. Each error is a fault: of the file
/// system, a read that was interrupted, a place past 2^63 - 1, and want of memory for the file's name.
#[derive(Drop)]
pub struct FileDevice<R: Files + AllocGlobal + Drop> {
    rt: R,
    dir: String,
    letter: u8,
    // A file may be there of which the directory on the disk does not know yet.
    unlisted: bool,
    faults: u64,
}

impl<R: Files + AllocGlobal + Drop> FileDevice<R> {
    /// A device over the files of `dir` whose names are this letter (a byte of ASCII) and a digit.
    /// Nothing is opened yet.
    pub fn new(rt: R, dir: &str, letter: u8) -> Result<Self, AllocError>
        ensures faults { IfOk result (λ device. file_faults device ≡ 0) }
    {
        let dir = String::from_str(rt.alloc(), dir)?;
        Ok(FileDevice {
            rt,
            dir,
            letter,
            unlisted: true,
            faults: 0,
        })
    }

    fn path(&self, file: u8) -> Result<String, AllocError> {
        let dir = self.dir.as_str();
        let letter = char::from(self.letter);
        format!(in self.rt.alloc(); "{dir}/{letter}{file}")
    }

    // The file as it is there, or none where it is missing.
    fn open(&self, file: u8, how: &OpenOptions) -> io::Result<Option<R::File>> {
        let path = self.path(file)?;
        match how.open(&self.rt, path.as_str()) {
            Ok(opened) => Ok(Some(opened)),
            Err(error) if error.kind() == ErrorKind::NotFound => Ok(None),
            Err(error) => Err(error),
        }
    }

    fn measure(&self, file: u8) -> io::Result<u64> {
        match self.open(file, OpenOptions::new().read(true))? {
            Some(opened) => Ok(opened.metadata()?.len()),
            None => Ok(0),
        }
    }

    fn read_file(&self, file: u8, at: u64, out: &mut [u8]) -> io::Result<usize>
        ensures { ReadsAtMost result out.new }
    {
        let Some(mut opened) = self.open(file, OpenOptions::new().read(true))? else {
            return Ok(0);
        };
        opened.seek(SeekFrom::Start(at))?;
        fill(&mut opened, out)
    }

    // The file, which is made where it is missing.
    fn open_or_make(&mut self, file: u8) -> io::Result<R::File>
        ensures { file_faults self.new ≡ file_faults self.old }
    {
        if let Some(opened) = self.open(file, OpenOptions::new().write(true))? {
            return Ok(opened);
        }
        self.unlisted = true;
        let path = self.path(file)?;
        OpenOptions::new()
            .write(true)
            .create(true)
            .open(&self.rt, path.as_str())
    }

    fn write_file(&mut self, file: u8, at: u64, bytes: &[u8]) -> io::Result<()>
        ensures { file_faults self.new ≡ file_faults self.old }
    {
        let mut opened = self.open_or_make(file)?;
        opened.seek(SeekFrom::Start(at))?;
        opened.write_all(bytes)
    }

    // A new file stands on the disk once its directory does too.
    fn sync_file(&mut self, file: u8) -> io::Result<()>
        ensures { file_faults self.new ≡ file_faults self.old }
    {
        if let Some(opened) = self.open(file, OpenOptions::new().write(true))? {
            opened.sync_all()?;
            if self.unlisted {
                self.sync_directory()?;
                self.unlisted = false;
            }
        }
        Ok(())
    }

    fn sync_directory(&self) -> io::Result<()> {
        let folder = OpenOptions::new()
            .read(true)
            .open(&self.rt, self.dir.as_str())?;
        folder.sync_all()
    }
}

// Reads until the buffer is full or the end is there.
fn fill<F: Read>(opened: &mut F, out: &mut [u8]) -> io::Result<usize>
    ensures { ReadsAtMost result out.new }
{
    let mut count = 0;
    'turns: while count < out.len() {
        let taken = opened.read(&mut out[count..])?;
        if taken == 0 {
            break;
        }
        count += taken;
    }
    Ok(count)
}

impl<R: Files + AllocGlobal + Drop> Device for FileDevice<R> {
    ghost disk = { silent };

    ghost faults = { λ d. file_faults d };

    fn len(&mut self, file: u8) -> Result<u64, Failed> {
        match self.measure(file) {
            Ok(length) => Ok(length),
            Err(_) => Err(fail(&mut self.faults)),
        }
    }

    fn read(&mut self, file: u8, at: u64, out: &mut [u8]) -> Result<usize, Failed> {
        match self.read_file(file, at, out) {
            Ok(count) => Ok(count),
            Err(_) => Err(fail(&mut self.faults)),
        }
    }

    fn write(&mut self, file: u8, at: u64, bytes: &[u8]) -> Result<(), Failed> {
        match self.write_file(file, at, bytes) {
            Ok(()) => Ok(()),
            Err(_) => Err(fail(&mut self.faults)),
        }
    }

    fn sync(&mut self, file: u8) -> Result<(), Failed> {
        match self.sync_file(file) {
            Ok(()) => Ok(()),
            Err(_) => Err(fail(&mut self.faults)),
        }
    }
}
