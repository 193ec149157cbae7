//! The words of the command line.

use std::env::{self, Env, FillError};
use std::io::{self, ErrorKind};

/// The words behind the program's name. That name is not read, so what bytes it has makes no difference.
#[derive(Clone, Copy)]
struct BehindName<'a> {
    whole: &'a HostRuntime,
}

impl Env for BehindName<'_> {
    fn arg(&self, i: usize, buf: &mut [u8]) -> Result<usize, FillError> {
        match i.checked_add(1) {
            None => Err(FillError::NotPresent),
            Some(behind) => self.whole.arg(behind, buf),
        }
    }

    fn var(&self, name: &str, buf: &mut [u8]) -> Result<usize, FillError> {
        self.whole.var(name, buf)
    }

    fn var_at(&self, i: usize, buf: &mut [u8]) -> Result<usize, FillError> {
        self.whole.var_at(i, buf)
    }
}

/// The words behind the program's name. A word that is not UTF-8 makes them no words at all, which no written form has.
///
/// # Errors
///
/// Memory was wanted.
pub(crate) fn words(rt: &HostRuntime) -> io::Result<Vec<String>> {
    let mut words = Vec::new(rt.alloc());
    let behind = match env::args(&(BehindName { whole: rt }, rt.alloc())) {
        Ok(behind) => behind,
        Err(error) if error.kind() == ErrorKind::InvalidData => return Ok(words),
        Err(error) => return Err(error),
    };
    for word in behind {
        words.push(word)?;
    }
    Ok(words)
}
