//! `skdb run DIR` plays the script on standard input on the store in DIR and prints its text; `skdb gen SEED N DIR` makes a store of N transfers.
#![tactic(auto)]

mod command_line;

use command_line::words;
use sk_device::{Device, FileDevice, MemDevice};
use sk_outside::{StdSink, StdSource};
use sk_script::place;
use sk_serial::run_script;
use std::process::ExitCode;

/// Plays the script on this disk. Standard output has no buffer of the program's own, so that a write that fails is seen.
fn run<D: Device + Drop>(rt: &HostRuntime, words: &[String], disk: D) -> u8 {
    let mut source = StdSource::new(rt.stdin());
    let mut sink = StdSink::new(rt.stdout());
    run_script(rt.alloc(), words, &mut source, &mut sink, disk).status
}

/// Plays the script on the files of the directory. Where the words name none, the call answers that they are of no written form.
fn run_in(rt: &HostRuntime, words: &[String], files: HostRuntime) -> u8 {
    match place(words) {
        Some(dir) => match FileDevice::new(files, dir, b'f') {
            Ok(disk) => run(rt, words, disk),
            Err(_) => 8,
        },
        None => {
            let alloc = rt.alloc();
            run(
                rt,
                words,
                MemDevice::new(alloc, Vec::new(alloc), Vec::new(alloc)),
            )
        }
    }
}

fn main(rt: HostRuntime) -> ExitCode {
    let words = match words(&rt) {
        Ok(words) => words,
        Err(_) => return ExitCode::from(8),
    };
    match rt.clone() {
        Ok(files) => ExitCode::from(run_in(&rt, &words, files)),
        Err(_) => ExitCode::from(8),
    }
}
