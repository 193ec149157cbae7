//! What is printed of a script that was not played to its end.

ghost use Rattle.std.specs.Prelude.{◌≡◌, ◌++◌, true, false, IfOk, IfErr, OnOk};
ghost use Rattle.std.specs.Io.KnownBytes.{Appends};
ghost use Rattle.std.specs.String.{string_bytes};
ghost use Rattle.sk_outside.specs.Causes.{Rose};
ghost use Rattle.sk_outside.specs.Pieces.{AppendsFront};
ghost use Rattle.sk_text.specs.Text.{script_fault_text};
ghost use Rattle.sk_serial.specs.Printing as spec;

use crate::run_fault::RunFault;
use sk_codec::What;
use sk_outside::{Sink, write_whole};
use sk_rows::NoMemory;
use sk_script::put_script_fault;
use std::alloc::Global;
use std::fmt::Write;

/// Writes a text, and says whether all of it was taken.
pub(crate) fn print<K: Sink>(sink: &mut K, text: &[u8]) -> bool
    ensures whole { result ≡ true → Appends (K.written sink.old) (K.written sink.new) text.now }
    ensures part { result ≡ false → AppendsFront (K.written sink.old) (K.written sink.new) text.now × Rose (K.faults sink.old) (K.faults sink.new) }
    ensures prints { spec.Prints (K.written sink.old) (K.written sink.new) (K.faults sink.old) (K.faults sink.new) text.now }
{
    match write_whole(sink, text) {
        Ok(()) => true,
        Err(_) => false,
    }
}

fn script_text(alloc: Global, line: u32, place: u32) -> Result<String, NoMemory>
    ensures { IfOk result (λ text. string_bytes text ≡ script_fault_text line place) }
{
    let mut text = String::new(alloc);
    put_script_fault(&mut text, line, place)?;
    Ok(text)
}

fn put_word(out: &mut String, what: What) -> Result<(), NoMemory>
    ensures { OnOk result (string_bytes out.new ≡ string_bytes out.old ++ spec.word_of what) }
{
    match what {
        What::Format => write!(out, "format")?,
        What::Length => write!(out, "length")?,
        What::Tag => write!(out, "tag")?,
        What::Range => write!(out, "range")?,
        What::Order => write!(out, "order")?,
        What::Half => write!(out, "half")?,
    }
    Ok(())
}

fn put_place(out: &mut String, file: u8, place: u64) -> Result<(), NoMemory>
    ensures { OnOk result (string_bytes out.new ≡ string_bytes out.old ++ spec.place_text file place) }
{
    write!(out, "FAULT damaged {} {} ", file, place)?;
    Ok(())
}

fn put_end(out: &mut String) -> Result<(), NoMemory>
    ensures { OnOk result (string_bytes out.new ≡ string_bytes out.old ++ spec.line_end) }
{
    write!(out, "\n")?;
    Ok(())
}

fn damaged_text(alloc: Global, file: u8, place: u64, what: What) -> Result<String, NoMemory>
    ensures { IfOk result (λ text. string_bytes text ≡ spec.damaged_text file place what) }
{
    let mut text = String::new(alloc);
    put_place(&mut text, file, place)?;
    put_word(&mut text, what)?;
    put_end(&mut text)?;
    Ok(text)
}

fn no_memory<K: Sink>(sink: &mut K) -> u8
    ensures { spec.IsPrinted 8 spec.memory_text result (K.written sink.old) (K.written sink.new) (K.faults sink.old) (K.faults sink.new) }
{
    print(sink, b"FAULT memory\n");
    8
}

/// Prints a text that was made, or that memory was wanted for it, and gives the status.
fn print_made<K: Sink>(text: Result<String, NoMemory>, status: u8, sink: &mut K) -> u8
    ensures made { IfOk text (λ t. spec.IsPrinted status (string_bytes t) result (K.written sink.old) (K.written sink.new) (K.faults sink.old) (K.faults sink.new)) }
    ensures none { IfErr text (λ _. spec.IsPrinted 8 spec.memory_text result (K.written sink.old) (K.written sink.new) (K.faults sink.old) (K.faults sink.new)) }
{
    match text {
        Ok(text) => {
            print(sink, text.as_bytes());
            status
        }
        Err(NoMemory) => no_memory(sink),
    }
}

/// Prints a fault, and gives its status.
pub(crate) fn refused<K: Sink>(alloc: Global, fault: RunFault, sink: &mut K) -> u8
    ensures { spec.IsRefused fault result (K.written sink.old) (K.written sink.new) (K.faults sink.old) (K.faults sink.new) }
{
    match fault {
        RunFault::Usage => {
            print(sink, b"FAULT usage\n");
            2
        }
        RunFault::Script { line, place } => print_made(script_text(alloc, line, place), 3, sink),
        RunFault::Tables { line } => print_made(script_text(alloc, line, 1), 3, sink),
        RunFault::Read => {
            print(sink, b"FAULT read\n");
            4
        }
        RunFault::Device => {
            print(sink, b"FAULT device\n");
            6
        }
        RunFault::Damaged { file, place, what } => {
            print_made(damaged_text(alloc, file, place, what), 7, sink)
        }
        RunFault::NoMemory => no_memory(sink),
    }
}
