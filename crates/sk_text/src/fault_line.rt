//! The line of a script that departs from the grammar.

ghost use Rattle.std.specs.Prelude.{◌≡◌, ◌++◌, OnOk};
ghost use Rattle.std.specs.String.{string_bytes};
ghost use Rattle.sk_text.specs.Text as spec;

use sk_rows::NoMemory;

/// Writes the one line of a run whose script has its first fault here. Line and place are counted from 1.
pub fn put_script_fault(out: &mut String, line: u32, place: u32) -> Result<(), NoMemory>
    ensures { OnOk result (string_bytes out.new ≡ string_bytes out.old ++ spec.script_fault_text line place) }
{
    Ok(write!(out, "FAULT script {line} {place}\n")?)
}
