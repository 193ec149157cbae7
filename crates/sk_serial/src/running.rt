//! One script from bytes to bytes, and its store.

ghost use Rattle.std.specs.Prelude.{◌≡◌, ◌↔◌, ◌⊎◌, ◌≤◌, [], map, true, false, None, Some, is_some, IsTrue, IfOk, IfSome, IsErrOf, IfErr};
ghost use Rattle.std.specs.List.{AllByRecursion};
ghost use Rattle.std.specs.String.{string_bytes};
ghost use Rattle.sk_outside.specs.Causes.{Rose};
ghost use Rattle.sk_outside.specs.Pieces.{ConsumesAtMost};
ghost use Rattle.sk_script.specs.Generated.{generated};
ghost use Rattle.sk_script.specs.Limits.{most_read};
ghost use Rattle.sk_script.specs.Options.{CanSet};
ghost use Rattle.sk_script.specs.Rules.{IsSession, session_in};
ghost use Rattle.sk_script.specs.Texts.{says_short};
ghost use Rattle.sk_script.specs.Words.{place as place_of, transfers_of as made_of};
ghost use Rattle.sk_script.specs.Tables.{CanAdd};
ghost use Rattle.sk_serial.specs.Played.{tables_in};
ghost use Rattle.sk_serial.specs.Lasting.{Lasting};
ghost use Rattle.sk_serial.specs.Printing.{Prints, usage_text, read_text, device_text, memory_text, IsRefused};
ghost use Rattle.sk_serial.specs.Running as spec;
ghost use Rattle.sk_serial.specs.declared.run_fault.RunFault.TheVariants as run_fault;

use crate::beginning::begin;
use crate::ending::{Shown, end, with_text};
use crate::halt::Halt;
use crate::opening::open_for;
use crate::playing::play_lines;
use crate::refusing::{print, refused};
use crate::run_fault::RunFault;
use sk_cut::Teller;
use sk_device::Device;
use sk_model::{
    CommitList, Journal, Label, PlaceList, Point, PointList, Receipt, ReceiptList, RecordList,
};
use sk_outcome::Outcome;
use sk_outside::{ReadError, Sink, Source, read_whole};
use sk_recover::logs_hold_their_own;
use sk_rows::NoMemory;
use sk_run::Ended;
use sk_script::{Script, ScriptFault, generate, place, read_script, transfers_of};
use std::alloc::Global;

fn read_bytes<S: Source>(alloc: Global, source: &mut S) -> Result<Vec<u8>, RunFault>
    ensures bytes { IfOk result (λ bytes. spec.IsRead (S.left source.old) (S.left source.new) bytes.items) }
    ensures script { IfErr result spec.IsReadFault }
    ensures read { IsErrOf result RunFault.Read → Rose (S.faults source.old) (S.faults source.new) }
    ensures within { ConsumesAtMost most_read (S.left source.old) (S.left source.new) }
    ensures later { S.faults source.old ≤ S.faults source.new }
{
    match read_whole(alloc, source) {
        Ok(bytes) => Ok(bytes),
        Err(ReadError::Failed) => Err(RunFault::Read),
        Err(ReadError::Memory) => Err(RunFault::NoMemory),
    }
}

fn parsed(alloc: Global, bytes: &[u8]) -> Result<Script, RunFault>
    ensures script { spec.ReadAs bytes.now result }
    ensures tables { IfOk result (λ script. CanAdd [] (tables_in script)) }
    ensures options { IfOk result (λ script. CanSet [] script.options) }
    ensures sessions { IfOk result (λ script. AllByRecursion (λ l. IfSome (session_in l.what) IsSession) script.lines) }
    ensures texts { IfOk result (λ script. AllByRecursion (λ l. says_short l.what ≡ true) script.lines) }
{
    match read_script(alloc, bytes) {
        Ok(script) => Ok(script),
        Err(ScriptFault::At { line, place }) => Err(RunFault::Script { line, place }),
        Err(ScriptFault::NoMemory) => Err(RunFault::NoMemory),
    }
}

fn read<S: Source>(alloc: Global, source: &mut S) -> Result<Script, RunFault>
    ensures script { IfOk result (λ script. spec.Reads (S.left source.old) (S.left source.new) script) }
    ensures why { IfErr result (λ e. spec.WhyNoScript (S.left source.old) (S.left source.new) e) }
    ensures tables { IfOk result (λ script. CanAdd [] (tables_in script)) }
    ensures options { IfOk result (λ script. CanSet [] script.options) }
    ensures sessions { IfOk result (λ script. AllByRecursion (λ l. IfSome (session_in l.what) IsSession) script.lines) }
    ensures texts { IfOk result (λ script. AllByRecursion (λ l. says_short l.what ≡ true) script.lines) }
    ensures read { IsErrOf result RunFault.Read → Rose (S.faults source.old) (S.faults source.new) }
    ensures within { ConsumesAtMost most_read (S.left source.old) (S.left source.new) }
    ensures later { S.faults source.old ≤ S.faults source.new }
{
    let bytes = read_bytes(alloc, source)?;
    parsed(alloc, &bytes)
}

fn generated(alloc: Global, seed: u32, transfers: u32) -> Result<Script, RunFault>
    ensures script { IfOk result (λ script. script ≡ generated seed transfers) }
    ensures why { IfErr result (λ e. e ≡ run_fault.NoMemory) }
    ensures tables { IfOk result (λ script. CanAdd [] (tables_in script)) }
    ensures options { IfOk result (λ script. CanSet [] script.options) }
    ensures sessions { IfOk result (λ script. AllByRecursion (λ l. IfSome (session_in l.what) IsSession) script.lines) }
    ensures texts { IfOk result (λ script. AllByRecursion (λ l. says_short l.what ≡ true) script.lines) }
{
    match generate(alloc, seed, transfers) {
        Ok(script) => Ok(script),
        Err(NoMemory) => Err(RunFault::NoMemory),
    }
}

/// The script that is to be played: the one that the source has, or the one that is generated.
fn script_for<S: Source>(
    alloc: Global,
    source: &mut S,
    transfers: Option<(u32, u32)>,
) -> Result<Script, RunFault>
    ensures script { IfOk result (λ script. spec.IsScript transfers (S.left source.old) (S.left source.new) script) }
    ensures why { IfErr result (λ e. spec.WhyNoScript (S.left source.old) (S.left source.new) e) }
    ensures tables { IfOk result (λ script. CanAdd [] (tables_in script)) }
    ensures options { IfOk result (λ script. CanSet [] script.options) }
    ensures sessions { IfOk result (λ script. AllByRecursion (λ l. IfSome (session_in l.what) IsSession) script.lines) }
    ensures texts { IfOk result (λ script. AllByRecursion (λ l. says_short l.what ≡ true) script.lines) }
    ensures read { IsErrOf result RunFault.Read → Rose (S.faults source.old) (S.faults source.new) }
    ensures unread { is_some transfers ≡ true → source.new ≡ source.old }
    ensures within { ConsumesAtMost most_read (S.left source.old) (S.left source.new) }
    ensures later { S.faults source.old ≤ S.faults source.new }
{
    match transfers {
        None => read(alloc, source),
        Some((seed, n)) => generated(alloc, seed, n),
    }
}

/// Plays a script on a disk, and puts the run into its text.
fn play<D: Device + Drop, F: Teller + Drop>(
    alloc: Global,
    script: Script,
    transfers: Option<u32>,
    disk: D,
    tell: F,
) -> Result<Shown<D>, Halt<D>>
    requires tables { CanAdd [] (tables_in script) }
    requires options { CanSet [] script.options }
    requires sessions { AllByRecursion (λ l. IfSome (session_in l.what) IsSession) script.lines }
    requires texts { AllByRecursion (λ l. says_short l.what ≡ true) script.lines }
    requires tells { F.is_true tell }
    ensures shown { IfOk result (λ s. spec.IsPlayed D.disk D.faults script transfers disk s.ended (spec.saved_of s) (string_bytes s.text) s.broken s.disk) }
    ensures halted { IfErr result (λ h. spec.HasHalted D.disk D.faults script (is_some transfers) disk h.fault h.disk) }
{
    logs_hold_their_own();
    let settings = script.settings();
    let stored = match open_for(alloc, disk, &script, transfers.is_some()) {
        Ok(stored) => stored,
        Err(halt) => return Err(halt),
    };
    let begun = match begin(alloc, stored, settings, tell) {
        Ok(begun) => begun,
        Err(halt) => return Err(halt),
    };
    let playing = match play_lines(alloc, begun, script.lines.into_vec()) {
        Ok(playing) => playing,
        Err(halt) => return Err(halt),
    };
    let shown = match end(alloc, playing) {
        Ok(shown) => shown,
        Err(halt) => return Err(halt),
    };
    with_text(alloc, shown, transfers)
}

fn transfers_in(made: Option<(u32, u32)>) -> Option<u32>
    ensures { result ≡ spec.transfers_in made }
{
    match made {
        None => None,
        Some((_, n)) => Some(n),
    }
}

/// Reads or makes the script, and plays it.
fn play_source<S: Source, D: Device + Drop>(
    alloc: Global,
    source: &mut S,
    transfers: Option<(u32, u32)>,
    disk: D,
) -> Result<Shown<D>, Halt<D>>
    ensures shown { IfOk result (λ s. spec.IsShown D.disk D.faults transfers (S.left source.old) (S.left source.new) disk s) }
    ensures halted { IfErr result (λ h. spec.IsHalted D.disk D.faults transfers (S.left source.old) (S.left source.new) disk h.fault h.disk) }
    ensures read { IfErr result (λ h. h.fault ≡ run_fault.Read → Rose (S.faults source.old) (S.faults source.new)) }
    ensures unread { is_some transfers ≡ true → source.new ≡ source.old }
    ensures within { ConsumesAtMost most_read (S.left source.old) (S.left source.new) }
    ensures later { S.faults source.old ≤ S.faults source.new }
{
    match script_for(alloc, source, transfers) {
        Ok(script) => play(
            alloc,
            script,
            transfers_in(transfers),
            disk,
            |label: Label, cut: Point| Receipt { label, cut },
        ),
        Err(fault) => Err(Halt { fault, disk }),
    }
}

/// Prints a fault, and hands out nothing but the disk.
fn refuse<K: Sink, D: Device + Drop>(alloc: Global, halt: Halt<D>, sink: &mut K) -> Outcome<D>
    ensures printed { IsRefused halt.fault result.status (K.written sink.old) (K.written sink.new) (K.faults sink.old) (K.faults sink.new) }
    ensures nothing { spec.IsNothing result }
    ensures disk { result.disk ≡ halt.disk }
{
    let Halt { fault, disk } = halt;
    let status = refused(alloc, fault, sink);
    Outcome {
        status,
        records: RecordList::new(alloc),
        mem: Journal::new(alloc),
        store: Journal::new(alloc),
        points: PointList::new(alloc),
        order: CommitList::new(alloc),
        prefixes: PlaceList::new(alloc),
        receipts: ReceiptList::new(alloc),
        cut: Point {
            a: 0,
            b: 0,
            commit: false,
        },
        disk,
    }
}

/// Prints a run, and hands it out.
fn finish<K: Sink, D: Device + Drop>(shown: Shown<D>, sink: &mut K) -> Outcome<D>
    ensures { spec.IsFinished shown result (K.written sink.old) (K.written sink.new) (K.faults sink.old) (K.faults sink.new) }
{
    let Shown {
        ended,
        text,
        receipts,
        cut,
        disk,
        broken,
        ..
    } = shown;
    let whole = print(sink, text.as_bytes());
    let status = if broken {
        6
    } else if whole {
        0
    } else {
        5
    };
    let Ended {
        records,
        order,
        places,
        mem,
        store,
        points,
    } = ended;
    Outcome {
        status,
        records,
        mem,
        store,
        points,
        order,
        prefixes: places,
        receipts,
        cut,
        disk,
    }
}

fn run<S: Source, K: Sink, D: Device + Drop>(
    alloc: Global,
    words: &[String],
    source: &mut S,
    sink: &mut K,
    disk: D,
) -> Outcome<D>
    ensures ran { spec.Ran D.disk D.faults (is_some (place_of (map string_bytes words.now))) (made_of (map string_bytes words.now)) (S.left source.old) (S.left source.new) (K.written sink.old) (K.written sink.new) (S.faults source.old) (S.faults source.new) (K.faults sink.old) (K.faults sink.new) disk result }
    ensures untouched { is_some (place_of (map string_bytes words.now)) ≡ false → (source.new ≡ source.old) × (result.disk ≡ disk) }
    ensures unread { is_some (made_of (map string_bytes words.now)) ≡ true → source.new ≡ source.old }
    ensures within { ConsumesAtMost most_read (S.left source.old) (S.left source.new) }
{
    if place(words).is_none() {
        let fault = RunFault::Usage;
        return refuse(alloc, Halt { fault, disk }, sink);
    }
    match play_source(alloc, source, transfers_of(words), disk) {
        Ok(shown) => finish(shown, sink),
        Err(halt) => refuse(alloc, halt, sink),
    }
}

/// Plays one script on the store of a disk: all that `skdb` does. The words are those behind the program's name, and exactly
/// `run DIR` or `gen SEED N DIR`.
///
/// The script is read from the source to its end, or generated where the words are of the second form. The store is then opened, or made
/// with the tables of the script where there is none, and the lines are played on it, one after another, by their sessions over both
/// engines. FLUSH makes durable what is decided; STOP ends the run there. Else each commit that is under way at the end takes the steps
/// that are left of it, each other transaction that is open is rolled back, session by session, and one flush more is made. The text goes
/// into the sink by one write at the end, or by more where the sink takes less at once; of a script that was generated it is the one line
/// that sums the run up.
///
/// Statuses: 0 Ok, 2 the words are of no written form, 3 the script departs from the grammar or does not go with the store that is
/// there, 4 the source failed, 5 the sink failed, 6 the disk failed, 7 the stored files are damaged, 8 want of memory. Statuses 2, 3, 4,
/// 7 and 8, and 6 before the run, print their one line and hand nothing out but the disk.
pub fn run_script<S: Source, K: Sink, D: Device + Drop>(
    alloc: Global,
    words: &[String],
    source: &mut S,
    sink: &mut K,
    disk: D,
) -> Outcome<D>
    // The status is one of eight; 2 comes exactly where the words are of no written form, and then nothing is asked of the source or of the disk.
    ensures status { spec.is_status result.status ≡ true }
    ensures usage { (result.status ≡ 2) ↔ (is_some (place_of (map string_bytes words.now)) ≡ false) }
    ensures untouched { result.status ≡ 2 → (source.new ≡ source.old) × (result.disk ≡ disk) }

    // Where a script is generated the source is left unread.
    ensures unread { is_some (made_of (map string_bytes words.now)) ≡ true → source.new ≡ source.old }

    // A script that departs from the grammar is refused at its first fault, and one that does not go with the store that is there at the first such line.
    ensures script { result.status ≡ 3 → spec.IsScriptFault D.disk D.faults (made_of (map string_bytes words.now)) (S.left source.old) (S.left source.new) (K.written sink.old) (K.written sink.new) (K.faults sink.old) (K.faults sink.new) disk result.disk }

    // The source, the sink or the disk failed, and not the run; damaged files are answered with their first fault.
    ensures read { result.status ≡ 4 → Rose (S.faults source.old) (S.faults source.new) × Prints (K.written sink.old) (K.written sink.new) (K.faults sink.old) (K.faults sink.new) read_text }
    ensures write { result.status ≡ 5 → Rose (K.faults sink.old) (K.faults sink.new) }
    ensures device { result.status ≡ 6 → Rose (D.faults disk) (D.faults result.disk) }
    ensures damaged { result.status ≡ 7 → spec.IsDamaged D.disk D.faults (made_of (map string_bytes words.now)) (S.left source.old) (S.left source.new) (K.written sink.old) (K.written sink.new) (K.faults sink.old) (K.faults sink.new) disk result.disk }

    // Whatever else it is, the text is that line, and nothing is handed out but the disk.
    ensures usage_printed { result.status ≡ 2 → Prints (K.written sink.old) (K.written sink.new) (K.faults sink.old) (K.faults sink.new) usage_text }
    ensures memory { result.status ≡ 8 → Prints (K.written sink.old) (K.written sink.new) (K.faults sink.old) (K.faults sink.new) memory_text }
    ensures nothing { spec.is_fault result.status ≡ true → spec.IsNothing result }

    // The script was read or generated, and was played: what is handed out is of one database with its list of commits, over the rows with
    // which the store opened; the records of each session say what its lines were answered; whatever a stop leaves of the disk from the
    // opening on shows a prefix of that list at one of the points, and at the end the one at the durable cut; and everybody who was told that
    // a commit is durable was told once and not too early. With status 0 all of the text is printed, with status 5 a front of it.
    ensures played { spec.is_whole result.status ≡ true → spec.HasRun D.disk D.faults (made_of (map string_bytes words.now)) (S.left source.old) (S.left source.new) (K.written sink.old) (K.written sink.new) (K.faults sink.old) (K.faults sink.new) disk false result }

    // Where the disk failed, it failed before the run, which was not begun, or in a flush, which ended it; a stop then leaves the prefix at the
    // durable cut, or the one of that flush.
    ensures broken { result.status ≡ 6 → (spec.IsNothing result × Prints (K.written sink.old) (K.written sink.new) (K.faults sink.old) (K.faults sink.new) device_text) ⊎ spec.HasRun D.disk D.faults (made_of (map string_bytes words.now)) (S.left source.old) (S.left source.new) (K.written sink.old) (K.written sink.new) (K.faults sink.old) (K.faults sink.new) disk true result }

    // Whatever it answers: at every moment, each image that a stop may leave opens as one that a stop at the start might have left, with perhaps more commits behind its own; or as a new store where none was.
    ensures lasts { IsTrue (D.disk).tells → Lasting D.disk disk result.disk }

    // At most so many bytes are taken, whatever it answers.
    ensures within { ConsumesAtMost most_read (S.left source.old) (S.left source.new) }
{
    run(alloc, words, source, sink, disk)
}
