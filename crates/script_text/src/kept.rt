// Running a script over the sessions of a file: what its lines enter is on the disk before their reports are given.
ghost use Rattle.std.specs.Prelude.{◌≡◌, ◌++◌, ℕ, [], IfErr, IfOk, IfSome, IsErrOf, List, OnErr, OnOk, false};
ghost use Rattle.bosh_ports.specs.Faults.{HasRisen};
ghost use Rattle.bosh_ports.specs.Sink.{AppendsFront};
ghost use Rattle.journal_store.specs.Crash.{EachCrash};
ghost use Rattle.journal_store.specs.RecordFile.{IsReady};
ghost use Rattle.journal_store.specs.declared.reading.SessionEntry.{SessionEntry};
ghost use Rattle.script_text.specs.declared.line.LineRead.{LineRead};
ghost use Rattle.session_store.specs.Store.{Stores};
ghost use Rattle.script_text.specs.Kept.{HasEither, HasJournalsOf, HasKept, HasNoneOrAll, HasStored, HaveJournals, IsBodies, IsOfStore, KeepsSome, KeepsUp, Reached, drive_from, onward};
ghost use Rattle.script_text.specs.Live.{PlainLive};
ghost use Rattle.script_text.specs.Manager.{PlainManager};
ghost use Rattle.script_text.specs.Report.{report_text};
ghost use Rattle.script_text.specs.Script.{Reports, step_by};
ghost use Rattle.script_text.specs.Stands.{AreLive, IsManager, IsNext};

use crate::drive::{effect_of, give_line, give_lines};
use crate::driven::{DriveError, Driven};
use crate::line::BadKind;
use crate::live::Live;
use crate::report::ReportLine;
use crate::resumed::Sessions;
use crate::run::{Effect, Next, Run};
use bosh_ports::{Sink, Source};
use bosh_types::limits::MOST_LINES;
use journal_store::{Disk, Stored};
use line_reader::{LineReader, ReadError};
use session_store::Store;
use std::alloc::{AllocError, Global};

/// Why a script over a file wasn't run to its end.
#[derive(Clone, Copy, Debug, PartialEq, Eq)]
pub enum KeptError {
    ReadFault,
    WriteFault,
    /// The disk failed: what the last line entered is on it or not.
    StoreFault,
    NoMemory,
}

impl From<AllocError> for KeptError {
    ghost use Rattle.std.specs.Prelude.{◌≡◌};
    ghost use Rattle.script_text.specs.declared.kept.KeptError.TheVariants.{NoMemory};

    ghost from_gives = { λ _ e. e ≡ NoMemory };

    fn from(_error: AllocError) -> KeptError {
        KeptError::NoMemory
    }
}

impl From<ReadError> for KeptError {
    ghost use Rattle.std.specs.Prelude.{◌≡◌};
    ghost use Rattle.script_text.specs.Fault.{drive_error_of, kept_error_of};

    ghost from_gives = { λ error e. e ≡ kept_error_of (drive_error_of error) };

    fn from(error: ReadError) -> KeptError {
        match error {
            ReadError::ReadFault => KeptError::ReadFault,
            ReadError::NoMemory => KeptError::NoMemory,
        }
    }
}

impl From<DriveError> for KeptError {
    ghost use Rattle.std.specs.Prelude.{◌≡◌};
    ghost use Rattle.script_text.specs.Fault.{kept_error_of};

    ghost from_gives = { λ error e. e ≡ kept_error_of error };

    fn from(error: DriveError) -> KeptError {
        match error {
            DriveError::ReadFault => KeptError::ReadFault,
            DriveError::WriteFault => KeptError::WriteFault,
            DriveError::NoMemory => KeptError::NoMemory,
        }
    }
}

/// Runs a script over the sessions of a file, as `run_drive` over none, and stores what each line enters before it gives the
/// line's report. A script whose first line opens a session of its own is bad there.
pub fn drive_over<D: Disk, S: Source, K: Sink>(
    alloc: Global,
    store: &mut Store<D>,
    sessions: Sessions,
    source: &mut S,
    sink: &mut K,
) -> Result<Driven, KeptError>
    requires ready { D.told → IsReady D.seen D.time D.left store.old.journals.file }
    requires unspent { store.old.journals.file.is_spent ≡ false }

    // Where the source tells its bytes, the outcome is the script's over those sessions, and what was given is its report and
    // nothing else; after an error it is a front of it.
    ensures report { IfOk result (λ outcome. IfSome (S.left source.old) (λ script. (m : PlainManager) → IsManager sessions.manager m →
        Reports (drive_from m script) outcome (K.given sink.old) (K.given sink.new))) }
    ensures part { OnErr result (IfSome (S.left source.old) (λ script. (m : PlainManager) → IsManager sessions.manager m →
        AppendsFront (K.given sink.old) (K.given sink.new) (report_text (drive_from m script).report))) }

    // Whatever came of it, a crash now leaves the journals of all sessions as they are after the lines of whose report anything was
    // given, or after one line more; and a crash at any moment of the call leaves them as they are after some of the script's lines.
    ensures kept { D.told → IfSome (S.left source.old) (λ script. (m : PlainManager) (ended : List PlainLive) (entries : List SessionEntry) →
        IsManager sessions.manager m → Stores D.seen D.time D.left store.old entries [] → HaveJournals entries (ended ++ m.live) m.opened →
        KeepsUp D.time D.left m ended script store.new.journals.file.disk (K.given sink.old) (K.given sink.new)) }
    ensures any_moment { D.told → IfSome (S.left source.old) (λ script. (m : PlainManager) (ended : List PlainLive) (entries : List SessionEntry) →
        IsManager sessions.manager m → Stores D.seen D.time D.left store.old entries [] → HaveJournals entries (ended ++ m.live) m.opened →
        EachCrash D.time D.left store.old.journals.file.disk store.new.journals.file.disk (HasJournalsOf m ended script)) }

    // A count of faults rises with the error that names it, and with nothing else.
    ensures read_fault { IsErrOf result KeptError.ReadFault → HasRisen (S.faults source.old) (S.faults source.new) }
    ensures write_fault { IsErrOf result KeptError.WriteFault → HasRisen (K.faults sink.old) (K.faults sink.new) }
    ensures store_fault { IsErrOf result KeptError.StoreFault → HasRisen (D.faults store.old.journals.file.disk) (D.faults store.new.journals.file.disk) }
    ensures read_counts { (IsErrOf result KeptError.ReadFault → ⊥) → S.faults source.new ≡ S.faults source.old }
    ensures write_counts { (IsErrOf result KeptError.WriteFault → ⊥) → K.faults sink.new ≡ K.faults sink.old }
    ensures store_counts { (IsErrOf result KeptError.StoreFault → ⊥) → D.faults store.new.journals.file.disk ≡ D.faults store.old.journals.file.disk }
{
    let mut reader = LineReader::new(alloc)?;
    let mut run = Run::Bodies(sessions.manager);
    for n in 1..MOST_LINES + 1 {
        let line = reader.next_line(alloc, source)?;
        let Effect { lines, next, over } = effect_of(alloc, run, n, line)?;
        store_next(store, &over, &next)?;
        give_lines(alloc, sink, &lines)?;
        match next {
            Next::Goes(after) => run = after,
            Next::Ends(outcome) => return Ok(outcome),
        }
    }
    let line = MOST_LINES + 1;
    let kind = BadKind::Count;
    give_line(alloc, sink, &ReportLine::Bad { line, kind })?;
    Ok(Driven::Bad { line, kind })
}

// Stores what a line entered, all of it or nothing. The line at which a script ends enters nothing.
fn store_next<D: Disk>(store: &mut Store<D>, over: &[Live], next: &Next) -> Result<(), KeptError>
    requires ready { D.told → IsReady D.seen D.time D.left store.old.journals.file }
    requires unspent { store.old.journals.file.is_spent ≡ false }
    ensures ready { D.told → IsReady D.seen D.time D.left store.new.journals.file }
    ensures unspent { OnOk result (store.new.journals.file.is_spent ≡ false) }
    ensures stored { D.told → (ended : List PlainLive) (r : Reached) (n : ℕ) (read : LineRead) → IsBodies r.run → AreLive over.now (step_by r.run n read).over →
        IsNext next.now (step_by r.run n read).next → HasKept D.seen D.time D.left store.old ended r → OnOk result (HasKept D.seen D.time D.left store.new ended (onward r (step_by r.run n read))) }
    ensures any_moment { D.told → (ended : List PlainLive) (r : Reached) (n : ℕ) (read : LineRead) → IsBodies r.run → AreLive over.now (step_by r.run n read).over →
        IsNext next.now (step_by r.run n read).next → HasKept D.seen D.time D.left store.old ended r →
        EachCrash D.time D.left store.old.journals.file.disk store.new.journals.file.disk (HasEither ended r (onward r (step_by r.run n read))) }
    ensures error { IfErr result IsOfStore }
    ensures fault { IsErrOf result KeptError.StoreFault → HasRisen (D.faults store.old.journals.file.disk) (D.faults store.new.journals.file.disk) }
    ensures counts { (IsErrOf result KeptError.StoreFault → ⊥) → D.faults store.new.journals.file.disk ≡ D.faults store.old.journals.file.disk }
{
    match next {
        Next::Goes(run) => store_line(store, over, run.live()),
        Next::Ends(_) => Ok(()),
    }
}

fn store_line<D: Disk>(store: &mut Store<D>, over: &[Live], live: &[Live]) -> Result<(), KeptError>
    requires ready { D.told → IsReady D.seen D.time D.left store.old.journals.file }
    requires unspent { store.old.journals.file.is_spent ≡ false }
    ensures ready { D.told → IsReady D.seen D.time D.left store.new.journals.file }
    ensures unspent { OnOk result (store.new.journals.file.is_spent ≡ false) }
    ensures stored { D.told → (stored : List SessionEntry) (gone going : List PlainLive) → AreLive over.now gone → AreLive live.now going →
        KeepsSome D.seen D.time D.left store.old stored [] (gone ++ going) → OnOk result (HasStored D.seen D.time D.left store.new stored (gone ++ going)) }
    ensures any_moment { D.told → (stored : List SessionEntry) (gone going : List PlainLive) → AreLive over.now gone → AreLive live.now going →
        KeepsSome D.seen D.time D.left store.old stored [] (gone ++ going) →
        EachCrash D.time D.left store.old.journals.file.disk store.new.journals.file.disk (HasNoneOrAll stored (gone ++ going)) }
    ensures error { IfErr result IsOfStore }
    ensures fault { IsErrOf result KeptError.StoreFault → HasRisen (D.faults store.old.journals.file.disk) (D.faults store.new.journals.file.disk) }
    ensures counts { (IsErrOf result KeptError.StoreFault → ⊥) → D.faults store.new.journals.file.disk ≡ D.faults store.old.journals.file.disk }
{
    keep_all(store, over)?;
    keep_all(store, live)?;
    match store.store() {
        Stored::Done => Ok(()),
        Stored::Failed => Err(KeptError::StoreFault),
        Stored::Spent => Err(KeptError::StoreFault),
        // No memory has so many bytes either.
        Stored::Full => Err(KeptError::NoMemory),
    }
}

// What the journals of these sessions have beyond the file waits to be stored.
fn keep_all<D: Disk>(store: &mut Store<D>, sessions: &[Live]) -> Result<(), KeptError>
    ensures keeps { D.told → (stored : List SessionEntry) (kept ss rest : List PlainLive) → AreLive sessions.now ss →
        KeepsSome D.seen D.time D.left store.old stored kept (ss ++ rest) → OnOk result (KeepsSome D.seen D.time D.left store.new stored (kept ++ ss) rest) }
    ensures file { store.new.journals.file ≡ store.old.journals.file }
    ensures error { IfErr result (λ e. e ≡ KeptError.NoMemory) }
{
    for live in sessions {
        match store.keep(live.number, live.session.entries()) {
            Ok(()) => {}
            // No text of a script has 2^32 bytes.
            Err(_) => return Err(KeptError::NoMemory),
        }
    }
    Ok(())
}
