// What the program does over what it is handed.
ghost use Rattle.std.specs.Prelude.{◌≡◌, ◌≢◌, ◌↔◌, [], ◌∷◌, Contains, Err, IfOk, IsErrOf, None, OnErr, OnOk, Some};
ghost use Rattle.std.specs.Io.KnownBytes.{Appends};
ghost use Rattle.bosh_ports.specs.Faults.{HasRisen};
ghost use Rattle.bosh_ports.specs.Sink.{AppendsFront};
ghost use Rattle.pair_text.specs.Load.{GivesItsLoad, load_text};
ghost use Rattle.bosh_commands.specs.Ends.{end_status};
ghost use Rattle.bosh_commands.specs.Run.{GivesFront, GivesItsWord, GivesWhole, command_of, help_text, version_text};

use crate::command::{LocalCommand, command_of};
use crate::ends::{End, audit, script_end};
use bosh_ports::{Sink, Source, give_all};
use pair_text::{run_load, run_pair};
use script_text::{DriveError, run_drive};
use std::alloc::Global;
use std::io::ErrorKind;

/// The script was read to its end, and its whole report was given; or the trace holds.
pub const DONE: u8 = 0;
/// The words are no command.
pub const WRONG_WORDS: u8 = 2;
/// A line of the script, or of the trace, is bad.
pub const BAD_SCRIPT: u8 = 3;
/// The source failed.
pub const READ_FAULT: u8 = 4;
/// The sink failed.
pub const WRITE_FAULT: u8 = 5;
/// Memory ran out.
pub const NO_MEMORY: u8 = 6;
/// A line of the trace breaks a rule.
pub const BROKEN_RULE: u8 = 10;

/// What the program does for which words.
const HELP: &str =
    "Robelava, an XMPP BOSH connection manager.\n\nrobelava serve --port PORT       serves XMPP over BOSH at http://127.0.0.1:PORT/http-bind\nrobelava client --port PORT --to HOST\n                                 sends each line of its input as a stanza, and writes what comes\nrobelava drive < SCRIPT          reports what becomes of bodies that reach a manager\nrobelava keep FILE < SCRIPT      the same, with sessions that a file keeps\nrobelava pair < SCRIPT           the same of a client and a manager over a network that loses\nrobelava load NUMBER             makes such a run from a number\nrobelava audit < TRACE           judges what two peers exchanged in one session\n\nserve --help and client --help show their options.\n";

const VERSION_LINE: &str = "robelava 0.1.0\n";

/// Runs the command that the words name, which leave out the program's own name, and answers the program's status. The
/// commands `drive` and `pair` run the script that the source gives, and give its report to the sink; `load` gives the line of the run
/// that its number makes; `audit` judges the trace that the source gives; `--help` and `--version` give what they ask for.
pub fn run_local<S: Source, K: Sink>(
    alloc: Global,
    words: &[String],
    source: &mut S,
    sink: &mut K,
) -> u8
    ensures statuses { Contains (0 ∷ 2 ∷ 3 ∷ 4 ∷ 5 ∷ 6 ∷ 10 ∷ []) result }

    // Other words, and these alone, have this status, and then neither the source nor the sink is touched.
    ensures wrong_words { (result ≡ 2) ↔ (command_of words.now ≡ None) }
    ensures unread { result ≡ 2 → source.new ≡ source.old }
    ensures unwritten { result ≡ 2 → sink.new ≡ sink.old }

    // Where the source tells its bytes, these statuses are the script's or the trace's, and what was given is its report and
    // nothing else; with the others it is a front of it.
    ensures done { result ≡ 0 → GivesWhole (command_of words.now) (S.left source.old) 0 (K.given sink.old) (K.given sink.new) }
    ensures bad { result ≡ 3 → GivesWhole (command_of words.now) (S.left source.old) 3 (K.given sink.old) (K.given sink.new) }
    ensures broken { result ≡ 10 → GivesWhole (command_of words.now) (S.left source.old) 10 (K.given sink.old) (K.given sink.new) }
    ensures part_read { result ≡ 4 → GivesFront (command_of words.now) (S.left source.old) (K.given sink.old) (K.given sink.new) }
    ensures part_written { result ≡ 5 → GivesFront (command_of words.now) (S.left source.old) (K.given sink.old) (K.given sink.new) }
    ensures part_in_memory { result ≡ 6 → GivesFront (command_of words.now) (S.left source.old) (K.given sink.old) (K.given sink.new) }

    // A whole report that was given keeps its word. That of `drive` tells of each session, by its journal, what went inward,
    // once and in order, and how it ended; each was sent what the script posted for it; and each answer is what an id was
    // given for good, or the error of a copy of it that was struck. That of `pair` tells of one world: what went inward at the manager is a beginning of what the client
    // made, and what the client handed out of what the server gave; and so it is in the world of `load`. Where that of `audit` is a
    // yes, the trace holds, and so what went inward in it is a beginning of what was sent, and what was got of what was given.
    ensures headline_done { result ≡ 0 → GivesItsWord (command_of words.now) (S.left source.old) (K.given sink.old) (K.given sink.new) }
    ensures headline_bad { result ≡ 3 → GivesItsWord (command_of words.now) (S.left source.old) (K.given sink.old) (K.given sink.new) }

    // A count of faults rises with the status that names it, and with no other.
    ensures read_fault { result ≡ 4 → HasRisen (S.faults source.old) (S.faults source.new) }
    ensures read_counts { result ≢ 4 → S.faults source.new ≡ S.faults source.old }
    ensures write_fault { result ≡ 5 → HasRisen (K.faults sink.old) (K.faults sink.new) }
    ensures write_counts { result ≢ 5 → K.faults sink.new ≡ K.faults sink.old }
{
    let Some(command) = command_of(words) else {
        return WRONG_WORDS;
    };
    match run(alloc, command, source, sink) {
        Ok(End::Done) => DONE,
        Ok(End::Bad) => BAD_SCRIPT,
        Ok(End::No) => BROKEN_RULE,
        Err(DriveError::ReadFault) => READ_FAULT,
        Err(DriveError::WriteFault) => WRITE_FAULT,
        Err(DriveError::NoMemory) => NO_MEMORY,
    }
}

// Runs a command.
fn run<S: Source, K: Sink>(
    alloc: Global,
    command: LocalCommand,
    source: &mut S,
    sink: &mut K,
) -> Result<End, DriveError>
    ensures whole { IfOk result (λ end. GivesWhole (Some command) (S.left source.old) (end_status end) (K.given sink.old) (K.given sink.new)) }
    ensures part { OnErr result (GivesFront (Some command) (S.left source.old) (K.given sink.old) (K.given sink.new)) }
    ensures headline { OnOk result (GivesItsWord (Some command) (S.left source.old) (K.given sink.old) (K.given sink.new)) }
    ensures no_fault { OnOk result ((S.faults source.new ≡ S.faults source.old) × (K.faults sink.new ≡ K.faults sink.old)) }
    ensures no_memory { IsErrOf result DriveError.NoMemory → (S.faults source.new ≡ S.faults source.old) × (K.faults sink.new ≡ K.faults sink.old) }
    ensures read_fault { IsErrOf result DriveError.ReadFault → HasRisen (S.faults source.old) (S.faults source.new) }
    ensures read_fault_alone { IsErrOf result DriveError.ReadFault → K.faults sink.new ≡ K.faults sink.old }
    ensures write_fault { IsErrOf result DriveError.WriteFault → HasRisen (K.faults sink.old) (K.faults sink.new) }
    ensures write_fault_alone { IsErrOf result DriveError.WriteFault → S.faults source.new ≡ S.faults source.old }
{
    match command {
        LocalCommand::Drive => match run_drive(alloc, source, sink) {
            Ok(driven) => Ok(script_end(driven)),
            Err(error) => Err(error),
        },
        LocalCommand::Pair => match run_pair(alloc, source, sink) {
            Ok(driven) => Ok(script_end(driven)),
            Err(error) => Err(error),
        },
        LocalCommand::Audit => audit(alloc, source, sink),
        LocalCommand::Load(number) => load(alloc, number, sink),
        LocalCommand::Help => show_help(sink),
        LocalCommand::Version => show_version(sink),
    }
}

fn load<K: Sink>(alloc: Global, number: u64, sink: &mut K) -> Result<End, DriveError>
    ensures done { IfOk result (λ end. end ≡ End.Done) }
    ensures given { OnOk result (GivesItsLoad number (K.given sink.old) (K.given sink.new)) }
    ensures part { OnErr result (AppendsFront (K.given sink.old) (K.given sink.new) (load_text number)) }
    ensures no_read_fault { IsErrOf result DriveError.ReadFault → ⊥ }
    ensures write_fault { IsErrOf result DriveError.WriteFault → HasRisen (K.faults sink.old) (K.faults sink.new) }
    ensures counts { OnOk result (K.faults sink.new ≡ K.faults sink.old) }
    ensures no_memory { IsErrOf result DriveError.NoMemory → K.faults sink.new ≡ K.faults sink.old }
{
    match run_load(alloc, number, sink) {
        Ok(()) => Ok(End::Done),
        Err(error) => Err(error),
    }
}

#[tactic(auto, unfolding(crate::specs::Run::help_text))]
fn show_help<K: Sink>(sink: &mut K) -> Result<End, DriveError>
    ensures done { IfOk result (λ end. end ≡ End.Done) }
    ensures given { OnOk result (Appends (K.given sink.old) (K.given sink.new) help_text) }
    ensures part { OnErr result (AppendsFront (K.given sink.old) (K.given sink.new) help_text) }
    ensures write_fault { OnErr result (HasRisen (K.faults sink.old) (K.faults sink.new)) }
    ensures error { OnErr result (result ≡ Err DriveError.WriteFault) }
    ensures counts { OnOk result (K.faults sink.new ≡ K.faults sink.old) }
{
    show(sink, HELP.as_bytes())
}

#[tactic(auto, unfolding(crate::specs::Run::version_text))]
fn show_version<K: Sink>(sink: &mut K) -> Result<End, DriveError>
    ensures done { IfOk result (λ end. end ≡ End.Done) }
    ensures given { OnOk result (Appends (K.given sink.old) (K.given sink.new) version_text) }
    ensures part { OnErr result (AppendsFront (K.given sink.old) (K.given sink.new) version_text) }
    ensures write_fault { OnErr result (HasRisen (K.faults sink.old) (K.faults sink.new)) }
    ensures error { OnErr result (result ≡ Err DriveError.WriteFault) }
    ensures counts { OnOk result (K.faults sink.new ≡ K.faults sink.old) }
{
    show(sink, VERSION_LINE.as_bytes())
}

fn show<K: Sink>(sink: &mut K, text: &[u8]) -> Result<End, DriveError>
    ensures done { IfOk result (λ end. end ≡ End.Done) }
    ensures given { OnOk result (Appends (K.given sink.old) (K.given sink.new) text.now) }
    ensures part { OnErr result (AppendsFront (K.given sink.old) (K.given sink.new) text.now) }
    ensures write_fault { OnErr result (HasRisen (K.faults sink.old) (K.faults sink.new)) }
    ensures error { OnErr result (result ≡ Err DriveError.WriteFault) }
    ensures counts { OnOk result (K.faults sink.new ≡ K.faults sink.old) }
{
    match give_all(sink, text) {
        Ok(()) => Ok(End::Done),
        Err(_) => Err(DriveError::WriteFault),
    }
}

/// The status where the program's words can't be had. A word that is no UTF-8 is no command.
pub fn status_without_words(kind: ErrorKind) -> u8
    ensures no_memory { (result ≡ 6) ↔ (kind ≡ ErrorKind.OutOfMemory) }
    ensures wrong_words { (result ≡ 2) ↔ (kind ≢ ErrorKind.OutOfMemory) }
{
    if kind == ErrorKind::OutOfMemory {
        return NO_MEMORY;
    }
    WRONG_WORDS
}
