// The words of the command `serve`.
ghost use Rattle.std.specs.Prelude.{◌≡◌, ◌≢◌, ◌≤◌, ◌⊎◌, ℕ, true, false, IfOk, IfSome, None, codes, map, option_map, string_bytes};
ghost use Rattle.clap.specs.Words.{app_of, first_value, found_of, kind_of, matched_of, raw_values, rule_of};
ghost use Rattle.bosh_commands.specs.Options.{ShowsWhatIsAsked, beside_of, flag_in, is_shown, limits_from, limits_of, named_in, number_in, open_in, optional_rule, options_from, options_in, options_of, options_wanted, plain_number, plan_from, plan_of, serve_app, serve_faults, site_in, switch_rule, usual_rule, with_counts, with_limits, with_site, with_telling};

use crate::site::{Site, site_of};
use bosh_server::ServePlan;
use bosh_types::{Rid, Text};
use clap::error::ErrorKind;
use clap::{Arg, ArgAction, ArgMatches, Command, Error};
use server_name::ServerName;
use session_table::Limits;
use std::alloc::{AllocError, Global};

/// How the command `serve` is to run.
#[derive(Debug, Drop)]
pub struct ServeOptions {
    pub port: u16,
    /// Whether the server ends with its input too.
    pub until_eof: bool,
    pub plan: ServePlan,
    pub site: Site,
    /// The directory that traces are written to, where they are.
    pub trace: Option<Text>,
    /// Whether a log is written to standard error.
    pub log: bool,
    /// With which the names of its sessions begin, where it has one.
    pub name: Option<ServerName>,
    /// The file that its sessions are kept in, where they are.
    pub journal: Option<Text>,
}

/// What the words say that can't be wrong, beside what can.
#[derive(Drop)]
pub struct Beside {
    pub until_eof: bool,
    pub log: bool,
    pub trace: Option<Text>,
    pub journal: Option<Text>,
}

/// What the words ask for.
#[derive(Drop)]
pub enum Wanted {
    /// This text is to be shown: help, or the version.
    Shown(String),
    Serve(ServeOptions),
    /// They are no command.
    Nothing,
}

/// The version of the program.
pub const VERSION: &str = "0.1.0";

const PORTS: u32 = 65_535;

const WORKERS: u32 = 64;

const CONNECTIONS: u32 = 1_048_576;

const SESSIONS: u32 = 65_536;

const OPENINGS: u32 = u32::MAX;

const GAP_WAITS: u32 = 10;

const LEAST_INCOMING: u64 = 1_048_576;

const GREATEST_INCOMING: u64 = 1_099_511_627_776;

const LEAST_JOURNAL: u64 = 65_536;

const GREATEST_JOURNAL: u64 = 1_099_511_627_776;

// An option that takes a value, and has this one where none is given.
fn usual<'a>(alloc: Global, name: &'a str, value: &'a str, usual: &'a str, help: &'a str) -> Arg<'a>
    ensures rule { rule_of result ≡ usual_rule name.now usual.now }
    ensures local { result.global ≡ false }
{
    Arg::new(alloc, name)
        .long(name)
        .value_name(value)
        .help(help)
        .default_value(usual)
}

// An option that takes a value, and may be left out.
fn optional<'a>(alloc: Global, name: &'a str, value: &'a str, help: &'a str) -> Arg<'a>
    ensures rule { rule_of result ≡ optional_rule name.now }
    ensures local { result.global ≡ false }
{
    Arg::new(alloc, name)
        .long(name)
        .value_name(value)
        .help(help)
}

// An option that takes no value.
fn switch<'a>(alloc: Global, name: &'a str, help: &'a str) -> Arg<'a>
    ensures rule { rule_of result ≡ switch_rule name.now }
    ensures local { result.global ≡ false }
{
    Arg::new(alloc, name)
        .long(name)
        .help(help)
        .action(ArgAction::SetTrue)
}

// Where it listens, by how many threads, and how long.
fn with_counts<'a>(alloc: Global, command: Command<'a>) -> Result<Command<'a>, AllocError>
    ensures { IfOk result (λ made. app_of made ≡ with_counts (app_of command.entry)) }
{
    let port = optional(
        alloc,
        "port",
        "PORT",
        "The port of 127.0.0.1 to listen at, from 1 to 65535",
    )
    .required(true);
    let workers = usual(
        alloc,
        "workers",
        "WORKERS",
        "8",
        "How many threads serve connections, each all that it was handed, from 1 to 64",
    );
    let connections = usual(
        alloc,
        "connections",
        "CONNECTIONS",
        "0",
        "After how many connections to end, up to 1048576; 0 is without end",
    );
    command.arg(port)?.arg(workers)?.arg(connections)
}

// How much it takes.
fn with_limits<'a>(alloc: Global, command: Command<'a>) -> Result<Command<'a>, AllocError>
    ensures { IfOk result (λ made. app_of made ≡ with_limits (app_of command.entry)) }
{
    let sessions = usual(
        alloc,
        "sessions",
        "SESSIONS",
        "256",
        "How many sessions may be live at once, from 1 to 65536",
    );
    let openings = usual(
        alloc,
        "openings",
        "OPENINGS",
        "1048576",
        "How many sessions may be opened since the start, from 1 to 4294967295",
    );
    let most = optional(
        alloc,
        "open",
        "CONNECTIONS",
        "How many connections may be open at once, from 1 to 1048576: one more takes the place of an idle one, or is answered by 503. Without it as many as there are descriptors for, but 64",
    );
    let incoming = usual(
        alloc,
        "incoming",
        "BYTES",
        "67108864",
        "How many bytes of requests may be coming in at once, from 1048576 to 1099511627776: the request that would pass it is answered by 503",
    );
    let journal_limit = usual(
        alloc,
        "journal-limit",
        "BYTES",
        "16777216",
        "How many counted bytes the journal of a session may have, from 65536 to 1099511627776: the request that would pass it ends the session",
    );
    let gap_waits = usual(
        alloc,
        "gap-waits",
        "TIMES",
        "1",
        "After how many times its wait a session answers a request by an error for which an earlier one is missing, from 1 to 10",
    );
    command
        .arg(sessions)?
        .arg(openings)?
        .arg(most)?
        .arg(incoming)?
        .arg(journal_limit)?
        .arg(gap_waits)
}

// When it ends, and which hosts it has.
fn with_site<'a>(alloc: Global, command: Command<'a>) -> Result<Command<'a>, AllocError>
    ensures { IfOk result (λ made. app_of made ≡ with_site (app_of command.entry)) }
{
    let until_eof = switch(
        alloc,
        "until-eof",
        "Read standard input, and end where that does",
    );
    let xmpp = optional(
        alloc,
        "xmpp",
        "DOMAIN",
        "A domain whose XMPP server listens at 127.0.0.1; up to eight times. Without it there are xmpp.localhost and the test hosts",
    )
    .action(ArgAction::Append);
    let xmpp_port = usual(
        alloc,
        "xmpp-port",
        "PORT",
        "5222",
        "The port of 127.0.0.1 at which the XMPP server listens, from 1 to 65535",
    );
    let test_hosts = switch(
        alloc,
        "test-hosts",
        "Serve an echo at echo.localhost and a room at room.localhost beside the domains",
    );
    command
        .arg(until_eof)?
        .arg(xmpp)?
        .arg(xmpp_port)?
        .arg(test_hosts)
}

// What it tells of itself.
fn with_telling<'a>(alloc: Global, command: Command<'a>) -> Result<Command<'a>, AllocError>
    ensures { IfOk result (λ made. app_of made ≡ with_telling (app_of command.entry)) }
{
    let trace = optional(
        alloc,
        "trace",
        "DIR",
        "Write what is seen of each session to a file in this directory, which audit judges",
    );
    let log = switch(
        alloc,
        "log",
        "Write a line to standard error for each session that opens and ends, each back end that fails and what is refused, and the counts each minute",
    );
    let name = optional(
        alloc,
        "name",
        "NAME",
        "The name of this server, with which the names of its sessions begin: 1 to 14 letters, digits and -, a letter first",
    );
    let journal = optional(
        alloc,
        "journal",
        "FILE",
        "Keep the sessions in this file: those that it has go on, and nothing is answered or handed on before it is stored there",
    );
    command.arg(trace)?.arg(log)?.arg(name)?.arg(journal)
}

fn serve_command<'a>(alloc: Global) -> Result<Command<'a>, AllocError>
    ensures { IfOk result (λ command. app_of command ≡ serve_app) }
{
    let bare = Command::new(alloc, "serve")
        .about(
            "Serves XMPP over BOSH at http://127.0.0.1:PORT/http-bind, for a server of XMPP behind it",
        )
        .version(VERSION);
    let counted = with_counts(alloc, bare)?;
    let limited = with_limits(alloc, counted)?;
    let placed = with_site(alloc, limited)?;
    with_telling(alloc, placed)
}

/// Reads the words, of which the first is the command's. The only error is want of memory.
pub fn read_options(alloc: Global, words: &[String]) -> Result<Wanted, AllocError>
    ensures options { IfOk result (λ wanted. options_wanted wanted ≡ options_in (map (λ word. string_bytes word) words.now)) }
    ensures shows { IfOk result (λ wanted. ShowsWhatIsAsked (serve_faults (map (λ word. string_bytes word) words.now)) (is_shown wanted)) }
{
    let command = serve_command(alloc)?;
    match command.try_get_matches_from(words) {
        Ok(matches) => wanted_by(alloc, &matches),
        Err(error) => without_matches(alloc, &error),
    }
}

fn without_matches(alloc: Global, error: &Error) -> Result<Wanted, AllocError>
    ensures none { IfOk result (λ wanted. options_wanted wanted ≡ None) }
    ensures mistake { IfOk result (λ _. kind_of error.now ≢ ErrorKind.OutOfMemory) }
    ensures shows { IfOk result (λ wanted. is_shown wanted ≡ true → (kind_of error.now ≡ ErrorKind.DisplayHelp) ⊎ (kind_of error.now ≡ ErrorKind.DisplayVersion)) }
    ensures shown { IfOk result (λ wanted. (kind_of error.now ≡ ErrorKind.DisplayHelp) ⊎ (kind_of error.now ≡ ErrorKind.DisplayVersion) → is_shown wanted ≡ true) }
{
    match error.kind() {
        ErrorKind::OutOfMemory => Err(AllocError),
        ErrorKind::DisplayHelp | ErrorKind::DisplayVersion => {
            Ok(Wanted::Shown(format!(in alloc; "{error}")?))
        }
        _ => Ok(Wanted::Nothing),
    }
}

fn wanted_by(alloc: Global, matches: &ArgMatches<'_>) -> Result<Wanted, AllocError>
    ensures options { IfOk result (λ wanted. options_wanted wanted ≡ options_of (λ id. first_value (found_of matches.now) id) (option_map raw_values (matched_of (found_of matches.now) (codes "xmpp")))) }
    ensures shows { IfOk result (λ wanted. is_shown wanted ≡ false) }
{
    match options(alloc, matches) {
        Ok(Some(options)) => Ok(Wanted::Serve(options)),
        Ok(None) => Ok(Wanted::Nothing),
        Err(AllocError) => Err(AllocError),
    }
}

fn options(alloc: Global, matches: &ArgMatches<'_>) -> Result<Option<ServeOptions>, AllocError>
    ensures { IfOk result (λ options. options ≡ options_of (λ id. first_value (found_of matches.now) id) (option_map raw_values (matched_of (found_of matches.now) (codes "xmpp")))) }
{
    let beside = beside_in(alloc, matches)?;
    let port = number(matches.get_str("port"), 1, PORTS);
    let plan = plan(matches);
    let site = site(alloc, matches)?;
    let name = named_in(matches.get_str("name"));
    Ok(options_from(beside, port, plan, site, name))
}

fn beside_in(alloc: Global, matches: &ArgMatches<'_>) -> Result<Beside, AllocError>
    ensures { IfOk result (λ beside. beside ≡ beside_of (λ id. first_value (found_of matches.now) id)) }
{
    let until_eof = flag(matches.get_str("until-eof"));
    let log = flag(matches.get_str("log"));
    let trace = text_in(alloc, matches.get_str("trace"))?;
    let journal = text_in(alloc, matches.get_str("journal"))?;
    Ok(Beside {
        until_eof,
        log,
        trace,
        journal,
    })
}

fn plan(matches: &ArgMatches<'_>) -> Option<ServePlan>
    ensures { result ≡ plan_of (λ id. first_value (found_of matches.now) id) }
{
    let workers = number(matches.get_str("workers"), 1, WORKERS);
    let connections = number(matches.get_str("connections"), 0, CONNECTIONS);
    let limits = limits(matches);
    let most = open_in(matches.get_str("open"));
    let incoming = wide_number(
        matches.get_str("incoming"),
        LEAST_INCOMING,
        GREATEST_INCOMING,
    );
    plan_from(workers, connections, limits, most, incoming)
}

fn limits(matches: &ArgMatches<'_>) -> Option<Limits>
    ensures { result ≡ limits_of (λ id. first_value (found_of matches.now) id) }
{
    let live = number(matches.get_str("sessions"), 1, SESSIONS);
    let openings = number(matches.get_str("openings"), 1, OPENINGS);
    let journal = wide_number(
        matches.get_str("journal-limit"),
        LEAST_JOURNAL,
        GREATEST_JOURNAL,
    );
    let gap_waits = number(matches.get_str("gap-waits"), 1, GAP_WAITS);
    limits_from(live, openings, journal, gap_waits)
}

fn limits_from(
    live: Option<u32>,
    openings: Option<u32>,
    journal: Option<u64>,
    gap_waits: Option<u32>,
) -> Option<Limits>
    ensures { result ≡ limits_from live openings journal gap_waits }
{
    Some(Limits {
        live: live?,
        openings: openings?,
        journal: journal?,
        gap_waits: gap_waits?,
    })
}

fn plan_from(
    workers: Option<u32>,
    connections: Option<u32>,
    limits: Option<Limits>,
    most: Option<Option<u32>>,
    incoming: Option<u64>,
) -> Option<ServePlan>
    ensures { result ≡ plan_from workers connections limits most incoming }
{
    let workers = workers?;
    let connections = connections?;
    let limits = limits?;
    let most = most?;
    let incoming = incoming?;
    Some(ServePlan {
        workers,
        connections,
        limits,
        open: most,
        incoming,
    })
}

// How many connections may be open; None within where the words don't say it.
fn open_in(text: Option<&str>) -> Option<Option<u32>>
    ensures { result ≡ open_in (option_map (λ text. text.now) text.entry) }
{
    if text.is_none() {
        return Some(None);
    }
    let most = number(text, 1, CONNECTIONS)?;
    Some(Some(most))
}

// The name of the server; None within where the words don't say one.
fn named_in(text: Option<&str>) -> Option<Option<ServerName>>
    ensures { result ≡ named_in (option_map (λ text. text.now) text.entry) }
{
    match text {
        Some(text) => Some(Some(ServerName::read(text.as_bytes())?)),
        None => Some(None),
    }
}

// A text of its own. The only error is want of memory.
fn text_in(alloc: Global, text: Option<&str>) -> Result<Option<Text>, AllocError>
    ensures { IfOk result (λ copy. copy ≡ option_map (λ text. text.now) text.entry) }
{
    match text {
        Some(text) => Ok(Some(Text::from_vec(Vec::from_slice(alloc, text.as_bytes())?))),
        None => Ok(None),
    }
}

// The only error is want of memory.
fn site(alloc: Global, matches: &ArgMatches<'_>) -> Result<Option<Site>, AllocError>
    ensures { IfOk result (λ site. site ≡ site_in (λ id. first_value (found_of matches.now) id) (option_map raw_values (matched_of (found_of matches.now) (codes "xmpp")))) }
{
    let names = matches.get_strs("xmpp");
    let port = number(matches.get_str("xmpp-port"), 1, PORTS);
    let has_test_hosts = flag(matches.get_str("test-hosts"));
    site_of(alloc, has_test_hosts, port, names)
}

fn options_from(
    beside: Beside,
    port: Option<u32>,
    plan: Option<ServePlan>,
    site: Option<Site>,
    name: Option<Option<ServerName>>,
) -> Option<ServeOptions>
    requires { IfSome port (λ port. port ≤ 65535) }
    ensures { result ≡ options_from beside port plan site name }
{
    let Beside {
        until_eof,
        log,
        trace,
        journal,
    } = beside;
    let port = port?;
    let plan = plan?;
    let site = site?;
    let name = name?;
    Some(ServeOptions {
        port: port as u16,
        until_eof,
        plan,
        site,
        trace,
        log,
        name,
        journal,
    })
}

// Whether a word that takes no value stands there.
fn flag(text: Option<&str>) -> bool
    ensures { result ≡ flag_in (option_map (λ text. text.now) text.entry) }
{
    match text {
        Some(text) => text.as_bytes() == b"true".as_slice(),
        None => false,
    }
}

// The number that the text writes in plain decimal, where it lies within these bounds.
pub(crate) fn number(text: Option<&str>, least: u32, greatest: u32) -> Option<u32>
    ensures number { result ≡ number_in least greatest (option_map (λ text. text.now) text.entry) }
    ensures low { IfSome result (λ n. n ≤ greatest) }
{
    let number = wide_number(text, u64::from(least), u64::from(greatest))?;
    Some(number as u32)
}

fn wide_number(text: Option<&str>, least: u64, greatest: u64) -> Option<u64>
    ensures number { result ≡ number_in least greatest (option_map (λ text. text.now) text.entry) }
    ensures low { IfSome result (λ n. n ≤ greatest) }
{
    let number = plain_number(text?.as_bytes())?;
    if least <= number && number <= greatest {
        return Some(number);
    }
    None
}

fn plain_number(text: &[u8]) -> Option<u64>
    ensures { result ≡ plain_number text.now }
{
    if text == b"0".as_slice() {
        return Some(0);
    }
    let rid = Rid::read(text)?;
    Some(rid.value())
}

/// What the parser of words says is wrong with them, where it finds a fault. The only error is want of memory.
pub(crate) fn parser_says(alloc: Global, words: &[String]) -> Result<Option<String>, AllocError> {
    match serve_command(alloc)?.try_get_matches_from(words) {
        Ok(_) => Ok(None),
        Err(error) => Ok(Some(format!(in alloc; "{error}")?)),
    }
}
