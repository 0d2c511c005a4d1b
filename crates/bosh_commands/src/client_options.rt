// The words of the command `client`.
ghost use Rattle.std.specs.Prelude.{◌≡◌, ◌≢◌, ◌≤◌, ◌⊎◌, IfOk, IfSome, None, false, map, option_map, string_bytes, true};
ghost use Rattle.clap.specs.Words.{app_of, first_value, found_of, kind_of};
ghost use Rattle.bosh_commands.specs.ClientOptions.{AskedFit, Fits, client_app, client_faults, client_from, client_in, client_of, first_in, host_in, is_host, options_asked, shows_text};
ghost use Rattle.bosh_commands.specs.Options.{ShowsWhatIsAsked};

use crate::options::{VERSION, number};
use bosh_types::{Rid, Text};
use clap::error::ErrorKind;
use clap::{Arg, ArgMatches, Command, Error};
use session_attrs::is_allowed_text;
use std::alloc::{AllocError, Global};

/// The id of the first request.
#[derive(Clone, Copy, Debug, PartialEq, Eq)]
pub enum First {
    /// One is drawn.
    Drawn,
    Given(Rid),
}

/// How the command `client` is to run.
#[derive(Debug, Drop)]
pub struct ClientOptions {
    pub port: u16,
    pub to: Text,
    pub first: First,
    pub wait: u32,
    pub hold: u32,
}

/// What the words ask for.
#[derive(Drop)]
pub enum Asked {
    /// This text is to be shown: help, or the version.
    Shown(String),
    Run(ClientOptions),
    /// They are no command.
    Nothing,
}

/// The longest name of a host, in bytes.
const HOST_BYTES: usize = 1023;

const WAIT: u32 = 120;

const HOLD: u32 = 4;

fn client_command<'a>(alloc: Global) -> Result<Command<'a>, AllocError>
    ensures { IfOk result (λ command. app_of command ≡ client_app) }
{
    let port = Arg::new(alloc, "port")
        .long("port")
        .value_name("PORT")
        .help("The port of 127.0.0.1 at which the manager listens, from 1 to 65535")
        .required(true);
    let to = Arg::new(alloc, "to")
        .long("to")
        .value_name("HOST")
        .help("The host to reach")
        .required(true);
    let rid = Arg::new(alloc, "rid").long("rid").value_name("RID").help(
        "The id of the first request; one is drawn where it isn't given",
    );
    let wait = Arg::new(alloc, "wait")
        .long("wait")
        .value_name("SECONDS")
        .help("For how many seconds a request may be held, up to 120; with 0 the client polls")
        .default_value("60");
    let hold = Arg::new(alloc, "hold")
        .long("hold")
        .value_name("REQUESTS")
        .help("How many requests may be held, up to 4; with 0 the client polls")
        .default_value("1");
    Command::new(alloc, "client")
        .about(
            "Sends each line of standard input as a stanza over BOSH, and writes each stanza that comes as a line",
        )
        .version(VERSION)
        .arg(port)?
        .arg(to)?
        .arg(rid)?
        .arg(wait)?
        .arg(hold)
}

/// Reads the words, of which the first is the command's. The only error is want of memory.
pub fn read_client_options(alloc: Global, words: &[String]) -> Result<Asked, AllocError>
    ensures options { IfOk result (λ asked. options_asked asked ≡ client_in (map (λ word. string_bytes word) words.now)) }
    ensures fit { IfOk result AskedFit }
    ensures shows { IfOk result (λ asked. ShowsWhatIsAsked (client_faults (map (λ word. string_bytes word) words.now)) (shows_text asked)) }
{
    let command = client_command(alloc)?;
    match command.try_get_matches_from(words) {
        Ok(matches) => asked_by(alloc, &matches),
        Err(error) => without_matches(alloc, &error),
    }
}

fn without_matches(alloc: Global, error: &Error) -> Result<Asked, AllocError>
    ensures none { IfOk result (λ asked. options_asked asked ≡ None) }
    ensures mistake { IfOk result (λ _. kind_of error.now ≢ ErrorKind.OutOfMemory) }
    ensures fit { IfOk result AskedFit }
    ensures shows { IfOk result (λ asked. shows_text asked ≡ true → (kind_of error.now ≡ ErrorKind.DisplayHelp) ⊎ (kind_of error.now ≡ ErrorKind.DisplayVersion)) }
    ensures shown { IfOk result (λ asked. (kind_of error.now ≡ ErrorKind.DisplayHelp) ⊎ (kind_of error.now ≡ ErrorKind.DisplayVersion) → shows_text asked ≡ true) }
{
    match error.kind() {
        ErrorKind::OutOfMemory => Err(AllocError),
        ErrorKind::DisplayHelp | ErrorKind::DisplayVersion => {
            Ok(Asked::Shown(format!(in alloc; "{error}")?))
        }
        _ => Ok(Asked::Nothing),
    }
}

fn asked_by(alloc: Global, matches: &ArgMatches<'_>) -> Result<Asked, AllocError>
    ensures options { IfOk result (λ asked. options_asked asked ≡ client_of (λ id. first_value (found_of matches.now) id)) }
    ensures fit { IfOk result AskedFit }
    ensures shows { IfOk result (λ asked. shows_text asked ≡ false) }
{
    let port = number(matches.get_str("port"), 1, u32::from(u16::MAX));
    let to = match host_in(alloc, matches.get_str("to")) {
        Ok(to) => to,
        Err(AllocError) => return Err(AllocError),
    };
    let first = first_in(matches.get_str("rid"));
    let wait = number(matches.get_str("wait"), 0, WAIT);
    let hold = number(matches.get_str("hold"), 0, HOLD);
    Ok(asked_with(client_from(port, to, first, wait, hold)))
}

fn asked_with(options: Option<ClientOptions>) -> Asked
    requires { IfSome options Fits }
    ensures options { options_asked result ≡ options }
    ensures fit { AskedFit result }
    ensures shows { shows_text result ≡ false }
{
    match options {
        Some(options) => Asked::Run(options),
        None => Asked::Nothing,
    }
}

fn client_from(
    port: Option<u32>,
    to: Option<Text>,
    first: Option<First>,
    wait: Option<u32>,
    hold: Option<u32>,
) -> Option<ClientOptions>
    requires port { IfSome port (λ port. port ≤ 65535) }
    requires to { IfSome to (λ to. is_host to ≡ true) }
    requires wait { IfSome wait (λ wait. wait ≤ 120) }
    requires hold { IfSome hold (λ hold. hold ≤ 4) }
    ensures options { result ≡ client_from port to first wait hold }
    ensures fit { IfSome result Fits }
{
    let port = port?;
    let to = to?;
    let first = first?;
    let wait = wait?;
    let hold = hold?;
    Some(ClientOptions {
        port: port as u16,
        to,
        first,
        wait,
        hold,
    })
}

// A copy of the text, where it can be the name of a host. The only error is want of memory.
fn host_in(alloc: Global, text: Option<&str>) -> Result<Option<Text>, AllocError>
    ensures host { IfOk result (λ to. to ≡ host_in (option_map (λ text. text.now) text.entry)) }
    ensures fits { IfOk result (λ to. IfSome to (λ to. is_host to ≡ true)) }
{
    let text = match text {
        Some(text) => text.as_bytes(),
        None => return Ok(None),
    };
    if !is_host(text) {
        return Ok(None);
    }
    let copy = Vec::from_slice(alloc, text)?;
    Ok(Some(Text::from_vec(copy)))
}

fn is_host(text: &[u8]) -> bool
    ensures { result ≡ is_host text.now }
{
    text.len() <= HOST_BYTES && is_allowed_text(text)
}

fn first_in(text: Option<&str>) -> Option<First>
    ensures { result ≡ first_in (option_map (λ text. text.now) text.entry) }
{
    let text = match text {
        Some(text) => text,
        None => return Some(First::Drawn),
    };
    match Rid::read(text.as_bytes()) {
        Some(rid) => Some(First::Given(rid)),
        None => None,
    }
}

/// What the parser of words says is wrong with them, where it finds a fault. The only error is want of memory.
pub(crate) fn parser_says(alloc: Global, words: &[String]) -> Result<Option<String>, AllocError> {
    match client_command(alloc)?.try_get_matches_from(words) {
        Ok(_) => Ok(None),
        Err(error) => Ok(Some(format!(in alloc; "{error}")?)),
    }
}
