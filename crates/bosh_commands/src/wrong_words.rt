// What is told to a person whose words are no command.
ghost use Rattle.std.specs.Prelude.{◌≡◌};
ghost use Rattle.bosh_commands.specs.WrongWords.{mistake_of, one_word_mistake};

use crate::{client_options, options};
use std::alloc::{AllocError, Global};

/// What is wrong with words that are no command. Of words that are a command it is what would be looked at first.
#[derive(Clone, Copy, Debug, PartialEq, Eq)]
pub enum Mistake {
    /// There is no word.
    NoCommand,
    /// The first word names no command.
    NoSuchCommand,
    /// `drive`, `pair` and `audit` stand alone: their script, or trace, is standard input.
    ScriptStandsAlone,
    /// `load` takes one number.
    LoadTakesANumber,
    /// `keep` takes the name of a file.
    KeepTakesAFile,
    /// `--help` and `--version` stand alone.
    QuestionStandsAlone,
    /// The options of `serve`.
    ServeOptions,
    /// The options of `client`.
    ClientOptions,
}

/// What is wrong with these words, which leave out the program's own name, by the first of them.
pub fn mistake_in(words: &[String]) -> Mistake
    ensures { result ≡ mistake_of words.now }
{
    match words {
        [] => Mistake::NoCommand,
        [first, ..] => mistake_at(first.as_bytes()),
    }
}

#[tactic(auto, unfolding(crate::specs::WrongWords::one_word_mistake))]
fn mistake_at(first: &[u8]) -> Mistake
    ensures { result ≡ one_word_mistake first.now }
{
    if first == b"drive".as_slice() {
        return Mistake::ScriptStandsAlone;
    }
    if first == b"pair".as_slice() {
        return Mistake::ScriptStandsAlone;
    }
    if first == b"audit".as_slice() {
        return Mistake::ScriptStandsAlone;
    }
    if first == b"load".as_slice() {
        return Mistake::LoadTakesANumber;
    }
    if first == b"keep".as_slice() {
        return Mistake::KeepTakesAFile;
    }
    if first == b"serve".as_slice() {
        return Mistake::ServeOptions;
    }
    if first == b"client".as_slice() {
        return Mistake::ClientOptions;
    }
    if first == b"--help".as_slice() {
        return Mistake::QuestionStandsAlone;
    }
    if first == b"--version".as_slice() {
        return Mistake::QuestionStandsAlone;
    }
    Mistake::NoSuchCommand
}

const USAGE: &str = "usage: robelava serve|client|drive|keep|pair|load|audit, or --help\n";

const SERVE_BOUNDS: &str =
    "robelava serve: --port is from 1 to 65535, --workers from 1 to 64, --connections from 0 to 1048576,\n--sessions from 1 to 65536, --openings from 1 to 4294967295, --open from 1 to 1048576, --incoming from 1048576 to 1099511627776,\n--journal-limit from 65536 to 1099511627776, --gap-waits from 1 to 10, --xmpp-port from 1 to 65535, --xmpp a domain of 1 to 1023 bytes that is no test host, up to eight, each once\nrobelava serve --help says more\n";

const CLIENT_BOUNDS: &str =
    "robelava client: --port is from 1 to 65535, --to a host's name of 1 to 1023 bytes, --rid from 1 to 9007199254740991, --wait from 0 to 120, --hold from 0 to 4\nrobelava client --help says more\n";

/// What is wrong with words that are no command, and how they are meant: two or three lines, each with its line feed, for a
/// person at a terminal. The only error is want of memory.
pub fn wrong_words_text(alloc: Global, words: &[String]) -> Result<String, AllocError> {
    match mistake_in(words) {
        Mistake::NoCommand => format!(in alloc; "robelava: a command is wanted\n{USAGE}"),
        Mistake::NoSuchCommand => {
            let first = words.first().map_or("", String::as_str);
            format!(in alloc; "robelava: '{first}' is no command\n{USAGE}")
        }
        Mistake::ScriptStandsAlone => {
            format!(in alloc;
                "robelava: a script, or a trace, is read from standard input, and the command stands alone\n{USAGE}"
            )
        }
        Mistake::LoadTakesANumber => {
            format!(in alloc;
                "robelava: load takes one number, from 0 to 18446744073709551615\n{USAGE}"
            )
        }
        Mistake::KeepTakesAFile => {
            format!(in alloc;
                "robelava: keep takes the name of a file, and reads a script from standard input\n{USAGE}"
            )
        }
        Mistake::QuestionStandsAlone => {
            format!(in alloc; "robelava: --help and --version stand alone\n{USAGE}")
        }
        Mistake::ServeOptions => match options::parser_says(alloc, words)? {
            Some(text) => Ok(text),
            None => String::from_str(alloc, SERVE_BOUNDS),
        },
        Mistake::ClientOptions => match client_options::parser_says(alloc, words)? {
            Some(text) => Ok(text),
            None => String::from_str(alloc, CLIENT_BOUNDS),
        },
    }
}
